//! Rows in slots: each row begins at the place of its slot with 1, and is kept from there to its end, with its right side in
//! place of the 1.

ghost use Rattle.std.specs.Prelude.{◌≡◌, ◌≢◌, ℕ, ◌+◌, ◌-◌, ◌*◌, ◌%◌, ◌<◌, ◌≤◌, ◌↔◌, length, slice_index, IfSome, IfNone, IsTrue};
ghost use Rattle.std.specs.Bool.{OnTrue, OnFalse};
ghost use Rattle.prime_field.specs.Modulus.{value_of};
ghost use Rattle.prime_field.specs.Residue.{IsPrime};
ghost use Rattle.elim_core.specs.Rows.{AllMet, Meets, HasInserted};
ghost use Rattle.elim_core.specs.Multiples.{AreSlots, entry_in};
ghost use Rattle.elim_core.specs.Layout.{entry, IsLaidOut, IsRow, IsSpan, IsCleared, KeepsUsed, IsLead, RowSays};

use crate::Rank;
use crate::group::{begin_group, end_of_run, finish_group};
use crate::slots::Slots;
use crate::span::write_multiple;
use prime_field::{ByFirst, BySecond, Field, Modulus};

/// Where a row begins and where it ends.
#[derive(Clone, Copy)]
pub struct Lead {
    /// No entry before this place differs from 0.
    pub place: usize,
    /// The entries from here on are 0, but for the right side.
    pub end: usize,
}

/// Takes the row that is kept where `row` begins from it, and those in the next slots too as far as they are wanted. Answers
/// where it ends then.
fn advance<F: Field>(field: F, slots: Slots, row: &mut [u64], lead: Lead) -> usize
    requires slots { AreSlots F.modulus slots }
    requires row { IsRow F.modulus slots.unknowns row.old }
    requires place { lead.place < slots.unknowns }
    requires end { lead.end ≤ slots.unknowns }
    requires used { slice_index slots.ends.now lead.place ≢ 0 }
    requires span { IsSpan slots.unknowns row.old lead.place lead.end }
    ensures row { IsRow F.modulus slots.entry.unknowns row.new }
    ensures end { result ≤ slots.entry.unknowns }
    ensures span { IsSpan slots.entry.unknowns row.new (lead.place + 1) result }
    ensures met { (z : ℕ → ℕ) → AllMet F.modulus slots.entry.unknowns (entry_in slots.entry) z →
        (Meets F.modulus slots.entry.unknowns (slice_index row.new) z
        ↔ Meets F.modulus slots.entry.unknowns (slice_index row.old) z) }
{
    let to = end_of_run(slots, lead.place);
    let group = begin_group(field, slots, row, lead.place, to, lead.end);
    finish_group(field, slots, lead.place, &group, row, to);
    group.end
}

/// Takes kept rows from `row` until it begins where no row is kept, or is 0 but for its right side.
fn reduce_in<F: Field>(field: F, slots: Slots, row: &mut [u64], span: Lead) -> Option<Lead>
    requires slots { AreSlots F.modulus slots }
    requires row { IsRow F.modulus slots.unknowns row.old }
    requires end { span.end ≤ slots.unknowns }
    requires span { IsSpan slots.unknowns row.old span.place span.end }
    ensures row { IsRow F.modulus slots.entry.unknowns row.new }
    ensures met { (z : ℕ → ℕ) → AllMet F.modulus slots.entry.unknowns (entry_in slots.entry) z →
        (Meets F.modulus slots.entry.unknowns (slice_index row.new) z
        ↔ Meets F.modulus slots.entry.unknowns (slice_index row.old) z) }
    ensures some { IfSome result (λ l. IsLead slots.entry.unknowns slots.entry.ends.now row.new l) }
    ensures none { IfNone result ((k : ℕ) → k < slots.entry.unknowns → slice_index row.new k ≡ 0) }
{
    let mut place = span.place;
    let mut end = span.end;
    while place < end {
        if row[place] != 0 {
            if slots.ends[place] == 0 {
                return Some(Lead { place, end });
            }
            end = advance(field, slots, row, Lead { place, end });
        }
        place += 1;
    }
    None
}

/// Takes kept rows from `row` in the field of the modulus.
fn reduce(modulus: Modulus, slots: Slots, row: &mut [u64], span: Lead) -> Option<Lead>
    requires slots { AreSlots (value_of modulus) slots }
    requires row { IsRow (value_of modulus) slots.unknowns row.old }
    requires end { span.end ≤ slots.unknowns }
    requires span { IsSpan slots.unknowns row.old span.place span.end }
    ensures row { IsRow (value_of modulus) slots.entry.unknowns row.new }
    ensures met { (z : ℕ → ℕ) → AllMet (value_of modulus) slots.entry.unknowns (entry_in slots.entry) z →
        (Meets (value_of modulus) slots.entry.unknowns (slice_index row.new) z
        ↔ Meets (value_of modulus) slots.entry.unknowns (slice_index row.old) z) }
    ensures some { IfSome result (λ l. IsLead slots.entry.unknowns slots.entry.ends.now row.new l) }
    ensures none { IfNone result ((k : ℕ) → k < slots.entry.unknowns → slice_index row.new k ≡ 0) }
{
    match modulus {
        Modulus::First => reduce_in(ByFirst, slots, row, span),
        Modulus::Second => reduce_in(BySecond, slots, row, span),
    }
}

/// Writes `factor` times the row to the words from `start` on, between two places.
fn write_span(
    modulus: Modulus,
    rows: &mut [u64],
    start: usize,
    row: &[u64],
    from: usize,
    to: usize,
    factor: u64,
)
    requires order { from ≤ to }
    requires within { to ≤ length row.now }
    requires target { start + to ≤ length rows.old }
    requires factor_residue { factor < value_of modulus }
    requires row_residues { (k : ℕ) → k < length row.now → slice_index row.now k < value_of modulus }
    ensures room { length rows.new ≡ length rows.old }
    ensures inside { (k : ℕ) → from < k + 1 → k < to →
        slice_index rows.new (start + k) ≡ (factor * slice_index row.now k) % value_of modulus }
    ensures before { (i : ℕ) → i < start + from → slice_index rows.new i ≡ slice_index rows.old i }
    ensures after { (i : ℕ) → start + to ≤ i → slice_index rows.new i ≡ slice_index rows.old i }
{
    match modulus {
        Modulus::First => write_multiple(ByFirst, rows, start, row, from, to, factor),
        Modulus::Second => write_multiple(BySecond, rows, start, row, from, to, factor),
    }
}

/// Keeps the row in the slot where it begins, or answers false where its first entry has no inverse.
fn keep_row(
    modulus: Modulus,
    unknowns: usize,
    rows: &mut [u64],
    ends: &mut [u64],
    row: &[u64],
    lead: Lead,
) -> bool
    requires few { unknowns ≤ 4096 }
    requires laid_out { IsLaidOut (value_of modulus) unknowns rows.old ends.old }
    requires residues { IsRow (value_of modulus) unknowns row.now }
    requires lead { IsLead unknowns ends.old row.now lead }
    ensures laid_out { IsLaidOut (value_of modulus) unknowns rows.new ends.new }
    ensures keeps_used { KeepsUsed unknowns rows.old ends.old rows.new ends.new }
    ensures kept { OnTrue result (HasInserted (value_of modulus) unknowns (entry unknowns rows.old ends.old)
        (entry unknowns rows.new ends.new) (slice_index row.now) lead.place) }
    ensures used { OnTrue result (slice_index ends.new lead.place ≢ 0) }
    ensures refused { OnFalse result ((rows.new ≡ rows.old) × (ends.new ≡ ends.old)) }
    ensures prime { IsPrime (value_of modulus) → IsTrue result }
{
    match modulus.inv(row[lead.place]) {
        Some(inverse) => {
            let start = lead.place * (unknowns + 1);
            write_span(modulus, rows, start, row, lead.place + 1, lead.end, inverse);
            rows[start + lead.place] = modulus.mul(inverse, row[unknowns]);
            ends[lead.place] = lead.end as u64;
            true
        }
        None => false,
    }
}

/// Writes zeros between two places, and for the right side.
fn clear(unknowns: usize, row: &mut [u64], lead: Lead)
    requires room { length row.old ≡ unknowns + 1 }
    requires end { lead.end ≤ unknowns }
    requires span { IsSpan unknowns row.old lead.place lead.end }
    ensures { IsCleared unknowns row.new }
{
    for i in lead.place..lead.end {
        row[i] = 0;
    }
    row[unknowns] = 0;
}

/// Absorbs a row that is 0 outside of its span, and leaves zeros in its place.
pub fn absorb_row(
    modulus: Modulus,
    unknowns: usize,
    rows: &mut [u64],
    ends: &mut [u64],
    row: &mut [u64],
    span: Lead,
) -> Rank
    requires few { unknowns ≤ 4096 }
    requires laid_out { IsLaidOut (value_of modulus) unknowns rows.old ends.old }
    requires residues { IsRow (value_of modulus) unknowns row.old }
    requires end { span.end ≤ unknowns }
    requires span { IsSpan unknowns row.old span.place span.end }
    ensures laid_out { IsLaidOut (value_of modulus) unknowns rows.new ends.new }
    ensures keeps_used { KeepsUsed unknowns rows.old ends.old rows.new ends.new }
    ensures cleared { IsCleared unknowns row.new }
    ensures says { RowSays result (value_of modulus) unknowns (entry unknowns rows.old ends.old)
        (entry unknowns rows.new ends.new) (slice_index row.old) }
{
    let slots = Slots {
        unknowns,
        rows,
        ends,
    };
    match reduce(modulus, slots, row, span) {
        Some(lead) => {
            let is_kept = keep_row(modulus, unknowns, rows, ends, row, lead);
            clear(unknowns, row, lead);
            if is_kept {
                return Rank::New;
            }
            Rank::Contradiction
        }
        None => {
            let right = row[unknowns];
            row[unknowns] = 0;
            if right == 0 {
                return Rank::Same;
            }
            Rank::Contradiction
        }
    }
}
