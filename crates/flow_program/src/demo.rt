//! The file of the demo: a system whose unknowns stand in a tower of steps, each of which is told many times.

ghost use Rattle.std.specs.Prelude.{◌≡◌, ◌≤◌, ◌+◌, ◌-◌, ◌++◌, ◌∷◌, [], IfOk, OnOk, codes, length};
ghost use Rattle.std.specs.List.{flat_map, range_with_len};
ghost use Rattle.std.specs.Fmt.{decimal};
ghost use Rattle.flow_program.specs.Demo as spec;

use crate::printed::push_numbered;
use std::alloc::{AllocError, Global};

/// Writes the two entries of step `k`, times the factor, behind the text, with a separator before each.
fn push_pair(text: &mut Vec<u8>, k: u64, factor: u64) -> Result<(), AllocError>
    requires step { k ≤ 16 }
    requires factor { factor ≤ 64 }
    ensures { OnOk result (text.new.items ≡ text.old.items ++ spec.separated (spec.entries k factor)) }
{
    push_numbered(text, b" ; ", 2 * k * factor)?;
    push_numbered(text, b"*m ; -", factor)?;
    push_numbered(text, b"*(d-", 2 * k)?;
    text.push(b')')?;
    Ok(())
}

/// Writes the entries of step `k` with each of its factors behind the text, with a separator before each.
fn push_entries(text: &mut Vec<u8>, k: u64) -> Result<(), AllocError>
    requires { k ≤ 16 }
    ensures { OnOk result (text.new.items ≡ text.old.items ++ flat_map (λ factor. spec.separated (spec.entries k factor)) (range_with_len 1 64)) }
{
    for factor in 1..65 {
        push_pair(text, k, factor)?;
    }
    Ok(())
}

/// The entries of all steps, from the step `n` down to the step 1, with a separator before each.
fn separated_entries(alloc: Global, n: u64) -> Result<Vec<u8>, AllocError>
    requires { n ≤ 16 }
    ensures { IfOk result (λ text. text.items ≡ flat_map (λ place. flat_map (λ factor. spec.separated (spec.entries (n - place) factor)) (range_with_len 1 64)) (range_with_len 0 n)) }
{
    let mut text = Vec::new(alloc);
    for place in 0..n {
        push_entries(&mut text, n - place)?;
    }
    Ok(text)
}

/// Writes the row of the step at this place, counted from 1, behind the text.
fn push_row(text: &mut Vec<u8>, place: u64) -> Result<(), AllocError>
    requires { place ≤ 16 }
    ensures { OnOk result (text.new.items ≡ text.old.items ++ spec.ended_lines (spec.row_line place ∷ [])) }
{
    push_numbered(text, b"row ", place)?;
    push_numbered(text, b" ", place + 1)?;
    text.push(b'\n')?;
    Ok(())
}

/// Writes the rows of the step at this place, one for each factor, behind the text.
fn push_rows(text: &mut Vec<u8>, place: u64) -> Result<(), AllocError>
    requires { place ≤ 16 }
    ensures { OnOk result (text.new.items ≡ text.old.items ++ flat_map (λ factor. spec.ended_lines (spec.row_line place ∷ [])) (range_with_len 1 64)) }
{
    for _factor in 1..65_u64 {
        push_row(text, place)?;
    }
    Ok(())
}

/// Writes the rows of all steps behind the text.
fn push_all_rows(text: &mut Vec<u8>, n: u64) -> Result<(), AllocError>
    requires { n ≤ 16 }
    ensures { OnOk result (text.new.items ≡ text.old.items ++ flat_map (λ place. flat_map (λ factor. spec.ended_lines (spec.row_line (place + 1) ∷ [])) (range_with_len 1 64)) (range_with_len 0 n)) }
{
    for place in 0..n {
        push_rows(text, place + 1)?;
    }
    Ok(())
}

/// Writes the two lines behind the rows: the output, and the bounds.
fn push_last_lines(text: &mut Vec<u8>, n: u64) -> Result<(), AllocError>
    ensures { OnOk result (text.new.items ≡ text.old.items ++ spec.ended_lines (codes "output s" ∷ spec.bounds_line n ∷ [])) }
{
    push_numbered(text, b"output s\nbounds all num ", n)?;
    push_numbered(text, b" ", n)?;
    push_numbered(text, b" 0 den ", n)?;
    push_numbered(text, b" 0 ", n)?;
    text.push(b'\n')?;
    Ok(())
}

/// The bytes of the demo's file: a tower of `n` steps between two neighbouring unknowns each, every step 64 times with
/// different factors.
pub fn demo_file(alloc: Global, n: u32) -> Result<Vec<u8>, AllocError>
    requires some { 1 ≤ n }
    requires few { n ≤ 16 }
    ensures { IfOk result (λ file. file.items ≡ spec.demo_bytes n) }
{
    let size = u64::from(n);
    let entries = separated_entries(alloc, size)?;
    let mut file = Vec::from_slice(
        alloc,
        b"flow 1\ngraph main\ninput d m\nnode c eval input = ",
    )?;
    file.extend_from_slice(&entries[3..])?;
    push_numbered(&mut file, b"\nnode s sparse c ", size + 1)?;
    file.push(b'\n')?;
    push_all_rows(&mut file, size)?;
    push_last_lines(&mut file, size)?;
    Ok(file)
}
