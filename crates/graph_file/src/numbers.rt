//! Numbers in the words of a line.
ghost use Rattle.std.specs.Prelude.{◌≡◌, ◌≤◌, ◌<◌, ◌^◌, ◌==◌, ◌∷◌, not, min, map, length, drop, IfOk, IfSome, option_map};
ghost use Rattle.std.specs.List.{list_all, position_or_len};
ghost use Rattle.std.specs.Char.{is_ascii_digit};
ghost use Rattle.ratfun_text.specs.Bytes as spec_bytes;
ghost use Rattle.ratfun_text.specs.Bytes.{number_of};
ghost use Rattle.graph_file.specs.Digits.{comes_before as comes_before_by};
ghost use Rattle.graph_file.specs.Line as spec;

use ratfun_text::bytes::number;
use sqlite_items::Items;
use std::alloc::{AllocError, Global};

/// The greatest size of an order that is kept, which is that of the greatest `i32`.
const ORDER_SIZE: u128 = 2147483647;

fn are_digits(bytes: &[u8]) -> bool
    ensures { result ≡ list_all is_ascii_digit bytes.now }
{
    bytes.iter().all(|byte| byte.is_ascii_digit())
}

fn is_digits(text: &[u8]) -> bool
    ensures { result ≡ spec_bytes.is_digits text.now }
{
    match text {
        [] => false,
        [_, ..] => are_digits(text),
    }
}

/// The number that the text writes, or this greatest one where it is greater.
#[tactic(auto, using(crate::proofs::Capped::capped_narrow, crate::proofs::Capped::capped_wide))]
fn capped(text: &[u8], greatest: u128) -> Option<u128>
    ensures value { result ≡ option_map (λ n. min n greatest) (number_of text.now) }
    ensures within { IfSome result (λ n. n ≤ greatest) }
{
    if !is_digits(text) {
        return None;
    }
    match number(text) {
        Some(value) if value < greatest => Some(value),
        _ => Some(greatest),
    }
}

/// The entry of a point that the word writes.
pub fn entry(word: &[u8]) -> Option<u64>
    ensures { result ≡ spec.entry_of word.now }
{
    let entry = capped(word, u128::from(u64::MAX))?;
    Some(entry as u64)
}

/// The bound for numerators or denominators that the word writes.
pub fn wide(word: &[u8]) -> Option<u128>
    ensures { result ≡ spec.wide_of word.now }
{
    capped(word, u128::MAX)
}

/// The position, the number of rows, columns or unknowns, or the number of an unknown that the word writes.
pub fn size(word: &[u8]) -> Option<u32>
    ensures { result ≡ spec.size_of word.now }
{
    let size = capped(word, u128::from(u32::MAX))?;
    Some(size as u32)
}

/// The order of an expansion that the word writes: a number, or `-` directly followed by one.
pub fn order(word: &[u8]) -> Option<i32>
    ensures { result ≡ spec.order_of word.now }
{
    match word {
        [b'-', digits @ ..] => {
            let size = capped(digits, ORDER_SIZE)?;
            Some(-(size as i32))
        }
        _ => {
            let size = capped(word, ORDER_SIZE)?;
            Some(size as i32)
        }
    }
}

/// The numbers of unknowns that the words write.
pub fn sizes(alloc: Global, words: &[&[u8]]) -> Result<Option<Items<u32>>, AllocError>
    ensures { IfOk result (λ sizes. sizes ≡ spec.all_of (map spec.size_of (map (λ word. word.now) words.now))) }
{
    let mut all = Items::new(alloc);
    for word in words {
        let Some(size) = size(word) else {
            return Ok(None);
        };
        all.push(size)?;
    }
    Ok(Some(all))
}

fn leading_zeros(digits: &[u8]) -> usize
    ensures within { result ≤ length digits.now }
    ensures value { result ≡ position_or_len (λ digit. not (digit == 48)) digits.now }
{
    digits
        .iter()
        .position(|digit| *digit != b'0')
        .unwrap_or(digits.len())
}

/// The digits from the first one on that isn't 0.
fn significant(digits: &[u8]) -> &[u8]
    ensures { result.now ≡ drop (position_or_len (λ digit. not (digit == 48)) digits.now) digits.now }
{
    &digits[leading_zeros(digits)..]
}

/// Whether the first place at which the digits differ has the smaller one in the first.
fn comes_before(first: &[u8], second: &[u8]) -> bool
    requires { length first.now ≡ length second.now }
    ensures { result ≡ comes_before_by first.now second.now }
{
    for place in 0..first.len() {
        if first[place] != second[place] {
            return first[place] < second[place];
        }
    }
    false
}

/// Whether both words write numbers, and the first is less, however many digits they have.
fn are_less(first: &[u8], second: &[u8]) -> bool
    ensures { result ≡ spec.are_less (number_of first.now) (number_of second.now) }
{
    if !is_digits(first) {
        return false;
    }
    if !is_digits(second) {
        return false;
    }
    let first = significant(first);
    let second = significant(second);
    if first.len() != second.len() {
        return first.len() < second.len();
    }
    comes_before(first, second)
}

/// Whether each of the later words writes a greater number than the word before it.
fn ascend_from(first: &[u8], later: &[&[u8]]) -> bool
    ensures { result ≡ spec.are_ascending (first.now ∷ map (λ word. word.now) later.now) }
{
    let mut before = first;
    for word in later {
        if !are_less(before, word) {
            return false;
        }
        before = *word;
    }
    true
}

/// Whether each of the words but the first writes a greater number than the word before it.
pub fn are_ascending(words: &[&[u8]]) -> bool
    ensures { result ≡ spec.are_ascending (map (λ word. word.now) words.now) }
{
    let [first, later @ ..] = words else {
        return true;
    };
    ascend_from(first, later)
}

/// The entries that the words write.
pub fn entries(alloc: Global, words: &[&[u8]]) -> Result<Option<Items<u64>>, AllocError>
    ensures { IfOk result (λ entries. entries ≡ spec.all_of (map spec.entry_of (map (λ word. word.now) words.now))) }
{
    let mut all = Items::new(alloc);
    for word in words {
        let Some(entry) = entry(word) else {
            return Ok(None);
        };
        all.push(entry)?;
    }
    Ok(Some(all))
}
