//! The tokens of a text.
ghost use Rattle.std.specs.Prelude.{◌≡◌, ◌<◌, ◌≤◌, true, false, length, slice_index, take};
ghost use Rattle.std.specs.List.{list_all};
ghost use Rattle.ratfun_text.specs.Tokens.{goes_on, sign_of};

use crate::bytes::is_name_byte;

/// A token that is neither a number nor a name.
#[derive(Clone, Copy)]
pub enum Sign {
    /// `+`
    Plus,
    /// `-`
    Minus,
    /// `*`
    Times,
    /// `/`
    Over,
    /// `^`
    Caret,
    /// `(`
    Open,
    /// `)`
    Close,
}

/// The sign that the byte is.
pub fn sign_of(byte: u8) -> Option<Sign>
    ensures { result ≡ sign_of byte }
{
    match byte {
        b'+' => Some(Sign::Plus),
        b'-' => Some(Sign::Minus),
        b'*' => Some(Sign::Times),
        b'/' => Some(Sign::Over),
        b'^' => Some(Sign::Caret),
        b'(' => Some(Sign::Open),
        b')' => Some(Sign::Close),
        _ => None,
    }
}

/// Whether a token that begins with the first byte goes on with the other.
pub fn goes_on(first: u8, byte: u8) -> bool
    ensures { result ≡ goes_on first byte }
{
    if first.is_ascii_digit() {
        byte.is_ascii_digit()
    } else {
        first.is_ascii_alphabetic() && is_name_byte(byte)
    }
}

/// How many bytes from the front go on with a token that begins with the first byte.
pub fn run(first: u8, rest: &[u8]) -> usize
    ensures within { result ≤ length rest.now }
    ensures joined { list_all (goes_on first) (take result rest.now) ≡ true }
    ensures apart { result < length rest.now → goes_on first (slice_index rest.now result) ≡ false }
{
    let mut count = 0;
    while count < rest.len() && goes_on(first, rest[count]) {
        count += 1;
    }
    count
}
