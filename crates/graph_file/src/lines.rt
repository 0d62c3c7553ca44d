ghost use Rattle.std.specs.Prelude.{◌≡◌, ◌+◌, ◌≤◌, ◌==◌, not, ◌∷◌, length, IfOk, map, take, position};
ghost use Rattle.std.specs.List.{list_all, position_or_len, slice_split};
ghost use Rattle.graph_file.specs.Lines as spec;
ghost use Rattle.graph_file.specs.Lines.{lines, kept};
ghost use Rattle.graph_file.specs.Cut.{pieces_behind, size_behind};
ghost use Rattle.ratfun_text.specs.Bytes as spec_bytes;

use ratfun_text::bytes::{is_blank, trim};
use std::alloc::{AllocError, Global};

/// Whether the line has blanks alone, or `#` as its first byte that is no blank.
pub fn is_passed_over(line: &[u8]) -> bool
    ensures { result ≡ spec.is_passed_over line.now }
{
    match trim(line) {
        [] => true,
        [first, ..] => *first == b'#',
    }
}

/// Whether each byte of the line may stand in a line that counts.
pub fn is_plain(line: &[u8]) -> bool
    ensures { result ≡ spec.is_plain line.now }
{
    line.iter()
        .all(|byte| is_blank(*byte) || (b' ' < *byte && *byte < 0x7f))
}

fn place_of(bytes: &[u8], at: u8) -> Option<usize>
    ensures { result ≡ position (λ byte. byte == at) bytes.now }
{
    bytes.iter().position(|byte| *byte == at)
}

/// What stands before the first byte `at`, and what stands behind it where there is one.
pub fn cut(bytes: &[u8], at: u8) -> (&[u8], Option<&[u8]>)
    ensures pieces { slice_split (λ byte. byte == at) bytes.now ≡ result.0.now ∷ pieces_behind at result.1 }
    ensures shorter { size_behind result.1 ≤ length bytes.now }
    ensures within { length result.0.now ≤ length bytes.now }
{
    match place_of(bytes, at) {
        None => (bytes, None),
        Some(place) => (&bytes[..place], Some(&bytes[place + 1..])),
    }
}

/// The words of the line: the longest runs of bytes that aren't blanks.
pub fn words<'a>(alloc: Global, line: &'a [u8]) -> Result<Vec<&'a [u8]>, AllocError>
    ensures { IfOk result (λ all. map (λ word. word.now) all.items ≡ spec.words line.now) }
{
    line.split(|byte| is_blank(*byte))
        .filter(|word| !word.is_empty())
        .collect(alloc)
}

fn word_start(line: &[u8]) -> usize
    ensures within { result ≤ length line.now }
    ensures value { result ≡ position_or_len (λ byte. not (spec_bytes.is_blank byte)) line.now }
{
    line.iter()
        .position(|byte| !is_blank(*byte))
        .unwrap_or(line.len())
}

fn word_end(line: &[u8]) -> usize
    ensures within { result ≤ length line.now }
    ensures value { result ≡ position_or_len spec_bytes.is_blank line.now }
{
    line.iter()
        .position(|byte| is_blank(*byte))
        .unwrap_or(line.len())
}

/// What follows the first word of the line.
fn after_word(line: &[u8]) -> &[u8]
    ensures { result.now ≡ spec.after_word line.now }
{
    let line = &line[word_start(line)..];
    &line[word_end(line)..]
}

/// What follows the first words of the line, as many as `count`.
pub fn after_words(line: &[u8], count: u32) -> &[u8]
    ensures { result.now ≡ spec.after_words count line.now }
{
    let mut rest = line;
    for _turn in 0..count {
        rest = after_word(rest);
    }
    rest
}
