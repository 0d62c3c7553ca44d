//! Numbers as text.

ghost use Rattle.std.specs.Prelude.{◌≡◌, ◌++◌, ◌∷◌, map, OnOk};
ghost use Rattle.std.specs.List.{flat_map, join_with_byte};
ghost use Rattle.std.specs.Fmt.{decimal};

use itoa::Buffer;
use std::alloc::AllocError;

/// Writes a number in decimal behind the text.
pub(crate) fn push_number(text: &mut Vec<u8>, number: u64) -> Result<(), AllocError>
    ensures { OnOk result (text.new.items ≡ text.old.items ++ decimal number) }
{
    let mut buffer = Buffer::new();
    text.extend_from_slice(buffer.format(number).as_bytes())?;
    Ok(())
}

/// Writes the number in decimal behind the text, and these bytes before it.
pub(crate) fn push_numbered(
    text: &mut Vec<u8>,
    before: &[u8],
    number: u64,
) -> Result<(), AllocError>
    ensures { OnOk result (text.new.items ≡ text.old.items ++ (before.now ++ decimal number)) }
{
    text.extend_from_slice(before)?;
    push_number(text, number)
}

/// Writes residues in decimal behind the text, with a space before each.
fn push_further(text: &mut Vec<u8>, residues: &[u64]) -> Result<(), AllocError>
    ensures { OnOk result (text.new.items ≡ text.old.items ++ flat_map (λ residue. 32 ∷ decimal residue) residues.now) }
{
    for residue in residues {
        text.push(b' ')?;
        push_number(text, *residue)?;
    }
    Ok(())
}

/// Writes residues in decimal behind the text, with one space between each two.
#[tactic(auto, using(crate::proofs::JoinLaws::joined_at))]
pub(crate) fn push_residues(text: &mut Vec<u8>, residues: &[u64]) -> Result<(), AllocError>
    ensures { OnOk result (text.new.items ≡ text.old.items ++ join_with_byte 32 (map decimal residues.now)) }
{
    match residues {
        [] => Ok(()),
        [first, rest @ ..] => {
            push_number(text, *first)?;
            push_further(text, rest)?;
            Ok(())
        }
    }
}
