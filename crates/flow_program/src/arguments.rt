//! The words after the program's name, as the system has them.

ghost use Rattle.std.specs.Prelude.{◌≡◌, ◌≤◌, ℕ, Err};

use crate::words::WordsError;
use std::alloc::{AllocError, Global};
use std::env::FillError;
use std::rt::Env;

/// The bytes of the argument with this number, where there is one.
fn argument<V: Env>(alloc: Global, env: &V, number: usize) -> Result<Option<Vec<u8>>, AllocError> {
    // An argument may have any length: each try has twice the room of the one before.
    for doublings in 8_u32..48 {
        let mut bytes = vec![in alloc; 0; 1 << doublings]?;
        match env.arg(number, &mut bytes) {
            Ok(length) => {
                bytes.truncate(length);
                return Ok(Some(bytes));
            }
            Err(FillError::NotPresent) => return Ok(None),
            Err(FillError::TooLong) => {}
        }
    }
    Err(AllocError)
}

/// The words after the program's name.
///
/// # Errors
/// `Bad` with the place, counted from 1, of the first word that isn't UTF-8: such words ask for nothing.
pub fn words_of<V: Env>(alloc: Global, env: &V) -> Result<Vec<String>, WordsError>
    ensures { (k : ℕ) → result ≡ Err (WordsError.Bad k) → 1 ≤ k }
{
    let mut words = Vec::new(alloc);
    for place in 1..usize::MAX {
        let Some(bytes) = argument(alloc, env, place)? else {
            break;
        };
        let Ok(word) = String::from_utf8(bytes) else {
            return Err(WordsError::Bad { word: place });
        };
        if words.push(word).is_err() {
            return Err(WordsError::NoMemory);
        }
    }
    Ok(words)
}
