//! Names of arguments.
ghost use Rattle.std.specs.Prelude.{◌≡◌, ◌+◌, ◌<◌, ◌^◌, IfOk, IfSome, bytes_eq, length, option_map, position};
ghost use Rattle.std.specs.Hash as fed;
ghost use Rattle.std.specs.Cmp.{partial_equiv_from_equiv};
ghost use Rattle.std.specs.Cmp.Lexicographic.{nat_list_eq_equiv};
ghost use Rattle.ratfun_text.specs.Bytes.{number_below};
ghost use Rattle.ratfun_text.specs.Names.{argument_of, names_of, number_behind_z};
ghost use Rattle.ratfun_text.specs.Keys.{equal_bytes_feed_alike};

use crate::bytes::number;
use sqlite_items::Items;
use std::alloc::{AllocError, Global};
use std::hash::{Hash, Hasher};
use std::marker::Model;

/// The greatest number of a numbered name.
const LAST_NUMBERED: u128 = 262144;

/// The one refusal of a call that needs memory and nothing else.
pub type NoMemory = AllocError;

/// A name, which contracts see as the list of its bytes.
#[derive(Drop)]
pub struct Name {
    bytes: Items<u8>,
}

impl Model for Name {
    ghost use Rattle.std.specs.Prelude.{ℕ, List};

    ghost Value = { List ℕ };

    ghost view = { λ name. name.bytes };
}

impl Name {
    /// The name with these bytes.
    pub fn of(alloc: Global, bytes: &[u8]) -> Result<Name, NoMemory>
        ensures { IfOk result (λ name. name ≡ bytes.now) }
    {
        let bytes = Items::from_slice(alloc, bytes)?;
        Ok(Name { bytes })
    }

    /// The bytes of the name.
    pub fn bytes(&self) -> &[u8]
        ensures { result.now ≡ self.now }
    {
        self.bytes.as_slice()
    }
}

/// Names are equal where their bytes are.
impl PartialEq for Name {
    ghost eq = { bytes_eq };

    ghost laws = { partial_equiv_from_equiv nat_list_eq_equiv };

    fn eq(&self, other: &Name) -> bool {
        self.bytes() == other.bytes()
    }
}

impl Eq for Name {
    ghost laws = { nat_list_eq_equiv };
}

/// The hash of a name is that of its bytes.
impl Hash for Name {
    ghost hash_input = { fed.slice fed.u8 };

    ghost respects_eq = { equal_bytes_feed_alike };

    fn hash<H: Hasher>(&self, state: &mut H) {
        self.bytes().hash(state);
    }
}

/// The names that an expression may use, each the name of the argument at its place, counted from 1.
#[derive(Drop)]
pub enum Names {
    /// The names in order.
    Listed(Items<Name>),
    /// The names `z1` to `z262144`, each of the argument with its number.
    Numbered,
}

impl Names {
    /// The argument that a name stands for, counted from 1.
    pub(crate) fn argument(&self, name: &[u8]) -> Option<u32>
        requires { length (names_of self.now) < 2 ^ 32 }
        ensures { result ≡ argument_of self.now name.now }
    {
        match self {
            Names::Listed(names) => place(names.as_slice(), name),
            Names::Numbered => number_behind_z(name),
        }
    }
}

fn index(names: &[Name], name: &[u8]) -> Option<usize>
    ensures place { result ≡ position (λ other. bytes_eq other name.now) names.now }
    ensures within { IfSome result (λ place. place < length names.now) }
{
    names.iter().position(|other| other.bytes() == name)
}

/// The place of a name in the list, counted from 1.
fn place(names: &[Name], name: &[u8]) -> Option<u32>
    requires { length names.now < 2 ^ 32 }
    ensures { result ≡ option_map (λ place. place + 1) (position (λ other. bytes_eq other name.now) names.now) }
{
    let place = index(names, name)?;
    Some(place as u32 + 1)
}

/// The number that the digits write, where it is at most the greatest of the numbered names.
fn number_of_argument(digits: &[u8]) -> Option<u32>
    ensures { result ≡ number_below 262145 digits.now }
{
    let number = number(digits)?;
    if number > LAST_NUMBERED {
        return None;
    }
    Some(number as u32)
}

/// The number that stands behind a `z` with no zero in front.
fn number_behind_z(name: &[u8]) -> Option<u32>
    ensures { result ≡ number_behind_z name.now }
{
    match name {
        [b'z', b'0', ..] => None,
        [b'z', digits @ ..] => number_of_argument(digits),
        _ => None,
    }
}
