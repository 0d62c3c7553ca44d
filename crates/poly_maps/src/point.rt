ghost use Rattle.std.specs.Prelude.{◌≡◌, length};
ghost use Rattle.poly_maps.specs.Point.{IsPoint, padded};

use std::marker::Model;

/// A point of the variables' space: 1 to 8 entries, each below 2^61 - 1, so that an entry is a
/// residue of both moduli.
#[derive(Clone, Copy)]
pub struct Point {
    entries: [u64; 8],
    count: usize,
}

impl Model for Point {
    ghost use Rattle.std.specs.Prelude.{ℕ, List, length, take, ◌≡◌};
    ghost use Rattle.std.specs.Coded.{coded_list, coded_ℕ};
    ghost use Rattle.poly_maps.specs.Point.{padded, IsStored};

    ghost Value = { List ℕ };

    ghost view = { λ p. take p.count p.entries };

    ghost invariant = { λ p. IsStored p.entries p.count };

    ghost inverse = { λ v. record { entries = padded v; count = length v } };
}

impl Point {
    /// The point with these entries.
    pub fn of(entries: &[u64]) -> Point
        requires { IsPoint entries.now }
        ensures { result ≡ entries.now }
    {
        let mut all = [0; 8];
        let count = entries.len();
        all[..count].copy_from_slice(entries);
        Point {
            entries: all,
            count,
        }
    }

    /// The point's entries in the order of the variables.
    pub fn entries(&self) -> &[u64]
        ensures value { result.now ≡ self.now }
        ensures point { IsPoint self.now }
    {
        &self.entries[..self.count]
    }

    /// The entries of all eight variables, those that the point doesn't have being 0.
    pub(crate) fn all_entries(&self) -> &[u64; 8]
        ensures value { result.now ≡ padded self.now }
        ensures point { IsPoint self.now }
    {
        &self.entries
    }
}
