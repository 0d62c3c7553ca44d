//! Lists of terms in the order that a polynomial keeps.

ghost use Rattle.std.specs.Prelude.{◌≡◌, ◌+◌, ◌<◌, ◌++◌, All, OnOk, OnErr, IfOk, IfErr};
ghost use Rattle.prime_field.specs.Modulus.{value_of};
ghost use Rattle.poly_maps.specs.Mono.{degree};
ghost use Rattle.poly_maps.specs.Polynomial.{term_times, reduced, AreResidues, Descends, IsPolynomial};
ghost use Rattle.poly_maps.specs.Places.{IsThere, BelongsAt, AddsTerm};

use crate::{Mono, NoMemory};
use prime_field::Modulus;

/// The place of the monomial among the terms, or the place where its term belongs.
pub(crate) fn place<C>(terms: &[(Mono, C)], mono: &Mono) -> Result<usize, usize>
    requires { Descends terms.now }
    ensures there { IfOk result (IsThere terms.now mono.now) }
    ensures belongs { IfErr result (BelongsAt terms.now mono.now) }
{
    terms.binary_search_by(|term| mono.cmp(&term.0))
}

/// Adds the residue `c` to the coefficient of `mono`. Where memory runs out, the terms stay as they were.
pub(crate) fn add(
    terms: &mut Vec<(Mono, u64)>,
    m: Modulus,
    mono: Mono,
    c: u64,
) -> Result<(), NoMemory>
    requires polynomial { IsPolynomial terms.old.items }
    requires residues { AreResidues (value_of m) terms.old.items }
    requires residue { c < value_of m }
    ensures ok { OnOk result (AddsTerm (value_of m) terms.old.items terms.new.items mono c) }
    ensures err { OnErr result (terms.new.items ≡ terms.old.items) }
{
    // A monomial has eight exponents; the invariant of the terms asks it.
    let _exponents = mono.exponents();
    match place(terms, &mono) {
        Ok(place) => {
            let sum = m.add(terms[place].1, c);
            if sum == 0 {
                terms.remove(place);
            } else {
                terms[place] = (mono, sum);
            }
        }
        Err(place) => {
            if c != 0 {
                terms.insert(place, (mono, c))?;
            }
        }
    }
    Ok(())
}

/// Appends the products of one term with each of the others.
pub(crate) fn push_products(
    products: &mut Vec<(Mono, u64)>,
    m: Modulus,
    term: &(Mono, u64),
    others: &[(Mono, u64)],
) -> Result<(), NoMemory>
    requires degrees { All (λ other. degree term.now.0 + degree other.0 < 65536) others.now }
    requires left { term.now.1 < value_of m }
    requires right { AreResidues (value_of m) others.now }
    ensures { OnOk result (products.new.items ≡ products.old.items ++ reduced (value_of m) (term_times term.now others.now)) }
{
    for other in others {
        products.push((term.0.times(&other.0), m.mul(term.1, other.1)))?;
    }
    Ok(())
}
