//! How many monomials bounds have.

ghost use Rattle.std.specs.Prelude.{◌≡◌, ◌≤◌, ◌↔◌, IsTrue, min};
ghost use Rattle.ray_grid.specs.Covering.{HasFew, exponent_count};

use poly_maps::Bounds;

/// The most monomials that numerator and denominator may have together.
const MOST_MONOMIALS: u32 = 1024;

/// Whether numerator and denominator have at most 1024 monomials together, as [`fit`] asks. It counts no further.
pub fn has_few(bounds: &Bounds, variables: u32) -> bool
    requires { variables ≤ 8 }
    ensures { IsTrue result ↔ HasFew bounds.now variables }
{
    let used = variables as usize;
    let most = MOST_MONOMIALS + 1;
    let nums = count_exponents(&bounds.num.each[..used], bounds.num.total, most);
    let dens = count_exponents(&bounds.den.each[..used], bounds.den.total, most);
    nums + dens <= MOST_MONOMIALS
}

/// How many lists of exponents, each at most its entry, add up to `left` at most; `most` where they are more.
fn count_exponents(entries: &[u32], left: u32, most: u32) -> u32
    requires { most ≤ 1025 }
    ensures { result ≡ min most (exponent_count entries.now left) }
{
    let [entry, others @ ..] = entries else {
        return most.min(1);
    };
    let mut count = 0;
    for k in 0..left.min(*entry) as u64 + 1 {
        count += count_exponents(others, left - k as u32, most - count);
        if count == most {
            return count;
        }
    }
    count
}
