//! Many inverses for the price of one: the inverse of the product of all is taken apart again.

ghost use Rattle.std.specs.Prelude.{◌≡◌, ◌*◌, ◌%◌, ◌<◌, ◌↔◌, All, EachIndex, IsTrue, length, slice_index};
ghost use Rattle.std.specs.Bool.{OnTrue, OnFalse};
ghost use Rattle.prime_field.specs.Inverses.{AreInverses};
ghost use Rattle.prime_field.specs.Modulus.{value_of};
ghost use Rattle.prime_field.specs.Product.{product_to};
ghost use Rattle.prime_field.specs.Residue.{IsUnit};

use crate::Modulus;

impl Modulus {
    /// Replaces each entry by its inverse and answers true, or answers false where some entry has none and leaves `xs`
    /// as it was.
    ///
    /// `scratch` is as long as `xs`; what it holds does not matter, and it is overwritten. The whole costs one inverse
    /// and three products an entry.
    pub fn inv_all(&self, xs: &mut [u64], scratch: &mut [u64]) -> bool
        requires lengths { length scratch.old ≡ length xs.old }
        requires residues { All (λ x. x < value_of self.now) xs.old }
        ensures units { IsTrue result ↔ All (IsUnit (value_of self.now)) xs.old }
        ensures inverted { OnTrue result (AreInverses (value_of self.now) xs.old xs.new) }
        ensures unchanged { OnFalse result (xs.new ≡ xs.old) }
    {
        let product = products_before(*self, xs, scratch);
        match self.inv(product) {
            Some(inverse) => {
                take_apart(*self, xs, scratch, inverse);
                true
            }
            None => false,
        }
    }
}

/// Writes the product of the entries before each place to that place of `products`, and gives the product of all.
fn products_before(modulus: Modulus, xs: &[u64], products: &mut [u64]) -> u64
    requires lengths { length products.old ≡ length xs.now }
    requires residues { All (λ x. x < value_of modulus) xs.now }
    ensures residue { result < value_of modulus }
    ensures all { result ≡ product_to (length xs.now) (slice_index xs.now) % value_of modulus }
    ensures before { EachIndex products.new (λ k.
        slice_index products.new k ≡ product_to k (slice_index xs.now) % value_of modulus) }
{
    let mut product = 1;
    for (i, x) in xs.iter().enumerate() {
        products[i] = product;
        product = modulus.mul(product, *x);
    }
    product
}

/// Replaces the entries by their inverses, from the last to the first, given the products of the entries before each
/// place and the inverse of the product of all.
fn take_apart(modulus: Modulus, xs: &mut [u64], products: &[u64], mut inverse: u64)
    requires lengths { length products.now ≡ length xs.old }
    requires residues { All (λ x. x < value_of modulus) xs.old }
    requires before { EachIndex products.now (λ k.
        slice_index products.now k ≡ product_to k (slice_index xs.old) % value_of modulus) }
    requires residue { inverse < value_of modulus }
    requires all { (product_to (length xs.old) (slice_index xs.old) * inverse) % value_of modulus ≡ 1 }
    ensures { AreInverses (value_of modulus) xs.old xs.new }
{
    for i in (0..xs.len()).rev() {
        let x = xs[i];
        xs[i] = modulus.mul(inverse, products[i]);
        inverse = modulus.mul(inverse, x);
    }
}
