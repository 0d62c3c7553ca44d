//! Degrees of products, at every modulus and where the modulus is prime. Each function does nothing; its contract is the
//! law. What `r` is asked in them is what the product's contract says of its result.

ghost use Rattle.std.specs.Prelude.{◌≡◌, ◌≢◌, ℕ, ◌+◌, ◌%◌, ◌≤◌, List, [], Some};
ghost use Rattle.prime_field.specs.Residue.{IsPrime};
ghost use Rattle.poly_maps.specs.Mono.{mono_product};
ghost use Rattle.poly_maps.specs.Polynomial.{coefficient, leading, total_degree, degree_in, product_of, AreResidues, IsPolynomial};

/// At every modulus the degrees of a product are at most the sums of the degrees: the total one, and that in each
/// variable.
pub fn product_degrees_at_most()
    ensures total { (m : ℕ) (p q r : List (List ℕ × ℕ)) → IsPolynomial r → ((g : List ℕ) → coefficient g r ≡ coefficient g (product_of p q) % m) →
        total_degree r ≤ total_degree p + total_degree q }
    ensures each { (m i : ℕ) (p q r : List (List ℕ × ℕ)) → IsPolynomial r → ((g : List ℕ) → coefficient g r ≡ coefficient g (product_of p q) % m) →
        degree_in i r ≤ degree_in i p + degree_in i q }
{}

/// At a prime modulus the leading monomial of the product of two polynomials is the product of theirs, and total
/// degrees add up.
pub fn product_degrees()
    ensures leading { (m : ℕ) (p q r : List (List ℕ × ℕ)) (e f : List ℕ) → IsPrime m → IsPolynomial p → AreResidues m p →
        IsPolynomial q → AreResidues m q → IsPolynomial r → ((g : List ℕ) → coefficient g r ≡ coefficient g (product_of p q) % m) →
        leading p ≡ Some e → leading q ≡ Some f → leading r ≡ Some (mono_product e f) }
    ensures total { (m : ℕ) (p q r : List (List ℕ × ℕ)) → IsPrime m → IsPolynomial p → AreResidues m p →
        IsPolynomial q → AreResidues m q → IsPolynomial r → ((g : List ℕ) → coefficient g r ≡ coefficient g (product_of p q) % m) →
        p ≢ [] → q ≢ [] → total_degree r ≡ total_degree p + total_degree q }
{}
