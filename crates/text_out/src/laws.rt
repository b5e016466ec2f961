//! The laws of printed monomials and polynomials.
//! Each is a call that does nothing, and whose contract is the law.

ghost use Rattle.std.specs.Prelude.{◌≡◌, ℕ, ◌<◌, ◌≤◌, ◌^◌, List, length, All};
ghost use Rattle.local_order.specs.Limits.{max_exponent};
ghost use Rattle.sparse_poly.specs.Letters.{AreLetters};
ghost use Rattle.sparse_poly.specs.Poly.{Poly as TermList, IsCanonical};
ghost use Rattle.text_out.specs.Texts.{mono_text, poly_text};
ghost use Rattle.text_out.specs.Reads.{exponents_in, terms_in, HasSmallExponents};

/// A printed monomial is read back, and so a text is that of one monomial.
pub fn monomials_are_read()
    ensures back { (letters m : List ℕ) → AreLetters letters → All (λ e. e ≤ max_exponent) m → length m ≡ length letters →
        exponents_in letters (mono_text letters m) ≡ m }
    ensures one { (letters m k : List ℕ) → AreLetters letters → All (λ e. e ≤ max_exponent) m → All (λ e. e ≤ max_exponent) k →
        length m ≡ length letters → length k ≡ length letters → mono_text letters m ≡ mono_text letters k → m ≡ k }
{}

/// A printed polynomial is read back, and so a text is that of one polynomial.
pub fn polynomials_are_read()
    ensures back { (p : ℕ) (letters : List ℕ) (f : TermList) → p < 2 ^ 64 → AreLetters letters → IsCanonical p (length letters) f →
        HasSmallExponents f → terms_in p letters (poly_text p letters f) ≡ f }
    ensures one { (p : ℕ) (letters : List ℕ) (f g : TermList) → p < 2 ^ 64 → AreLetters letters →
        IsCanonical p (length letters) f → IsCanonical p (length letters) g →
        HasSmallExponents f → HasSmallExponents g →
        poly_text p letters f ≡ poly_text p letters g → f ≡ g }
{}
