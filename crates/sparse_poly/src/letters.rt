//! The letters of the variables.

ghost use Rattle.std.specs.Prelude.{◌≡◌, ℕ, ◌+◌, ◌-◌, ◌<◌, ◌≤◌, List, ◌++◌, length, take, replicate, IsTrue, ◌↔◌, IfSome, IfNone, slice_index};
ghost use Rattle.sparse_poly.specs.Letters.{AreLetters, AreStored, front_and_zeros, length_front};

use std::marker::Model;

/// The greatest number of letters.
const MAX_LETTERS: usize = 8;

/// One to eight different ASCII letters, that of the first variable first.
/// A contract sees the list of their bytes.
#[derive(Clone, Copy)]
pub struct Letters {
    bytes: [u8; 8],
    count: usize,
}

impl Model for Letters {
    ghost Value = { List ℕ };

    ghost view = { λ l. take l.count l.bytes };

    ghost invariant = { λ l. AreStored l.bytes l.count };

    ghost inverse = { λ v. record { bytes = v ++ replicate (8 - length v) 0; count = length v } };

    ghost inverse_ok = { λ l h i. record { bytes = front_and_zeros l.bytes l.count h i; count = length_front l.bytes l.count h i } };
}

impl Letters {
    /// The letters of these bytes, where they are one to eight different ASCII letters.
    pub fn new(letters: &[u8]) -> Option<Letters>
        ensures some { IfSome result (λ l. (l ≡ letters.now) × AreLetters l) }
        ensures none { IfNone result (AreLetters letters.now → ⊥) }
    {
        if !are_letters(letters) {
            return None;
        }
        let mut bytes = [0; MAX_LETTERS];
        bytes[..letters.len()].copy_from_slice(letters);
        Some(Letters {
            bytes,
            count: letters.len(),
        })
    }

    /// The number of letters.
    pub fn len(&self) -> usize
        ensures value { result ≡ length self.now }
        ensures letters { AreLetters self.now }
    {
        self.count
    }

    /// The bytes of the letters, that of the first variable first.
    pub fn bytes(&self) -> &[u8]
        ensures { result.now ≡ self.now }
    {
        &self.bytes[..self.count]
    }

    /// The letter at a place, that of the first variable being at 0.
    pub fn get(&self, i: usize) -> u8
        requires { i < length self.now }
        ensures { result ≡ slice_index self.now i }
    {
        self.bytes[i]
    }
}

/// Whether the bytes are one to eight different ASCII letters.
fn are_letters(letters: &[u8]) -> bool
    ensures { IsTrue result ↔ AreLetters letters.now }
{
    if letters.is_empty() || letters.len() > MAX_LETTERS {
        return false;
    }
    for (i, letter) in letters.iter().enumerate() {
        if !letter.is_ascii_alphabetic() || letters[..i].contains(letter) {
            return false;
        }
    }
    true
}
