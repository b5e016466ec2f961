//! The lines of a block's ring.

ghost use Rattle.std.specs.Prelude.{◌≡◌, ◌<◌, ◌≤◌, codes, IfSome, IfOk};
ghost use Rattle.local_order.specs.Limits.{max_degree, max_variables};
ghost use Rattle.cert_grammar.specs.Lines.{words_of};
ghost use Rattle.cert_text.specs.Gives.{Gives};
ghost use Rattle.cert_grammar.specs.Words.{is_prime, is_degree};
ghost use Rattle.cert_grammar.specs.Reading.{line_at, numbered_of};

use crate::lines::{Lines, numbered_in};
use crate::stop::Stop;
use local_order::{MAX_DEGREE, MAX_MONOMIALS, monomial_count};
use prime_field::Field;

/// The greatest characteristic.
const MAX_PRIME: u32 = 2147483647;

/// The field of the line of the characteristic.
fn field_in(line: &[u8]) -> Option<Field>
    ensures value { result ≡ numbered_of (codes "p") is_prime (words_of line.now) }
    ensures some { IfSome result (λ p. 0 < p) }
{
    let p = numbered_in(b"p", MAX_PRIME, line)?;
    Field::of(p)
}

/// Whether the degree may stand for `n` variables.
fn is_ring_degree(n: u32, d: u32) -> bool
    requires few { n ≤ max_variables }
    requires low { d ≤ max_degree }
    ensures { result ≡ is_degree n d }
{
    if d == 0 {
        return false;
    }
    monomial_count(n, d) <= MAX_MONOMIALS
}

/// The degree of its line, in `n` variables.
fn degree_in(n: u32, line: &[u8]) -> Option<u32>
    requires { n ≤ max_variables }
    ensures value { result ≡ numbered_of (codes "D") (is_degree n) (words_of line.now) }
    ensures low { IfSome result (λ d. d ≤ max_degree) }
{
    let d = numbered_in(b"D", MAX_DEGREE, line)?;
    if d <= MAX_DEGREE && is_ring_degree(n, d) {
        Some(d)
    } else {
        None
    }
}

impl<'a> Lines<'a> {
    /// Takes the line of the characteristic.
    pub(crate) fn field(&mut self) -> Result<Field, Stop>
        ensures value { Gives (λ x. x) result self.new (line_at (numbered_of (codes "p") is_prime) self.old) }
        ensures some { IfOk result (λ p. 0 < p) }
    {
        let Some((line, rest)) = self.front() else {
            return Err(Stop::Form);
        };
        let Some(field) = field_in(line) else {
            return Err(Stop::Form);
        };
        self.left = rest;
        Ok(field)
    }

    /// Takes the line of the degree, in `n` variables.
    pub(crate) fn degree(&mut self, n: u32) -> Result<u32, Stop>
        requires { n ≤ max_variables }
        ensures value { Gives (λ x. x) result self.new (line_at (numbered_of (codes "D") (is_degree n)) self.old) }
        ensures low { IfOk result (λ d. d ≤ max_degree) }
    {
        let Some((line, rest)) = self.front() else {
            return Err(Stop::Form);
        };
        let Some(d) = degree_in(n, line) else {
            return Err(Stop::Form);
        };
        self.left = rest;
        Ok(d)
    }
}
