//! What a statement does.

use expression_reader::{NamedIdeal, NamedPoly};
use script_grammar::Command;

/// What a statement does.
#[derive(Drop)]
pub(crate) enum Effect {
    /// A remark does nothing.
    Nothing,
    /// It declares a polynomial.
    Poly(NamedPoly),
    /// It declares an ideal.
    Ideal(NamedIdeal),
    /// It asks for something.
    Command(Command),
}
