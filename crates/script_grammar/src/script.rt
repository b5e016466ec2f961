//! What a script asks for.

ghost use Rattle.std.specs.Prelude.{◌≡◌, ◌<◌, ◌++◌, ◌∷◌, [], length, IfOk, OnOk, OnErr, slice_get, Some};

use prime_field::Field;
use sparse_poly::{Letters, Poly, Problem};
use std::alloc::{AllocError, Global};
use std::marker::Model;

/// The word of a command.
#[derive(Clone, Copy, Debug, PartialEq, Eq)]
pub enum Word {
    /// `std`: the reduced standard basis.
    Std,
    /// `vdim`: the dimension of the quotient.
    Vdim,
    /// `kbase`: the monomials that are a basis of the quotient.
    Kbase,
    /// `highcorner`: the least of these monomials.
    HighCorner,
    /// `milnor`: the Milnor number of a polynomial.
    Milnor,
    /// `tjurina`: the Tjurina number of a polynomial.
    Tjurina,
}

/// A name. A contract sees its bytes.
#[derive(Drop)]
pub struct Name {
    bytes: Vec<u8>,
}

impl Model for Name {
    ghost use Rattle.std.specs.Prelude.{ℕ, List};

    ghost Value = { List ℕ };

    ghost view = { λ n. n.bytes.items };
}

impl Name {
    /// The name with these bytes.
    pub fn new(alloc: Global, bytes: &[u8]) -> Result<Name, AllocError>
        ensures { IfOk result (λ n. n ≡ bytes.now) }
    {
        let bytes = Vec::from_slice(alloc, bytes)?;
        Ok(Name { bytes })
    }

    /// Its bytes.
    pub fn bytes(&self) -> &[u8]
        ensures { result.now ≡ self.now }
    {
        &self.bytes
    }
}

/// What a command is asked of.
#[derive(Drop)]
pub enum Subject {
    /// An ideal, by its generators, cut beyond the noether degree.
    Ideal(Problem),
    /// A polynomial, cut beyond one degree more.
    Function(Poly),
}

/// A command: its word, the name in its argument, and what it is asked of.
#[derive(Drop)]
pub struct Command {
    pub word: Word,
    pub name: Name,
    pub subject: Subject,
}

/// A list of commands.
#[derive(Drop)]
pub struct Commands {
    items: Vec<Command>,
}

impl Model for Commands {
    ghost use Rattle.std.specs.Prelude.{List};
    ghost use Rattle.script_grammar.specs.declared.script.Command.{Command};

    ghost Value = { List Command };

    ghost view = { λ l. l.items.items };
}

impl Commands {
    /// The list with these members. It takes no memory.
    pub fn from_vec(items: Vec<Command>) -> Commands
        ensures { result ≡ items.items }
    {
        Commands { items }
    }

    /// The number of commands.
    pub fn len(&self) -> usize
        ensures { result ≡ length self.now }
    {
        self.items.len()
    }

    /// The command at a place, the first being 0.
    pub fn get(&self, i: usize) -> &Command
        requires { i < length self.now }
        ensures { slice_get self.now i ≡ Some result.now }
    {
        &self.items[i]
    }
}

/// What a script asks for: the letters of its variables, its field, its noether degree and its commands in order.
#[derive(Drop)]
pub struct Script {
    pub names: Letters,
    pub field: Field,
    pub d: u32,
    pub commands: Commands,
}
