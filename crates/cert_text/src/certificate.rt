//! Certificates in the words of problems.

ghost use Rattle.std.specs.Prelude.{◌≡◌};

use cert_grammar::Certified;
use std::marker::Model;

/// A certificate. A contract sees the list of its blocks.
#[derive(Drop)]
pub struct Cert {
    blocks: Vec<Certified>,
}

impl Model for Cert {
    ghost use Rattle.std.specs.Prelude.{List};
    ghost use Rattle.cert_grammar.specs.declared.certified.Certified.{Certified};

    ghost Value = { List Certified };

    ghost view = { λ c. c.blocks.items };
}

impl Cert {
    /// The certificate of these blocks. It takes no memory.
    pub(crate) fn new(blocks: Vec<Certified>) -> Cert
        ensures { result ≡ blocks.items }
    {
        Cert { blocks }
    }

    /// The blocks.
    pub fn blocks(&self) -> &[Certified]
        ensures { result.now ≡ self.now }
    {
        &self.blocks
    }
}
