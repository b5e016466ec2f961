//! What statements leave behind.

ghost use Rattle.std.specs.Prelude.{◌≡◌, [], OnOk};
ghost use Rattle.ring_reader.specs.After.{polys_after, ideals_after, commands_after};

use crate::effect::Effect;
use expression_reader::{NamedIdeal, NamedPoly};
use script_grammar::Command;
use std::alloc::{AllocError, Global};

/// The declared polynomials and ideals, and the commands, in their order.
#[derive(Drop)]
pub(crate) struct Scope {
    pub(crate) polys: Vec<NamedPoly>,
    pub(crate) ideals: Vec<NamedIdeal>,
    pub(crate) commands: Vec<Command>,
}

impl Scope {
    /// Nothing yet.
    pub(crate) fn new(alloc: Global) -> Scope
        ensures polys { result.polys.items ≡ [] }
        ensures ideals { result.ideals.items ≡ [] }
        ensures commands { result.commands.items ≡ [] }
    {
        Scope {
            polys: Vec::new(alloc),
            ideals: Vec::new(alloc),
            commands: Vec::new(alloc),
        }
    }

    /// Takes in what a statement does.
    pub(crate) fn apply(&mut self, effect: Effect) -> Result<(), AllocError>
        ensures polys { OnOk result (self.new.polys.items ≡ polys_after self.old.polys.items effect) }
        ensures ideals { OnOk result (self.new.ideals.items ≡ ideals_after self.old.ideals.items effect) }
        ensures commands { OnOk result (self.new.commands.items ≡ commands_after self.old.commands.items effect) }
    {
        match effect {
            Effect::Nothing => Ok(()),
            Effect::Poly(f) => {
                self.polys.push(f)?;
                Ok(())
            }
            Effect::Ideal(i) => {
                self.ideals.push(i)?;
                Ok(())
            }
            Effect::Command(c) => {
                self.commands.push(c)?;
                Ok(())
            }
        }
    }
}
