//! The hand of a board, which contracts alone see.

ghost use Rattle.std.specs.Prelude.{◌≡◌, Option};
ghost use Rattle.std.specs.Borrow.{ftrue};
ghost use Rattle.run_core.specs.Hand.{Hand};
ghost use Rattle.run_core.specs.HandCode.{coded_hand};

use std::marker::{Model, PhantomData};

/// A hand that contracts alone see. It has no bytes.
#[derive(Drop)]
pub(crate) struct GhostHand {
    marker: PhantomData<u8>,
    pub(crate) ghost value: { Option Hand } by { coded_hand },
}

impl Model for GhostHand {
    ghost also_owns = { λ _. ftrue };
}

impl GhostHand {
    /// A hand that is told of what `x` shows.
    pub(crate) fn of<T>(x: &T) -> GhostHand
        ghost hand: { T → Option Hand }
        ensures { result.value ≡ hand x.now }
    {
        let _ = x;
        GhostHand {
            marker: PhantomData,
        }
    }
}
