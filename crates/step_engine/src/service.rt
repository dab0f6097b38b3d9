use crate::offers::Offers;
use step_cells::{Cell, Handle};

/// Replies 0 to every call: for a node without async calls.
#[derive(Drop)]
pub struct ZeroOffers {}

impl Offers for ZeroOffers {
    ghost use Rattle.std.specs.Prelude.{◌≡◌};
    ghost use Rattle.step_plans.specs.Books.{Book};
    ghost use Rattle.step_cells.specs.declared.cell.Handle.{Handle};

    ghost stands = { λ s book. (h : Handle) → book.reply h ≡ 0 };

    ghost takes = { λ s instance input names. Unit {0} };

    fn offer(&mut self, _instance: u32, _reset: bool, _input: &[Cell], _names: &[Cell]) -> Handle {
        Handle {
            slot: 0,
            component: 0,
            generation: 0,
        }
    }

    fn get(&mut self, _handle: Handle) -> u32 {
        0
    }
}
