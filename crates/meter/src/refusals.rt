ghost use Rattle.std.proofs.Common.{rules};
ghost use Rattle.meter.specs.Refusals.{number_of};

use board::Refusal;

// Why the action of a label was not set.
#[derive(Clone, Copy, Debug, PartialEq, Eq)]
pub enum ActionRefusal {
    // The label is above 15, or the number stands for no action.
    BadAction = 22,
}

impl Refusal for ActionRefusal {
    ghost known_as = { number_of };

    ghost above_0 = { Prim.search rules };

    fn number(&self) -> u8 {
        *self as u8
    }
}
