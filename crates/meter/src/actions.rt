ghost use Rattle.std.specs.Prelude.{◌≡◌};
ghost use Rattle.meter.specs.Actions.{action_read};

use crate::refusals::ActionRefusal;

// What leaving a position with a label does to the number of a deadline reading. An enum and no function:
// a meter is copied, and tells the action of a label.
#[derive(Clone, Copy, Debug, PartialEq, Eq)]
pub enum Action {
    // The number stays.
    Keep = 0,
    // The number grows by one, and overflows past the limit.
    Add = 1,
    // The number goes back to 0.
    Back = 2,
}

// The action that the number stands for.
impl TryFrom<u8> for Action {
    type Error = ActionRefusal;

    ghost try_from_gives = { λ number result. result ≡ action_read number };

    fn try_from(number: u8) -> Result<Action, ActionRefusal> {
        match number {
            0 => Ok(Action::Keep),
            1 => Ok(Action::Add),
            2 => Ok(Action::Back),
            _ => Err(ActionRefusal::BadAction),
        }
    }
}
