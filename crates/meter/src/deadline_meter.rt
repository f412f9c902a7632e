ghost use Rattle.std.specs.Prelude.{◌≡◌, ◌≤◌, replicate, if◌then◌else◌};
ghost use Rattle.board.specs.Refusals.{number_answered, refused_unless};
ghost use Rattle.meter.specs.Actions.{action_at, actions_after, settable};
ghost use Rattle.meter.specs.Deadline.{deadline_scale, raise_by, lower_by, seen_below};
ghost use Rattle.meter.specs.DeadlineLaws.{deadline_laws};
ghost use Rattle.meter.specs.Marked.{gauge_of};
ghost use Rattle.meter.specs.Refusals.{number_of};
ghost use Rattle.meter.specs.declared.actions.Action.TheVariants.{Keep};

use crate::actions::Action;
use crate::meter::Meter;
use crate::reading::DeadlineReading;
use crate::refusals::ActionRefusal;
use crate::seen::Seen;
use board::HIGHEST_LABEL;

// Measures how long something due has stayed away: each label keeps the number, adds one to it or
// takes it back to 0, and past the limit it overflows.
#[derive(Clone, Copy)]
pub struct DeadlineMeter {
    limit: u16,
    // By label.
    actions: [Action; 16],
    // What every u16 keeps: the laws know of a field only what is written here.
    ghost within: { limit ≤ 65535 },
}

impl DeadlineMeter {
    // The meter with this limit, which every label keeps where it is.
    pub fn new(limit: u16) -> DeadlineMeter
        ensures limit { result.limit ≡ limit }
        ensures actions { result.actions ≡ replicate 16 Keep }
    {
        DeadlineMeter {
            limit,
            actions: [Action::Keep; 16],
        }
    }

    // Sets what the label does, or refuses by 22 and changes nothing. The action is a number, since a number
    // that stands for none has to be refused.
    pub fn set_action(&mut self, label: u8, action: u8) -> Result<(), ActionRefusal>
        ensures answer { result ≡ refused_unless (settable label action) ActionRefusal.BadAction }
        ensures number { number_answered number_of result ≡ (if settable label action then 0 else 22) }
        ensures limit { self.new.limit ≡ self.old.limit }
        ensures actions { self.new.actions ≡ actions_after self.old.actions label action }
    {
        if label > HIGHEST_LABEL {
            return Err(ActionRefusal::BadAction);
        }
        self.actions[usize::from(label)] = Action::try_from(action)?;
        Ok(())
    }

    pub fn limit(&self) -> u16
        ensures { result ≡ self.now.limit }
    {
        self.limit
    }

    // What the label does; one above 15 keeps.
    pub fn action(&self, label: u8) -> Action
        ensures { result ≡ action_at self.now.actions label }
    {
        if label > HIGHEST_LABEL {
            return Action::Keep;
        }
        self.actions[usize::from(label)]
    }

    // What the reading counts as.
    fn seen(&self, x: DeadlineReading) -> Seen<u16>
        ensures { result ≡ seen_below self.now.limit x }
    {
        Seen::of(x, x.content <= self.limit)
    }

    // Where the label takes the memory with this number.
    fn raised(&self, number: u16, label: u8) -> Seen<u16>
        ensures { result ≡ raise_by self.now.limit number (action_at self.now.actions label) }
    {
        match self.action(label) {
            Action::Keep => Seen::Memory(number),
            Action::Add if number < self.limit => Seen::Memory(number + 1),
            Action::Add => Seen::Overflow,
            Action::Back => Seen::Memory(0),
        }
    }

    // The greatest that the label takes to the memory with this number or below.
    fn lowered(&self, number: u16, label: u8) -> Seen<u16>
        ensures { result ≡ lower_by self.now.limit number (action_at self.now.actions label) }
    {
        match self.action(label) {
            Action::Keep => Seen::Memory(number),
            Action::Add if number == 0 => Seen::None,
            Action::Add => Seen::Memory(number - 1),
            Action::Back => Seen::Memory(self.limit),
        }
    }
}

impl Meter for DeadlineMeter {
    type Reading = DeadlineReading;

    ghost gauge = { λ m. gauge_of (deadline_scale m.limit m.actions) };

    ghost laws = { λ m. deadline_laws m.limit m.actions m.within };

    fn none(&self) -> DeadlineReading {
        Seen::None.into()
    }

    fn least(&self) -> DeadlineReading {
        Seen::Memory(0).into()
    }

    fn greatest(&self) -> DeadlineReading {
        Seen::Memory(self.limit).into()
    }

    fn overflow(&self) -> DeadlineReading {
        Seen::Overflow.into()
    }

    fn at_most(&self, x: DeadlineReading, y: DeadlineReading) -> bool {
        self.seen(x) <= self.seen(y)
    }

    fn up(&self, x: DeadlineReading, label: u8) -> DeadlineReading {
        if label > HIGHEST_LABEL {
            return x;
        }
        self.seen(x)
            .and_then(|number| self.raised(*number, label))
            .into()
    }

    fn down(&self, y: DeadlineReading, label: u8) -> DeadlineReading {
        if label > HIGHEST_LABEL {
            return y;
        }
        self.seen(y)
            .and_then(|number| self.lowered(*number, label))
            .into()
    }
}
