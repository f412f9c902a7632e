// What is asked of every meter alike.
use meter::Meter;
use std::fmt::{Debug, Display};
use std::process::Abort;

// The label leads from x up to `raised`, and down to `lowered`.
pub(crate) fn check_step<M: Meter>(
    rt: &impl Abort,
    what: &impl Display,
    meter: &M,
    x: M::Reading,
    label: u8,
    raised: M::Reading,
    lowered: M::Reading,
)
where
    M::Reading: PartialEq + Debug,
{
    assert_eq!(rt; meter.up(x, label), raised, "{what}, up by {label}");
    assert_eq!(rt; meter.down(x, label), lowered, "{what}, down by {label}");
}

// Up leads from x to y or below exactly when x is at most where down leads from y.
pub(crate) fn check_adjoint<M: Meter>(
    rt: &impl Abort,
    what: &impl Display,
    meter: &M,
    x: M::Reading,
    y: M::Reading,
) {
    for label in 0..18u8 {
        let up = meter.at_most(meter.up(x, label), y);
        let down = meter.at_most(x, meter.down(y, label));
        assert_eq!(rt; up, down, "{what}, label {label}");
    }
}
