// The deadline meter: its steps by hand at the smallest limit, a small one and the largest, spoilt
// readings, labels and actions that it does not know, and that down undoes up as far as it can.
use crate::checks::{check_adjoint, check_step};
use board::{HIGHEST_LABEL, Refusal};
use meter::{Action, ActionRefusal, DeadlineMeter, DeadlineReading, Meter};
use std::fmt::Display;
use std::process::Abort;

// A reading, by its mark and number.
type Pair = (u8, u16);

// The labels of the meters below.
const KEEP: u8 = 0;

const ADD: u8 = 7;

const BACK: u8 = 15;

fn reading_of(pair: Pair) -> DeadlineReading {
    let (mark, content) = pair;
    DeadlineReading { mark, content }
}

// The refusal's number, or 0 where the action was set.
fn set_answer(meter: &mut DeadlineMeter, label: u8, action: u8) -> u8 {
    meter
        .set_action(label, action)
        .err()
        .map_or(0, |refusal| refusal.number())
}

// The meter that adds at label 7, goes back at label 15 and keeps at the others.
fn meter_with(limit: u16) -> DeadlineMeter {
    let mut meter = DeadlineMeter::new(limit);
    let _ = meter.set_action(ADD, 1);
    let _ = meter.set_action(BACK, 2);
    meter
}

// From, the label, where up leads, and where down leads.
type Step = (Pair, u8, Pair, Pair);

fn check_steps(rt: &impl Abort, limit: u16, steps: &[Step]) {
    let meter = meter_with(limit);
    for step in steps {
        let (from, label, raised, lowered) = *step;
        let x = reading_of(from);
        let (up, down) = (reading_of(raised), reading_of(lowered));
        check_step(rt, &format_args!("{step:?}"), &meter, x, label, up, down);
    }
}

const STEPS_AT_0: [Step; 9] = [
    ((1, 0), KEEP, (1, 0), (1, 0)),
    ((1, 0), ADD, (2, 0), (0, 0)),
    ((1, 0), BACK, (1, 0), (1, 0)),
    ((0, 0), ADD, (0, 0), (0, 0)),
    ((0, 0), BACK, (0, 0), (0, 0)),
    ((2, 0), ADD, (2, 0), (2, 0)),
    ((2, 0), BACK, (2, 0), (2, 0)),
    // Above the limit.
    ((1, 1), KEEP, (0, 0), (0, 0)),
    ((1, 1), BACK, (0, 0), (0, 0)),
];

const STEPS_AT_3: [Step; 18] = [
    ((1, 0), KEEP, (1, 0), (1, 0)),
    ((1, 1), KEEP, (1, 1), (1, 1)),
    ((1, 3), KEEP, (1, 3), (1, 3)),
    ((1, 2), 14, (1, 2), (1, 2)),
    ((1, 0), ADD, (1, 1), (0, 0)),
    ((1, 1), ADD, (1, 2), (1, 0)),
    ((1, 2), ADD, (1, 3), (1, 1)),
    ((1, 3), ADD, (2, 0), (1, 2)),
    ((1, 0), BACK, (1, 0), (1, 3)),
    ((1, 1), BACK, (1, 0), (1, 3)),
    ((1, 2), BACK, (1, 0), (1, 3)),
    ((1, 3), BACK, (1, 0), (1, 3)),
    ((0, 0), KEEP, (0, 0), (0, 0)),
    ((0, 0), ADD, (0, 0), (0, 0)),
    ((0, 0), BACK, (0, 0), (0, 0)),
    ((2, 0), KEEP, (2, 0), (2, 0)),
    ((2, 0), ADD, (2, 0), (2, 0)),
    ((2, 0), BACK, (2, 0), (2, 0)),
];

const STEPS_AT_65535: [Step; 9] = [
    ((1, 0), KEEP, (1, 0), (1, 0)),
    ((1, 65535), KEEP, (1, 65535), (1, 65535)),
    ((1, 0), ADD, (1, 1), (0, 0)),
    ((1, 65534), ADD, (1, 65535), (1, 65533)),
    ((1, 65535), ADD, (2, 0), (1, 65534)),
    ((1, 0), BACK, (1, 0), (1, 65535)),
    ((1, 65535), BACK, (1, 0), (1, 65535)),
    ((0, 65535), ADD, (0, 0), (0, 0)),
    ((2, 65535), BACK, (2, 0), (2, 0)),
];

// Readings that a step by a label up to 15 does not keep as they are, at limit 3.
const SPOILT_STEPS: [Step; 18] = [
    // A mark that is none of the three.
    ((3, 2), KEEP, (0, 0), (0, 0)),
    ((3, 2), ADD, (0, 0), (0, 0)),
    ((3, 0), BACK, (0, 0), (0, 0)),
    ((255, 2), KEEP, (0, 0), (0, 0)),
    ((255, 0), ADD, (0, 0), (0, 0)),
    ((255, 65535), BACK, (0, 0), (0, 0)),
    // A memory above the limit.
    ((1, 4), KEEP, (0, 0), (0, 0)),
    ((1, 4), ADD, (0, 0), (0, 0)),
    ((1, 4), BACK, (0, 0), (0, 0)),
    ((1, 65535), KEEP, (0, 0), (0, 0)),
    ((1, 65535), ADD, (0, 0), (0, 0)),
    ((1, 65535), BACK, (0, 0), (0, 0)),
    // A number that is ignored.
    ((0, 1), KEEP, (0, 0), (0, 0)),
    ((0, 3), ADD, (0, 0), (0, 0)),
    ((0, 65535), BACK, (0, 0), (0, 0)),
    ((2, 1), KEEP, (2, 0), (2, 0)),
    ((2, 3), ADD, (2, 0), (2, 0)),
    ((2, 65535), BACK, (2, 0), (2, 0)),
];

#[test]
fn steps_at_limit_0(rt: HostRuntime) {
    check_steps(&rt, 0, &STEPS_AT_0);
}

#[test]
fn steps_at_limit_3(rt: HostRuntime) {
    check_steps(&rt, 3, &STEPS_AT_3);
}

#[test]
fn steps_at_limit_65535(rt: HostRuntime) {
    check_steps(&rt, 65535, &STEPS_AT_65535);
}

#[test]
fn steps_of_spoilt_readings(rt: HostRuntime) {
    check_steps(&rt, 3, &SPOILT_STEPS);
}

// Every kind of reading at limit 3, sound and spoilt, with its rank.
const RANKED: [(Pair, u8); 14] = [
    ((0, 0), 0),
    ((0, 1), 0),
    ((0, 65535), 0),
    ((1, 4), 0),
    ((1, 65535), 0),
    ((3, 2), 0),
    ((255, 0), 0),
    ((1, 0), 1),
    ((1, 1), 2),
    ((1, 2), 3),
    ((1, 3), 4),
    ((2, 0), 5),
    ((2, 1), 5),
    ((2, 65535), 5),
];

fn check_order_from(rt: &impl Abort, meter: &DeadlineMeter, from: Pair, rank: u8) {
    for (to, other) in &RANKED {
        let answer = meter.at_most(reading_of(from), reading_of(*to));
        assert_eq!(rt; answer, rank <= *other, "{from:?} and {to:?}");
    }
}

#[test]
fn readings_are_ordered_by_rank(rt: HostRuntime) {
    let meter = meter_with(3);
    for (from, rank) in &RANKED {
        check_order_from(&rt, &meter, *from, *rank);
    }
}

// Beside its twin of the return meter, so that each meter's cases are read alone.
fn check_kept_from(rt: &impl Abort, meter: &DeadlineMeter, label: u8) {
    for (pair, _) in &RANKED {
        let x = reading_of(*pair);
        check_step(rt, &format_args!("{pair:?}"), meter, x, label, x, x);
    }
}

#[test]
fn labels_above_15_keep_every_reading_as_it_is(rt: HostRuntime) {
    let meter = meter_with(3);
    check_kept_from(&rt, &meter, 16);
    check_kept_from(&rt, &meter, 23);
    check_kept_from(&rt, &meter, 255);
}

// None, least, greatest and overflow.
fn check_ends(rt: &impl Abort, limit: u16) {
    let meter = meter_with(limit);
    assert_eq!(rt; meter.none(), reading_of((0, 0)));
    assert_eq!(rt; meter.least(), reading_of((1, 0)));
    assert_eq!(rt; meter.greatest(), reading_of((1, limit)));
    assert_eq!(rt; meter.overflow(), reading_of((2, 0)));
    assert!(rt; meter.at_most(meter.greatest(), meter.overflow()));
    assert!(rt; !meter.at_most(meter.overflow(), meter.greatest()));
}

#[test]
fn the_ends_of_the_readings(rt: HostRuntime) {
    check_ends(&rt, 0);
    check_ends(&rt, 3);
    check_ends(&rt, 65535);
}

fn check_adjoint_from(rt: &impl Abort, meter: &DeadlineMeter, x: Pair) {
    for (y, _) in &RANKED {
        let what = format_args!("{x:?} and {y:?}");
        check_adjoint(rt, &what, meter, reading_of(x), reading_of(*y));
    }
}

#[test]
fn down_is_the_adjoint_of_up(rt: HostRuntime) {
    let small = meter_with(0);
    let meter = meter_with(3);
    for (x, _) in &RANKED {
        check_adjoint_from(&rt, &small, *x);
        check_adjoint_from(&rt, &meter, *x);
    }
}

// The two meters answer alike.
fn check_alike(rt: &impl Abort, what: &impl Display, a: &DeadlineMeter, b: &DeadlineMeter) {
    assert_eq!(rt; a.limit(), b.limit(), "{what}");
    for label in 0..18u8 {
        assert_eq!(rt; a.action(label), b.action(label), "{what}, label {label}");
        let x = reading_of((1, 2));
        assert_eq!(rt; a.up(x, label), b.up(x, label), "{what}, label {label}");
        assert_eq!(rt; a.down(x, label), b.down(x, label), "{what}, label {label}");
    }
}

#[test]
fn a_new_meter_keeps_at_every_label(rt: HostRuntime) {
    let meter = DeadlineMeter::new(3);
    assert_eq!(rt; meter.limit(), 3);
    for label in 0..=255u8 {
        assert_eq!(rt; meter.action(label), Action::Keep, "label {label}");
    }
}

#[test]
fn an_action_is_set_for_its_label_alone(rt: HostRuntime) {
    let mut meter = meter_with(3);
    assert_eq!(rt; set_answer(&mut meter, 0, 1), 0);
    assert_eq!(rt; set_answer(&mut meter, 7, 2), 0);
    assert_eq!(rt; set_answer(&mut meter, HIGHEST_LABEL, 0), 0);
    assert_eq!(rt; meter.limit(), 3);
    assert_eq!(rt;
        (meter.action(0), meter.action(1)),
        (Action::Add, Action::Keep)
    );
    assert_eq!(rt;
        (meter.action(7), meter.action(15)),
        (Action::Back, Action::Keep)
    );
}

// A label or an action that is not known.
const REFUSED: [(u8, u8); 8] = [
    (16, 0),
    (16, 1),
    (255, 2),
    (0, 3),
    (7, 255),
    (15, 4),
    (16, 3),
    (255, 255),
];

#[test]
fn a_refusal_leaves_the_meter_as_it_was(rt: HostRuntime) {
    let before = meter_with(3);
    for case in &REFUSED {
        let (label, action) = *case;
        let mut meter = before;
        assert_eq!(rt; set_answer(&mut meter, label, action), 22, "{case:?}");
        check_alike(&rt, &format_args!("{case:?}"), &before, &meter);
    }
    assert_eq!(rt; ActionRefusal::BadAction.number(), 22);
}
