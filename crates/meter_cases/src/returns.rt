// The return meter: its limits counted on boards, its steps by hand, spoilt readings, labels that it
// does not know, and that down undoes up as far as it can.
use crate::checks::{check_adjoint, check_step};
use board::{Pool, Record, Table};
use meter::{COUNTERS, Counters, Meter, ReturnMeter, ReturnReading};
use std::fmt::Display;
use std::process::Abort;
use std::test::Fail;
use watch::{Watched, Watcher};

const ZEROS: Counters = [0; COUNTERS];

fn written(mark: u8, content: Counters) -> ReturnReading {
    ReturnReading { mark, content }
}

// The meter counted on a board of 512 positions: the first bear these labels, the others label 0. None
// has moves.
fn meter_on(labels: &[u8]) -> ReturnMeter {
    let mut records = [Record::BLANK; 512];
    for (record, label) in records.iter_mut().zip(labels) {
        record.label = *label;
    }
    ReturnMeter::counted_on(&Table::new(&records, &[]))
}

// One position has label 1 and two have label 3.
const SMALL: [u8; 3] = [3, 1, 3];

// Even labels too, which are not counted. Of the odd ones 3, 9, 11 and 13 are missing.
const MIXED: [u8; 11] = [0, 1, 2, 15, 5, 4, 1, 15, 7, 14, 15];

const MIXED_LIMITS: Counters = [2, 0, 1, 1, 0, 0, 0, 3];

// The limits, how many memories there are, and the ends of the readings with their ranks.
fn check_counted(rt: &impl Abort, meter: &ReturnMeter, limits: Counters, memories: u64) {
    assert_eq!(rt; (meter.limits(), meter.memories()), (limits, memories));
    let ends = (
        meter.none(),
        meter.least(),
        meter.greatest(),
        meter.overflow(),
    );
    let (none, least, greatest, overflow) = ends;
    let expected = (
        written(0, ZEROS),
        written(1, ZEROS),
        written(1, limits),
        written(2, ZEROS),
    );
    assert_eq!(rt; ends, expected);
    let ranks = (
        meter.rank(none),
        meter.rank(least),
        meter.rank(greatest),
        meter.rank(overflow),
    );
    assert_eq!(rt; ranks, (0, 1, memories, meter.memories() + 1));
}

// A board of three positions with the labels 0, 1 and 3, and its moves.
const THREE: [Record; 3] = [
    Record {
        side: 0,
        label: 0,
        first: 0,
        count: 2,
    },
    Record {
        side: 0,
        label: 1,
        first: 2,
        count: 2,
    },
    Record {
        side: 0,
        label: 3,
        first: 4,
        count: 1,
    },
];

const THREE_MOVES: [u16; 5] = [1, 2, 0, 2, 2];

#[test]
fn limits_are_counted_on_a_board(rt: HostRuntime) {
    let three = ReturnMeter::counted_on(&Table::new(&THREE, &THREE_MOVES));
    check_counted(&rt, &three, [1, 1, 0, 0, 0, 0, 0, 0], 4);
    check_counted(&rt, &meter_on(&SMALL), [1, 2, 0, 0, 0, 0, 0, 0], 6);
    check_counted(&rt, &meter_on(&MIXED), MIXED_LIMITS, 48);
    check_counted(&rt, &meter_on(&[0, 2, 4, 6, 8, 10, 12, 14]), ZEROS, 1);
}

// Two positions of a pool of one buffer have label 1, and two label 3. Under a watcher that is new every
// position has label 0.
#[test]
fn limits_are_counted_on_computed_boards(rt: HostRuntime) -> Result<(), Fail> {
    let pool = Pool::new(1)?;
    check_counted(
        &rt,
        &ReturnMeter::counted_on(&pool),
        [2, 2, 0, 0, 0, 0, 0, 0],
        9,
    );
    let watched = Watched::new(pool, Watcher::new());
    check_counted(&rt, &ReturnMeter::counted_on(&watched), ZEROS, 1);
    Ok(())
}

// There is no label 16, so the board is bare: one position, with label 0.
#[test]
fn a_bare_board_has_one_memory(rt: HostRuntime) {
    let bare = meter_on(&[1, 16, 3]);
    check_counted(&rt, &bare, ZEROS, 1);
    check_step(
        &rt,
        &"bare",
        &bare,
        bare.least(),
        1,
        bare.overflow(),
        bare.none(),
    );
}

// The meter counted on a board of 512 positions, 64 with each odd label.
fn large_meter() -> ReturnMeter {
    let mut records = [Record::BLANK; 512];
    for (k, record) in records.iter_mut().enumerate() {
        record.label = 2 * (k % 8) as u8 + 1;
    }
    ReturnMeter::counted_on(&Table::new(&records, &[]))
}

#[test]
fn the_most_memories_are_65_to_the_8th(rt: HostRuntime) {
    let large = large_meter();
    check_counted(&rt, &large, [64; COUNTERS], 318_644_812_890_625);
    let (up, down) = (
        large.up(large.greatest(), 15),
        large.down(large.least(), 15),
    );
    assert_eq!(rt; (up, down), (large.overflow(), large.none()));
}

// A reading, by its mark and the counters of the labels 1 and 3; the others are 0.
type Triple = (u8, u16, u16);

fn reading_of(triple: Triple) -> ReturnReading {
    let (mark, ones, threes) = triple;
    written(mark, [ones, threes, 0, 0, 0, 0, 0, 0])
}

// From, the label, where up leads, and where down leads.
type Step = (Triple, u8, Triple, Triple);

const SMALL_STEPS: [Step; 31] = [
    ((1, 0, 0), 0, (1, 0, 0), (1, 1, 2)),
    ((1, 0, 2), 0, (1, 0, 0), (1, 1, 2)),
    ((1, 1, 1), 0, (1, 0, 0), (1, 1, 2)),
    ((1, 1, 2), 0, (1, 0, 0), (1, 1, 2)),
    ((1, 0, 0), 1, (1, 1, 0), (0, 0, 0)),
    ((1, 0, 2), 1, (1, 1, 0), (0, 0, 0)),
    ((1, 1, 0), 1, (2, 0, 0), (1, 0, 2)),
    ((1, 1, 2), 1, (2, 0, 0), (1, 0, 2)),
    ((1, 0, 0), 2, (1, 0, 0), (1, 0, 2)),
    ((1, 0, 1), 2, (1, 0, 0), (1, 0, 2)),
    ((1, 1, 1), 2, (1, 1, 0), (1, 1, 2)),
    ((1, 1, 2), 2, (1, 1, 0), (1, 1, 2)),
    ((1, 0, 0), 3, (1, 0, 1), (0, 0, 0)),
    ((1, 0, 1), 3, (1, 0, 2), (1, 0, 0)),
    ((1, 0, 2), 3, (1, 1, 0), (1, 0, 1)),
    ((1, 1, 0), 3, (1, 1, 1), (1, 0, 2)),
    ((1, 1, 1), 3, (1, 1, 2), (1, 1, 0)),
    ((1, 1, 2), 3, (2, 0, 0), (1, 1, 1)),
    // The counters of the labels above 3 have no room and hold nothing.
    ((1, 0, 0), 4, (1, 0, 0), (1, 0, 0)),
    ((1, 0, 1), 4, (1, 0, 1), (1, 0, 1)),
    ((1, 1, 2), 4, (1, 1, 2), (1, 1, 2)),
    ((1, 1, 0), 14, (1, 1, 0), (1, 1, 0)),
    ((1, 0, 0), 5, (1, 0, 1), (0, 0, 0)),
    ((1, 0, 1), 5, (1, 0, 2), (1, 0, 0)),
    ((1, 0, 2), 5, (1, 1, 0), (1, 0, 1)),
    ((1, 1, 0), 5, (1, 1, 1), (1, 0, 2)),
    ((1, 1, 2), 5, (2, 0, 0), (1, 1, 1)),
    ((1, 0, 0), 15, (1, 0, 1), (0, 0, 0)),
    ((1, 0, 2), 15, (1, 1, 0), (1, 0, 1)),
    ((1, 1, 0), 15, (1, 1, 1), (1, 0, 2)),
    ((1, 1, 2), 15, (2, 0, 0), (1, 1, 1)),
];

#[test]
fn steps_at_the_limits_1_and_2(rt: HostRuntime) {
    let meter = meter_on(&SMALL);
    for step in &SMALL_STEPS {
        let (from, label, raised, lowered) = *step;
        let x = reading_of(from);
        let (up, down) = (reading_of(raised), reading_of(lowered));
        check_step(&rt, &format_args!("{step:?}"), &meter, x, label, up, down);
    }
}

// From a memory of the mixed board: the label, where up leads, and where down leads.
const MIXED_FROM: Counters = [1, 0, 1, 0, 0, 0, 0, 2];

const MIXED_STEPS: [(u8, Counters, Counters); 13] = [
    (0, [0, 0, 0, 0, 0, 0, 0, 0], [2, 0, 1, 1, 0, 0, 0, 3]),
    (1, [2, 0, 0, 0, 0, 0, 0, 0], [0, 0, 1, 1, 0, 0, 0, 3]),
    (2, [1, 0, 0, 0, 0, 0, 0, 0], [1, 0, 1, 1, 0, 0, 0, 3]),
    (3, [2, 0, 0, 0, 0, 0, 0, 0], [0, 0, 1, 1, 0, 0, 0, 3]),
    (4, [1, 0, 0, 0, 0, 0, 0, 0], [1, 0, 1, 1, 0, 0, 0, 3]),
    (5, [2, 0, 0, 0, 0, 0, 0, 0], [1, 0, 0, 1, 0, 0, 0, 3]),
    (6, [1, 0, 1, 0, 0, 0, 0, 0], [1, 0, 1, 1, 0, 0, 0, 3]),
    (7, [1, 0, 1, 1, 0, 0, 0, 0], [1, 0, 0, 1, 0, 0, 0, 3]),
    (8, [1, 0, 1, 0, 0, 0, 0, 0], [1, 0, 1, 0, 0, 0, 0, 3]),
    (9, [1, 0, 1, 1, 0, 0, 0, 0], [1, 0, 0, 1, 0, 0, 0, 3]),
    (13, [1, 0, 1, 1, 0, 0, 0, 0], [1, 0, 0, 1, 0, 0, 0, 3]),
    (14, [1, 0, 1, 0, 0, 0, 0, 0], [1, 0, 1, 0, 0, 0, 0, 3]),
    (15, [1, 0, 1, 0, 0, 0, 0, 3], [1, 0, 1, 0, 0, 0, 0, 1]),
];

#[test]
fn steps_on_the_mixed_board(rt: HostRuntime) {
    let meter = meter_on(&MIXED);
    let x = written(1, MIXED_FROM);
    assert_eq!(rt; meter.rank(x), 27);
    for (label, raised, lowered) in &MIXED_STEPS {
        check_step(
            &rt,
            &"mixed",
            &meter,
            x,
            *label,
            written(1, *raised),
            written(1, *lowered),
        );
    }
}

// Up by 15 leads from each memory to the next, the last to overflow, and down by 15 to the one before.
fn check_walk(rt: &impl Abort, meter: &ReturnMeter) {
    let mut before = meter.none();
    let mut x = meter.least();
    for rank in 1..=meter.memories() {
        assert_eq!(rt; (meter.rank(x), meter.down(x, 15)), (rank, before));
        before = x;
        x = meter.up(x, 15);
    }
    assert_eq!(rt; before, meter.greatest());
    assert_eq!(rt; x, meter.overflow());
}

#[test]
fn ranks_count_the_memories_one_by_one(rt: HostRuntime) {
    check_walk(&rt, &meter_on(&SMALL));
    check_walk(&rt, &meter_on(&MIXED));
}

// Every kind of reading at the limits 1 and 2, sound and spoilt, with its rank.
const RANKED: [(Triple, u64); 19] = [
    ((0, 0, 0), 0),
    ((0, 1, 2), 0),
    ((0, 0, 65535), 0),
    ((1, 2, 0), 0),
    ((1, 0, 3), 0),
    ((1, 65535, 2), 0),
    ((1, 1, 65535), 0),
    ((3, 0, 0), 0),
    ((3, 1, 2), 0),
    ((255, 0, 1), 0),
    ((1, 0, 0), 1),
    ((1, 0, 1), 2),
    ((1, 0, 2), 3),
    ((1, 1, 0), 4),
    ((1, 1, 1), 5),
    ((1, 1, 2), 6),
    ((2, 0, 0), 7),
    ((2, 1, 2), 7),
    ((2, 2, 65535), 7),
];

// The rank of x, its order to every reading, and that down is the adjoint of up between them.
fn check_from(rt: &impl Abort, meter: &ReturnMeter, from: Triple, rank: u64) {
    let x = reading_of(from);
    assert_eq!(rt; meter.rank(x), rank, "{from:?}");
    for (to, other) in &RANKED {
        let y = reading_of(*to);
        assert_eq!(rt;
            meter.at_most(x, y),
            rank <= *other,
            "from {from:?} to {to:?}"
        );
        let what = format_args!("from {from:?} to {to:?}");
        check_adjoint(rt, &what, meter, x, y);
    }
}

#[test]
fn readings_are_ordered_by_rank_and_down_is_the_adjoint_of_up(rt: HostRuntime) {
    let meter = meter_on(&SMALL);
    for (from, rank) in &RANKED {
        check_from(&rt, &meter, *from, *rank);
    }
}

// Readings that count as none or overflow, and where every label up to 15 leads them, up and down.
const STAYING: [(Triple, Triple); 13] = [
    ((0, 0, 0), (0, 0, 0)),
    ((2, 0, 0), (2, 0, 0)),
    // A mark that is none of the three.
    ((3, 0, 0), (0, 0, 0)),
    ((3, 1, 2), (0, 0, 0)),
    ((255, 0, 1), (0, 0, 0)),
    // A counter above its limit.
    ((1, 2, 0), (0, 0, 0)),
    ((1, 0, 3), (0, 0, 0)),
    ((1, 1, 65535), (0, 0, 0)),
    ((1, 65535, 65535), (0, 0, 0)),
    // Counters that are ignored.
    ((0, 1, 2), (0, 0, 0)),
    ((0, 0, 65535), (0, 0, 0)),
    ((2, 1, 2), (2, 0, 0)),
    ((2, 65535, 0), (2, 0, 0)),
];

fn check_staying(
    rt: &impl Abort,
    what: &impl Display,
    meter: &ReturnMeter,
    x: ReturnReading,
    end: ReturnReading,
) {
    for label in 0..16u8 {
        check_step(rt, what, meter, x, label, end, end);
    }
}

#[test]
fn none_and_overflow_stay_and_are_written_with_counters_0(rt: HostRuntime) {
    let meter = meter_on(&SMALL);
    for (from, to) in &STAYING {
        let x = reading_of(*from);
        check_staying(&rt, &format_args!("{from:?}"), &meter, x, reading_of(*to));
    }
}

#[test]
fn each_counter_above_its_limit_spoils_a_memory(rt: HostRuntime) {
    let meter = meter_on(&MIXED);
    for place in 0..COUNTERS {
        // 4 is above every limit.
        let mut counters = MIXED_LIMITS;
        counters[place] = 4;
        let x = written(1, counters);
        assert!(rt; !meter.at_most(meter.least(), x));
        let what = format_args!("place {place}");
        check_staying(&rt, &what, &meter, x, meter.none());
    }
}

fn check_kept_by(rt: &impl Abort, meter: &ReturnMeter, label: u8) {
    for (triple, _) in &RANKED {
        let x = reading_of(*triple);
        check_step(rt, &format_args!("{triple:?}"), meter, x, label, x, x);
    }
}

#[test]
fn labels_above_15_keep_every_reading_as_it_is(rt: HostRuntime) {
    let meter = meter_on(&SMALL);
    check_kept_by(&rt, &meter, 16);
    check_kept_by(&rt, &meter, 17);
    check_kept_by(&rt, &meter, 255);
}
