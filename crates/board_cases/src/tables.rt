// Tables that are sound and tables that are not, and the numbers of all refusals.
use crate::checks::table_answer;
use board::{Board, Record, Refusal, Side, Table, TableRefusal, UnknownSide};
use board_text::{TextRefusal, WriteRefusal};
use std::fmt::Display;
use std::process::Abort;
use std::test::Fail;

// A position without moves, which is sound in every table.
const PLAIN: Record = Record {
    side: 0,
    label: 0,
    first: 0,
    count: 0,
};

// The moves of the tables of two positions below: from 0 on there is no position 2, from 1 on they
// descend, from 2 on they stay, from 3 on they ascend.
const MOVES: [u16; 5] = [2, 1, 0, 0, 1];

// Side, label, first and count of a record, beside which a plain one stands, and where its first move
// leads, 0 where it has none.
const SOUND: [((u8, u8, u16, u16), u16); 8] = [
    ((0, 0, 0, 0), 0),
    ((1, 15, 0, 0), 0),
    // Moves that end where the slice ends.
    ((0, 0, 3, 2), 0),
    ((1, 15, 4, 1), 1),
    ((0, 0, 1, 1), 1),
    // No moves, at the end of the slice and past it.
    ((0, 0, 5, 0), 0),
    ((1, 0, 6, 0), 0),
    ((0, 3, 65535, 0), 0),
];

const UNSOUND: [(u8, u8, u16, u16); 14] = [
    // The side.
    (2, 0, 0, 0),
    (255, 0, 3, 2),
    // The label.
    (0, 16, 0, 0),
    (1, 255, 3, 2),
    // Moves past the end of the slice by one.
    (0, 0, 5, 1),
    (0, 0, 4, 2),
    (0, 0, 3, 3),
    // By more.
    (0, 0, 65535, 1),
    (0, 0, 65535, 16),
    (0, 0, 0, 65535),
    // A move that is equal to the number of positions.
    (0, 0, 0, 1),
    // A move below the one before it, and one equal to it.
    (0, 0, 1, 2),
    (0, 0, 2, 2),
    (0, 0, 2, 3),
];

fn record_of(case: (u8, u8, u16, u16)) -> Record {
    let (side, label, first, count) = case;
    Record {
        side,
        label,
        first,
        count,
    }
}

// The slices are refused, and the table over them is one kiln position with label 0 and no moves.
fn check_bare<'a>(rt: &impl Abort, what: &impl Display, records: &'a [Record], moves: &'a [u16]) {
    assert_eq!(rt; table_answer(records, moves), 20, "{what}");
    let table = Table::new(records, moves);
    assert_eq!(rt; table.count(), 1, "{what}");
    assert_eq!(rt;
        (table.side(0) as u8, table.label(0), table.moves(0)),
        (1, 0, 0),
        "{what}"
    );
    assert_eq!(rt; table.move_at(0, 0), 0, "{what}");
    assert_eq!(rt;
        (table.side(1) as u8, table.label(1), table.moves(1)),
        (0, 0, 0),
        "{what}"
    );
}

// The slices are not refused, and the table over them shows `count` positions.
fn check_shown<'a>(
    rt: &impl Abort,
    what: &impl Display,
    records: &'a [Record],
    moves: &'a [u16],
    count: u16,
) {
    assert_eq!(rt; table_answer(records, moves), 0, "{what}");
    assert_eq!(rt; Table::new(records, moves).count(), count, "{what}");
}

#[test]
fn a_sound_table_shows_its_records(rt: HostRuntime) {
    for (case, to) in &SOUND {
        let (side, label, _, count) = *case;
        let record = record_of(*case);
        check_shown(
            &rt,
            &format_args!("{case:?} first"),
            &[record, PLAIN],
            &MOVES,
            2,
        );
        let records = [PLAIN, record];
        check_shown(&rt, &format_args!("{case:?} last"), &records, &MOVES, 2);
        let table = Table::new(&records, &MOVES);
        let answers = (
            table.side(1) as u8,
            table.label(1),
            u16::from(table.moves(1)),
        );
        assert_eq!(rt; answers, (side, label, count), "{case:?}");
        assert_eq!(rt; table.move_at(1, 0), *to, "{case:?}");
    }
}

#[test]
fn an_unsound_table_is_refused_and_bare(rt: HostRuntime) {
    for case in &UNSOUND {
        let record = record_of(*case);
        check_bare(
            &rt,
            &format_args!("{case:?} first"),
            &[record, PLAIN],
            &MOVES,
        );
        check_bare(
            &rt,
            &format_args!("{case:?} last"),
            &[PLAIN, record],
            &MOVES,
        );
    }
}

#[test]
fn a_table_has_1_to_512_records(rt: HostRuntime) -> Result<(), Fail> {
    let none: [Record; 0] = [];
    check_bare(&rt, &"no records", &none, &MOVES);
    check_shown(&rt, &"1 record", &[PLAIN], &MOVES, 1);
    let most = vec![in rt.alloc(); PLAIN; 512]?;
    check_shown(&rt, &"512 records", most.as_slice(), &MOVES, 512);
    let more = vec![in rt.alloc(); PLAIN; 513]?;
    check_bare(&rt, &"513 records", more.as_slice(), &MOVES);
    Ok(())
}

#[test]
fn a_record_has_at_most_16_moves(rt: HostRuntime) {
    let moves = [0, 1, 2, 3, 4, 5, 6, 7, 8, 9, 10, 11, 12, 13, 14, 15, 16];
    let mut records = [PLAIN; 17];
    records[16] = record_of((1, 2, 1, 16));
    check_shown(&rt, &"16 moves", &records, &moves, 17);
    assert_eq!(rt; Table::new(&records, &moves).move_at(16, 15), 16);
    records[16] = record_of((1, 2, 0, 17));
    check_bare(&rt, &"17 moves", &records, &moves);
}

#[test]
fn two_numbers_stand_for_sides(rt: HostRuntime) {
    assert_eq!(rt; Side::try_from(0), Ok(Side::Controller));
    assert_eq!(rt; Side::try_from(1), Ok(Side::Kiln));
    assert_eq!(rt; (Side::Controller as u8, Side::Kiln as u8), (0, 1));
    for number in 2..=255u8 {
        assert_eq!(rt; Side::try_from(number), Err(UnknownSide(number)));
    }
}

#[test]
fn refusals_have_their_numbers(rt: HostRuntime) {
    let numbered = [
        (TextRefusal::NoLine, 11),
        (TextRefusal::NotDigits, 12),
        (TextRefusal::NotDue, 13),
        (TextRefusal::BadCount, 14),
        (TextRefusal::BadSpot, 15),
        (TextRefusal::BadMove, 16),
        (TextRefusal::BadTotal, 17),
        (TextRefusal::NoRoom, 18),
    ];
    for case in &numbered {
        let (refusal, number) = *case;
        assert_eq!(rt; refusal.number(), number);
    }
    assert_eq!(rt; WriteRefusal::TooShort.number(), 19);
    assert_eq!(rt; TableRefusal::Unsound.number(), 20);
}
