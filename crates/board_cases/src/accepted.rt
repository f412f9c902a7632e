// Texts that are boards: what is read from them, what the table over it answers, and what is written
// back.
use crate::checks::{
    FILLER, THREE, check_judged, check_kept, check_same, read_answer, write_answer,
};
use board::{Board, Record, Table, count_label, count_moves, count_side};

const ACCEPTED: [(&str, u8, u16); 6] = [
    (THREE, 0, 0),
    // The smallest board.
    ("010001\n020000\n030000\n", 0, 0),
    // The highest side and label, and a move to the only position.
    ("010001\n02010F0000\n030001\n", 0, 0),
    ("010002\n0201000001\n02000F00000001\n030003\n", 0, 0),
    // No position has a move.
    ("010003\n020000\n02010A\n02000B\n030000\n", 0, 0),
    (
        "010004\n0200000000000100020003\n020000\n0201000003\n020000\n030005\n",
        0,
        0,
    ),
];

// The records and the moves of the board of three positions.
pub(crate) const RECORDS: [Record; 3] = [
    Record {
        side: 0,
        label: 0,
        first: 0,
        count: 2,
    },
    Record {
        side: 0,
        label: 1,
        first: 2,
        count: 2,
    },
    Record {
        side: 0,
        label: 3,
        first: 4,
        count: 1,
    },
];

pub(crate) const MOVES: [u16; 5] = [1, 2, 0, 2, 2];

// Position, side, label, number of moves; there is no position 3.
const POSITIONS: [(u16, u8, u8, u8); 5] = [
    (0, 0, 0, 2),
    (1, 0, 1, 2),
    (2, 0, 3, 1),
    (3, 0, 0, 0),
    (65535, 0, 0, 0),
];

// Position, place, where the move leads; 0 where there is no such place.
const PLACES: [(u16, u8, u16); 12] = [
    (0, 0, 1),
    (0, 1, 2),
    (0, 2, 0),
    (0, 255, 0),
    (1, 0, 0),
    (1, 1, 2),
    (1, 2, 0),
    (2, 0, 2),
    (2, 1, 0),
    (3, 0, 0),
    (3, 1, 0),
    (65535, 0, 0),
];

#[test]
fn accepts_boards_within_the_limits(rt: HostRuntime) {
    check_judged(&rt, &ACCEPTED);
}

#[test]
fn reads_three_positions_and_keeps_later_places(rt: HostRuntime) {
    let mut records = [FILLER; 5];
    let mut moves = [7777; 8];
    let answer = read_answer(THREE.as_bytes(), &mut records, &mut moves);
    assert_eq!(rt; answer, ((3, 5), (0, 0)));
    check_same(&rt, "records", &records[0..3], &RECORDS);
    check_same(&rt, "moves", &moves[0..5], &MOVES);
    check_kept(&rt, "later records", &records[3..5], FILLER);
    check_kept(&rt, "later moves", &moves[5..8], 7777);
}

#[test]
fn a_table_answers_its_questions(rt: HostRuntime) {
    let table = Table::new(&RECORDS, &MOVES);
    assert_eq!(rt; table.count(), 3);
    for (position, side, label, moves) in &POSITIONS {
        let answers = (
            table.side(*position) as u8,
            table.label(*position),
            table.moves(*position),
        );
        assert_eq!(rt; answers, (*side, *label, *moves), "position {position}");
    }
    for (position, place, to) in &PLACES {
        assert_eq!(rt;
            table.move_at(*position, *place),
            *to,
            "{position}, {place}"
        );
    }
}

#[test]
fn writes_three_positions_and_keeps_later_bytes(rt: HostRuntime) {
    let mut out = [b'#'; 60];
    assert_eq!(rt; write_answer(&RECORDS, &MOVES, &mut out), (55, 0));
    check_same(&rt, "the text", &out[0..55], THREE.as_bytes());
    check_kept(&rt, "later bytes", &out[55..60], b'#');
}

#[test]
fn counts_sides_labels_and_moves(rt: HostRuntime) {
    let table = Table::new(&RECORDS, &MOVES);
    assert_eq!(rt; count_moves(&table), 5);
    for (side, count) in (0..3u8).zip([3, 0, 0]) {
        assert_eq!(rt; count_side(&table, side), count, "side {side}");
    }
    for (label, count) in (0..5u8).zip([1, 1, 0, 1, 0]) {
        assert_eq!(rt; count_label(&table, label), count, "label {label}");
    }
}
