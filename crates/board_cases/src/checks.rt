// What tests of several modules do alike. Answers are turned into plain numbers, in which the cases are
// written; 0 stands where nothing was refused. A match does it where both sides have numbers of their own.
use board::{Record, Refusal, Table};
use board_text::{read, write};
use std::fmt::Debug;
use std::process::Abort;

// A record that no table keeps: what stands in a slice before anything is read.
pub(crate) const FILLER: Record = Record {
    side: 77,
    label: 88,
    first: 9999,
    count: 7777,
};

// The two counts that reading answers, and the refusal's number and line.
pub(crate) fn read_answer(
    text: &[u8],
    records: &mut [Record],
    moves: &mut [u16],
) -> ((usize, usize), (u8, u16)) {
    match read(text, records, moves) {
        Ok(counts) => (counts, (0, 0)),
        Err((refusal, line)) => ((0, 0), (refusal.number(), line)),
    }
}

// The length that writing the table answers, and the refusal's number.
pub(crate) fn write_answer<'a>(
    records: &'a [Record],
    moves: &'a [u16],
    out: &mut [u8],
) -> (usize, u8) {
    match write(&Table::new(records, moves), out) {
        Ok(length) => (length, 0),
        Err(refusal) => (0, refusal.number()),
    }
}

// The refusal's number that the question about the two slices answers.
pub(crate) fn table_answer(records: &[Record], moves: &[u16]) -> u8 {
    Table::check(records, moves)
        .err()
        .map_or(0, |refusal| refusal.number())
}

// What a reader with room for 4 records and 32 moves says of the text.
pub(crate) fn judge(text: &[u8]) -> (u8, u16) {
    let mut records = [FILLER; 4];
    let mut moves = [0; 32];
    read_answer(text, &mut records, &mut moves).1
}

// The board of three positions that most tests begin from.
pub(crate) const THREE: &str = "010003\n02000000010002\n02000100000002\n0200030002\n030005\n";

// Each text is refused with the number and the line that stand beside it; (0, 0) is no refusal.
pub(crate) fn check_judged(rt: &impl Abort, cases: &[(&str, u8, u16)]) {
    for case in cases {
        let (text, number, line) = *case;
        assert_eq!(rt; judge(text.as_bytes()), (number, line), "{text:?}");
    }
}

// The two slices are the same; else the first place that differs is told.
pub(crate) fn check_same<T: PartialEq>(rt: &impl Abort, what: &str, left: &[T], right: &[T]) {
    assert_eq!(rt; left.len(), right.len(), "places of {what}");
    let differs = left.iter().zip(right).position(|(a, b)| a != b);
    assert_eq!(rt; differs, None, "the place of {what} that differs");
}

// Every place still holds the filler that stood there before.
pub(crate) fn check_kept<T: PartialEq + Debug + Copy>(
    rt: &impl Abort,
    what: &str,
    items: &[T],
    filler: T,
) {
    for (i, item) in items.iter().enumerate() {
        assert_eq!(rt; *item, filler, "place {i} of {what}");
    }
}
