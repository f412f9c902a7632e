// Slices that are too short, and slices that a refusal leaves alone.
use crate::accepted::{MOVES, RECORDS};
use crate::checks::{FILLER, THREE, check_kept, check_same, read_answer, write_answer};
use board::Record;
use std::process::Abort;

// Texts with a fault, its number and its line.
const FAULTY: [(&str, u8, u16); 4] = [
    ("", 11, 1),
    (
        "010003\n02000000010002\n02000100000002\n0200030003\n030005\n",
        16,
        4,
    ),
    (
        "010003\n02000000010002\n02000100000002\n0200030002\n030006\n",
        17,
        5,
    ),
    (
        "010003\n02000000010002\n02000100000002\n0200030002\n030005\n0",
        11,
        6,
    ),
];

// The board of three positions does not fit into the slices, and they are left as they were.
fn check_no_room(rt: &impl Abort, records: &mut [Record], moves: &mut [u16]) {
    let answer = read_answer(THREE.as_bytes(), records, moves);
    assert_eq!(rt; answer, ((0, 0), (18, 0)));
    check_kept(rt, "records", records, FILLER);
    check_kept(rt, "moves", moves, 7777);
}

#[test]
fn refuses_too_short_slices_and_leaves_them_untouched(rt: HostRuntime) {
    check_no_room(&rt, &mut [FILLER; 2], &mut [7777; 5]);
    check_no_room(&rt, &mut [FILLER; 3], &mut [7777; 4]);
    check_no_room(&rt, &mut [FILLER; 2], &mut [7777; 4]);
    check_no_room(&rt, &mut [FILLER; 0], &mut [7777; 9]);
    check_no_room(&rt, &mut [FILLER; 9], &mut [7777; 0]);
}

#[test]
fn a_refused_text_leaves_both_slices_untouched(rt: HostRuntime) {
    for (text, number, line) in &FAULTY {
        let mut records = [FILLER; 4];
        let mut moves = [7777; 8];
        let answer = read_answer(text.as_bytes(), &mut records, &mut moves);
        assert_eq!(rt; answer, ((0, 0), (*number, *line)), "{text:?}");
        check_kept(&rt, "records", &records, FILLER);
        check_kept(&rt, "moves", &moves, 7777);
    }
}

#[test]
fn a_fault_of_the_text_goes_before_a_lack_of_room(rt: HostRuntime) {
    for (text, number, line) in &FAULTY {
        let answer = read_answer(text.as_bytes(), &mut [], &mut []);
        assert_eq!(rt; answer, ((0, 0), (*number, *line)), "{text:?}");
    }
}

// The board of three positions does not fit into the slice, and it is left as it was.
fn check_not_written(rt: &impl Abort, out: &mut [u8]) {
    assert_eq!(rt; write_answer(&RECORDS, &MOVES, out), (0, 19));
    check_kept(rt, "bytes", out, b'#');
}

#[test]
fn writes_only_into_a_slice_that_is_long_enough(rt: HostRuntime) {
    check_not_written(&rt, &mut [b'#'; 0]);
    check_not_written(&rt, &mut [b'#'; 54]);
    let mut out = [b'#'; 55];
    assert_eq!(rt; write_answer(&RECORDS, &MOVES, &mut out), (55, 0));
    check_same(&rt, "the text", &out, THREE.as_bytes());
}
