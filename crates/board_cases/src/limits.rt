// The longest text: 512 positions with 16 moves each.
use crate::checks::{FILLER, check_kept, check_same, read_answer, write_answer};
use board::Record;
use board_text::reformat;
use std::alloc::{AllocError, Global};
use std::process::Abort;
use std::test::Fail;

// 7 bytes for the first line and for the last, 7 and 16 times 4 for each of the 512 between them.
const LENGTH: usize = 36366;

// The moves to the first sixteen positions, and to the last sixteen, with the LF.
const LOW_MOVES: &[u8; 65] = b"0000000100020003000400050006000700080009000A000B000C000D000E000F\n";

const HIGH_MOVES: &[u8; 65] = b"01F001F101F201F301F401F501F601F701F801F901FA01FB01FC01FD01FE01FF\n";

const DIGITS: &[u8; 16] = b"0123456789ABCDEF";

// The sides take turns, from the controller on; the labels go round. The controller moves to the first
// sixteen positions, the kiln to the last sixteen.
fn longest_text(heap: Global) -> Result<Vec<u8>, AllocError> {
    let mut text = Vec::new(heap);
    text.extend_from_slice(b"010200\n")?;
    for position in 0..512usize {
        let label = DIGITS[position % 16];
        if position % 2 == 0 {
            text.extend_from_slice(b"02000")?;
            text.push(label)?;
            text.extend_from_slice(LOW_MOVES)?;
        } else {
            text.extend_from_slice(b"02010")?;
            text.push(label)?;
            text.extend_from_slice(HIGH_MOVES)?;
        }
    }
    text.extend_from_slice(b"032000\n")?;
    Ok(text)
}

// The records of that board.
fn longest_records(heap: Global) -> Result<Vec<Record>, AllocError> {
    (0..512u16)
        .map(|position| Record {
            side: (position % 2) as u8,
            label: (position % 16) as u8,
            first: 16 * position,
            count: 16,
        })
        .collect(heap)
}

// The moves of that board.
fn longest_moves(heap: Global) -> Result<Vec<u16>, AllocError> {
    let mut moves = Vec::new(heap);
    for position in 0..512u16 {
        let first = if position % 2 == 0 { 0 } else { 496 };
        for place in 0..16u16 {
            moves.push(first + place)?;
        }
    }
    Ok(moves)
}

#[test]
fn reads_the_longest_text(rt: HostRuntime) -> Result<(), Fail> {
    let text = longest_text(rt.alloc())?;
    let mut records = vec![in rt.alloc(); FILLER; 512]?;
    let mut moves = vec![in rt.alloc(); 7777; 8192]?;
    let answer = read_answer(
        text.as_slice(),
        records.as_mut_slice(),
        moves.as_mut_slice(),
    );
    assert_eq!(rt; answer, ((512, 8192), (0, 0)));
    let expected = longest_records(rt.alloc())?;
    check_same(&rt, "records", records.as_slice(), expected.as_slice());
    let expected = longest_moves(rt.alloc())?;
    check_same(&rt, "moves", moves.as_slice(), expected.as_slice());
    Ok(())
}

// The longest text is refused by slices with so much room, and they are left as they were.
fn check_no_room(
    rt: &impl Abort,
    heap: Global,
    record_room: usize,
    move_room: usize,
) -> Result<(), Fail> {
    let text = longest_text(heap)?;
    let mut records = vec![in heap; FILLER; record_room]?;
    let mut moves = vec![in heap; 7777; move_room]?;
    let answer = read_answer(
        text.as_slice(),
        records.as_mut_slice(),
        moves.as_mut_slice(),
    );
    assert_eq!(rt; answer, ((0, 0), (18, 0)));
    check_kept(rt, "records", records.as_slice(), FILLER);
    check_kept(rt, "moves", moves.as_slice(), 7777);
    Ok(())
}

#[test]
fn refuses_the_longest_text_where_one_place_is_missing(rt: HostRuntime) -> Result<(), Fail> {
    check_no_room(&rt, rt.alloc(), 511, 8192)?;
    check_no_room(&rt, rt.alloc(), 512, 8191)
}

#[test]
fn writes_the_longest_text_where_it_just_fits(rt: HostRuntime) -> Result<(), Fail> {
    let records = longest_records(rt.alloc())?;
    let moves = longest_moves(rt.alloc())?;
    let mut out = vec![in rt.alloc(); b'#'; LENGTH]?;
    let answer = write_answer(records.as_slice(), moves.as_slice(), out.as_mut_slice());
    assert_eq!(rt; answer, (LENGTH, 0));
    let text = longest_text(rt.alloc())?;
    check_same(&rt, "the text", out.as_slice(), text.as_slice());
    Ok(())
}

#[test]
fn does_not_write_the_longest_text_where_one_byte_is_missing(rt: HostRuntime) -> Result<(), Fail> {
    let records = longest_records(rt.alloc())?;
    let moves = longest_moves(rt.alloc())?;
    let mut out = vec![in rt.alloc(); b'#'; LENGTH - 1]?;
    let answer = write_answer(records.as_slice(), moves.as_slice(), out.as_mut_slice());
    assert_eq!(rt; answer, (0, 19));
    check_kept(&rt, "bytes", out.as_slice(), b'#');
    Ok(())
}

#[test]
fn reformats_the_longest_text(rt: HostRuntime) -> Result<(), Fail> {
    let text = longest_text(rt.alloc())?;
    let done = reformat(rt.alloc(), text.as_slice())?;
    check_same(&rt, "the text", done.text.as_slice(), text.as_slice());
    let Ok(summary) = done.outcome else {
        return Err(Fail::new("the text was refused"));
    };
    assert_eq!(rt;
        (summary.controller, summary.kiln, summary.moves),
        (256, 256, 8192)
    );
    check_kept(&rt, "labels", &summary.labels, 32);
    Ok(())
}
