// Each refusal of a text, by the number and the line that it must have. Where a comment names a
// second fault, it stands later in the order of the checks, or on a later line.
use crate::checks::check_judged;

// 11: no LF, or no line where one is due. It goes before every other fault of the line.
const UNENDED: [(&str, u8, u16); 18] = [
    ("", 11, 1),
    ("0", 11, 1),
    ("010003", 11, 1),
    // A bad byte too.
    ("01 003", 11, 1),
    // An odd number of digits and a wrong kind too.
    ("02000", 11, 1),
    ("010003x", 11, 1),
    // A bad count too.
    ("010000", 11, 1),
    ("010003\n", 11, 2),
    // The largest count passes.
    ("010200\n", 11, 2),
    // And the smallest.
    ("010001\n", 11, 2),
    ("010003\n02000000010002", 11, 2),
    // A bad byte too.
    ("010003\n0200x", 11, 2),
    // A bad side, label and move too.
    ("010003\n0202100003", 11, 2),
    // A kind that is not due too.
    ("010003\n02000000010002\n03", 11, 3),
    ("010003\n02000000010002\n02000100000002\n", 11, 4),
    // No last line.
    (
        "010003\n02000000010002\n02000100000002\n0200030002\n",
        11,
        5,
    ),
    // A wrong total too.
    (
        "010003\n02000000010002\n02000100000002\n0200030002\n030006",
        11,
        5,
    ),
    ("010001\n020000\n", 11, 3),
];

// 12: a byte that is no digit, or an odd number of digits. It goes before a wrong kind or length.
const NO_DIGITS: [(&str, u8, u16); 27] = [
    // Lower-case.
    ("01000a\n", 12, 1),
    ("01000f\n", 12, 1),
    // CR.
    ("010003\r\n", 12, 1),
    // CR in an even number of bytes.
    ("01003\r\n", 12, 1),
    // A space.
    ("01 003\n", 12, 1),
    ("010003 \n", 12, 1),
    // The byte before 0.
    ("01000/\n", 12, 1),
    // The byte after 9.
    ("01000:\n", 12, 1),
    // The byte before A.
    ("01000@\n", 12, 1),
    // The byte after F.
    ("01000G\n", 12, 1),
    ("01000\0\n", 12, 1),
    // Two bytes above 127.
    ("0100é\n", 12, 1),
    // Odd.
    ("01000\n", 12, 1),
    ("0\n", 12, 1),
    // A wrong kind too.
    ("02000g\n", 12, 1),
    // Odd, and a wrong kind too.
    ("0300000\n", 12, 1),
    // A wrong length too.
    ("0x\n", 12, 1),
    // Odd, and a bad count too.
    ("0102010\n", 12, 1),
    ("010003\n0200000001000g\n", 12, 2),
    // A bad side and label too.
    ("010003\n0202FF000g\n", 12, 2),
    // Odd.
    ("010003\n02000000010002\n0200010000000\n", 12, 3),
    (
        "010003\n02000000010002\n02000100000002\n020003 0002\n",
        12,
        4,
    ),
    // A kind that is not due too.
    ("010003\n02000000010002\n02000100000002\n030003 \n", 12, 4),
    // A wrong total too.
    (
        "010003\n02000000010002\n02000100000002\n0200030002\n03000a\n",
        12,
        5,
    ),
    // Odd.
    (
        "010003\n02000000010002\n02000100000002\n0200030002\n03005\n",
        12,
        5,
    ),
    // The next line has no LF.
    ("01000g\n0", 12, 1),
    // The next line is odd.
    ("010003\n02000000010002 \n02000\n", 12, 2),
];

// 13: a kind or a length that is not due here. It goes before a bad count, side, label, move or total.
const NOT_DUE: [(&str, u8, u16); 34] = [
    // A first line of kind 02.
    ("020003\n", 13, 1),
    ("030003\n", 13, 1),
    ("000003\n", 13, 1),
    ("110003\n", 13, 1),
    ("100003\n", 13, 1),
    ("0A0003\n", 13, 1),
    // No digits, which is an even number.
    ("\n", 13, 1),
    ("01\n", 13, 1),
    ("0100\n", 13, 1),
    ("01000300\n", 13, 1),
    // A bad count too.
    ("020000\n", 13, 1),
    ("020201\n", 13, 1),
    // A wrong length, and a bad count too.
    ("01000000\n", 13, 1),
    ("010003\n\n", 13, 2),
    ("010003\n02\n", 13, 2),
    ("010003\n0200\n", 13, 2),
    // 6 and 2 digits.
    ("010003\n02000000\n", 13, 2),
    // 6 and 6 digits.
    ("010003\n020000000100\n", 13, 2),
    // 6 and 2 digits, and a bad side too.
    ("010003\n02020010\n", 13, 2),
    // A wrong kind.
    ("010003\n12000000010002\n", 13, 2),
    // A wrong kind, and a bad side and bad moves too.
    ("010003\n03020000030001\n", 13, 2),
    // A first line again.
    ("010003\n010003\n", 13, 2),
    // A last line where a position is due.
    ("010003\n02000000010002\n030002\n", 13, 3),
    // Seventeen moves.
    (
        "010011\n0200000000000100020003000400050006000700080009000A000B000C000D000E000F0010\n",
        13,
        2,
    ),
    // Seventeen moves, and a bad side too.
    (
        "010011\n02020F0000000100020003000400050006000700080009000A000B000C000D000E000F0010\n",
        13,
        2,
    ),
    // Seventeen moves, most of them too high.
    (
        "010003\n0200000000000100020003000400050006000700080009000A000B000C000D000E000F0010\n",
        13,
        2,
    ),
    // A position where the last line is due.
    ("010001\n020000\n020000\n030000\n", 13, 3),
    (
        "010003\n02000000010002\n02000100000002\n0200030002\n0200030002\n030005\n",
        13,
        5,
    ),
    // A last line of 8 digits.
    ("010001\n020000\n03000000\n", 13, 3),
    // And of 4.
    ("010001\n020000\n0300\n", 13, 3),
    // A wrong total too.
    ("010001\n020000\n010001\n", 13, 3),
    // A wrong length, and a wrong total too.
    ("010001\n020000\n03000100\n", 13, 3),
    (
        "010003\n02000000010002\n02000100000002\n0200030002\n03000500\n",
        13,
        5,
    ),
    // The next line is odd.
    ("010003\n02000000\n0200010000000\n", 13, 2),
];

// 14: the number of positions is 0 or above 512. Only the first line can have it.
const BAD_COUNT: [(&str, u8, u16); 10] = [
    ("010000\n", 14, 1),
    ("010201\n", 14, 1),
    ("010202\n", 14, 1),
    ("010300\n", 14, 1),
    ("011000\n", 14, 1),
    ("018000\n", 14, 1),
    ("01FFFF\n", 14, 1),
    ("010000\n030000\n", 14, 1),
    // The next line has a bad byte.
    ("010000\n0x\n", 14, 1),
    // The next line has no LF.
    ("010201\n02", 14, 1),
];

// 15: the side is above 1, or the label above 15. It goes before a bad move.
const BAD_SPOT: [(&str, u8, u16); 11] = [
    ("010001\n020200\n030000\n", 15, 2),
    ("010001\n020010\n030000\n", 15, 2),
    ("010001\n021000\n030000\n", 15, 2),
    ("010001\n02FF00\n030000\n", 15, 2),
    ("010001\n0201FF\n030000\n", 15, 2),
    // Both.
    ("010001\n020210\n030000\n", 15, 2),
    // A bad move too.
    ("010001\n0202000001\n030001\n", 15, 2),
    ("010001\n0200100001\n030001\n", 15, 2),
    ("010002\n020000\n020110\n030000\n", 15, 3),
    // The next line has a wrong total.
    (
        "010003\n02000000010002\n02000100000002\n0200100002\n030009\n",
        15,
        4,
    ),
    // The next line has a bad byte.
    ("010002\n020200\n0200g0\n", 15, 2),
];

// 16: a move that is not below the number of positions, or not above the one before it.
const BAD_MOVE: [(&str, u8, u16); 15] = [
    // Equal to the number of positions.
    ("010003\n0200000003\n", 16, 2),
    ("010001\n0200000001\n030001\n", 16, 2),
    ("010200\n0200000200\n", 16, 2),
    // Above it.
    ("010003\n0200000004\n", 16, 2),
    ("010003\n020000FFFF\n", 16, 2),
    ("010003\n0200000100\n", 16, 2),
    // Equal to the one before.
    ("010003\n02000000010001\n", 16, 2),
    ("010003\n02000000000000\n", 16, 2),
    // Below the one before.
    ("010003\n02000000020001\n", 16, 2),
    // The third of three.
    ("010003\n020000000000010003\n", 16, 2),
    ("010003\n020000000000020001\n", 16, 2),
    ("010003\n02000000010002\n02000100020000\n", 16, 3),
    (
        "010003\n02000000010002\n02000100000002\n0200030003\n030005\n",
        16,
        4,
    ),
    // The next line has a bad side.
    ("010003\n0200000003\n020200\n", 16, 2),
    // The next line has a wrong total.
    (
        "010003\n02000000010002\n02000100000002\n0200030003\n030006\n",
        16,
        4,
    ),
];

// 17: the last line does not write the total of all moves.
const BAD_TOTAL: [(&str, u8, u16); 10] = [
    (
        "010003\n02000000010002\n02000100000002\n0200030002\n030004\n",
        17,
        5,
    ),
    (
        "010003\n02000000010002\n02000100000002\n0200030002\n030006\n",
        17,
        5,
    ),
    (
        "010003\n02000000010002\n02000100000002\n0200030002\n030000\n",
        17,
        5,
    ),
    (
        "010003\n02000000010002\n02000100000002\n0200030002\n030500\n",
        17,
        5,
    ),
    (
        "010003\n02000000010002\n02000100000002\n0200030002\n030105\n",
        17,
        5,
    ),
    (
        "010003\n02000000010002\n02000100000002\n0200030002\n03FFFF\n",
        17,
        5,
    ),
    ("010001\n020000\n030001\n", 17, 3),
    ("010001\n0200000000\n030000\n", 17, 3),
    // The next line has a bad byte and no LF.
    ("010001\n020000\n030001\nx", 17, 3),
    // The next line is the right one.
    ("010001\n020000\n030001\n030000\n", 17, 3),
];

#[test]
fn refuses_a_line_that_does_not_end_or_is_not_there(rt: HostRuntime) {
    check_judged(&rt, &UNENDED);
}

#[test]
fn refuses_a_byte_that_is_no_digit_and_an_odd_number_of_digits(rt: HostRuntime) {
    check_judged(&rt, &NO_DIGITS);
}

#[test]
fn refuses_a_kind_or_length_that_is_not_due(rt: HostRuntime) {
    check_judged(&rt, &NOT_DUE);
}

#[test]
fn refuses_a_number_of_positions_outside_the_limits(rt: HostRuntime) {
    check_judged(&rt, &BAD_COUNT);
}

#[test]
fn refuses_a_side_above_1_and_a_label_above_15(rt: HostRuntime) {
    check_judged(&rt, &BAD_SPOT);
}

#[test]
fn refuses_a_move_outside_the_board_or_not_above_the_one_before(rt: HostRuntime) {
    check_judged(&rt, &BAD_MOVE);
}

#[test]
fn refuses_a_wrong_total(rt: HostRuntime) {
    check_judged(&rt, &BAD_TOTAL);
}
