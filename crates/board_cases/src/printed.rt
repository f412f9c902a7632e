// What a text is turned into: the board's one text, or its refusal in one line.
use crate::checks::{THREE, check_same};
use board_text::{reformat, refusal_line};
use std::test::Fail;

// A text, and what is printed for it.
const PRINTED: [(&str, &str); 8] = [
    (THREE, THREE),
    (
        "010001\n02010F0000\n030001\n",
        "010001\n02010F0000\n030001\n",
    ),
    ("", "1F0B0001\n"),
    ("010000\n", "1F0E0001\n"),
    ("010201\n", "1F0E0001\n"),
    ("010200\n", "1F0B0002\n"),
    // A side of 16.
    ("010001\n021000\n030000\n", "1F0F0002\n"),
    // A total of 1, where there is no move.
    ("010001\n020000\n030001\n", "1F110003\n"),
];

#[test]
fn prints_the_board_or_the_refusal(rt: HostRuntime) -> Result<(), Fail> {
    for (text, printed) in &PRINTED {
        let done = reformat(rt.alloc(), text.as_bytes())?;
        let what = format!(in rt.alloc(); "what is printed for {text:?}")?;
        check_same(&rt, what.as_str(), done.text.as_slice(), printed.as_bytes());
    }
    Ok(())
}

#[test]
fn a_refusal_has_two_digits_and_its_line_four(rt: HostRuntime) {
    check_same(&rt, "18 at line 0", &refusal_line(18, 0), b"1F120000\n");
    check_same(&rt, "17 at line 514", &refusal_line(17, 514), b"1F110202\n");
    check_same(&rt, "the largest", &refusal_line(255, 65535), b"1FFFFFFF\n");
}
