ghost use Rattle.std.proofs.Common.{rules};
ghost use Rattle.board_text.specs.Refusals.{number_of, write_number_of};

use board::Refusal;
use std::fmt;

// Why a text was refused, in the order in which a line is checked.
#[derive(Clone, Copy, Debug, PartialEq, Eq)]
pub enum TextRefusal {
    // No LF ends the line, or there is no line where one is due.
    NoLine = 11,
    // A byte that is no digit, or an odd number of digits.
    NotDigits = 12,
    // A kind or a length that is not due here.
    NotDue = 13,
    // The number of positions is 0 or above 512.
    BadCount = 14,
    // The side is above 1, or the label above 15.
    BadSpot = 15,
    // A move that is no position, or is not above the one before it.
    BadMove = 16,
    // The last line's number is not the total of all moves.
    BadTotal = 17,
    // The record slice or the move slice is too short for the board.
    NoRoom = 18,
}

impl Refusal for TextRefusal {
    ghost known_as = { number_of };

    ghost above_0 = { Prim.search rules };

    fn number(&self) -> u8 {
        *self as u8
    }
}

impl fmt::Display for TextRefusal {
    fn fmt<W: fmt::Write>(&self, f: &mut fmt::Formatter<W>) -> fmt::Result {
        f.write_str(match self {
            TextRefusal::NoLine => "no line feed ends the line, or no line stands where one is due",
            TextRefusal::NotDigits => "a byte is no digit, or the digits are odd in number",
            TextRefusal::NotDue => "the line's kind or length is not due here",
            TextRefusal::BadCount => "the number of positions is 0 or above 512",
            TextRefusal::BadSpot => "the side is above 1, or the label above 15",
            TextRefusal::BadMove =>
                "a move leads to no position, or is not above the one before it",
            TextRefusal::BadTotal => "the number is not the total of all moves",
            TextRefusal::NoRoom => "the record slice or the move slice is too short",
        })
    }
}

// Why a board was not written.
#[derive(Clone, Copy, Debug, PartialEq, Eq)]
pub enum WriteRefusal {
    // The slice is shorter than the text.
    TooShort = 19,
}

impl Refusal for WriteRefusal {
    ghost known_as = { write_number_of };

    ghost above_0 = { Prim.search rules };

    fn number(&self) -> u8 {
        *self as u8
    }
}
