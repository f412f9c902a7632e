ghost use Rattle.board.specs.Side.{StandsForSide};

use std::error::Error;
use std::fmt;

// Who moves at a position.
#[derive(Clone, Copy, Debug, PartialEq, Eq)]
pub enum Side {
    Controller = 0,
    Kiln = 1,
}

// A number that stands for no side.
#[derive(Clone, Copy, Debug, PartialEq, Eq)]
pub struct UnknownSide(pub u8);

impl fmt::Display for UnknownSide {
    fn fmt<W: fmt::Write>(&self, f: &mut fmt::Formatter<W>) -> fmt::Result {
        write!(f, "no side has the number {}", self.0)
    }
}

impl Error for UnknownSide {}

impl TryFrom<u8> for Side {
    type Error = UnknownSide;

    ghost try_from_gives = { StandsForSide };

    fn try_from(number: u8) -> Result<Side, UnknownSide> {
        match number {
            0 => Ok(Side::Controller),
            1 => Ok(Side::Kiln),
            _ => Err(UnknownSide(number)),
        }
    }
}
