ghost use Rattle.std.specs.Prelude.{◌≡◌, ◌+◌};
ghost use Rattle.board_text.specs.Kinds.{kind_number};

// The kinds of line. The number of its kind stands in the first two digits of a line.
#[derive(Clone, Copy)]
pub(crate) enum LineKind {
    // The first line, which holds the number of positions.
    Count = 1,
    // A position's line.
    Spot = 2,
    // The last line, which holds the total of all moves.
    Total = 3,
}

impl LineKind {
    // The second of the two digits; the first is 0.
    pub(crate) fn digit(self) -> u8
        ensures { result ≡ 48 + kind_number self }
    {
        b'0' + self as u8
    }
}
