ghost use Rattle.std.specs.Prelude.{◌≡◌, ◌+◌, ◌≤◌, true, length, is_ok};
ghost use Rattle.board.specs.Spot.{all_moves};
ghost use Rattle.board_text.specs.Put.{put};
ghost use Rattle.board_text.specs.Passes.{judged, board_in};
ghost use Rattle.board_text.specs.Reading.{records_of};
ghost use Rattle.board_text.specs.SpotLines.{position_of};

use crate::opened::Opened;
use crate::spot_line::SpotLine;
use board::Record;

impl SpotLine<'_> {
    // Writes the moves from the place `first` on.
    fn fill(&self, moves: &mut [u16], first: u16)
        requires { first + length (position_of self.now).moves ≤ length moves.old }
        ensures { moves.new ≡ put first (position_of self.now).moves moves.old }
    {
        // By place: of what a `zip` over `iter_mut` wrote, the check knows nothing afterwards.
        let first = usize::from(first);
        for (place, to) in self.moves().enumerate() {
            moves[first + place] = to;
        }
    }
}

impl Opened<'_> {
    // Writes the records and the moves into the front of the two slices. The lines were surveyed, so none
    // of them is refused.
    pub(crate) fn fill(&self, records: &mut [Record], moves: &mut [u16])
        requires good { is_ok (judged self.now) ≡ true }
        requires records { self.now.count ≤ length records.old }
        requires moves { length (all_moves (board_in (judged self.now))) ≤ length moves.old }
        ensures records { records.new ≡ put 0 (records_of 0 (board_in (judged self.now))) records.old }
        ensures moves { moves.new ≡ put 0 (all_moves (board_in (judged self.now))) moves.old }
    {
        let mut lines = self.lines;
        let mut first = 0;
        for record in &mut records[..usize::from(self.count)] {
            let spot = lines.next().unwrap().spot().unwrap();
            spot.fill(moves, first);
            *record = spot.record(first);
            first += spot.count();
        }
    }
}
