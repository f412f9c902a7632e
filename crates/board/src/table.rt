ghost use Rattle.std.specs.Prelude.{◌≡◌, is_ok, if◌then◌else◌, Decides, slice_index_or};
ghost use Rattle.board.specs.Fairness.{board_of-fair};
ghost use Rattle.board.specs.Refusals.{number_answered, number_of, refused_unless};
ghost use Rattle.board.specs.declared.refusals.TableRefusal.TheVariants.{Unsound};
ghost use Rattle.board.specs.Spot.{spot_at};
ghost use Rattle.board.specs.Table.{Sound, blank_record, sound_table, kept, board_of};

use crate::board::Board;
use crate::records::Record;
use crate::refusals::TableRefusal;
use crate::side::Side;
use crate::soundness::is_sound;

// The board that records and moves in two slices show. Over slices that are not sound it is bare:
// one kiln position with label 0 and no moves.
#[derive(Clone, Copy)]
pub struct Table<'a> {
    records: &'a [Record],
    moves: &'a [u16],
    // Decided once, when the table is made, so that each question is answered in constant time. A flag beside
    // the slices, and no `Option` of them: both stand here as they were given, sound or not.
    sound: bool,
    ghost decided: { sound ≡ sound_table records.now moves.now },
}

// The one position of the bare board.
const BARE: Record = Record {
    side: Side::Kiln as u8,
    label: 0,
    first: 0,
    count: 0,
};

impl<'a> Table<'a> {
    // The question beforehand: whether the slices are sound, or refusal 20.
    pub fn check(records: &[Record], moves: &[u16]) -> Result<(), TableRefusal>
        ensures answer { result ≡ refused_unless (sound_table records.now moves.now) Unsound }
        ensures number { number_answered number_of result ≡ (if sound_table records.now moves.now then 0 else 20) }
        ensures means { Decides (is_ok result) (Sound records.now moves.now) }
    {
        if is_sound(records, moves) {
            Ok(())
        } else {
            Err(TableRefusal::Unsound)
        }
    }

    // The board over these slices, whatever they hold.
    pub fn new(records: &'a [Record], moves: &'a [u16]) -> Table<'a>
        ensures records { result.records.now ≡ records.now }
        ensures moves { result.moves.now ≡ moves.now }
    {
        let sound = is_sound(records, moves);
        Table {
            records,
            moves,
            sound,
        }
    }

    // The records that count: those of the slice, or the bare board's one where the slices are not sound.
    fn kept(&self) -> &'a [Record]
        ensures { result.now ≡ kept self.now.records.now self.now.moves.now }
    {
        if self.sound { self.records } else { &[BARE] }
    }

    // The record that counts at the position, or the blank one where there is none. Case by case, and not
    // through `kept`: that took a watched board over this one more than twice the work.
    fn record(&self, position: u16) -> Record
        ensures { result ≡ slice_index_or (kept self.now.records.now self.now.moves.now) position blank_record }
    {
        if self.sound {
            self.records
                .get(usize::from(position))
                .map_or(Record::BLANK, |record| *record)
        } else if position == 0 {
            BARE
        } else {
            Record::BLANK
        }
    }

    // The moves of that record.
    fn moves_at(&self, position: u16) -> &'a [u16]
        ensures { result.now ≡ (spot_at (board_of self.now.records.now self.now.moves.now) position).moves }
    {
        let record = self.record(position);
        // A record that has no moves may have its place past the end of the slice; else its moves lie in it.
        if record.count == 0 {
            return &[];
        }
        let start = usize::from(record.first);
        let end = start + usize::from(record.count);
        &self.moves[start..end]
    }
}

impl<'a> Board for Table<'a> {
    ghost meaning = { λ t. board_of t.records.now t.moves.now };

    ghost fair = { λ t. board_of-fair t.records.now t.moves.now };

    fn count(&self) -> u16 {
        // At most 512, so that the cast loses nothing.
        self.kept().len() as u16
    }

    fn side(&self, position: u16) -> Side {
        // The number is one of the two, also where there is no position, so that nothing is taken for the kiln.
        Side::try_from(self.record(position).side).unwrap_or(Side::Kiln)
    }

    fn label(&self, position: u16) -> u8 {
        self.record(position).label
    }

    fn moves(&self, position: u16) -> u8 {
        // At most 16, so that the cast loses nothing.
        self.moves_at(position).len() as u8
    }

    fn move_at(&self, position: u16, place: u8) -> u16 {
        self.moves_at(position)
            .get(usize::from(place))
            .copied()
            .unwrap_or(0)
    }
}
