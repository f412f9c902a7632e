// Pool boards: the smallest against a table written out by hand, all of them against the rules.
use crate::checks::{number_of, spot};
use board::{Board, Pool, PoolRefusal, Record, Refusal, Side, Table};
use std::alloc::{AllocError, Global};
use std::process::Abort;
use std::test::Fail;

// With one buffer, (first task, second task, side): 0 is (0, 0, 0), 1 is (0, 0, 1), 2 is (0, 1, 0),
// 3 is (0, 1, 1), 4 is (1, 0, 0), 5 is (1, 0, 1), 6 is (1, 1, 0), 7 is (1, 1, 1).
// Side, label, first and count of each.
const SMALLEST: [(u8, u8, u16, u16); 8] = [
    (0, 3, 0, 3),
    (1, 3, 3, 1),
    (0, 2, 4, 2),
    (1, 2, 6, 2),
    (0, 2, 8, 2),
    (1, 2, 10, 2),
    (0, 1, 12, 1),
    (1, 1, 13, 1),
];

// The moves of position 0, then of 1, and so on.
const SMALLEST_MOVES: [u16; 14] = [1, 3, 5, 0, 3, 7, 0, 2, 5, 7, 0, 4, 6, 7];

fn made(buffers: u8) -> Result<Pool, Fail> {
    Ok(Pool::new(buffers)?)
}

// The moves at these places are alike.
fn check_moves<A: Board, B: Board>(
    rt: &impl Abort,
    left: &A,
    right: &B,
    position: u16,
    places: u8,
) {
    for place in 0..places {
        assert_eq!(rt;
            left.move_at(position, place),
            right.move_at(position, place),
            "move {place} of {position}"
        );
    }
}

#[test]
fn the_smallest_pool_is_the_table_written_out(rt: HostRuntime) -> Result<(), Fail> {
    let pool = made(1)?;
    let mut records = [Record::BLANK; 8];
    for (record, case) in records.iter_mut().zip(SMALLEST.iter()) {
        let (side, label, first, count) = *case;
        *record = Record {
            side,
            label,
            first,
            count,
        };
    }
    let table = Table::new(&records, &SMALLEST_MOVES);
    assert_eq!(rt; pool.count(), 8);
    assert_eq!(rt; table.count(), 8);
    for position in 0..10u16 {
        assert_eq!(rt;
            spot(&pool, position),
            spot(&table, position),
            "position {position}"
        );
        check_moves(&rt, &pool, &table, position, 18);
    }
    Ok(())
}

// A position by the rules: the buffers of the first task and of the second, and the side that moves.
#[derive(Clone, Copy)]
struct Held {
    first: u8,
    second: u8,
    side: Side,
}

impl Held {
    fn clashes(self) -> bool {
        self.first > 0 && self.first == self.second
    }

    fn label(self) -> u8 {
        if self.clashes() {
            1
        } else if self.first == 0 && self.second == 0 {
            3
        } else {
            2
        }
    }

    // Whether a move leads from this position to the other.
    fn leads(self, to: Held) -> bool {
        let first_kept = self.first == to.first;
        let second_kept = self.second == to.second;
        if self.clashes() {
            return first_kept && second_kept && self.side == to.side;
        }
        let (first_changes, second_changes) = match self.side {
            Side::Controller => (self.first == 0, self.second == 0),
            Side::Kiln => (to.first == 0, to.second == 0),
        };
        self.side != to.side
            && (first_kept && (second_kept || second_changes) || second_kept && first_changes)
    }
}

// Every position with so many buffers, in the order of their numbers.
fn all_held(heap: Global, buffers: u8) -> Result<Vec<Held>, AllocError> {
    let mut all = Vec::new(heap);
    for first in 0..=buffers {
        for second in 0..=buffers {
            for side in [Side::Controller, Side::Kiln] {
                all.push(Held {
                    first,
                    second,
                    side,
                })?;
            }
        }
    }
    Ok(all)
}

// The pool answers at the position as the rules say.
fn check_held(
    rt: &impl Abort,
    heap: Global,
    pool: &Pool,
    all: &[Held],
    position: u16,
    held: Held,
) -> Result<(), Fail> {
    let what = format_args!("{position} of {} buffers", pool.buffers());
    let to = all
        .iter()
        .enumerate()
        .filter(|(_, to)| held.leads(**to))
        .map(|(number, _)| number)
        .collect::<Vec<usize>>(heap)?;
    for (place, number) in (0..=255u8).zip(to.iter()) {
        let answer = usize::from(pool.move_at(position, place));
        assert_eq!(rt; answer, *number, "move {place}, {what}");
    }
    let moves = u8::try_from(to.len())?;
    assert_eq!(rt;
        spot(pool, position),
        (held.side as u8, held.label(), moves),
        "{what}"
    );
    assert_eq!(rt; pool.move_at(position, moves), 0, "{what}");
    Ok(())
}

// The pool with so many buffers is the board of the rules.
fn check_pool(rt: &impl Abort, heap: Global, buffers: u8) -> Result<(), Fail> {
    let pool = made(buffers)?;
    assert_eq!(rt; pool.buffers(), buffers, "{buffers} buffers");
    let all = all_held(heap, buffers)?;
    assert_eq!(rt; usize::from(pool.count()), all.len(), "{buffers} buffers");
    for (number, held) in all.iter().enumerate() {
        let position = u16::try_from(number)?;
        check_held(rt, heap, &pool, all.as_slice(), position, *held)?;
    }
    Ok(())
}

#[test]
fn every_pool_is_the_board_of_the_rules(rt: HostRuntime) -> Result<(), Fail> {
    for buffers in 1..=7u8 {
        check_pool(&rt, rt.alloc(), buffers)?;
    }
    Ok(())
}

// What is not there answers 0.
fn check_missing(rt: &impl Abort, pool: &Pool, position: u16) {
    assert_eq!(rt; spot(pool, position), (0, 0, 0), "position {position}");
    for place in 0..=255u8 {
        assert_eq!(rt;
            pool.move_at(position, place),
            0,
            "move {place} of {position}"
        );
    }
}

#[test]
fn a_missing_position_or_place_answers_0(rt: HostRuntime) -> Result<(), Fail> {
    let largest = made(7)?;
    assert_eq!(rt; largest.count(), 128);
    check_missing(&rt, &largest, 128);
    check_missing(&rt, &largest, 65535);
    check_missing(&rt, &made(1)?, 8);
    check_missing(&rt, &made(6)?, 98);
    // The last of fifteen moves, and past it.
    assert_eq!(rt; largest.moves(0), 15);
    assert_eq!(rt; largest.move_at(0, 14), 113);
    assert_eq!(rt; largest.move_at(0, 15), 0);
    assert_eq!(rt; largest.move_at(0, 16), 0);
    assert_eq!(rt; largest.move_at(0, 255), 0);
    assert_eq!(rt; largest.move_at(127, 0), 127);
    assert_eq!(rt; largest.move_at(127, 1), 0);
    Ok(())
}

#[test]
fn a_pool_has_1_to_7_buffers(rt: HostRuntime) {
    for buffers in 1..=7u8 {
        assert_eq!(rt; number_of(Pool::new(buffers)), 0, "{buffers} buffers");
    }
    assert_eq!(rt; number_of(Pool::new(0)), 26);
    assert_eq!(rt; number_of(Pool::new(8)), 26);
    assert_eq!(rt; number_of(Pool::new(255)), 26);
    assert_eq!(rt; PoolRefusal::BadBuffers.number(), 26);
}
