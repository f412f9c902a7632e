// Watchers, what they refuse, and boards under them, each worked out by hand.
use crate::checks::{number_of, spot};
use board::{Board, Record, Refusal, Table};
use std::alloc::Global;
use std::fmt::Display;
use std::process::Abort;
use std::test::Fail;
use watch::{Watched, Watcher, WatcherRefusal, WatcherState};

// The board below: three controller positions, with the labels 0, 1 and 3.
const RECORDS: [Record; 3] = [
    Record {
        side: 0,
        label: 0,
        first: 0,
        count: 2,
    },
    Record {
        side: 0,
        label: 1,
        first: 2,
        count: 2,
    },
    Record {
        side: 0,
        label: 3,
        first: 4,
        count: 1,
    },
];

const MOVES: [u16; 5] = [1, 2, 0, 2, 2];

// A state with this label, whose next states are the given ones for the labels 0 to 3 and 0 for all
// others.
fn state_of(label: u8, first: [u8; 4]) -> WatcherState {
    let mut next = [0; 16];
    next[..4].copy_from_slice(&first);
    WatcherState { label, next }
}

// Two states, with the labels 5 and 9: labels 0 and 3 lead to the other state, label 1 to the same.
fn two_states() -> Result<Watcher, WatcherRefusal> {
    let mut watcher = Watcher::new();
    watcher.set_states(2)?;
    watcher.set_state(0, state_of(5, [1, 0, 0, 1]))?;
    watcher.set_state(1, state_of(9, [0, 1, 0, 0]))?;
    Ok(watcher)
}

// Position, side, label, number of moves of the three positions under those states; there is no
// position 6.
const POSITIONS: [(u16, u8, u8, u8); 8] = [
    (0, 0, 5, 2),
    (1, 0, 9, 2),
    (2, 0, 5, 2),
    (3, 0, 9, 2),
    (4, 0, 5, 1),
    (5, 0, 9, 1),
    (6, 0, 0, 0),
    (65535, 0, 0, 0),
];

// Position, place, where the move leads; 0 where there is no such place.
const PLACES: [(u16, u8, u16); 16] = [
    // Label 0 is left, which switches the state.
    (0, 0, 3),
    (0, 1, 5),
    (0, 2, 0),
    (1, 0, 2),
    (1, 1, 4),
    (1, 255, 0),
    // Label 1, which does not.
    (2, 0, 0),
    (2, 1, 4),
    (3, 0, 1),
    (3, 1, 5),
    // Label 3, which switches it.
    (4, 0, 5),
    (4, 1, 0),
    (5, 0, 4),
    (5, 1, 0),
    (6, 0, 0),
    (65535, 0, 0),
];

// The board has `count` positions, and answers as the two lists say.
fn check_answers<B: Board>(
    rt: &impl Abort,
    what: &impl Display,
    board: &B,
    count: u16,
    positions: &[(u16, u8, u8, u8)],
    places: &[(u16, u8, u16)],
) {
    assert_eq!(rt; board.count(), count, "{what}");
    for (position, side, label, moves) in positions {
        assert_eq!(rt;
            spot(board, *position),
            (*side, *label, *moves),
            "{what}, position {position}"
        );
    }
    for (position, place, to) in places {
        assert_eq!(rt;
            board.move_at(*position, *place),
            *to,
            "{what}, {position}, {place}"
        );
    }
}

#[test]
fn a_watched_board_answers_its_questions(rt: HostRuntime) -> Result<(), Fail> {
    let watcher = two_states()?;
    let table = Table::new(&RECORDS, &MOVES);
    assert_eq!(rt; number_of(Watched::check(&table, &watcher)), 0);
    check_answers(
        &rt,
        &"two states",
        &Watched::new(table, watcher),
        6,
        &POSITIONS,
        &PLACES,
    );
    Ok(())
}

// A kiln position whose one move leads to position 1.
const STEP: Record = Record {
    side: 1,
    label: 2,
    first: 0,
    count: 1,
};

// State 0 has label 7 and leads to the last state; the others have label 0 and lead to state 0.
fn falling_back(states: u8) -> Result<Watcher, WatcherRefusal> {
    let mut watcher = Watcher::new();
    watcher.set_states(states)?;
    let next = [watcher.count() - 1; 16];
    watcher.set_state(0, WatcherState { label: 7, next })?;
    Ok(watcher)
}

// So many steps under so many states: the number of the refusal, and what the board answers.
fn check_product(
    rt: &impl Abort,
    heap: Global,
    (positions, states, number): (usize, u8, u8),
    count: u16,
    answers: &[(u16, u8, u8, u8)],
    places: &[(u16, u8, u16)],
) -> Result<(), Fail> {
    let what = format_args!("{positions} × {states}");
    let watcher = falling_back(states)?;
    let records = vec![in heap; STEP; positions]?;
    let table = Table::new(records.as_slice(), &[1]);
    assert_eq!(rt;
        number_of(Watched::check(&table, &watcher)),
        number,
        "{what}"
    );
    check_answers(
        rt,
        &what,
        &Watched::new(table, watcher),
        count,
        answers,
        places,
    );
    Ok(())
}

#[test]
fn a_watched_board_has_up_to_512_positions(rt: HostRuntime) -> Result<(), Fail> {
    let answers = [
        (0, 1, 7, 1),
        (1, 1, 0, 1),
        (510, 1, 7, 1),
        (511, 1, 0, 1),
        (512, 0, 0, 0),
    ];
    let places = [(0, 0, 3), (1, 0, 2), (510, 0, 3), (511, 0, 2), (512, 0, 0)];
    check_product(&rt, rt.alloc(), (256, 2, 0), 512, &answers, &places)?;
    let answers = [(0, 1, 7, 1), (15, 1, 0, 1), (496, 1, 7, 1), (511, 1, 0, 1)];
    let places = [(0, 0, 31), (15, 0, 16), (496, 0, 31), (511, 0, 16)];
    check_product(&rt, rt.alloc(), (32, 16, 0), 512, &answers, &places)?;
    let answers = [(0, 1, 7, 1), (509, 1, 0, 1), (510, 0, 0, 0)];
    let places = [(0, 0, 5), (509, 0, 3), (510, 0, 0)];
    check_product(&rt, rt.alloc(), (170, 3, 0), 510, &answers, &places)
}

#[test]
fn under_a_watcher_of_too_many_states_state_0_counts_alone(rt: HostRuntime) -> Result<(), Fail> {
    let answers = [(0, 1, 7, 1), (1, 1, 7, 1), (170, 1, 7, 1), (171, 0, 0, 0)];
    let places = [(0, 0, 1), (1, 0, 1), (170, 0, 1), (171, 0, 0)];
    check_product(&rt, rt.alloc(), (171, 3, 25), 171, &answers, &places)?;
    let answers = [(0, 1, 7, 1), (8, 1, 7, 1), (56, 1, 7, 1), (57, 0, 0, 0)];
    let places = [(0, 0, 1), (8, 0, 1), (56, 0, 1), (57, 0, 0)];
    check_product(&rt, rt.alloc(), (57, 9, 25), 57, &answers, &places)?;
    let answers = [(0, 1, 7, 1), (511, 1, 7, 1), (512, 0, 0, 0)];
    let places = [(0, 0, 1), (511, 0, 1), (512, 0, 0)];
    check_product(&rt, rt.alloc(), (512, 16, 25), 512, &answers, &places)
}

// A watcher of so many blank states.
fn blank(states: u8) -> Watcher {
    Watcher {
        states,
        table: [WatcherState::BLANK; 16],
    }
}

#[test]
fn a_new_watcher_has_one_blank_state(rt: HostRuntime) {
    let watcher = Watcher::new();
    assert_eq!(rt; watcher, blank(1));
    assert_eq!(rt; (watcher.count(), watcher.label(0)), (1, 0));
    assert_eq!(rt; (watcher.next(0, 0), watcher.next(0, 15)), (0, 0));
}

#[test]
fn a_watcher_has_1_to_16_states(rt: HostRuntime) -> Result<(), Fail> {
    for states in [0, 17, 18, 255] {
        let mut watcher = two_states()?;
        let answer = watcher.set_states(states);
        assert_eq!(rt; number_of(answer), 23, "{states}");
        assert_eq!(rt; watcher, two_states()?, "{states}");
    }
    for states in [1, 2, 15, 16] {
        let mut watcher = two_states()?;
        let answer = watcher.set_states(states);
        assert_eq!(rt; number_of(answer), 0, "{states}");
        assert_eq!(rt; watcher, blank(states), "{states}");
    }
    Ok(())
}

// A state, and the label and the next states for the labels 0 to 3 that it is to have, of two states.
const BAD: [(u8, u8, [u8; 4]); 9] = [
    // The state.
    (2, 0, [0, 0, 0, 0]),
    (15, 1, [0, 1, 0, 1]),
    (255, 0, [0, 0, 0, 0]),
    // A next state.
    (0, 0, [2, 0, 0, 0]),
    (1, 15, [0, 1, 0, 2]),
    (1, 0, [255, 255, 255, 255]),
    // The label.
    (0, 16, [0, 0, 0, 0]),
    (1, 255, [1, 1, 1, 1]),
    // All of them.
    (16, 16, [16, 16, 16, 16]),
];

const GOOD: [(u8, u8, [u8; 4]); 3] = [
    (0, 0, [0, 0, 0, 0]),
    (1, 15, [1, 1, 1, 1]),
    (0, 15, [1, 0, 1, 0]),
];

#[test]
fn refuses_a_state_that_does_not_fit(rt: HostRuntime) -> Result<(), Fail> {
    for case in &BAD {
        let (state, label, first) = *case;
        let mut watcher = two_states()?;
        let answer = watcher.set_state(state, state_of(label, first));
        assert_eq!(rt; number_of(answer), 24, "{case:?}");
        assert_eq!(rt; watcher, two_states()?, "{case:?}");
    }
    Ok(())
}

#[test]
fn refuses_a_next_state_for_the_last_label(rt: HostRuntime) -> Result<(), Fail> {
    let mut watcher = two_states()?;
    let mut filled = state_of(5, [0, 0, 0, 0]);
    filled.next[15] = 2;
    assert_eq!(rt; number_of(watcher.set_state(1, filled)), 24);
    assert_eq!(rt; watcher, two_states()?);
    filled.next[15] = 1;
    assert_eq!(rt; number_of(watcher.set_state(1, filled)), 0);
    assert_eq!(rt; (watcher.next(1, 15), watcher.next(1, 14)), (1, 0));
    Ok(())
}

#[test]
fn fills_one_state_and_keeps_the_others(rt: HostRuntime) -> Result<(), Fail> {
    for case in &GOOD {
        let (state, label, first) = *case;
        let mut watcher = two_states()?;
        let answer = watcher.set_state(state, state_of(label, first));
        assert_eq!(rt; number_of(answer), 0, "{case:?}");
        let mut filled = two_states()?;
        assert!(rt; state < 2);
        filled.table[usize::from(state)] = state_of(label, first);
        assert_eq!(rt; watcher, filled, "{case:?}");
    }
    Ok(())
}

// A watcher of so many states, in which every label and next state is 255.
fn spoilt(states: u8) -> Watcher {
    let state = WatcherState {
        label: 255,
        next: [255; 16],
    };
    Watcher {
        states,
        table: [state; 16],
    }
}

// What stands in a watcher for the number of states, and what counts.
const COUNTED: [(u8, u8); 7] = [
    (0, 1),
    (1, 1),
    (2, 2),
    (16, 16),
    (17, 16),
    (200, 16),
    (255, 16),
];

#[test]
fn a_spoilt_watcher_is_read_within_the_limits(rt: HostRuntime) {
    for (states, count) in &COUNTED {
        let watcher = spoilt(*states);
        assert_eq!(rt; watcher.count(), *count, "{states}");
        assert!(rt; *count > 0);
        let last = *count - 1;
        let labels = (watcher.label(0), watcher.label(last), watcher.label(*count));
        assert_eq!(rt; labels, (15, 15, 0), "{states}");
        let next = (watcher.next(0, 0), watcher.next(last, 15));
        assert_eq!(rt; next, (last, last), "{states}");
        let none = (watcher.next(*count, 0), watcher.next(0, 16));
        assert_eq!(rt; none, (0, 0), "{states}");
    }
}

#[test]
fn a_board_under_a_spoilt_watcher_keeps_the_limits(rt: HostRuntime) {
    let board = Watched::new(Table::new(&RECORDS, &MOVES), spoilt(200));
    let answers = [(0, 0, 15, 2), (47, 0, 15, 1), (48, 0, 0, 0)];
    check_answers(
        &rt,
        &"200 states",
        &board,
        48,
        &answers,
        &[(0, 0, 31), (47, 0, 47), (48, 0, 0)],
    );
    let board = Watched::new(Table::new(&RECORDS, &MOVES), spoilt(0));
    let answers = [(0, 0, 15, 2), (2, 0, 15, 1), (3, 0, 0, 0)];
    check_answers(
        &rt,
        &"no states",
        &board,
        3,
        &answers,
        &[(0, 0, 1), (2, 0, 2), (3, 0, 0)],
    );
}

#[test]
fn watcher_refusals_have_their_numbers(rt: HostRuntime) {
    assert_eq!(rt; WatcherRefusal::BadCount.number(), 23);
    assert_eq!(rt; WatcherRefusal::BadState.number(), 24);
    assert_eq!(rt; WatcherRefusal::TooLarge.number(), 25);
}
