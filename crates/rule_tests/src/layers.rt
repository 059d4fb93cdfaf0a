//! Pots by heights, shares and halves.

use crate::puts::{PutRow, is_contested, puts_of};
use crate::rows::are_right;
use crate::seat_sets::set_of;
use pot_layers::{Pot, PotTally, Pots, halves, pots, share};

/// Pots, the main pot first: what each holds, and who may win it.
type PotRow = &'static [(u64, &'static [u8])];

/// Tells whether these are the pots.
fn are_pots(pots: &Pots, wanted: &[(u64, &[u8])]) -> bool {
    if pots.len() != wanted.len() {
        return false;
    }
    for index in 0..pots.len() {
        let (amount, seats) = wanted[index];
        let eligible = set_of(10, seats);
        if pots.get(index) != (Pot { amount, eligible }) {
            return false;
        }
    }
    true
}

static ROWS: [(PutRow, PotRow); 5] = [
    // four puts, of whom one folded
    (
        &[(100, true), (300, true), (300, true), (200, false)],
        &[(400, &[1, 2, 3]), (500, &[2, 3])],
    ),
    // a short big blind
    (
        &[(200, true), (200, true), (50, true)],
        &[(150, &[1, 2, 3]), (300, &[1, 2])],
    ),
    // four all-ins of different height
    (
        &[
            (100, true),
            (0, false),
            (700, true),
            (400, true),
            (50, false),
            (0, false),
            (1000, true),
            (0, false),
            (500, false),
        ],
        &[
            (550, &[1, 3, 4, 7]),
            (1200, &[3, 4, 7]),
            (700, &[3, 7]),
            (300, &[7]),
        ],
    ),
    // heights without a live payer
    (
        &[
            (100, true),
            (500, false),
            (300, true),
            (0, false),
            (0, false),
            (0, false),
            (0, false),
            (0, false),
            (0, false),
            (400, false),
        ],
        &[(400, &[1, 3]), (900, &[3])],
    ),
    // ten players with a billion each
    (
        &[(1_000_000_000, true); 10],
        &[(10_000_000_000, &[1, 2, 3, 4, 5, 6, 7, 8, 9, 10])],
    ),
];

/// Tells whether the pots of puts and of dead chips are these.
fn are_cut_with(puts: PutRow, dead: u32, wanted: &[(u64, &[u8])]) -> bool {
    let puts = puts_of(puts);
    is_contested(&puts) && are_pots(&pots(&puts, u64::from(dead)), wanted)
}

fn are_cut(row: &(PutRow, PotRow)) -> bool {
    are_cut_with(row.0, 0, row.1)
}

#[test]
fn pots_of_puts(rt: HostRuntime) {
    are_right(&rt, &ROWS, are_cut);
}

/// Puts, dead chips, and the pots.
type DeadRow = (PutRow, u32, PotRow);

static DEAD: [DeadRow; 6] = [
    // an ante of 200, and everyone folds to the big blind
    (
        &[(0, false), (100, false), (200, true)],
        200,
        &[(500, &[3])],
    ),
    // everyone calls
    (
        &[(200, true), (200, true), (200, true)],
        200,
        &[(800, &[1, 2, 3])],
    ),
    // a big blind who has 100 left for the ante is in the pot that it goes to
    (
        &[(600, true), (600, true), (200, true)],
        100,
        &[(700, &[1, 2, 3]), (800, &[1, 2])],
    ),
    // one who has nothing left posts none
    (
        &[(600, true), (600, true), (200, true)],
        0,
        &[(600, &[1, 2, 3]), (800, &[1, 2])],
    ),
    // the lowest height of a live payer has what was paid by those who folded, and the dead chips
    (
        &[(50, false), (100, true), (300, true), (400, false)],
        25,
        &[(375, &[2, 3]), (500, &[3])],
    ),
    // ten players with a billion each, and an ante of a billion
    (
        &[(1_000_000_000, true); 10],
        1_000_000_000,
        &[(11_000_000_000, &[1, 2, 3, 4, 5, 6, 7, 8, 9, 10])],
    ),
];

fn are_cut_with_dead(row: &DeadRow) -> bool {
    are_cut_with(row.0, row.1, row.2)
}

#[test]
fn dead_chips_are_in_the_main_pot(rt: HostRuntime) {
    are_right(&rt, &DEAD, are_cut_with_dead);
}

/// Tells whether the pots are right while chips come in and a player folds.
fn is_tallied() -> bool {
    let mut tally = PotTally::new();
    tally.add(1, 100);
    let one = are_pots(&tally.pots(), &[(100, &[1])]);
    tally.add(2, 100);
    tally.add(2, 200);
    let two = are_pots(&tally.pots(), &[(200, &[1, 2]), (200, &[2])]);
    tally.add(3, 300);
    tally.add(4, 200);
    let four = are_pots(
        &tally.pots(),
        &[(400, &[1, 2, 3, 4]), (300, &[2, 3, 4]), (200, &[2, 3])],
    );
    tally.fold(4);
    let three = are_pots(&tally.pots(), &[(400, &[1, 2, 3]), (500, &[2, 3])]);
    tally.add_dead(50);
    let dead = are_pots(&tally.pots(), &[(450, &[1, 2, 3]), (500, &[2, 3])]);
    one && two && four && three && dead
}

#[test]
fn a_tally_step_by_step(rt: HostRuntime) {
    assert!(rt; is_tallied());
}

#[test]
fn shares_and_halves(rt: HostRuntime) {
    let shares = [
        share(1000, 100, 3, 0),
        share(1000, 100, 3, 1),
        share(1000, 100, 3, 2),
        share(1100, 100, 3, 1),
        share(50, 25, 10, 1),
        share(50, 25, 10, 2),
    ];
    let halves = [halves(500, 100), halves(600, 100), halves(100, 100)];
    assert!(rt;
        shares == [400, 300, 300, 400, 25, 0] && halves == [(300, 200), (300, 300), (100, 0)]
    );
}
