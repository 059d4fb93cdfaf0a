//! Places and prizes of those who are out.

ghost use Rattle.std.specs.Prelude.{◌≡◌, ◌≤◌, sum, true};

use crate::rows::are_right_in;
use place_list::{PlaceList, Standing};
use std::alloc::Global;

/// Who went broke one after another, by player, stack at the start of his last hand and group.
type Busts = &'static [(u32, u64, u64)];

/// Where each player stands, by player, place and prize.
type Stands = &'static [(u32, u32, u64)];

/// A tournament: who went broke one after another, how many entered, who has won, the buy-in and the shares; and where
/// each player stands.
type PlaceRow = (Busts, u32, Option<u32>, u64, &'static [u64], Stands);

static ROWS: [PlaceRow; 9] = [
    // equal stacks share a place and its prizes
    (
        &[(1, 800, 7), (2, 500, 7), (3, 500, 7)],
        4,
        Some(0),
        100,
        &[500, 300, 199],
        &[(0, 1, 201), (1, 2, 120), (2, 3, 40), (3, 3, 39)],
    ),
    // a late entry shifts a place
    (
        &[(2, 100, 0)],
        3,
        None,
        100,
        &[500, 300, 200],
        &[(2, 3, 60)],
    ),
    (&[(2, 100, 0)], 4, None, 100, &[500, 300, 200], &[(2, 4, 0)]),
    // the later group is placed higher
    (
        &[(3, 500, 0), (1, 500, 1), (2, 500, 2)],
        4,
        Some(0),
        10,
        &[1000],
        &[(0, 1, 40), (2, 2, 0), (1, 3, 0), (3, 4, 0)],
    ),
    // all are out in one group
    (
        &[(1, 100, 5), (0, 100, 5), (2, 300, 5)],
        3,
        None,
        10,
        &[500, 300, 200],
        &[(2, 1, 15), (0, 2, 8), (1, 2, 7)],
    ),
    // three share what cannot be cut in three
    (
        &[(3, 50, 1), (2, 50, 1), (1, 50, 1)],
        4,
        Some(0),
        100,
        &[500, 301, 199],
        &[(0, 1, 201), (1, 2, 67), (2, 2, 66), (3, 2, 66)],
    ),
    // there are more shares than entries
    (
        &[(1, 100, 0)],
        2,
        Some(0),
        100,
        &[500, 300, 200],
        &[(0, 1, 140), (1, 2, 60)],
    ),
    // sixty-four places are paid
    (
        &[(5, 100, 0), (6, 100, 1)],
        65,
        None,
        100,
        &[15; 64],
        &[(6, 64, 97), (5, 65, 0)],
    ),
    // nobody is bust
    (&[], 2, None, 100, &[1000], &[]),
];

/// Tells whether shares are no more than the whole pool.
fn are_shares(shares: &[u64]) -> bool
    ensures { result ≡ true → sum shares.now ≤ 1000 }
{
    let mut left = 1000;
    for share in shares {
        if *share > left {
            return false;
        }
        left -= *share;
    }
    true
}

/// Puts players on a list on which nobody is, and tells whether it has just them then.
fn are_bust(list: &mut PlaceList, busts: &[(u32, u64, u64)]) -> bool {
    for (player, stack, group) in busts {
        if list.is_bust(*player) || list.len() >= 640 {
            return false;
        }
        list.bust(*player, *stack, *group);
        if !list.is_bust(*player) {
            return false;
        }
    }
    list.len() as usize == busts.len() && list.is_empty() == busts.is_empty()
}

/// Tells whether these are the standings, by player, place and prize.
fn are_standings(standings: &[Standing], wanted: &[(u32, u32, u64)]) -> bool {
    standings.len() == wanted.len()
        && standings.iter().zip(wanted).all(|(standing, row)| {
            (standing.player, standing.place, standing.prize) == *row
        })
}

/// Tells whether players stand as a row says, where so many entered again, by a list on which nobody is.
fn are_placed(alloc: Global, list: &mut PlaceList, row: &PlaceRow, reentries: u32) -> bool {
    let (busts, entries, last, buyin, shares, wanted) = *row;
    if !are_bust(list, busts) || entries > 600 || reentries > 40 {
        return false;
    }
    if buyin > 1000 || !are_shares(shares) {
        return false;
    }
    match list.standings(alloc, entries, reentries, last, buyin, shares) {
        Ok(standings) => are_standings(&standings, wanted),
        Err(_) => false,
    }
}

/// Tells whether players stand as a row says, where so many entered again.
fn stand_after(alloc: Global, row: &PlaceRow, reentries: u32) -> bool {
    match PlaceList::new(alloc) {
        Ok(mut list) => are_placed(alloc, &mut list, row, reentries),
        Err(_) => false,
    }
}

fn stand_so(alloc: Global, row: &PlaceRow) -> bool {
    stand_after(alloc, row, 0)
}

#[test]
fn players_stand_so(rt: HostRuntime) {
    are_right_in(&rt, rt.alloc(), &ROWS, stand_so);
}

/// How many entered again, and how players stand then.
static REENTERED: [(u32, PlaceRow); 3] = [
    // one re-entry makes the pool greater, and no place more
    (
        1,
        (
            &[(1, 800, 7), (2, 500, 7), (3, 500, 7)],
            4,
            Some(0),
            100,
            &[500, 300, 199],
            &[(0, 1, 251), (1, 2, 150), (2, 3, 50), (3, 3, 49)],
        ),
    ),
    // two re-entries before the tournament is over
    (
        2,
        (
            &[(2, 100, 0)],
            3,
            None,
            100,
            &[500, 300, 200],
            &[(2, 3, 100)],
        ),
    ),
    // 40 re-entries of two players
    (
        40,
        (
            &[(0, 100, 3)],
            2,
            Some(1),
            100,
            &[700, 300],
            &[(1, 1, 2940), (0, 2, 1260)],
        ),
    ),
];

fn stand_after_reentries(alloc: Global, row: &(u32, PlaceRow)) -> bool {
    stand_after(alloc, &row.1, row.0)
}

#[test]
fn reentries_are_in_the_pool(rt: HostRuntime) {
    are_right_in(&rt, rt.alloc(), &REENTERED, stand_after_reentries);
}

/// Who went broke, who of them is taken back, and how the others stand of four entries and one re-entry, where 100 was
/// paid by each and the shares are 500, 300 and 200.
type BackRow = (Busts, u32, Stands);

static TAKEN_BACK: [BackRow; 4] = [
    // the last of the list
    (
        &[(1, 800, 1), (2, 500, 2), (3, 500, 3)],
        3,
        &[(2, 3, 100), (1, 4, 0)],
    ),
    // the first of it
    (
        &[(1, 800, 1), (2, 500, 2), (3, 500, 3)],
        1,
        &[(3, 3, 100), (2, 4, 0)],
    ),
    // one of two who tied: the other alone has the place
    (
        &[(1, 800, 7), (2, 500, 7), (3, 500, 7)],
        2,
        &[(1, 3, 100), (3, 4, 0)],
    ),
    // the only one
    (&[(2, 500, 1)], 2, &[]),
];

/// Takes a player back, if he is out, and tells whether his row alone leaves the list.
fn leaves(list: &mut PlaceList, player: u32) -> bool {
    let before = list.len();
    if !list.is_bust(player) {
        return false;
    }
    list.take_back(player);
    !list.is_bust(player) && list.len() + 1 == before
}

/// Tells whether players stand as a row says once one is taken back, by a list on which nobody is.
fn are_left(alloc: Global, list: &mut PlaceList, row: &BackRow) -> bool {
    let (busts, back, wanted) = *row;
    if !are_bust(list, busts) || !leaves(list, back) {
        return false;
    }
    match list.standings(alloc, 4, 1, None, 100, &[500, 300, 200]) {
        Ok(standings) => are_standings(&standings, wanted),
        Err(_) => false,
    }
}

fn stand_without(alloc: Global, row: &BackRow) -> bool {
    match PlaceList::new(alloc) {
        Ok(mut list) => are_left(alloc, &mut list, row),
        Err(_) => false,
    }
}

#[test]
fn who_is_taken_back_leaves_the_list(rt: HostRuntime) {
    are_right_in(&rt, rt.alloc(), &TAKEN_BACK, stand_without);
}
