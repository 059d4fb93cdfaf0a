//! What the players at a table of ten are awarded, where the unit is 100.

ghost use Rattle.std.specs.Prelude.{◌≡◌, ◌++◌, true, map, is_some, IfSome};
ghost use Rattle.card_choices.specs.Choices.{AreDistinct};
ghost use Rattle.pot_layers.specs.PotTests.{live_seats};
ghost use Rattle.showdown.specs.Hands.{hole_cards, AreDealtApart};

use crate::puts::{PutRow, are_whole, is_contested, puts_of};
use crate::rows::are_right;
use card_choices::are_distinct;
use card_set::{Card, Game, read_cards};
use pot_layers::{Put, pots};
use showdown::{Live, award};

/// The cards that are dealt to each seat.
type HandRow = &'static [(u8, &'static [u8])];

/// A showdown: the game, the board, the hands, the puts, the button, and what each seat is awarded.
type AwardRow = (Game, &'static [u8], HandRow, PutRow, u8, [u64; 10]);

/// Three players who put in 100, 300 and 300, and one who folded with 200.
const THREE_AND_ONE_FOLDED: PutRow = &[(100, true), (300, true), (300, true), (200, false)];

/// The players in seats 2 and 5, who put in 300 each.
const TWO: PutRow = &[(0, false), (300, true), (0, false), (0, false), (300, true)];

/// The players in seats 2, 3 and 5, who put in 200 each.
const THREE: PutRow = &[
    (0, false),
    (200, true),
    (200, true),
    (0, false),
    (200, true),
];

/// Three players who put in 300 each, and one who folded with 100.
const OF_1000: PutRow = &[
    (300, true),
    (300, true),
    (300, true),
    (0, false),
    (100, false),
];

/// Three players who put in 300 each, and one who folded with 200.
const OF_1100: PutRow = &[
    (300, true),
    (300, true),
    (300, true),
    (0, false),
    (200, false),
];

/// Four players who put in 100, 200, 300 and 400.
const FOUR: PutRow = &[(100, true), (200, true), (300, true), (400, true)];

const SIDE_POT: HandRow = &[(1, b"KdKh2c2d"), (2, b"AdJc2c2d"), (3, b"AhJd2c2d")];

const ODD_UNITS: HandRow = &[(1, b"2c3c4c5c"), (2, b"2d3d4d5d"), (3, b"2h3h4h5h")];

const LOW_TIES: HandRow = &[(2, b"As2c9c9d"), (3, b"KcKsQdQh"), (5, b"Ad2dJcTc")];

static ROWS: [AwardRow; 23] = [
    // a side pot that is tied, at each place of the button
    (
        Game::Holdem,
        b"KsQs7d5c2h",
        SIDE_POT,
        THREE_AND_ONE_FOLDED,
        6,
        [400, 300, 200, 0, 0, 0, 0, 0, 0, 0],
    ),
    (
        Game::Holdem,
        b"KsQs7d5c2h",
        SIDE_POT,
        THREE_AND_ONE_FOLDED,
        1,
        [400, 300, 200, 0, 0, 0, 0, 0, 0, 0],
    ),
    (
        Game::Holdem,
        b"KsQs7d5c2h",
        SIDE_POT,
        THREE_AND_ONE_FOLDED,
        2,
        [400, 200, 300, 0, 0, 0, 0, 0, 0, 0],
    ),
    (
        Game::Holdem,
        b"KsQs7d5c2h",
        SIDE_POT,
        THREE_AND_ONE_FOLDED,
        3,
        [400, 300, 200, 0, 0, 0, 0, 0, 0, 0],
    ),
    // one odd unit at each place of the button
    (
        Game::Holdem,
        b"AsKsQsJsTs",
        ODD_UNITS,
        OF_1000,
        10,
        [400, 300, 300, 0, 0, 0, 0, 0, 0, 0],
    ),
    (
        Game::Holdem,
        b"AsKsQsJsTs",
        ODD_UNITS,
        OF_1000,
        1,
        [300, 400, 300, 0, 0, 0, 0, 0, 0, 0],
    ),
    (
        Game::Holdem,
        b"AsKsQsJsTs",
        ODD_UNITS,
        OF_1000,
        2,
        [300, 300, 400, 0, 0, 0, 0, 0, 0, 0],
    ),
    (
        Game::Holdem,
        b"AsKsQsJsTs",
        ODD_UNITS,
        OF_1000,
        3,
        [400, 300, 300, 0, 0, 0, 0, 0, 0, 0],
    ),
    (
        Game::Holdem,
        b"AsKsQsJsTs",
        ODD_UNITS,
        OF_1000,
        7,
        [400, 300, 300, 0, 0, 0, 0, 0, 0, 0],
    ),
    // two odd units
    (
        Game::Holdem,
        b"AsKsQsJsTs",
        ODD_UNITS,
        OF_1100,
        10,
        [400, 400, 300, 0, 0, 0, 0, 0, 0, 0],
    ),
    (
        Game::Holdem,
        b"AsKsQsJsTs",
        ODD_UNITS,
        OF_1100,
        1,
        [300, 400, 400, 0, 0, 0, 0, 0, 0, 0],
    ),
    (
        Game::Holdem,
        b"AsKsQsJsTs",
        ODD_UNITS,
        OF_1100,
        2,
        [400, 300, 400, 0, 0, 0, 0, 0, 0, 0],
    ),
    // four all-ins of different height
    (
        Game::Holdem,
        b"9s7c5d4h2s",
        &[
            (1, b"AhAd2c2d"),
            (2, b"KhKd2c2d"),
            (3, b"QhQd2c2d"),
            (4, b"JhJd2c2d"),
        ],
        FOUR,
        1,
        [400, 300, 200, 100, 0, 0, 0, 0, 0, 0],
    ),
    (
        Game::Holdem,
        b"9s7c5d4h2s",
        &[
            (1, b"JhJd2c2d"),
            (2, b"QhQd2c2d"),
            (3, b"AhAd2c2d"),
            (4, b"KhKd2c2d"),
        ],
        FOUR,
        1,
        [0, 0, 900, 100, 0, 0, 0, 0, 0, 0],
    ),
    // straights on the board
    (
        Game::Holdem,
        b"3c4s5hKdKc",
        &[(2, b"Ah2d9c9s"), (5, b"6h2c9c9s")],
        TWO,
        1,
        [0, 0, 0, 0, 600, 0, 0, 0, 0, 0],
    ),
    // one heart makes no flush with four on the board, and a pair of fours beats ace high
    (
        Game::Omaha,
        b"3h7h9hJh4c",
        &[(2, b"AhKsQc2d"), (5, b"4d5d6s8c")],
        TWO,
        1,
        [0, 0, 0, 0, 600, 0, 0, 0, 0, 0],
    ),
    // both tie for both sides: one split
    (
        Game::Hilo,
        b"3c4d5s9h9d",
        &[(2, b"As2sKcQc"), (5, b"Ah2hJdTd")],
        TWO,
        1,
        [0, 300, 0, 0, 300, 0, 0, 0, 0, 0],
    ),
    // one player has both sides
    (
        Game::Hilo,
        b"3c4d5s9hKd",
        &[(2, b"As2sAhKc"), (5, b"QhQdJd9c")],
        TWO,
        1,
        [0, 600, 0, 0, 0, 0, 0, 0, 0, 0],
    ),
    // no low
    (
        Game::Hilo,
        b"KsQsJd5c2h",
        &[(2, b"As2s3h4c"), (5, b"QhQdTd9c")],
        TWO,
        1,
        [0, 0, 0, 0, 600, 0, 0, 0, 0, 0],
    ),
    // no low in Omaha, whatever the cards
    (
        Game::Omaha,
        b"KsQs7d5c8h",
        &[(2, b"As2s3h4c"), (5, b"QhQdTd9c")],
        TWO,
        1,
        [0, 0, 0, 0, 600, 0, 0, 0, 0, 0],
    ),
    // a low that ties
    (
        Game::Hilo,
        b"3c4d8sKhKd",
        LOW_TIES,
        THREE,
        1,
        [0, 200, 300, 0, 100, 0, 0, 0, 0, 0],
    ),
    (
        Game::Hilo,
        b"3c4d8sKhKd",
        LOW_TIES,
        THREE,
        2,
        [0, 100, 300, 0, 200, 0, 0, 0, 0, 0],
    ),
    (
        Game::Hilo,
        b"3c4d8sKhKd",
        LOW_TIES,
        THREE,
        5,
        [0, 200, 300, 0, 100, 0, 0, 0, 0, 0],
    ),
];

/// Gives a live player, if no card of his is on the board and no two are the same.
fn player(game: Game, board: [Card; 5], seat: u8, text: &[u8]) -> Option<Live>
    ensures { IfSome result (λ player. AreDistinct (hole_cards game player ++ board)) }
{
    let hole = read_cards::<4>(text)?;
    let apart = match game {
        Game::Holdem => are_distinct(&hole[..2], &board),
        Game::Omaha => are_distinct(&hole, &board),
        Game::Hilo => are_distinct(&hole, &board),
    };
    if apart {
        Some(Live { seat, hole })
    } else {
        None
    }
}

/// Gives the live players at a table of ten.
fn dealt(game: Game, board: [Card; 5], hands: HandRow) -> Option<[Option<Live>; 10]>
    ensures { IfSome result (AreDealtApart game board) }
{
    let mut live = [None; 10];
    for (seat, text) in hands {
        if *seat < 1 || *seat > 10 {
            return None;
        }
        live[*seat as usize - 1] = Some(player(game, board, *seat, text)?);
    }
    Some(live)
}

/// Tells whether the live players are those whose puts are live.
fn are_alike(live: &[Option<Live>; 10], puts: &[Put; 10]) -> bool
    ensures { result ≡ true → map is_some live.now ≡ live_seats puts.now }
{
    for index in 0..10 {
        if live[index].is_some() != puts[index].live {
            return false;
        }
    }
    true
}

/// Gives what the players of a showdown are awarded. `None` where they cannot stand so.
fn awards(row: &AwardRow) -> Option<[u64; 10]> {
    let (game, board, hands, puts, button, _) = *row;
    let board = read_cards::<5>(board)?;
    let live = dealt(game, board, hands)?;
    let puts = puts_of(puts);
    if is_contested(&puts)
        && are_whole(100, &puts)
        && are_alike(&live, &puts)
        && 1 <= button
        && button <= 10
    {
        Some(award(&pots(&puts, 0), &live, board, game, 100, button, 10))
    } else {
        None
    }
}

fn is_awarded(row: &AwardRow) -> bool {
    awards(row) == Some(row.5)
}

#[test]
fn awards_of_showdowns(rt: HostRuntime) {
    are_right(&rt, &ROWS, is_awarded);
}
