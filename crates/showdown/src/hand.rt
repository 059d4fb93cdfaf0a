//! The hands that are tabled.

ghost use Rattle.std.specs.Prelude.{◌≡◌, ◌++◌, None, option_map, length};
ghost use Rattle.std.specs.Option.{ForSome};
ghost use Rattle.card_choices.specs.Choices.{AreDistinct};
ghost use Rattle.showdown.specs.Hands.{hole_cards, high_value, low_value, hand_of, hands_of, AreDealtApart};

use crate::live::Live;
use card_set::{Card, Game};
use hand_rank::{HighValue, best_holdem, best_omaha};
use low_rank::{LowValue, best_low};

/// A hand that is tabled: its high value, and its low value where it has one.
#[derive(Clone, Copy)]
pub(crate) struct Hand {
    pub(crate) high: HighValue,
    pub(crate) low: Option<LowValue>,
}

/// A side of a pot.
#[derive(Clone, Copy, PartialEq, Eq)]
pub(crate) enum Side {
    /// The side of the best high hands.
    High,
    /// The side of the best low hands, in hi-lo.
    Low,
}

/// Gives a live player's high value.
fn high_value(player: Live, board: [Card; 5], game: Game) -> HighValue
    requires { AreDistinct (hole_cards game player ++ board) }
    ensures { result ≡ high_value game board player }
{
    let [first, second, _, _] = player.hole;
    match game {
        Game::Holdem => best_holdem([first, second], board),
        Game::Omaha | Game::Hilo => best_omaha(player.hole, board),
    }
}

/// Gives a live player's low value, where he has one.
fn low_value(player: Live, board: [Card; 5], game: Game) -> Option<LowValue>
    requires { AreDistinct (hole_cards game player ++ board) }
    ensures { result ≡ low_value game board player }
{
    match game {
        Game::Holdem | Game::Omaha => None,
        Game::Hilo => best_low(player.hole, board),
    }
}

/// Gives a live player's hand.
fn hand_of(player: Live, board: [Card; 5], game: Game) -> Hand
    requires { AreDistinct (hole_cards game player ++ board) }
    ensures { result ≡ hand_of game board player }
{
    Hand {
        high: high_value(player, board, game),
        low: low_value(player, board, game),
    }
}

/// Gives the hand in a seat, where a live player sits there.
fn hand_in_seat(player: Option<Live>, board: [Card; 5], game: Game) -> Option<Hand>
    requires { ForSome player (λ own. AreDistinct (hole_cards game own ++ board)) }
    ensures { result ≡ option_map (hand_of game board) player }
{
    match player {
        Some(player) => Some(hand_of(player, board, game)),
        None => None,
    }
}

/// Gives the hands of the live players by seat.
pub(crate) fn hands_of(
    live: &[Option<Live>; 10],
    board: [Card; 5],
    game: Game,
) -> [Option<Hand>; 10]
    requires { AreDealtApart game board live.now }
    ensures hands { result ≡ hands_of game board live.now }
    ensures ten { length result ≡ 10 }
{
    let mut hands = [None; 10];
    for index in 0..live.len() {
        hands[index] = hand_in_seat(live[index], board, game);
    }
    hands
}
