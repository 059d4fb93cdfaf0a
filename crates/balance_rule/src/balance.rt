//! The balance of two tables.

ghost use Rattle.std.specs.Prelude.{◌≡◌, ◌<◌, IsTrue, Some, None, IfOk};
ghost use Rattle.rulebook.specs.Limits.{most_entries};
ghost use Rattle.rulebook.specs.Checks.{IsChecked};
ghost use Rattle.seat_book.specs.Places.{IsTableOf, IsPlaceOf};
ghost use Rattle.seat_book.specs.Players.{player_at, place_of};
ghost use Rattle.seat_book.specs.Counts.{is_open};
ghost use Rattle.balance_rule.specs.Balance.{balance_checks, balance_move};

use crate::worst_seat;
use button_blinds::next_big;
use floor_text::Refusal;
use seat_book::{Place, SeatBook};

/// The move of a player from his place to another.
#[derive(Clone, Copy, PartialEq, Eq)]
pub struct Move {
    /// The player's number.
    pub player: u32,
    /// Where he sits.
    pub from: Place,
    /// Where he is to sit.
    pub to: Place,
}

/// Finds who moves when two open tables are balanced, and where to: the player who will be the next big blind at the
/// one moves to the worst empty seat of the other. `NotFullest` comes where the one is not a fullest open table,
/// `NotShortest` where the other is not one with the fewest, `EvenEnough` where they differ by less than two players.
pub fn balance_order(book: &SeatBook, from: u8, to: u8) -> Result<Move, Refusal>
    requires from { IsTableOf book.now.table_count from }
    requires from_open { IsTrue (is_open book.now.players from) }
    requires to { IsTableOf book.now.table_count to }
    requires to_open { IsTrue (is_open book.now.players to) }
    ensures checked { IsChecked (balance_checks book.now from to) result }
    ensures move_ { IfOk result (λ move_. balance_move book.now from to ≡ Some move_) }
    ensures entry { IfOk result (λ move_. move_.player < most_entries) }
    ensures sits { IfOk result (λ move_. place_of book.now.players move_.player ≡ Some move_.from) }
    ensures place { IfOk result (λ move_. IsPlaceOf book.now.table_count book.now.seat_count move_.to) }
    ensures empty { IfOk result (λ move_. player_at book.now.players move_.to ≡ None) }
{
    let seats = book.seat_count();
    let here = book.count(from);
    let there = book.count(to);
    if here < book.fullest() {
        return Err(Refusal::NotFullest);
    }
    if there > book.fewest() {
        return Err(Refusal::NotShortest);
    }
    if here < there + 2 {
        return Err(Refusal::EvenEnough);
    }
    let big = next_big(book.status(from).marks, book.occupied(from), seats);
    let from = Place {
        table: from,
        seat: big,
    };
    let (player, _, _) = book.at(from).unwrap();
    let to = Place {
        table: to,
        seat: worst_seat(book, to),
    };
    Ok(Move { player, from, to })
}
