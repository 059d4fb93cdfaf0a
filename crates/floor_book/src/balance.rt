//! Two tables are balanced.

ghost use Rattle.std.specs.Prelude.{◌≡◌, ◌<◌, ◌≤◌, ◌^◌, ◌++◌, Some, None, option_map, IfOk, OnOk, OnErr};
ghost use Rattle.rulebook.specs.Limits.{most_entries};
ghost use Rattle.rulebook.specs.Checks.{IsChecked};
ghost use Rattle.seat_book.specs.Places.{IsPlaceOf};
ghost use Rattle.seat_book.specs.Players.{player_at, player_of};
ghost use Rattle.balance_rule.specs.Balance.{balance_move};
ghost use Rattle.table_engine.specs.Acts.{IsAnswer};
ghost use Rattle.tournament_events.specs.declared.event.Event.TheVariants as events;
ghost use Rattle.tournament_rules.specs.Checks.{going_checks, both_open_checks, leaving_checks, all_balance_checks, book_refusal};
ghost use Rattle.tournament_rules.specs.Effects.{balanced};
ghost use Rattle.floor_book.specs.Tables.{AreOpen};

use crate::BookFault;
use crate::book::Book;
use crate::checks::OpenTables;
use crate::moving::reseat;
use balance_rule::{Move, balance_order};
use floor_text::Refusal;
use seat_book::{SeatBook, Seated};

/// Gives the player of a move, who sits where it begins.
fn mover(seats: &SeatBook, move_: Move) -> Seated
    requires within { IsPlaceOf seats.now.table_count seats.now.seat_count move_.from }
    requires sits { option_map (λ seated. seated.player) (player_at seats.now.players move_.from) ≡ Some move_.player }
    ensures player { player_at seats.now.players move_.from ≡ Some result }
    ensures entry { result.player < most_entries }
    ensures number { result.player ≡ move_.player }
    ensures place { result.place ≡ move_.from }
{
    let (player, name, stack) = seats.at(move_.from).unwrap();
    Seated {
        place: move_.from,
        player,
        name,
        stack,
    }
}

impl Book {
    /// Makes the checks of a balance before those of the counts, and gives the tables' numbers.
    fn check_to_balance(&self, from: u64, to: u64) -> Result<OpenTables, Refusal>
        ensures checked { IsChecked (going_checks self.now
            ++ both_open_checks self.now from to ++ leaving_checks self.now from) result }
        ensures told { IfOk result (AreOpen self.now from to) }
    {
        self.check_going()?;
        let tables = self.check_both_open(from, to)?;
        self.check_leaving(tables.from)?;
        Ok(tables)
    }

    /// Makes the checks of a balance, and gives the move of the player who leaves the one table for the other.
    pub(crate) fn check_balance(&self, from: u64, to: u64) -> Result<Move, Refusal>
        ensures checked { IsChecked (all_balance_checks self.now from to) result }
        ensures move_ { IfOk result (λ move_. balance_move self.now.seating from to ≡ Some move_) }
        ensures sits { IfOk result (λ move_. option_map (λ seated. seated.player)
            (player_at self.now.seating.players move_.from) ≡ Some move_.player) }
        ensures here { IfOk result
            (λ move_. IsPlaceOf self.now.seating.table_count self.now.seating.seat_count move_.from) }
        ensures within { IfOk result
            (λ move_. IsPlaceOf self.now.seating.table_count self.now.seating.seat_count move_.to) }
        ensures free { IfOk result (λ move_. player_at self.now.seating.players move_.to ≡ None) }
    {
        let tables = self.check_to_balance(from, to)?;
        let move_ = balance_order(&self.seats, tables.from, tables.to)?;
        self.check_round()?;
        Ok(move_)
    }

    /// Balances two tables: the player who would be the next big blind at the one sits down at the other, with his
    /// stack. An error leaves the book as it was. It takes no memory.
    #[tactic(auto, using(tournament_rules::proofs::Balances::valid_balanced), unfolding(tournament_rules::specs::Checks::book_refusal))]
    pub(crate) fn balance(&mut self, from: u64, to: u64) -> Result<(), BookFault>
        requires { self.old.accepted < 2 ^ 60 }
        ensures answer { IsAnswer (book_refusal self.old (events.Balance from to)) result }
        ensures state { OnOk result (self.new ≡ balanced self.old from to) }
        ensures err { OnErr result (self.new ≡ self.old) }
    {
        let move_ = self.check_balance(from, to)?;
        let player = mover(&self.seats, move_);
        reseat(&mut self.seats, player, move_.to);
        self.accepted += 1;
        Ok(())
    }
}
