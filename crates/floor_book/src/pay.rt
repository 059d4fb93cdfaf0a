//! Stacks go back to those to whom they belong.

ghost use Rattle.std.specs.Prelude.{◌≡◌, ◌<◌, length};
ghost use Rattle.rulebook.specs.Limits.{most_entries};
ghost use Rattle.seat_book.specs.Places.{IsTableOf};
ghost use Rattle.seat_book.specs.Seatings.{IsSeating};
ghost use Rattle.table_engine.specs.Results.{with_stacks};
ghost use Rattle.tournament_rules.specs.Players.{pay_one, put_back};
ghost use Rattle.tournament_rules.specs.Effects.{with_table, at_rest};
ghost use Rattle.floor_book.specs.Pay.{ArePayees};

use seat_book::{SeatBook, TableStatus};
use table_engine::StartSeat;

/// Gives a player his stack back, by his number.
#[tactic(auto, using(tournament_rules::proofs::ByNumber::paid_in_place, tournament_rules::proofs::ByNumber::paid_nobody, crate::proofs::Found::sits_found))]
fn pay(seats: &mut SeatBook, payee: StartSeat)
    requires entry { payee.player < most_entries }
    requires lawful { IsSeating seats.old }
    ensures paid { seats.new ≡ record seats.old { players = pay_one seats.old.players payee } }
    ensures lawful { IsSeating seats.new }
{
    if let Some(place) = seats.find(payee.player) {
        seats.set_stack(place, payee.stack);
    }
}

/// Gives players their stacks back, each by his number.
pub(crate) fn pay_players(seats: &mut SeatBook, payees: &[StartSeat])
    requires payees { ArePayees payees.now }
    requires lawful { IsSeating seats.old }
    ensures paid { seats.new ≡ record seats.old { players = put_back payees.now seats.old.players } }
    ensures lawful { IsSeating seats.new }
{
    for payee in payees {
        pay(seats, *payee);
    }
}

/// Gives the players of a hand the stacks that they have after it, each by his number.
pub(crate) fn pay_stacks(seats: &mut SeatBook, players: &[StartSeat], stacks: &[u64])
    requires payees { ArePayees players.now }
    requires named { length stacks.now ≡ length players.now }
    requires lawful { IsSeating seats.old }
    ensures paid { seats.new
        ≡ record seats.old { players = put_back (with_stacks players.now stacks.now) seats.old.players } }
    ensures lawful { IsSeating seats.new }
{
    for index in 0..players.len() {
        pay(seats, players[index].with_stack(stacks[index]));
    }
}

/// Ends the play at a table.
pub(crate) fn rest_table(seats: &mut SeatBook, table: u8)
    requires { IsTableOf seats.old.table_count table }
    ensures { seats.new ≡ with_table seats.old table at_rest }
{
    let status = TableStatus {
        playing: false,
        ..seats.status(table)
    };
    seats.set_status(table, status);
}
