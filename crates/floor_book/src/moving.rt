//! Players who move to other places.

ghost use Rattle.std.specs.Prelude.{◌≡◌, ◌<◌, ◌≤◌, None, Some, find, IfSome};
ghost use Rattle.rulebook.specs.Limits.{most_entries};
ghost use Rattle.seat_book.specs.Places.{IsTableOf, IsPlaceOf};
ghost use Rattle.seat_book.specs.Players.{player_at, player_of, players_at, players_in};
ghost use Rattle.seat_book.specs.Seatings.{IsSeating};
ghost use Rattle.balance_rule.specs.Balance.{after_move};
ghost use Rattle.tournament_rules.specs.Moving.{is_called, after_taking, after_all};
ghost use Rattle.tournament_rules.specs.Effects.{with_table, forgotten};
ghost use Rattle.floor_book.specs.Moves.{AreFree};

use floor_text::Name;
use seat_book::{Place, SeatBook, Seated, TableStatus};

/// Moves a player who sits to another place, with his stack.
pub(crate) fn reseat(seats: &mut SeatBook, player: Seated, place: Place)
    requires entry { player.player < most_entries }
    requires sits { player_of seats.old.players player.player ≡ Some player }
    requires within { IsPlaceOf seats.old.table_count seats.old.seat_count place }
    requires free { player_at seats.old.players place ≡ None }
    ensures moved { seats.new
        ≡ after_move (record { player = player.player; from = player.place; to = place }) seats.old }
    ensures lawful { IsSeating seats.new }
{
    let (_, stack) = seats.lift(player.player);
    seats.seat(player.player, player.name, place, stack);
}

/// Tells whether a player has this name.
fn is_called(player: &Seated, name: Name) -> bool
    ensures { result ≡ is_called name player.now }
{
    player.name == name
}

/// Finds the player of a name in slots, if one sits there.
fn find_in_slots(slots: &[Option<Seated>], name: Name) -> Option<Seated>
    ensures { result ≡ find (is_called name) (players_in slots.now) }
{
    slots
        .iter()
        .filter_map(|slot| *slot)
        .find(|player| is_called(player, name))
}

/// Finds the player of a name at a table, if one sits there.
fn find_called(seats: &SeatBook, table: u8, name: Name) -> Option<Seated>
    requires table { IsTableOf seats.now.table_count table }
    ensures player { result ≡ find (is_called name) (players_at seats.now.players table) }
    ensures sits { IfSome result (λ player. player_of seats.now.players player.player ≡ Some player) }
    ensures entry { IfSome result (λ player. player.player < most_entries) }
{
    find_in_slots(seats.table_slots(table), name)
}

/// Lets the player of a name at a table take a place, if one of that name sits there.
fn take_place(seats: &mut SeatBook, table: u8, name: Name, place: Place)
    requires table { IsTableOf seats.old.table_count table }
    requires within { IsPlaceOf seats.old.table_count seats.old.seat_count place }
    requires free { player_at seats.old.players place ≡ None }
    requires lawful { IsSeating seats.old }
    ensures taken { seats.new ≡ after_taking table name place seats.old }
    ensures lawful { IsSeating seats.new }
{
    if let Some(player) = find_called(seats, table, name) {
        reseat(seats, player, place);
    }
}

/// Lets the players of these names at a table take these places, each the one that stands with his name.
pub(crate) fn take_places(seats: &mut SeatBook, table: u8, names: &[Name], places: &[Place])
    requires table { IsTableOf seats.old.table_count table }
    requires free { AreFree seats.old places.now }
    requires lawful { IsSeating seats.old }
    ensures taken { seats.new ≡ after_all table names.now places.now seats.old }
    ensures lawful { IsSeating seats.new }
{
    for index in 0..names.len().min(places.len()) {
        take_place(seats, table, names[index], places[index]);
    }
}

/// Forgets the marks of a table.
pub(crate) fn forget_marks(seats: &mut SeatBook, table: u8)
    requires { IsTableOf seats.old.table_count table }
    ensures forgotten { seats.new ≡ with_table seats.old table forgotten }
    ensures lawful { IsSeating seats.new }
{
    let status = TableStatus {
        marks: None,
        ..seats.status(table)
    };
    seats.set_status(table, status);
}
