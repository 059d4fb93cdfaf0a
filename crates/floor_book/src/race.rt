//! A chip race.

ghost use Rattle.std.specs.Prelude.{◌≡◌, ◌<◌, ◌≤◌, ◌^◌, ◌++◌, ◌∷◌, [], not, map, true, false, IfOk, OnOk, OnErr};
ghost use Rattle.rulebook.specs.Checks.{IsChecked};
ghost use Rattle.card_set.specs.Decks.{IsDeck};
ghost use Rattle.seat_book.specs.Places.{IsTableOf, IsPlaceOf};
ghost use Rattle.seat_book.specs.Players.{with_stack};
ghost use Rattle.table_engine.specs.Acts.{IsAnswer};
ghost use Rattle.floor_text.specs.declared.refusal.Refusal.TheVariants as refusals;
ghost use Rattle.tournament_events.specs.declared.event.Event.TheVariants as events;
ghost use Rattle.tournament_rules.specs.Checks.{is_table_open, is_playing, is_race_due, over_checks, race_checks, book_refusal};
ghost use Rattle.tournament_rules.specs.Effects.{with_table, raced};
ghost use Rattle.tournament_rules.specs.Racing.{stack_in, stacks_at, unit_after, raced_off, race_at, restacked};

use crate::BookFault;
use crate::book::Book;
use crate::checks::{Ready, check_deck};
use card_set::{CardRow, Deck};
use chip_race::{RaceResult, race};
use floor_text::Refusal;
use seat_book::{Place, SeatBook, TableStatus};

/// Gives the stack in a seat of a table, and 0 where nobody sits.
fn stack_in(seats: &SeatBook, table: u8, seat: u8) -> u64
    requires table { IsTableOf seats.now.table_count table }
    requires seat { 1 ≤ seat }
    ensures { result ≡ stack_in seats.now.players (record { table = table; seat = seat }) }
{
    if seat > seats.seat_count() {
        return 0;
    }
    match seats.at(Place { table, seat }) {
        Some((_, _, stack)) => stack,
        None => 0,
    }
}

/// Gives the stacks in the ten seats of a table, index 0 for seat 1.
fn stacks_at(seats: &SeatBook, table: u8) -> [u64; 10]
    requires { IsTableOf seats.now.table_count table }
    ensures { result ≡ stacks_at seats.now.players table }
{
    let mut stacks = [0; 10];
    for below in 0..10u8 {
        stacks[usize::from(below)] = stack_in(seats, table, below + 1);
    }
    stacks
}

/// Gives the player in a seat of a table this stack, if one sits there.
fn restack_seat(seats: &mut SeatBook, place: Place, stack: u64)
    requires { IsPlaceOf seats.old.table_count seats.old.seat_count place }
    ensures { seats.new ≡ record seats.old { players = with_stack place stack seats.old.players } }
{
    if seats.at(place).is_some() {
        seats.set_stack(place, stack);
    }
}

/// Gives the players of a table these stacks by seat, index 0 for seat 1.
fn restack(seats: &mut SeatBook, table: u8, stacks: &[u64; 10])
    requires { IsTableOf seats.old.table_count table }
    ensures { seats.new ≡ record seats.old { players = map (restacked table stacks.now) seats.old.players } }
{
    for below in 0..seats.seat_count() {
        let place = Place {
            table,
            seat: below + 1,
        };
        restack_seat(seats, place, stacks[usize::from(below)]);
    }
}

/// Gives the unit that a table has after its race.
fn unit_after(status: TableStatus) -> u64
    ensures { result ≡ unit_after status }
{
    status.race.unwrap_or(status.unit)
}

/// Gives a table its new unit: no race is pending there.
fn end_race(seats: &mut SeatBook, table: u8)
    requires { IsTableOf seats.old.table_count table }
    ensures { seats.new ≡ with_table seats.old table raced_off }
{
    let status = seats.status(table);
    let after = TableStatus {
        unit: unit_after(status),
        race: None,
        ..status
    };
    seats.set_status(table, after);
}

impl Book {
    /// Checks that a race is pending at a table, and that the tournament is not over.
    fn check_due(&self, table: u8) -> Result<(), Refusal>
        requires { IsTableOf self.now.seating.table_count table }
        ensures { IsChecked ((refusals.NoRace, not (is_race_due self.now table)) ∷ over_checks self.now) result }
    {
        if self.seats.status(table).race.is_none() {
            return Err(Refusal::NoRace);
        }
        self.check_not_over()
    }

    /// Makes the checks of a chip race, and gives the table's number and the deck.
    pub(crate) fn check_race(&self, table: u64, row: &CardRow) -> Result<Ready, Refusal>
        ensures checked { IsChecked (race_checks self.now table row.now) result }
        ensures same { IfOk result (λ ready. ready.table ≡ table) }
        ensures deck { IfOk result (λ ready. ready.deck ≡ row.now.cards) }
        ensures within { IfOk result (λ ready. IsTableOf self.now.seating.table_count ready.table) }
    {
        self.check_going()?;
        let table = self.check_open(table)?;
        self.check_not_playing(table)?;
        let deck = check_deck(row)?;
        self.check_due(table)?;
        Ok(Ready { table, deck })
    }

    /// Finds what the race that is pending at a table makes of its stacks.
    fn race_at(&self, table: u8, deck: &Deck) -> RaceResult
        requires opened { is_table_open self.now table ≡ true }
        requires rests { is_playing self.now table ≡ false }
        requires due { is_race_due self.now table ≡ true }
        requires deck { IsDeck deck.now }
        ensures { result ≡ race_at self.now.seating table deck.now }
    {
        let status = self.seats.status(table);
        let stacks = stacks_at(&self.seats, table);
        race(&stacks, status.unit, unit_after(status), deck)
    }

    /// Makes the race that is pending at a table. An error leaves the book as it was. It takes no memory.
    #[tactic(auto, using(tournament_rules::proofs::Races::valid_raced), unfolding(tournament_rules::specs::Checks::book_refusal))]
    pub(crate) fn race(&mut self, table: u64, row: &CardRow) -> Result<(), BookFault>
        requires { self.old.accepted < 2 ^ 60 }
        ensures answer { IsAnswer (book_refusal self.old (events.Race table row.now)) result }
        ensures state { OnOk result (self.new ≡ raced self.old table row.now.cards) }
        ensures err { OnErr result (self.new ≡ self.old) }
    {
        let Ready { table, deck } = self.check_race(table, row)?;
        let RaceResult {
            stacks,
            removed,
            added,
        } = self.race_at(table, &deck);
        restack(&mut self.seats, table, &stacks);
        end_race(&mut self.seats, table);
        self.removed += removed;
        self.added += added;
        self.accepted += 1;
        Ok(())
    }
}
