//! What the floor asks for is carried out.

ghost use Rattle.std.specs.Prelude.{◌≡◌, ◌≤◌, ◌++◌, ℕ, List, [], false, true, length, Option, IfOk, IfSome, IfNone, is_ok, is_some};
ghost use Rattle.rulebook.specs.Checks.{IsChecked};
ghost use Rattle.rulebook.specs.Limits.{most_seats};
ghost use Rattle.floor_text.specs.declared.refusal.Refusal.{Refusal};
ghost use Rattle.level_plan.specs.Items.{is_between};
ghost use Rattle.balance_rule.specs.Filling.{lacks_room};
ghost use Rattle.seat_book.specs.declared.place.Place.{Place};
ghost use Rattle.seat_book.specs.Places.{IsTableOf};
ghost use Rattle.seat_book.specs.Players.{players_at, players_in};
ghost use Rattle.table_engine.specs.Acts.{IsAnswer};
ghost use Rattle.tournament_events.specs.declared.event.Event.TheVariants as events;
ghost use Rattle.tournament_rules.specs.Checks.{book_refusal, is_right_draw, round_checks};
ghost use Rattle.tournament_rules.specs.Kinds.{is_order, is_race};
ghost use Rattle.dock_rules.specs.declared.asks.Ask.TheVariants as asks;
ghost use Rattle.dock_rules.specs.Added.{only_if};
ghost use Rattle.dock_rules.specs.Journals.{entry_told, next_break, tale_of, with_draws};
ghost use Rattle.dock_rules.specs.Points.{IsAskAnswer, ask_answer, event_asked, event_done, is_done, order_owed, refusal_at, told_as};
ghost use Rattle.book_dock.specs.Asked.{IsAsked, IsRefused, rest_lines};

use crate::hold::{BookHold, take_room};
use crate::room::StackRoom;
use balance_rule::names_at;
use break_draw::{draw, fill_seats};
use dock_rules::{Ask, AskAnswer};
use floor_book::{Book, BookFault};
use floor_director::next_order;
use floor_text::{List, Refusal};
use player_view::{JournalEntry, StackLine};
use seat_book::{SeatBook, Seated};
use std::alloc::{AllocError, Global};
use tournament_events::Event;

/// Gives the slots of a table of any number, by seat: who sits there, if one does.
fn slots_at(seats: &SeatBook, table: u64) -> &[Option<Seated>]
    ensures players { players_in result.now ≡ players_at seats.now.players table }
    ensures few { length result.now ≤ most_seats }
{
    let count = u64::from(seats.table_count());
    if table == 0 {
        return &[];
    }
    if table > count {
        return &[];
    }
    seats.table_slots(table as u8)
}

/// Takes the room for the stacks that are told of an event, where it is a race.
fn room_of(alloc: Global, event: &Event) -> Result<Option<StackRoom>, AllocError>
    ensures { IfOk result (λ room. is_some room ≡ is_race event.now) }
{
    match event {
        Event::Race { .. } => Ok(Some(StackRoom::new(alloc)?)),
        _ => Ok(None),
    }
}

/// Lists the stacks that are told of an event once the book has taken it. It takes no memory.
fn stacks_told(alloc: Global, book: &Book, event: &Event, room: Option<StackRoom>) -> Vec<StackLine>
    requires { is_some room ≡ is_race event.now }
    ensures { result.items ≡ rest_lines event.now book.now }
{
    match event {
        Event::Race { table, .. } => room.unwrap().at_rest(slots_at(book.seats(), *table)),
        _ => Vec::new(alloc),
    }
}

/// Makes a table's number of a number of an ask, where the book has such a table.
fn table_number(seats: &SeatBook, table: u64) -> Option<u8>
    ensures same { IfSome result (λ number. number ≡ table) }
    ensures within { IfSome result (IsTableOf seats.now.table_count) }
    ensures none { IfNone result (is_between 1 seats.now.table_count table ≡ false) }
{
    if 1 <= table && table <= u64::from(seats.table_count()) {
        Some(table as u8)
    } else {
        None
    }
}

/// Checks that no table has begun in a round of hand-for-hand.
fn check_round(book: &Book) -> Result<(), Refusal>
    ensures { IsChecked (round_checks book.now) result }
{
    if book.seats().is_round_open() {
        return Err(Refusal::RoundOpen);
    }
    Ok(())
}

/// Checks that a table may break by a right draw, and takes no memory: the break is asked for with no draw, which is
/// refused as a wrong one where nothing else refuses it.
fn check_break(alloc: Global, book: &Book, table: u64) -> Result<(), Refusal>
    ensures { (places : List Place) (names : List (List ℕ))
        → (lacks_room book.now.seating table ≡ false → is_right_draw book.now table places names ≡ true)
        → IsRefused (book_refusal book.now (events.Break table places names)) result }
{
    let undrawn = Event::Break {
        table,
        seats: List::new(alloc),
        names: List::new(alloc),
    };
    match book.check_order(&undrawn) {
        Err(refusal) => match refusal {
            Refusal::DrawWrong => check_round(book),
            _ => Err(refusal),
        },
        Ok(()) => Ok(()),
    }
}

/// Tells what an order came to as the answer to an ask.
fn answer_of(taken: Result<(), BookFault>) -> AskAnswer
    ensures answer { (refusal : Option Refusal) → IsAnswer refusal taken → IsAskAnswer (told_as refusal) result }
    ensures done { is_done result ≡ is_ok taken }
{
    match taken {
        Ok(()) => AskAnswer::Ok,
        Err(BookFault::No(refusal)) => AskAnswer::No(refusal),
        Err(BookFault::NoMemory) => AskAnswer::NoMemory,
    }
}

impl BookHold {
    /// Makes the break of a table by the next draw, where nothing refuses it.
    fn drawn_break(&self, table: u64) -> Result<Event, BookFault>
        ensures event { IfOk result (λ event. event ≡ next_break (tale_of self.now.journal.items) table) }
        ensures answer { IsAnswer (refusal_at (tale_of self.now.journal.items)
            (next_break (tale_of self.now.journal.items) table)) result }
    {
        check_break(self.alloc, &self.book, table)?;
        let seats = self.book.seats();
        let Some(number) = table_number(seats, table) else {
            return Err(BookFault::No(Refusal::NoTable));
        };
        let Some(fill) = fill_seats(seats, number) else {
            return Err(BookFault::No(Refusal::NoRoom));
        };
        let fill = Vec::from_slice(self.alloc, fill.places())?;
        let names = names_at(self.alloc, seats, number)?;
        let (seats, names) = draw(self.alloc, self.seed, self.number(), &fill, &names)?;
        Ok(Event::Break {
            table,
            seats: List::from_vec(seats),
            names: List::from_vec(names),
        })
    }

    /// Gives the order that is owed, if one is, while the tournament is not stopped.
    fn owed(&self) -> Result<Option<Event>, BookFault>
        ensures { IsAsked (tale_of self.now.journal.items) asks.NextOrder result }
    {
        if self.book.is_stopped() {
            return Err(BookFault::No(Refusal::Stopped));
        }
        if self.book.over() {
            return Ok(None);
        }
        Ok(next_order(self.alloc, self.book.seats(), self.seed, self.number())?)
    }

    /// Gives the event that an ask comes to, if it comes to one, with the deck or the draw that comes next.
    fn event_asked(&self, ask: &Ask) -> Result<Option<Event>, BookFault>
        ensures { IsAsked (tale_of self.now.journal.items) ask.now result }
    {
        match ask {
            Ask::Enter { name, table, seat } => Ok(Some(Event::Enter {
                name: *name,
                table: *table,
                seat: *seat,
            })),
            Ask::Reenter { name, table, seat } => Ok(Some(Event::Reenter {
                name: *name,
                table: *table,
                seat: *seat,
            })),
            Ask::Balance { from, to } => Ok(Some(Event::Balance {
                from: *from,
                to: *to,
            })),
            Ask::Break { table } => Ok(Some(self.drawn_break(*table)?)),
            Ask::Level => Ok(Some(Event::Level)),
            Ask::Race { table } => Ok(Some(Event::Race {
                table: *table,
                row: self.next_row(),
            })),
            Ask::Hands(on) => Ok(Some(Event::Hands(*on))),
            Ask::Round => Ok(Some(Event::Round)),
            Ask::Stop => Ok(Some(Event::Stop)),
            Ask::NextOrder => self.owed(),
        }
    }

    /// Takes an order: the check comes first, then the room, then the book's change and the entry. An error leaves the
    /// journal as it was.
    fn take(&mut self, caller: u32, event: Event) -> Result<(), BookFault>
        requires order { is_order event ≡ true }
        requires drawn { with_draws (tale_of self.old.journal.items) event ≡ event }
        ensures answer { IsAnswer (refusal_at (tale_of self.old.journal.items) event) result }
        ensures journal { self.new.journal.items ≡ self.old.journal.items ++ only_if (is_ok result)
            (entry_told (tale_of self.old.journal.items) caller event []) }
    {
        self.book.check_order(&event)?;
        let room = room_of(self.alloc, &event)?;
        take_room(&mut self.journal)?;
        self.book.order(&event)?;
        let stacks = stacks_told(self.alloc, &self.book, &event, room);
        self.journal.push_reserved(JournalEntry {
            caller,
            seed: self.seed,
            event,
            serial: 0,
            acts: List::new(self.alloc),
            stacks: List::from_vec(stacks),
        });
        Ok(())
    }

    /// Carries out what is asked for.
    pub(crate) fn order(&mut self, caller: u32, ask: &Ask) -> AskAnswer
        ensures answer { IsAskAnswer (ask_answer (tale_of self.old.journal.items) ask.now) result }
        ensures journal { self.new.journal.items ≡ self.old.journal.items ++ only_if (is_done result)
            (entry_told (tale_of self.old.journal.items) caller
            (event_done (tale_of self.old.journal.items) ask.now) []) }
    {
        let asked = self.event_asked(ask);
        match asked {
            Ok(None) => AskAnswer::NoOrder,
            Ok(Some(event)) => answer_of(self.take(caller, event)),
            Err(BookFault::No(refusal)) => AskAnswer::No(refusal),
            Err(BookFault::NoMemory) => AskAnswer::NoMemory,
        }
    }
}
