//! The book of a tournament.

ghost use Rattle.std.specs.Prelude.{◌≡◌, length, IfOk};
ghost use Rattle.seat_book.specs.Tables.{IsStatusOf};
ghost use Rattle.tournament_rules.specs.Effects.{first_book, first_seating, first_status};
ghost use Rattle.tournament_rules.specs.Checks.{is_over_for_all};
ghost use Rattle.tournament_rules.specs.Valid.{IsValid};

use crate::slots::empty_slots;
use entry_list::EntryList;
use level_plan::Plan;
use place_list::PlaceList;
use seat_book::{SeatBook, TableStatus};
use std::alloc::{AllocError, Global};
use std::marker::Model;
use table_engine::HandStart;

/// The book: who entered, who sits where, who is out, and the starts of the hands that are out. It keeps no acts.
/// Contracts see it as a `BookState`.
#[derive(Drop)]
pub struct Book {
    pub(crate) alloc: Global,
    pub(crate) plan: Plan,
    pub(crate) entries: EntryList,
    /// How often a player who was out entered again.
    pub(crate) reentries: u32,
    pub(crate) seats: SeatBook,
    /// By table number, the start of the hand that is out. There is no table 0, so its slot stays empty.
    pub(crate) started: Vec<Option<HandStart>>,
    pub(crate) busts: PlaceList,
    /// The number of the group of those who go out next.
    pub(crate) group: u64,
    pub(crate) level: u64,
    /// The chips that races took away.
    pub(crate) removed: u64,
    /// The chips that races gave.
    pub(crate) added: u64,
    pub(crate) begun: u64,
    pub(crate) accepted: u64,
    pub(crate) stopped: bool,
}

impl Model for Book {
    ghost use Rattle.tournament_rules.specs.Books.{BookState};
    ghost use Rattle.tournament_rules.specs.Valid.{IsValid};

    ghost Value = { BookState };

    ghost use Rattle.floor_book.specs.Fields.{book_of};

    ghost view = { book_of };

    ghost invariant = { λ fields. IsValid (book_of fields) };
}

/// Tells how a table stands before any hand, with the unit of the first level.
fn first_status(plan: &Plan) -> TableStatus
    ensures status { result ≡ first_status plan.now }
    ensures lawful { IsStatusOf plan.now.seats result }
{
    let unit = plan.blinds.items()[0].unit;
    TableStatus {
        unit,
        ..TableStatus::fresh()
    }
}

/// Sets up the seats of a plan's tables, whose unit is that of the first level.
fn first_seats(alloc: Global, plan: &Plan) -> Result<SeatBook, AllocError>
    ensures { IfOk result (λ seats. seats ≡ first_seating plan.now) }
{
    let mut seats = SeatBook::new(alloc, plan.tables as u8, plan.seats as u8)?;
    let status = first_status(plan);
    for below in 0..seats.table_count() {
        seats.set_status(below + 1, status);
    }
    Ok(seats)
}

impl Book {
    /// Opens the book of a plan, before any entry. Want of memory is the only error.
    #[tactic(auto, using(tournament_rules::proofs::Entries::valid_first))]
    pub fn new(alloc: Global, plan: Plan) -> Result<Book, AllocError>
        ensures { IfOk result (λ book. book ≡ first_book plan) }
    {
        let seats = first_seats(alloc, &plan)?;
        let started = empty_slots(alloc, plan.tables as usize + 1)?;
        let busts = PlaceList::new(alloc)?;
        Ok(Book {
            alloc,
            plan,
            entries: EntryList::new(alloc),
            reentries: 0,
            seats,
            started,
            busts,
            group: 0,
            level: 1,
            removed: 0,
            added: 0,
            begun: 0,
            accepted: 0,
            stopped: false,
        })
    }

    /// Gives the seats: who sits where, with which stack at rest, and how each table stands.
    pub fn seats(&self) -> &SeatBook
        ensures seats { result.now ≡ self.now.seating }
        ensures lawful { IsValid self.now }
    {
        &self.seats
    }

    /// Gives the plan.
    pub fn plan(&self) -> &Plan
        ensures { result.now ≡ self.now.plan }
    {
        &self.plan
    }

    /// Counts the players who entered.
    pub fn entered(&self) -> u32
        ensures { result ≡ length self.now.entries }
    {
        self.entries.len()
    }

    /// Counts how often a player who was out entered again.
    pub fn reentered(&self) -> u32
        ensures { result ≡ self.now.reentries }
    {
        self.reentries
    }

    /// Counts the hands that have begun.
    pub fn begun(&self) -> u64
        ensures { result ≡ self.now.begun }
    {
        self.begun
    }

    /// Tells whether the tournament was stopped.
    pub fn is_stopped(&self) -> bool
        ensures { result ≡ self.now.stopped }
    {
        self.stopped
    }

    /// Counts the events that were accepted. `begin`, `settle` and `order` ask that they are fewer than 2^60.
    pub fn accepted(&self) -> u64
        ensures { result ≡ self.now.accepted }
    {
        self.accepted
    }

    /// Counts the players who are in: all who entered but those who are out.
    pub fn count_players(&self) -> u32
        ensures { result ≡ length self.now.seating.players }
    {
        self.entries.len() - self.busts.len()
    }

    /// Tells whether the tournament is over: somebody is out, and exactly one player is in.
    pub fn over(&self) -> bool
        ensures { result ≡ is_over_for_all self.now }
    {
        !self.busts.is_empty() && self.count_players() == 1
    }
}
