//! What comes next in a simulated tournament.

ghost use Rattle.std.specs.Prelude.{◌≡◌, ◌≤◌, ◌<◌, ◌+◌, ◌^◌, ℕ, false, nat_lt, length, Option, Some, None, find, IfSome, IfOk, option_map};
ghost use Rattle.seat_book.specs.Counts.{table_numbers};
ghost use Rattle.seat_book.specs.Places.{IsTableOf};
ghost use Rattle.tournament_events.specs.declared.event.Event.TheVariants as events;
ghost use Rattle.tournament_rules.specs.Checks.{is_race_due};
ghost use Rattle.tournament_rules.specs.States.{PlayState};
ghost use Rattle.floor_director.specs.Orders.{next_order};
ghost use Rattle.simulation_rules.specs.declared.step.SimStep.TheVariants.{Take};
ghost use Rattle.simulation_rules.specs.Course.{IsOnCourse, IsUnderWay};
ghost use Rattle.simulation_rules.specs.Places.{hand_played, next_round, next_table, tables_done};
ghost use Rattle.simulation_rules.specs.Entrants.{entrants};
ghost use Rattle.simulation_rules.specs.Steps.{after_table, after_tables, at_table, before_hand, next_in_play, racing, simulated_next};
ghost use Rattle.floor_simulation.specs.Midst.{IsUndue};

use crate::entrants::next_entry;
use crate::simulation::Simulation;
use betting_round::Act;
use floor_book::Book;
use floor_director::{deck_of, next_order, sim_turn};
use floor_text::Name;
use simulation_rules::{SimPlace, SimStep};
use std::alloc::AllocError;
use tournament_events::Event;

/// The most hands of a simulated tournament.
const MOST_HANDS: u64 = 20_000;
/// After so many rounds the next level comes.
const ROUNDS_OF_LEVEL: u64 = 10;

/// Tells whether there are seats to take.
fn is_entering(book: &Book) -> bool
    ensures { result ≡ nat_lt (length book.now.entries) (entrants book.now.plan) }
{
    let plan = book.plan();
    u64::from(book.entered()) < plan.tables * plan.seats
}

/// Gives the place once the table's hand was played.
fn hand_played(place: SimPlace) -> SimPlace
    ensures { result ≡ hand_played place }
{
    SimPlace {
        played: true,
        any_played: true,
        ..place
    }
}

/// Gives the place where the next table has its turn.
fn next_table(place: SimPlace) -> SimPlace
    requires { place.table < 64 }
    ensures { result ≡ next_table place }
{
    SimPlace {
        table: place.table + 1,
        played: false,
        ..place
    }
}

/// Gives the place where the tables of the round are done.
fn tables_done(place: SimPlace) -> SimPlace
    ensures { result ≡ tables_done place }
{
    SimPlace {
        done: true,
        ..place
    }
}

/// Gives the place where the next round begins.
fn next_round(place: SimPlace) -> SimPlace
    requires { place.round < 2 ^ 60 }
    ensures { result ≡ next_round place }
{
    SimPlace {
        round: place.round + 1,
        table: 1,
        played: false,
        any_played: false,
        done: false,
    }
}

/// Gives what comes after the last table of a round.
fn after_tables(book: &Book, place: SimPlace) -> SimStep
    requires { place.round < 2 ^ 60 }
    ensures { result ≡ after_tables book.now place }
{
    if !place.any_played {
        SimStep::Take(Event::Stop, place)
    } else if place.round % ROUNDS_OF_LEVEL == 0 && !book.is_last_level() {
        SimStep::Take(Event::Level, tables_done(place))
    } else {
        SimStep::Move(next_round(place))
    }
}

/// Gives what comes after the turn of a table.
fn after_table(book: &Book, place: SimPlace) -> SimStep
    requires round { place.round < 2 ^ 60 }
    requires within { IsTableOf book.now.seating.table_count place.table }
    ensures { result ≡ after_table book.now place }
{
    if book.over() || book.begun() == MOST_HANDS {
        SimStep::Take(Event::Stop, place)
    } else if place.table < book.seats().table_count() {
        SimStep::Move(next_table(place))
    } else {
        after_tables(book, place)
    }
}

/// Gives the first table where a race is pending, if one is.
fn table_to_race(book: &Book) -> Option<u8>
    ensures { result ≡ find (is_race_due book.now) (table_numbers book.now.plan.tables) }
{
    let seats = book.seats();
    for below in 0..seats.table_count() {
        if seats.status(below + 1).race.is_some() {
            return Some(below + 1);
        }
    }
    None
}

/// Gives the race that comes next behind a level, or the next round.
fn racing(book: &Book, seed: [u8; 32], number: u64, place: SimPlace) -> SimStep
    requires { place.round < 2 ^ 60 }
    ensures { result ≡ racing seed number place (find (is_race_due book.now) (table_numbers book.now.plan.tables)) }
{
    match table_to_race(book) {
        Some(table) => {
            let race = Event::Race {
                table: u64::from(table),
                row: deck_of(seed, number),
            };
            SimStep::Take(race, place)
        }
        None => SimStep::Move(next_round(place)),
    }
}

/// Gives the hand that begins at a table, where it would be accepted, or what comes after the table's turn.
fn hand_or_next(book: &Book, seed: [u8; 32], number: u64, place: SimPlace) -> SimStep
    requires round { place.round < 2 ^ 60 }
    requires within { IsTableOf book.now.seating.table_count place.table }
    ensures { result ≡ before_hand seed number book.now place None }
{
    let table = u64::from(place.table);
    if book.check_table_begins(table).is_ok() {
        let row = deck_of(seed, number);
        SimStep::Take(Event::Begin { table, row }, place)
    } else {
        after_table(book, place)
    }
}

impl Simulation {
    /// Gives what comes next before a hand: the order that is owed, the hand, or what comes after the table's turn.
    fn before_hand(&self, book: &Book) -> Result<SimStep, AllocError>
        requires round { self.now.place.round < 2 ^ 60 }
        requires within { IsTableOf book.now.seating.table_count self.now.place.table }
        ensures { IfOk result (λ step. step ≡ before_hand self.now.seed self.now.tournament.accepted book.now
            self.now.place (next_order book.now.seating self.now.seed self.now.tournament.accepted)) }
    {
        let number = self.tournament.accepted();
        match next_order(self.alloc, book.seats(), self.seed, number)? {
            Some(order) => Ok(SimStep::Take(order, self.place)),
            None => Ok(hand_or_next(book, self.seed, number, self.place)),
        }
    }

    /// Gives what comes next at the turn of a table, but for an act: orders, a hand, its settle, and what follows.
    fn at_table(&self, book: &Book) -> Result<SimStep, AllocError>
        requires round { self.now.place.round < 2 ^ 60 }
        requires within { IsTableOf book.now.seating.table_count self.now.place.table }
        requires book { option_map (λ play. play.book) self.now.tournament.play ≡ Some book.now }
        requires going { book.now.stopped ≡ false }
        requires undue { IsUndue self.now.tournament self.now.place }
        ensures { IfOk result (λ step. (play : PlayState) → self.now.tournament.play ≡ Some play
            → step ≡ at_table self.now.seed self.now.tournament.accepted play self.now.place) }
    {
        if self.tournament.hand(self.place.table).is_some() {
            let table = u64::from(self.place.table);
            return Ok(SimStep::Take(Event::Settle { table }, hand_played(self.place)));
        }
        if self.place.played {
            return Ok(after_table(book, self.place));
        }
        self.before_hand(book)
    }

    /// Gives what comes next while the tournament is under way, but for an act.
    fn next_under_way(&self, book: &Book) -> Result<SimStep, AllocError>
        requires book { option_map (λ play. play.book) self.now.tournament.play ≡ Some book.now }
        requires under_way { IsUnderWay book.now self.now.place }
        requires going { book.now.stopped ≡ false }
        requires undue { IsUndue self.now.tournament self.now.place }
        ensures { IfOk result (λ step. (play : PlayState) → self.now.tournament.play ≡ Some play
            → step ≡ next_in_play self.now.seed self.now.tournament.accepted play self.now.place) }
    {
        // The book is lawful, so there is room where there are seats to take.
        let _seats = book.seats();
        if is_entering(book) {
            return Ok(SimStep::Take(next_entry(self.alloc, book)?, self.place));
        }
        if self.place.done {
            let number = self.tournament.accepted();
            return Ok(racing(book, self.seed, number, self.place));
        }
        self.at_table(book)
    }

    /// Gives the name of the player who acts next and his act, where an act comes next: he is due in the hand at the
    /// table whose turn it is.
    pub(crate) fn next_act(&self) -> Option<(Name, Act)>
        requires { IsOnCourse self.now.tournament self.now.place }
        ensures act { IfSome result (λ next. simulated_next self.now.seed self.now.tournament self.now.place
            ≡ Take (events.Act self.now.place.table next.0 next.1) self.now.place) }
        ensures none { result ≡ None → IsUndue self.now.tournament self.now.place }
    {
        if self.tournament.book()?.is_stopped() {
            return None;
        }
        let hand = self.tournament.hand(self.place.table)?;
        sim_turn(self.seed, self.tournament.accepted(), hand)
    }

    /// Gives what comes next, where it is no act.
    pub(crate) fn next(&self) -> Result<SimStep, AllocError>
        requires course { IsOnCourse self.now.tournament self.now.place }
        requires undue { IsUndue self.now.tournament self.now.place }
        ensures { IfOk result (λ step. step ≡ simulated_next self.now.seed self.now.tournament self.now.place) }
    {
        match self.tournament.book() {
            Some(book) if !book.is_stopped() => self.next_under_way(book),
            _ => Ok(SimStep::End),
        }
    }
}
