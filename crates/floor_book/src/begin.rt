//! A hand begins.

ghost use Rattle.std.specs.Prelude.{◌≡◌, ◌≤◌, ◌<◌, ◌^◌, ◌&&◌, ◌++◌, ◌∷◌, [], true, false, not, length, is_some, if◌then◌else◌, None, Some, IfOk, IfErr, OnOk, OnErr};
ghost use Rattle.rulebook.specs.Checks.{IsChecked};
ghost use Rattle.button_blinds.specs.Marks.{AreMarksOf};
ghost use Rattle.seat_book.specs.Places.{IsTableOf, IsPlaceOf};
ghost use Rattle.std.specs.List.{list_all};
ghost use Rattle.seat_book.specs.Players.{players_in, player_at, with_stack};
ghost use Rattle.floor_book.specs.Seats.{has_lawful_seat, dealt_of};
ghost use Rattle.button_blinds.specs.SeatSets.{has_seat};
ghost use Rattle.seat_book.specs.Counts.{count_at};
ghost use Rattle.table_engine.specs.Acts.{IsAnswer};
ghost use Rattle.tournament_events.specs.declared.event.Event.TheVariants as events;
ghost use Rattle.tournament_rules.specs.Books.{blind_now};
ghost use Rattle.tournament_rules.specs.Players.{start_seat, dealt_in};
ghost use Rattle.tournament_rules.specs.Dealing.{next_at, next_start};
ghost use Rattle.card_set.specs.declared.card.CardRow.{CardRow};
ghost use Rattle.card_set.specs.Decks.{repeats_a_card};
ghost use Rattle.tournament_rules.specs.Checks.{going_checks, table_checks, due_checks, begin_checks, book_refusal};
ghost use Rattle.tournament_rules.specs.Effects.{begun_book};
ghost use Rattle.tournament_rules.specs.Valid.{IsValid};

use crate::BookFault;
use crate::book::Book;
use crate::checks::{Ready, check_deck};
use button_blinds::{NextMarks, SeatSet, next_marks};
use card_set::{CardRow, Deck, Game};
use floor_text::{List, Refusal};
use level_plan::Blind;
use seat_book::{Place, SeatBook, Seated, TableStatus};
use std::alloc::{AllocError, Global};
use table_engine::{Hand, HandStart, StartSeat};

/// Lists a player as he starts a hand, with his stack.
fn start_seat(seated: &Seated) -> StartSeat
    ensures { result ≡ start_seat seated.now }
{
    StartSeat {
        seat: seated.place.seat,
        player: seated.player,
        name: seated.name,
        stack: seated.stack,
    }
}

/// Lists the player of a slot, if one sits there and does not wait.
fn push_dealt(
    seats: &mut List<StartSeat>,
    slot: &Option<Seated>,
    waiting: &SeatSet,
) -> Result<(), AllocError>
    requires { list_all has_lawful_seat (players_in (slot.now ∷ [])) ≡ true }
    ensures { OnOk result (seats.new ≡ seats.old ++ dealt_of waiting.now (players_in (slot.now ∷ []))) }
{
    if let Some(seated) = slot {
        if !waiting.has(seated.place.seat) {
            seats.push(start_seat(seated))?;
        }
    }
    Ok(())
}

/// Lists those of a table's players who do not wait, in rising seat.
fn dealt_seats(
    alloc: Global,
    slots: &[Option<Seated>],
    waiting: &SeatSet,
) -> Result<List<StartSeat>, AllocError>
    requires { list_all has_lawful_seat (players_in slots.now) ≡ true }
    ensures { IfOk result (λ seats. seats ≡ dealt_of waiting.now (players_in slots.now)) }
{
    let mut seats = List::from_vec(Vec::with_capacity(alloc, slots.len())?);
    for slot in slots {
        push_dealt(&mut seats, slot, waiting)?;
    }
    Ok(seats)
}

/// Puts the chips of the player in a place into the hand, if one sits there and does not wait.
fn deal_in_seat(seats: &mut SeatBook, place: Place, waiting: &SeatSet)
    requires within { IsPlaceOf seats.old.table_count seats.old.seat_count place }
    requires few { seats.old.seat_count ≤ 10 }
    ensures { seats.new ≡ (if is_some (player_at seats.old.players place) && not (has_seat waiting.now place.seat)
        then record seats.old { players = with_stack place 0 seats.old.players } else seats.old) }
{
    if seats.at(place).is_some() && !waiting.has(place.seat) {
        seats.set_stack(place, 0);
    }
}

/// Puts the chips of those who are dealt in at a table into the hand: they have nothing at rest.
fn deal_in(seats: &mut SeatBook, table: u8, waiting: &SeatSet)
    requires { IsTableOf seats.old.table_count table }
    ensures { seats.new ≡ record seats.old { players = dealt_in table waiting.now seats.old.players } }
{
    for below in 0..seats.seat_count() {
        let place = Place {
            table,
            seat: below + 1,
        };
        deal_in_seat(seats, place, waiting);
    }
}

impl Book {
    /// Makes the checks of a hand's begin but that of its deck, and gives the table's number.
    fn ready_table(&self, table: u64) -> Result<u8, Refusal>
        ensures checked { IsChecked
            (going_checks self.now ++ table_checks self.now table ++ due_checks self.now table) result }
        ensures same { IfOk result (λ number. number ≡ table) }
        ensures within { IfOk result (IsTableOf self.now.seating.table_count) }
        ensures two { IfOk result (λ number. 2 ≤ count_at self.now.seating.players number) }
    {
        self.check_going()?;
        let table = self.check_table(table)?;
        self.check_turn(table)?;
        Ok(table)
    }

    /// Makes the checks of a hand's begin, and gives the table's number and the deck.
    fn ready(&self, table: u64, row: &CardRow) -> Result<Ready, Refusal>
        ensures checked { IsChecked (begin_checks self.now table row.now) result }
        ensures same { IfOk result (λ ready. ready.table ≡ table) }
        ensures deck { IfOk result (λ ready. ready.deck ≡ row.now.cards) }
        ensures within { IfOk result (λ ready. IsTableOf self.now.seating.table_count ready.table) }
        ensures two { IfOk result (λ ready. 2 ≤ count_at self.now.seating.players ready.table) }
    {
        let table = self.ready_table(table)?;
        let deck = check_deck(row)?;
        Ok(Ready { table, deck })
    }

    /// Checks that a hand may begin at a table with any deck, and changes nothing. What it answers is what a begin is
    /// refused, whatever its row, and where it answers none only a row that repeats a card is refused.
    #[tactic(auto, unfolding(tournament_rules::specs::Checks::book_refusal))]
    pub fn check_table_begins(&self, table: u64) -> Result<(), Refusal>
        ensures ok { OnOk result ((row : CardRow) → repeats_a_card row.cards ≡ false
            → book_refusal self.now (events.Begin table row) ≡ None) }
        ensures err { IfErr result (λ refusal. (row : CardRow)
            → book_refusal self.now (events.Begin table row) ≡ Some refusal) }
    {
        match self.ready_table(table) {
            Ok(_) => Ok(()),
            Err(refusal) => Err(refusal),
        }
    }

    /// Checks that a hand may begin at a table, with a row that is a deck, and changes nothing: it begins where memory
    /// does not run out.
    #[tactic(auto, unfolding(tournament_rules::specs::Checks::book_refusal))]
    pub fn check_begin(&self, table: u64, row: &CardRow) -> Result<(), Refusal>
        ensures ok { OnOk result (book_refusal self.now (events.Begin table row.now) ≡ None) }
        ensures err { IfErr result (λ refusal. book_refusal self.now (events.Begin table row.now) ≡ Some refusal) }
    {
        self.ready(table, row)?;
        Ok(())
    }

    /// Finds the marks of the next hand at a table, and who waits.
    fn next_at(&self, table: u8) -> NextMarks
        requires within { IsTableOf self.now.seating.table_count table }
        requires two { 2 ≤ count_at self.now.seating.players table }
        ensures next { result ≡ next_at self.now table }
        ensures marks { AreMarksOf self.now.seating.seat_count result.marks }
    {
        next_marks(
            self.seats.status(table).marks,
            self.seats.occupied(table),
            self.seats.seat_count(),
        )
    }

    /// Gives the blinds and the unit of the current level.
    fn blind_now(&self) -> Blind
        ensures { result ≡ blind_now self.now }
    {
        self.plan.blinds.items()[self.level as usize - 1]
    }

    /// Gives the game that is played.
    fn game(&self) -> Game
        ensures { result ≡ self.now.plan.game }
    {
        self.plan.game
    }

    /// Gives the most wagers of a street by fixed limit.
    fn cap(&self) -> u64
        ensures { result ≡ self.now.plan.cap }
    {
        self.plan.cap
    }

    /// Makes the start of the next hand at a table.
    fn next_start(&self, table: u8, next: &NextMarks, deck: Deck) -> Result<HandStart, AllocError>
        requires few { self.now.accepted < 2 ^ 60 }
        requires within { IsTableOf self.now.seating.table_count table }
        requires next { next.now ≡ next_at self.now table }
        ensures { IfOk result (λ start. start ≡ next_start self.now table deck) }
    {
        let seats = dealt_seats(self.alloc, self.seats.table_slots(table), &next.waiting)?;
        Ok(HandStart {
            table,
            serial: self.begun + 1,
            seats,
            seat_count: self.seats.seat_count(),
            marks: next.marks,
            blind: self.blind_now(),
            cap: self.cap(),
            game: self.game(),
            deck,
        })
    }

    /// Puts a hand out: its table plays with these marks, the chips of those who are dealt in are in the hand, and the
    /// book keeps its start.
    fn put_out(&mut self, start: HandStart, next: &NextMarks)
        requires few { self.old.accepted < 2 ^ 60 }
        requires within { IsTableOf self.old.seating.table_count start.table }
        requires next { next.now ≡ next_at self.old start.table }
        requires marks { AreMarksOf self.old.seating.seat_count next.now.marks }
        requires start { start ≡ next_start self.old start.table start.deck }
        requires valid { IsValid (begun_book self.old start.table start.deck) }
        ensures { self.new ≡ begun_book self.old start.table start.deck }
    {
        let table = start.table;
        let status = TableStatus {
            marks: Some(next.marks),
            playing: true,
            begun: self.seats.hands(),
            ..self.seats.status(table)
        };
        self.seats.set_status(table, status);
        deal_in(&mut self.seats, table, &next.waiting);
        self.started[usize::from(table)] = Some(start);
        self.begun += 1;
        self.accepted += 1;
    }

    /// Begins a hand at a table. It takes all room that the hand's `settle` needs, and the book keeps the start. The
    /// hand is whole and its own: who has it plays it to its end for `settle`, or voids it after `stop`. An error
    /// leaves the book as it was.
    pub fn begin(&mut self, table: u64, row: &CardRow) -> Result<Hand, BookFault>
        requires { self.old.accepted < 2 ^ 60 }
        ensures answer { IsAnswer (book_refusal self.old (events.Begin table row.now)) result }
        ensures hand { IfOk result (λ hand.
            hand ≡ record { start = next_start self.old table row.now.cards; acts = [] }) }
        ensures state { OnOk result (self.new ≡ begun_book self.old table row.now.cards) }
        ensures within { OnOk result (table < length self.old.started) }
        ensures err { OnErr result (self.new ≡ self.old) }
    {
        let Ready { table, deck } = self.ready(table, row)?;
        let next = self.next_at(table);
        let start = self.next_start(table, &next, deck)?;
        let own = start.copy(self.alloc)?;
        let Ok(hand) = Hand::new(self.alloc, own) else {
            return Err(BookFault::NoMemory);
        };
        self.put_out(start, &next);
        Ok(hand)
    }
}
