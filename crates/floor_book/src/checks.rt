//! The checks, a group at a time, as the definition has them. What an event's checks are of these its own file says.

ghost use Rattle.std.specs.Prelude.{◌≡◌, ◌<◌, ◌≤◌, ◌&&◌, false, nat_lt, is_some, IfSome, IfOk, OnOk};
ghost use Rattle.rulebook.specs.Checks.{IsChecked};
ghost use Rattle.seat_book.specs.Places.{IsTableOf, IsPlaceOf};
ghost use Rattle.seat_book.specs.Counts.{count_at};
ghost use Rattle.balance_rule.specs.Halting.{is_halted};
ghost use Rattle.tournament_rules.specs.Books.{has_table, has_seat_number};
ghost use Rattle.tournament_rules.specs.Checks.{is_table_open, may_be_entered, is_taken, is_not_fewest, going_checks, newcomer_checks, seat_checks, over_checks, entry_checks, room_checks, buy_checks, open_table_checks, not_playing_checks, no_race_checks, enough_checks, table_checks, deck_checks, due_checks, known_checks, playing_checks, leaving_checks, round_checks, both_open_checks, draw_checks};
ghost use Rattle.floor_book.specs.Tables.{IsPlayedAt, AreOpen};

use crate::book::Book;
use balance_rule::halted;
use break_draw::{check_draw, fill_seats};
use card_set::{CardRow, Deck};
use floor_text::{Name, Refusal};
use hand_rounds::may_begin;
use rulebook::MOST_ENTRIES;
use seat_book::Place;

/// A table that is ready for a hand or a race, with the deck for it.
#[derive(Drop)]
pub(crate) struct Ready {
    /// The table's number.
    pub(crate) table: u8,
    /// The deck.
    pub(crate) deck: Deck,
}

/// The two tables of a balance, which are open.
#[derive(Clone, Copy)]
pub(crate) struct OpenTables {
    /// The number of the table that a player leaves.
    pub(crate) from: u8,
    /// The number of the table where he sits down.
    pub(crate) to: u8,
}

/// Checks that a row is a deck, in which no card comes twice, and gives the deck.
pub(crate) fn check_deck(row: &CardRow) -> Result<Deck, Refusal>
    ensures checked { IsChecked (deck_checks row.now) result }
    ensures deck { IfOk result (λ deck. deck ≡ row.now.cards) }
{
    match Deck::of_row(row) {
        Some(deck) => Ok(deck),
        None => Err(Refusal::DeckWrong),
    }
}

impl Book {
    /// Checks that the tournament goes on.
    pub fn check_going(&self) -> Result<(), Refusal>
        ensures { IsChecked (going_checks self.now) result }
    {
        if self.stopped {
            return Err(Refusal::Stopped);
        }
        Ok(())
    }

    /// Checks that nobody of that name entered.
    pub(crate) fn check_newcomer(&self, name: Name) -> Result<(), Refusal>
        ensures { IsChecked (newcomer_checks self.now name) result }
    {
        if self.entries.find(name).is_some() {
            return Err(Refusal::NameKnown);
        }
        Ok(())
    }

    /// Makes a table's number of a number of a line, where the plan has such a table.
    fn table_number(&self, table: u64) -> Option<u8>
        ensures there { is_some result ≡ has_table self.now table }
        ensures same { IfSome result (λ number. number ≡ table) }
        ensures within { IfSome result (IsTableOf self.now.seating.table_count) }
    {
        if 1 <= table && table <= self.plan.tables {
            Some(table as u8)
        } else {
            None
        }
    }

    /// Makes a table's number of a number of a line, where a player may enter there.
    fn table_to_enter(&self, table: u64) -> Option<u8>
        ensures there { is_some result ≡ may_be_entered self.now table }
        ensures same { IfSome result (λ number. number ≡ table) }
        ensures within { IfSome result (IsTableOf self.now.seating.table_count) }
    {
        let number = self.table_number(table)?;
        if self.begun > 0 && self.seats.count(number) == 0 {
            return None;
        }
        Some(number)
    }

    /// Makes a seat's number of a number of a line, where the plan's tables have such a seat.
    fn seat_number(&self, seat: u64) -> Option<u8>
        ensures there { is_some result ≡ has_seat_number self.now seat }
        ensures same { IfSome result (λ number. number ≡ seat) }
        ensures first { IfSome result (λ number. 1 ≤ number) }
        ensures last { IfSome result (λ number. number ≤ self.now.seating.seat_count) }
    {
        if 1 <= seat && seat <= self.plan.seats {
            Some(seat as u8)
        } else {
            None
        }
    }

    /// Tells whether a player sits in a place.
    fn is_taken(&self, place: Place) -> bool
        requires { IsPlaceOf self.now.seating.table_count self.now.seating.seat_count place }
        ensures { result ≡ is_taken self.now place.table place.seat }
    {
        self.seats.at(place).is_some()
    }

    /// Tells whether a table may be entered and has fewer players than so many.
    fn has_fewer(&self, table: u8, players: u8) -> bool
        requires { IsTableOf self.now.seating.table_count table }
        ensures { result ≡ (may_be_entered self.now table && nat_lt (count_at self.now.seating.players table) players) }
    {
        let count = self.seats.count(table);
        (self.begun == 0 || count > 0) && count < players
    }

    /// Tells whether another table that may be entered has fewer players than this one.
    fn is_not_fewest(&self, table: u8) -> bool
        requires { IsTableOf self.now.seating.table_count table }
        ensures { result ≡ is_not_fewest self.now table }
    {
        let players = self.seats.count(table);
        for below in 0..self.seats.table_count() {
            if self.has_fewer(below + 1, players) {
                return true;
            }
        }
        false
    }

    /// Checks that a player may sit down at that table, in that seat, and gives the place.
    pub(crate) fn check_seat(&self, table: u64, seat: u64) -> Result<Place, Refusal>
        ensures checked { IsChecked (seat_checks self.now table seat) result }
        ensures same { IfOk result (λ place. place ≡ record { table = table; seat = seat }) }
        ensures within { IfOk result (IsPlaceOf self.now.seating.table_count self.now.seating.seat_count) }
        ensures free { IfOk result (λ place. is_taken self.now place.table place.seat ≡ false) }
    {
        let Some(number) = self.table_to_enter(table) else {
            return Err(Refusal::NoTable);
        };
        let Some(seat) = self.seat_number(seat) else {
            return Err(Refusal::NoSeat);
        };
        let place = Place {
            table: number,
            seat,
        };
        if self.is_taken(place) {
            return Err(Refusal::SeatTaken);
        }
        if self.is_not_fewest(number) {
            return Err(Refusal::NotFewest);
        }
        Ok(place)
    }

    /// Checks that the tournament is not over.
    pub(crate) fn check_not_over(&self) -> Result<(), Refusal>
        ensures { IsChecked (over_checks self.now) result }
    {
        if self.over() {
            return Err(Refusal::Over);
        }
        Ok(())
    }

    /// Checks that entries are open.
    pub(crate) fn check_entries(&self) -> Result<(), Refusal>
        ensures { IsChecked (entry_checks self.now) result }
    {
        if self.level > self.plan.late {
            return Err(Refusal::LateClosed);
        }
        self.check_not_over()
    }

    /// Checks that there is room for one entry or re-entry more.
    fn check_room(&self) -> Result<(), Refusal>
        ensures { IsChecked (room_checks self.now) result }
    {
        if (self.entries.len() + self.reentries) as usize >= MOST_ENTRIES {
            return Err(Refusal::ListFull);
        }
        Ok(())
    }

    /// Checks that a player may buy a stack and sit down with it at that table, in that seat, and gives the place.
    #[inline(always)]
    pub(crate) fn check_buy(&self, table: u64, seat: u64) -> Result<Place, Refusal>
        ensures checked { IsChecked (buy_checks self.now table seat) result }
        ensures same { IfOk result (λ place. place ≡ record { table = table; seat = seat }) }
        ensures within { IfOk result (IsPlaceOf self.now.seating.table_count self.now.seating.seat_count) }
        ensures free { IfOk result (λ place. is_taken self.now place.table place.seat ≡ false) }
    {
        let place = self.check_seat(table, seat)?;
        self.check_entries()?;
        self.check_room()?;
        Ok(place)
    }

    /// Makes a table's number of a number of a line, where such a table is open.
    fn open_table(&self, table: u64) -> Option<u8>
        ensures there { is_some result ≡ is_table_open self.now table }
        ensures same { IfSome result (λ number. number ≡ table) }
        ensures within { IfSome result (IsTableOf self.now.seating.table_count) }
        ensures opened { IfSome result (λ number. 1 ≤ count_at self.now.seating.players number) }
    {
        let number = self.table_number(table)?;
        if self.seats.count(number) == 0 {
            return None;
        }
        Some(number)
    }

    /// Checks that a table is open, and gives its number.
    pub(crate) fn check_open(&self, table: u64) -> Result<u8, Refusal>
        ensures checked { IsChecked (open_table_checks self.now table) result }
        ensures same { IfOk result (λ number. number ≡ table) }
        ensures within { IfOk result (IsTableOf self.now.seating.table_count) }
        ensures opened { IfOk result (λ number. 1 ≤ count_at self.now.seating.players number) }
    {
        match self.open_table(table) {
            Some(number) => Ok(number),
            None => Err(Refusal::NoTable),
        }
    }

    /// Checks that no hand is played at a table.
    pub(crate) fn check_not_playing(&self, table: u8) -> Result<(), Refusal>
        requires { IsTableOf self.now.seating.table_count table }
        ensures { IsChecked (not_playing_checks self.now table) result }
    {
        if self.seats.status(table).playing {
            return Err(Refusal::Playing);
        }
        Ok(())
    }

    /// Checks that no race is pending at any table.
    pub(crate) fn check_no_race(&self) -> Result<(), Refusal>
        ensures { IsChecked (no_race_checks self.now) result }
    {
        if self.seats.is_race_pending() {
            return Err(Refusal::RaceDue);
        }
        Ok(())
    }

    /// Tells whether a table is halted.
    fn is_halted(&self, table: u8) -> bool
        requires { IsTableOf self.now.seating.table_count table }
        ensures { result ≡ is_halted self.now.seating table }
    {
        halted(&self.seats, table)
    }

    /// Checks that a table has enough players for a hand: more than one, and it is not halted.
    fn check_enough(&self, table: u8) -> Result<(), Refusal>
        requires within { IsTableOf self.now.seating.table_count table }
        requires opened { 1 ≤ count_at self.now.seating.players table }
        ensures checked { IsChecked (enough_checks self.now table) result }
        ensures two { OnOk result (2 ≤ count_at self.now.seating.players table) }
    {
        if self.seats.count(table) == 1 {
            return Err(Refusal::Lone);
        }
        if self.is_halted(table) {
            return Err(Refusal::Halted);
        }
        Ok(())
    }

    /// Checks that a hand may begin at a table, and gives the table's number.
    pub(crate) fn check_table(&self, table: u64) -> Result<u8, Refusal>
        ensures checked { IsChecked (table_checks self.now table) result }
        ensures same { IfOk result (λ number. number ≡ table) }
        ensures within { IfOk result (IsTableOf self.now.seating.table_count) }
        ensures two { IfOk result (λ number. 2 ≤ count_at self.now.seating.players number) }
    {
        let table = self.check_open(table)?;
        self.check_not_playing(table)?;
        self.check_enough(table)?;
        Ok(table)
    }

    /// Checks that it is a table's turn: no race is pending there, and it has not begun in a round of hand-for-hand.
    pub(crate) fn check_turn(&self, table: u8) -> Result<(), Refusal>
        requires { IsTableOf self.now.seating.table_count table }
        ensures { IsChecked (due_checks self.now table) result }
    {
        if self.seats.status(table).race.is_some() {
            return Err(Refusal::RaceDue);
        }
        may_begin(&self.seats, table)
    }

    /// Checks that somebody of that name entered.
    pub fn check_known(&self, name: Name) -> Result<(), Refusal>
        ensures { IsChecked (known_checks self.now name) result }
    {
        if self.entries.find(name).is_none() {
            return Err(Refusal::NameUnknown);
        }
        Ok(())
    }

    /// Checks that there is such a table and that a hand is played there, and gives the table's number.
    pub fn check_playing(&self, table: u64) -> Result<u8, Refusal>
        ensures checked { IsChecked (playing_checks self.now table) result }
        ensures told { IfOk result (IsPlayedAt self.now table) }
    {
        let Some(number) = self.table_number(table) else {
            return Err(Refusal::NoTable);
        };
        if !self.seats.status(number).playing {
            return Err(Refusal::NotPlaying);
        }
        Ok(number)
    }

    /// Checks that players may leave a table: no hand is played there, and no race is pending at any table.
    pub(crate) fn check_leaving(&self, table: u8) -> Result<(), Refusal>
        requires { IsTableOf self.now.seating.table_count table }
        ensures { IsChecked (leaving_checks self.now table) result }
    {
        self.check_not_playing(table)?;
        self.check_no_race()
    }

    /// Checks that no table has begun in a round of hand-for-hand.
    pub(crate) fn check_round(&self) -> Result<(), Refusal>
        ensures { IsChecked (round_checks self.now) result }
    {
        if self.seats.is_round_open() {
            return Err(Refusal::RoundOpen);
        }
        Ok(())
    }

    /// Checks that both tables are open, and gives their numbers.
    pub(crate) fn check_both_open(&self, from: u64, to: u64) -> Result<OpenTables, Refusal>
        ensures checked { IsChecked (both_open_checks self.now from to) result }
        ensures told { IfOk result (AreOpen self.now from to) }
    {
        let from = self.check_open(from)?;
        let to = self.check_open(to)?;
        Ok(OpenTables { from, to })
    }

    /// Checks that a table may break so: it is the last, there is room, and the draw is right.
    pub(crate) fn check_break_draw(
        &self,
        table: u8,
        places: &[Place],
        names: &[Name],
    ) -> Result<(), Refusal>
        requires { IsTableOf self.now.seating.table_count table }
        ensures { IsChecked (draw_checks self.now table places.now names.now) result }
    {
        if self.seats.is_not_last(table) {
            return Err(Refusal::NotNextToBreak);
        }
        let Some(fill) = fill_seats(&self.seats, table) else {
            return Err(Refusal::NoRoom);
        };
        if !check_draw(&self.seats, table, fill.places(), places, names) {
            return Err(Refusal::DrawWrong);
        }
        Ok(())
    }
}
