//! The seats of all tables.

ghost use Rattle.std.specs.Prelude.{◌≡◌, ◌<◌, ◌≤◌, ◌*◌, ◌-◌, nat_lt, length, None, Some, IsSome, IfSome, IfOk, option_map};
ghost use Rattle.std.specs.List.{list_any};
ghost use Rattle.rulebook.specs.Limits.{most_entries};
ghost use Rattle.button_blinds.specs.SeatSets.{seat_count, AreSeatsOf};
ghost use Rattle.seat_book.specs.Places.{IsTableOf, IsPlaceOf};
ghost use Rattle.seat_book.specs.Players.{players_in, player_at, player_of, place_of, players_at, taken_seats, sit_down, lifted, with_stack};
ghost use Rattle.seat_book.specs.Counts.{count_at, greatest_count, least_count};
ghost use Rattle.seat_book.specs.Tables.{status_at, with_status, IsStatusOf};
ghost use Rattle.seat_book.specs.Kept.{slot_of};
ghost use Rattle.seat_book.specs.Seatings.{is_race_pending, is_any_playing, is_any_begun, is_round_open, is_not_last};

use crate::{Place, Seated, TableStatus};
use button_blinds::SeatSet;
use floor_text::Name;
use rulebook::MOST_ENTRIES;
use std::alloc::{AllocError, Global};
use std::marker::Model;

/// The seats of all tables: who sits where with which stack, and how each table stands. Contracts see it as a
/// `Seating`.
#[derive(Drop)]
pub struct SeatBook {
    table_count: u8,
    seat_count: u8,
    slots: Vec<Option<Seated>>,
    places: Vec<Option<Place>>,
    counts: Vec<u8>,
    statuses: Vec<TableStatus>,
    hands: bool,
}

impl Model for SeatBook {
    ghost use Rattle.seat_book.specs.Players.{players_in};
    ghost use Rattle.seat_book.specs.Kept.{IsKept};
    ghost use Rattle.seat_book.specs.Seatings.{Seating};

    ghost Value = { Seating };

    ghost view = { λ book. record {
      table_count = book.table_count;
      seat_count = book.seat_count;
      players = players_in book.slots.items;
      tables = book.statuses.items;
      hands = book.hands;
    } };

    ghost invariant = { λ book. IsKept book.table_count book.seat_count book.slots.items book.places.items
        book.counts.items book.statuses.items };
}

/// Tells where the slot of a place is, at tables of so many seats: one after another, table by table.
fn slot_of(place: Place, seats: u8) -> usize
    requires table { 1 ≤ place.table }
    requires seat { 1 ≤ place.seat }
    ensures { result ≡ slot_of seats place }
{
    usize::from(place.table - 1) * usize::from(seats) + usize::from(place.seat - 1)
}

/// Tells where what is kept of a table is.
fn table_index(table: u8) -> usize
    requires { 1 ≤ table }
    ensures { result ≡ table - 1 }
{
    usize::from(table - 1)
}

/// Tells whether somebody sits at one of the tables with these counts.
fn has_players(counts: &[u8]) -> bool
    ensures { result ≡ list_any (nat_lt 0) counts.now }
{
    counts.iter().any(|count| *count > 0)
}

impl SeatBook {
    ghost use Rattle.seat_book.specs.Seatings.{empty_seating, IsSeating};

    /// Makes so many tables of so many seats, where nobody sits and no hand was played. Want of memory is the only
    /// error.
    pub fn new(alloc: Global, tables: u8, seats: u8) -> Result<SeatBook, AllocError>
        requires some_tables { 1 ≤ tables }
        requires most_tables { tables ≤ 64 }
        requires some_seats { 2 ≤ seats }
        requires most_seats { seats ≤ 10 }
        ensures empty { IfOk result (λ book. book ≡ empty_seating tables seats) }
        ensures lawful { IfOk result IsSeating }
    {
        let table_total = usize::from(tables);
        Ok(SeatBook {
            table_count: tables,
            seat_count: seats,
            slots: vec![in alloc; None; table_total * usize::from(seats)]?,
            places: vec![in alloc; None; MOST_ENTRIES]?,
            counts: vec![in alloc; 0; table_total]?,
            statuses: vec![in alloc; TableStatus::fresh(); table_total]?,
            hands: false,
        })
    }

    /// Counts the tables.
    pub fn table_count(&self) -> u8
        ensures tables { result ≡ self.now.table_count }
        ensures lawful { IsSeating self.now }
    {
        self.table_count
    }

    /// Counts the seats of each table.
    pub fn seat_count(&self) -> u8
        ensures seats { result ≡ self.now.seat_count }
        ensures lawful { IsSeating self.now }
    {
        self.seat_count
    }

    /// Seats the player of this number and name, with this stack in chips.
    pub fn seat(&mut self, player: u32, name: Name, place: Place, stack: u64)
        requires entry { player < most_entries }
        requires place { IsPlaceOf self.old.table_count self.old.seat_count place }
        requires empty { player_at self.old.players place ≡ None }
        requires stands { place_of self.old.players player ≡ None }
        ensures same { self.new ≡ record self.old {
          players = sit_down (record { place = place; player = player; name = name; stack = stack })
              self.old.players;
        } }
        ensures lawful { IsSeating self.new }
    {
        let slot = slot_of(place, self.seat_count);
        self.slots[slot] = Some(Seated {
            place,
            player,
            name,
            stack,
        });
        self.places[player as usize] = Some(place);
        self.counts[table_index(place.table)] += 1;
    }

    /// Gives the player of this number, who sits.
    fn seated(&self, player: u32) -> Seated
        requires entry { player < most_entries }
        requires sits { IsSome (place_of self.now.players player) }
        ensures player { player_of self.now.players player ≡ Some result }
        ensures place { IsPlaceOf self.now.table_count self.now.seat_count result.place }
    {
        let place = self.places[player as usize].unwrap();
        self.slots[slot_of(place, self.seat_count)].unwrap()
    }

    /// Lifts the player of this number from his seat, and tells where he sat, and his stack in chips.
    pub fn lift(&mut self, player: u32) -> (Place, u64)
        requires entry { player < most_entries }
        requires sits { IsSome (place_of self.old.players player) }
        ensures same { self.new ≡ record self.old { players = lifted player self.old.players } }
        ensures place { place_of self.old.players player ≡ Some result.0 }
        ensures stack { option_map (λ seated. seated.stack) (player_of self.old.players player) ≡ Some result.1 }
        ensures lawful { IsSeating self.new }
    {
        let Seated { place, stack, .. } = self.seated(player);
        self.slots[slot_of(place, self.seat_count)] = None;
        self.places[player as usize] = None;
        self.counts[table_index(place.table)] -= 1;
        (place, stack)
    }

    /// Tells where the player of this number sits, if he does.
    pub fn find(&self, player: u32) -> Option<Place>
        requires { player < most_entries }
        ensures place { result ≡ place_of self.now.players player }
        ensures within { IfSome result (IsPlaceOf self.now.table_count self.now.seat_count) }
    {
        self.places[player as usize]
    }

    /// Gives the number, the name and the stack in chips of the player who sits in a place, if one does.
    pub fn at(&self, place: Place) -> Option<(u32, Name, u64)>
        requires { IsPlaceOf self.now.table_count self.now.seat_count place }
        ensures player { result ≡ option_map (λ seated. (seated.player, seated.name, seated.stack))
            (player_at self.now.players place) }
        ensures entry { IfSome result (λ seated. seated.0 < most_entries) }
    {
        let slot = slot_of(place, self.seat_count);
        let seated = self.slots[slot]?;
        Some((seated.player, seated.name, seated.stack))
    }

    /// Gives the player who sits in a place this stack, in chips.
    pub fn set_stack(&mut self, place: Place, stack: u64)
        requires place { IsPlaceOf self.old.table_count self.old.seat_count place }
        requires sits { IsSome (player_at self.old.players place) }
        ensures same { self.new ≡ record self.old { players = with_stack place stack self.old.players } }
        ensures lawful { IsSeating self.new }
    {
        let slot = slot_of(place, self.seat_count);
        let seated = self.slots[slot].unwrap();
        self.slots[slot] = Some(Seated { stack, ..seated });
    }

    /// Gives the slots of all places, by table and then by seat: who sits there, if one does.
    pub fn slots(&self) -> &[Option<Seated>]
        ensures players { players_in result.now ≡ self.now.players }
        ensures len { length result.now ≡ self.now.table_count * self.now.seat_count }
        ensures lawful { IsSeating self.now }
    {
        &self.slots
    }

    /// Gives the slots of a table's places, by seat: who sits there, if one does.
    pub fn table_slots(&self, table: u8) -> &[Option<Seated>]
        requires { IsTableOf self.now.table_count table }
        ensures players { players_in result.now ≡ players_at self.now.players table }
        ensures len { length result.now ≡ self.now.seat_count }
        ensures lawful { IsSeating self.now }
    {
        let seats = usize::from(self.seat_count);
        let first = table_index(table) * seats;
        &self.slots[first..first + seats]
    }

    /// Gives the seats of a table where somebody sits.
    pub fn occupied(&self, table: u8) -> SeatSet
        requires { IsTableOf self.now.table_count table }
        ensures taken { result ≡ taken_seats self.now.players table }
        ensures within { AreSeatsOf self.now.seat_count result }
        ensures count { seat_count result ≡ count_at self.now.players table }
    {
        let mut taken = SeatSet::empty();
        for slot in self.table_slots(table) {
            if let Some(seated) = slot {
                taken = taken.with(seated.place.seat);
            }
        }
        taken
    }

    /// Counts the players who sit at a table.
    pub fn count(&self, table: u8) -> u8
        requires { IsTableOf self.now.table_count table }
        ensures count { result ≡ count_at self.now.players table }
        ensures most { result ≤ self.now.seat_count }
    {
        self.counts[table_index(table)]
    }

    /// Gives the greatest count of an open table, 0 where none is open.
    pub fn fullest(&self) -> u8
        ensures { result ≡ greatest_count self.now.table_count self.now.players }
    {
        let mut greatest = 0;
        for count in &self.counts {
            greatest = greatest.max(*count);
        }
        greatest
    }

    /// Gives the least count of an open table, 0 where none is open.
    pub fn fewest(&self) -> u8
        ensures { result ≡ least_count self.now.table_count self.now.players }
    {
        let mut least = 0;
        for count in &self.counts {
            if *count > 0 && (least == 0 || *count < least) {
                least = *count;
            }
        }
        least
    }

    /// Tells whether a chip race is pending at some table.
    pub fn is_race_pending(&self) -> bool
        ensures { result ≡ is_race_pending self.now }
    {
        self.statuses.iter().any(|status| status.race.is_some())
    }

    /// Tells whether some table plays a hand.
    pub fn is_any_playing(&self) -> bool
        ensures { result ≡ is_any_playing self.now }
    {
        self.statuses.iter().any(|status| status.playing)
    }

    /// Tells whether some table has begun in the round of hand-for-hand.
    fn is_any_begun(&self) -> bool
        ensures { result ≡ is_any_begun self.now }
    {
        self.statuses.iter().any(|status| status.begun)
    }

    /// Tells whether hand-for-hand is on and some table has begun in this round.
    pub fn is_round_open(&self) -> bool
        ensures { result ≡ is_round_open self.now }
    {
        self.hands && self.is_any_begun()
    }

    /// Tells whether an open table has a higher number.
    pub fn is_not_last(&self, table: u8) -> bool
        requires { IsTableOf self.now.table_count table }
        ensures { result ≡ is_not_last self.now table }
    {
        has_players(&self.counts[usize::from(table)..])
    }

    /// Tells how a table stands.
    pub fn status(&self, table: u8) -> TableStatus
        requires { IsTableOf self.now.table_count table }
        ensures status { result ≡ status_at self.now.tables table }
        ensures lawful { IsStatusOf self.now.seat_count result }
    {
        self.statuses[table_index(table)]
    }

    /// Sets how a table stands from now on.
    pub fn set_status(&mut self, table: u8, status: TableStatus)
        requires table { IsTableOf self.old.table_count table }
        requires status { IsStatusOf self.old.seat_count status }
        ensures same { self.new ≡ record self.old { tables = with_status self.old.tables table status } }
        ensures lawful { IsSeating self.new }
    {
        self.statuses[table_index(table)] = status;
    }

    /// Tells whether hand-for-hand is on.
    pub fn hands(&self) -> bool
        ensures { result ≡ self.now.hands }
    {
        self.hands
    }

    /// Switches hand-for-hand on or off.
    pub fn set_hands(&mut self, on: bool)
        ensures same { self.new ≡ record self.old { hands = on } }
        ensures lawful { IsSeating self.new }
    {
        self.hands = on;
    }
}
