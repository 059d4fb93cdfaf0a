//! How a hand starts.

ghost use Rattle.std.specs.Prelude.{◌≡◌, ◌+◌, ◌≤◌, Some, IsTrue, IfOk};
ghost use Rattle.std.specs.Option.{option_copied};
ghost use Rattle.table_engine.specs.Hands.{ante_of, ante_posted, blind_of, name_in_seat, player_of, posted, seat_of_name};
ghost use Rattle.table_engine.specs.Results.{with_stack};
ghost use Rattle.table_engine.specs.Starts.{IsLawfulStart};

use button_blinds::Marks;
use card_set::{Deck, Game};
use floor_text::{List, Name};
use level_plan::Blind;
use std::alloc::{AllocError, Global};

/// A player who is dealt in.
#[derive(Clone, Copy)]
pub struct StartSeat {
    /// His seat, from 1.
    pub seat: u8,
    /// His number: his index in the entry list.
    pub player: u32,
    /// His name.
    pub name: Name,
    /// His stack before the blinds, in chips.
    pub stack: u64,
}

impl StartSeat {
    /// Gives the player with another stack, in chips.
    pub fn with_stack(self, stack: u64) -> StartSeat
        ensures { result ≡ with_stack self stack }
    {
        StartSeat { stack, ..self }
    }
}

/// All that a hand is made of before the first act.
#[derive(Drop)]
pub struct HandStart {
    /// The number of its table, from 1.
    pub table: u8,
    /// Its number among all hands of the tournament, from 1.
    pub serial: u64,
    /// The players who are dealt in, in rising seat.
    pub seats: List<StartSeat>,
    /// How many seats the table has.
    pub seat_count: u8,
    /// The seats that have the button, the small and the big blind.
    pub marks: Marks,
    /// The blinds, the ante, and the unit of the chips in play.
    pub blind: Blind,
    /// The most wagers of a street by fixed limit; 0 where betting has no fixed limit.
    pub cap: u64,
    /// Which game is played.
    pub game: Game,
    /// The deck from which the cards are dealt.
    pub deck: Deck,
}

impl HandStart {
    /// Copies the start. It fails for want of memory alone.
    pub fn copy(&self, alloc: Global) -> Result<HandStart, AllocError>
        ensures { IfOk result (λ copy. copy ≡ self.now) }
    {
        let seats = Vec::from_slice(alloc, self.seats.items())?;
        Ok(HandStart {
            table: self.table,
            serial: self.serial,
            seats: List::from_vec(seats),
            seat_count: self.seat_count,
            marks: self.marks,
            blind: self.blind,
            cap: self.cap,
            game: self.game,
            deck: self.deck,
        })
    }

    /// Gives the blind that is due of a seat, in chips.
    pub fn blind_of(&self, seat: u8) -> u64
        ensures { result ≡ blind_of self.now seat }
    {
        if seat == self.marks.big {
            self.blind.big
        } else if seat == self.marks.small {
            self.blind.small
        } else {
            0
        }
    }

    /// Gives the ante that is due of a seat, in chips.
    fn ante_of(&self, seat: u8) -> u64
        ensures { result ≡ ante_of self.now seat }
    {
        if seat == self.marks.big {
            self.blind.ante
        } else {
            0
        }
    }

    /// Tells what a player posts as the ante once his blind is posted, in chips: the lesser of what he has left and the
    /// ante that is due of his seat.
    pub fn ante_posted(&self, player: &StartSeat) -> u64
        ensures posted { result ≡ ante_posted self.now player.now }
        ensures covered { posted self.now player.now + result ≤ player.now.stack }
    {
        (player.stack - self.posted(player)).min(self.ante_of(player.seat))
    }

    /// Tells what a player posts as his blind, in chips: the lesser of his stack and the blind that is due of his seat.
    pub fn posted(&self, player: &StartSeat) -> u64
        ensures posted { result ≡ posted self.now player.now }
        ensures covered { result ≤ player.now.stack }
    {
        player.stack.min(self.blind_of(player.seat))
    }

    /// Gives the seat of the player of this name.
    pub(crate) fn seat_of_name(&self, name: Name) -> Option<u8>
        ensures { result ≡ seat_of_name self.now name }
    {
        let mut seats = self.seats.items().iter();
        seats
            .find(|player| player.name == name)
            .map(|player| player.seat)
    }

    /// Gives the player who sits in this seat. Where all seats before his are taken he is listed at the seat's own
    /// index, and then there is no search.
    fn in_seat(&self, seat: u8) -> Option<&StartSeat>
        requires { IsLawfulStart self.now }
        ensures { option_copied result ≡ player_of self.now seat }
    {
        let seats = self.seats.items();
        let index = usize::from(seat.saturating_sub(1));
        if index < seats.len() && seats[index].seat == seat {
            return Some(&seats[index]);
        }
        seats.iter().find(|player| player.seat == seat)
    }

    /// Gives the name of the player in this seat.
    pub(crate) fn name_in_seat(&self, seat: u8) -> Option<Name>
        requires { IsLawfulStart self.now }
        ensures { result ≡ name_in_seat self.now seat }
    {
        Some(self.in_seat(seat)?.name)
    }

    /// Tells whether the player in this seat has this name.
    pub(crate) fn has_in_seat(&self, seat: u8, name: Name) -> bool
        requires { IsLawfulStart self.now }
        ensures { IsTrue result → name_in_seat self.now seat ≡ Some name }
    {
        match self.in_seat(seat) {
            Some(player) => player.name == name,
            None => false,
        }
    }
}
