//! One street, as a hand plays it.

ghost use Rattle.std.specs.Prelude.{◌≡◌, ◌<◌, ◌^◌, [], ◌∷◌, Some, None, List, option_map, IfOk, OnOk, IfErr, IfSome};
ghost use Rattle.betting_round.specs.Acts.{done_by};
ghost use Rattle.betting_round.specs.StreetActs.{IsStreetStart, StreetStart, SeatAct, next_bettors, put_by_all, street_start, street_after};
ghost use Rattle.betting_round.specs.WhoIsDue.{player_in, is_one_live, due_seat};
ghost use Rattle.betting_round.specs.ActChecks.{facing_in, act_refusal, IsAllowed};
ghost use Rattle.betting_round.specs.Limits.{AreFewChips};

use crate::act::{Act, Done};
use crate::bettor::{Bettor, all_at_next_street};
use crate::bounds::Bounds;
use crate::facing::Facing;
use crate::street::{Street, done_by};
use crate::turn::is_one_live;
use floor_text::Refusal;
use std::marker::Model;

/// One street. Contracts see it as it stands: who plays with how much, the bet level, the full raise and the pot.
/// It keeps no list of its acts; `start` and `apply` say how it follows from its start and any list of acts.
#[derive(Clone, Copy)]
pub struct Round {
    street: Street,
    due: Option<u8>,
}

impl Model for Round {
    ghost use Rattle.betting_round.specs.declared.street.Street.{Street};
    ghost use Rattle.betting_round.specs.Running.{IsRoundKept};
    ghost use Rattle.betting_round.specs.WhoIsDue.{due_seat};

    ghost Value = { Street };

    ghost view = { λ round. round.street };

    ghost invariant = { λ round. IsRoundKept round.street round.due };

    ghost inverse = { λ street. record { street = street; due = due_seat street } };
}

impl Round {
    /// Begins a street. `bettors` lists who plays, seat 1 first; the search for who is due starts at the seat after
    /// `after`; `opening` is the bet level that the street opens at, `big` the big blind, `unit` the smallest
    /// denomination in play, and `counted` what the pot holds beside the street's chips, all in chips.
    pub fn start(
        bettors: &[Option<Bettor>; 10],
        after: u8,
        opening: u64,
        big: u64,
        unit: u64,
        counted: u64,
    ) -> Round
        requires { IsStreetStart (street_start bettors.now after opening big unit counted) }
        ensures { result ≡ street_after (street_start bettors.now after opening big unit counted) [] }
    {
        let street = Street::new(bettors, after, opening, big, unit, counted);
        let due = street.due();
        Round { street, due }
    }

    /// Gives the player in a seat as he stands, if one sits there.
    pub fn bettor(&self, seat: u8) -> Option<Bettor>
        ensures { result ≡ option_map (λ player. player.bettor) (player_in self.now.players seat) }
    {
        self.street.player_in(seat).map(|player| player.bettor)
    }

    /// Gives the players as they begin the next street: nothing put in, and all else as they stand.
    pub fn next_bettors(&self) -> [Option<Bettor>; 10]
        ensures { result ≡ next_bettors self.now }
    {
        all_at_next_street(&self.street.players)
    }

    /// Tells what was put in on the street, in chips.
    pub fn put(&self) -> u64
        ensures put { result ≡ put_by_all self.now }
        ensures few { result < 2 ^ 60 }
    {
        self.street.put()
    }

    /// Tells whether one player alone is live.
    pub fn is_one_live(&self) -> bool
        ensures { result ≡ is_one_live self.now.players }
    {
        is_one_live(&self.street.players)
    }

    /// Gives the seat of the player who is due. `None` exactly where nobody is.
    pub fn due(&self) -> Option<u8>
        ensures { result ≡ due_seat self.now }
    {
        self.due
    }

    /// Tells what the player in a seat faces. Where nobody sits, nothing is put in and nothing behind. The chips are so
    /// few that bounds of a bet can be asked of them.
    #[tactic(auto, using(crate::proofs::ActRefusals::few_facing))]
    pub fn facing(&self, seat: u8) -> Facing
        ensures facing { result ≡ facing_in self.now seat }
        ensures few { AreFewChips result }
    {
        self.street.facing(seat)
    }

    /// Tells what an act of a seat comes to, where it is taken. It is refused exactly with the first of the checks of
    /// the turn and then of the act that holds.
    pub fn check<B: Bounds>(&self, bounds: &B, seat: u8, act: Act) -> Result<Done, Refusal>
        ensures ok { OnOk result (act_refusal (B.limits bounds.now) self.now seat act ≡ None) }
        ensures done { IfOk result (λ done. done ≡ done_by (facing_in self.now seat) act) }
        ensures err { IfErr result (λ refusal. act_refusal (B.limits bounds.now) self.now seat act ≡ Some refusal) }
    {
        let facing = self.street.check(bounds, self.due, seat, act)?;
        Ok(done_by(&facing, act))
    }

    /// Takes an act of a seat that is not refused. Whatever start and acts the street stands for, it stands for that
    /// start and one act more.
    pub fn take(&mut self, seat: u8, act: Act)
        requires { IsAllowed self.old seat act }
        ensures after { (start : StreetStart) → (acts : List SeatAct) → IsStreetStart start
            → self.old ≡ street_after start acts
            → self.new ≡ street_after start (record { seat = seat; act = act } ∷ acts) }
    {
        self.street.take(seat, act);
        self.due = self.street.due();
    }

    /// Takes an act of a seat, where `check` does not refuse it. A refusal changes nothing.
    pub fn apply<B: Bounds>(&mut self, bounds: &B, seat: u8, act: Act) -> Result<Done, Refusal>
        ensures ok { OnOk result (act_refusal (B.limits bounds.now) self.old seat act ≡ None) }
        ensures done { IfOk result (λ done. done ≡ done_by (facing_in self.old seat) act) }
        ensures after { OnOk result ((start : StreetStart) → (acts : List SeatAct) → IsStreetStart start
            → self.old ≡ street_after start acts
            → self.new ≡ street_after start (record { seat = seat; act = act } ∷ acts)) }
        ensures err { IfErr result (λ refusal. act_refusal (B.limits bounds.now) self.old seat act ≡ Some refusal) }
        ensures kept { IfErr result (λ _. self.new ≡ self.old) }
    {
        let done = self.check(bounds, seat, act)?;
        self.take(seat, act);
        Ok(done)
    }
}
