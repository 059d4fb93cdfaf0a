//! The running fields of a street.

ghost use Rattle.std.specs.Prelude.{◌≡◌, ◌≤◌, ◌<◌, ◌+◌, ◌^◌, None, Some, IfOk, IfErr, IfSome, IsSome, OnOk, []};
ghost use Rattle.rulebook.specs.Checks.{IsChecked};
ghost use Rattle.betting_round.specs.Limits.{AreFewChips};
ghost use Rattle.betting_round.specs.Acts.{amount, is_fold, done_by};
ghost use Rattle.betting_round.specs.StreetActs.{IsStreetStart, street_start, chips_of, put_by_all, sum_over, street_after};
ghost use Rattle.betting_round.specs.WhoIsDue.{player_at, player_in, due_seat};
ghost use Rattle.betting_round.specs.ActChecks.{facing_in, turn_checks, act_refusal};
ghost use Rattle.betting_round.specs.Running.{amount_of, moved, stepped, IsStreetKept};

use crate::act::{Act, Done};
use crate::bettor::{Bettor, Player};
use crate::bounds::Bounds;
use crate::checks::check_act;
use crate::facing::Facing;
use crate::turn::{MOST_SEATS, first_to_act, is_closed};
use floor_text::Refusal;

/// A street as it stands: what its acts made of its start.
#[derive(Clone, Copy)]
pub struct Street {
    /// Who sits in the seats 1 to 10.
    pub players: [Option<Player>; 10],
    /// The bet level, in chips.
    pub level: u64,
    /// The full raise, in chips.
    pub full: u64,
    /// What the pot holds, in chips.
    pub pot: u64,
    /// The smallest denomination in play, in chips.
    pub unit: u64,
    /// The seat after which the search for who is due starts.
    pub after: u8,
}

/// Tells what the players of a street have put in, in chips.
fn put_by_players(players: &[Option<Player>]) -> u64
    requires { sum_over (λ player. chips_of player.bettor) players.now < 2 ^ 60 }
    ensures put { result ≡ sum_over (λ player. player.bettor.put) players.now }
    ensures few { result ≤ sum_over (λ player. chips_of player.bettor) players.now }
{
    match players {
        [] => 0,
        [None, rest @ ..] => put_by_players(rest),
        [Some(player), rest @ ..] => player.bettor.put + put_by_players(rest),
    }
}

/// Tells what an act puts in, in chips.
fn amount(level: u64, bettor: &Bettor, act: Act) -> u64
    ensures { result ≡ amount level bettor.now.put bettor.now.behind act }
{
    match act {
        Act::Fold | Act::Check => 0,
        Act::Call => bettor.behind.min(level.saturating_sub(bettor.put)),
        Act::AllIn => bettor.behind,
        Act::Bet(n) => n,
        Act::Raise(n) => n.saturating_sub(bettor.put),
    }
}

/// Tells whether an act is a fold.
fn is_fold(act: Act) -> bool
    ensures { result ≡ is_fold act }
{
    match act {
        Act::Fold => true,
        _ => false,
    }
}

/// Gives a player after an act that puts in so much.
fn moved(amount: u64, player: &Player, act: Act) -> Player
    requires few { player.now.bettor.put + amount < 2 ^ 64 }
    requires held { amount ≤ player.now.bettor.behind }
    ensures { result ≡ moved amount player.now act }
{
    Player {
        bettor: Bettor {
            seat: player.bettor.seat,
            put: player.bettor.put + amount,
            behind: player.bettor.behind - amount,
            live: player.bettor.live && !is_fold(act),
        },
        acted: true,
    }
}

/// Tells what an accepted act of a player who faces this came to.
pub(crate) fn done_by(facing: &Facing, act: Act) -> Done
    requires { AreFewChips facing.now }
    ensures { result ≡ done_by facing.now act }
{
    let stack = facing.put + facing.behind;
    match act {
        Act::Fold => Done::Folded,
        Act::Check => Done::Checked,
        Act::Call => Done::Called(facing.behind.min(facing.level.saturating_sub(facing.put))),
        Act::AllIn => {
            if stack <= facing.level {
                Done::Called(facing.behind)
            } else if facing.level == 0 {
                Done::BetTo(stack)
            } else {
                Done::RaisedTo(stack)
            }
        }
        Act::Bet(n) => Done::BetTo(n),
        Act::Raise(n) => Done::RaisedTo(n),
    }
}

impl Street {
    /// Makes a street without acts.
    pub fn new(
        bettors: &[Option<Bettor>; 10],
        after: u8,
        opening: u64,
        big: u64,
        unit: u64,
        counted: u64,
    ) -> Street
        requires { IsStreetStart (street_start bettors.now after opening big unit counted) }
        ensures is { result ≡ street_after (street_start bettors.now after opening big unit counted) [] }
        ensures kept { IsStreetKept result }
    {
        let mut street = Street {
            players: [None; 10],
            level: opening,
            full: big,
            pot: counted,
            unit,
            after,
        };
        for index in 0..10 {
            if let Some(bettor) = bettors[index] {
                street.players[index] = Some(Player {
                    bettor,
                    acted: false,
                });
                street.level = street.level.max(bettor.put);
                street.pot += bettor.put;
            }
        }
        street
    }

    /// Gives the player in a seat, if one is there.
    pub fn player_in(&self, seat: u8) -> Option<Player>
        ensures { result ≡ player_in self.now.players seat }
    {
        if seat == 0 {
            return None;
        }
        self.players.get(seat as usize - 1).copied().flatten()
    }

    /// Tells what was put in on the street, in chips.
    pub fn put(&self) -> u64
        requires { IsStreetKept self.now }
        ensures put { result ≡ put_by_all self.now }
        ensures few { result < 2 ^ 60 }
    {
        put_by_players(&self.players)
    }

    /// Gives the seat of the player who is due, if somebody is.
    #[tactic(auto, unfolding(crate::specs::WhoIsDue::due_seat))]
    pub fn due(&self) -> Option<u8>
        ensures { result ≡ due_seat self.now }
    {
        if is_closed(&self.players) {
            return None;
        }
        first_to_act(&self.players, MOST_SEATS, self.level, self.after)
    }

    /// Tells what the player in a seat faces.
    pub fn facing(&self, seat: u8) -> Facing
        ensures { result ≡ facing_in self.now seat }
    {
        let player = self.player_in(seat);
        Facing {
            level: self.level,
            full: self.full,
            put: player.map_or(0, |player| player.bettor.put),
            behind: player.map_or(0, |player| player.bettor.behind),
            pot: self.pot,
            acted: player.map_or(false, |player| player.acted),
        }
    }

    /// Tells whether it is this seat's turn, where this one is due.
    fn check_turn(&self, due: Option<u8>, seat: u8) -> Result<(), Refusal>
        requires { due ≡ due_seat self.now }
        ensures turn { IsChecked (turn_checks self.now seat) result }
        ensures first { OnOk result (1 ≤ seat) }
        ensures last { OnOk result (seat ≤ 10) }
        ensures sits { OnOk result (IsSome (player_at self.now.players seat)) }
    {
        match due {
            Some(due) => {
                if due != seat {
                    return Err(Refusal::NotTurn);
                }
                Ok(())
            }
            None => Err(Refusal::HandOver),
        }
    }

    /// Tells whether an act of a seat is refused where this one is due: by the first of the checks of the turn and then
    /// of the act that holds. Else it says what the player in the seat faces.
    #[tactic(auto, using(crate::proofs::ActRefusals::refused_turn, crate::proofs::ActRefusals::refused_act, crate::proofs::ActRefusals::accepted_act, crate::proofs::ActRefusals::few_facing, crate::proofs::ActRefusals::held_facing))]
    pub fn check<B: Bounds>(
        &self,
        bounds: &B,
        due: Option<u8>,
        seat: u8,
        act: Act,
    ) -> Result<Facing, Refusal>
        requires kept { IsStreetKept self.now }
        requires due { due ≡ due_seat self.now }
        ensures ok { OnOk result (act_refusal (B.limits bounds.now) self.now seat act ≡ None) }
        ensures facing { IfOk result (λ facing. facing ≡ facing_in self.now seat) }
        ensures few { IfOk result (λ facing. AreFewChips facing) }
        ensures first { OnOk result (1 ≤ seat) }
        ensures last { OnOk result (seat ≤ 10) }
        ensures sits { OnOk result (IsSome (player_at self.now.players seat)) }
        ensures held { OnOk result (IfSome (player_at self.now.players seat)
            (λ player. amount_of self.now.level player act ≤ player.bettor.behind)) }
        ensures err { IfErr result (λ refusal. act_refusal (B.limits bounds.now) self.now seat act ≡ Some refusal) }
    {
        self.check_turn(due, seat)?;
        let facing = self.facing(seat);
        check_act(bounds, self.unit, &facing, act)?;
        Ok(facing)
    }

    /// Takes an act that is not refused, of the player in a seat.
    pub fn take(&mut self, seat: u8, act: Act)
        requires kept { IsStreetKept self.old }
        requires first { 1 ≤ seat }
        requires last { seat ≤ 10 }
        requires held { IfSome (player_at self.old.players seat)
            (λ player. amount_of self.old.level player act ≤ player.bettor.behind) }
        ensures stepped { self.new ≡ stepped self.old seat act }
        ensures kept { IsStreetKept self.new }
    {
        let index = seat as usize - 1;
        let Some(player) = self.players[index] else {
            return;
        };
        let amount = amount(self.level, &player.bettor, act);
        let after = moved(amount, &player, act);
        self.players[index] = Some(after);
        self.full = self.full.max(after.bettor.put.saturating_sub(self.level));
        self.level = self.level.max(after.bettor.put);
        self.pot += amount;
        self.after = seat;
    }
}
