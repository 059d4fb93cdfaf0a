//! The betting of a hand as it stands: its street, and what came before it.

ghost use Rattle.std.specs.Prelude.{◌≡◌, ◌+◌, ◌-◌, ◌<◌, ◌≤◌, ◌^◌, None, Some, option_map, map, sum_by, IfOk, OnOk, IfErr};
ghost use Rattle.std.specs.Option.{is_some};
ghost use Rattle.betting_round.specs.Acts.{done_by};
ghost use Rattle.betting_round.specs.ActChecks.{act_refusal, facing_in, IsAllowed};
ghost use Rattle.limit_betting.specs.FixedLimits.{fixed_limit};
ghost use Rattle.table_engine.specs.declared.start.HandStart.{HandStart};
ghost use Rattle.table_engine.specs.Starts.{IsLawfulStart};
ghost use Rattle.table_engine.specs.Hands.{Streets, ante_posted, bet_with, dead_chips, lacking, seated, players_by_seat, first_streets, has_ended, with_next_street, dealt_on, with_act};
ghost use Rattle.table_engine.specs.Acts.{limits_of, limits_on};
ghost use Rattle.table_engine.specs.Running.{IsAt, IsReady};

use crate::players::{InSlot, fill_slots};
use crate::start::{HandStart, StartSeat};
use betting_round::{Act, Bettor, Done, NoLimit, PotLimit, Round};
use card_set::Game;
use floor_text::Refusal;
use limit_betting::{FixedLimit, bet_of, wagers_of};

/// The betting of a hand as it stands. Three streets may follow the first.
#[derive(Clone, Copy)]
pub struct Betting {
    /// The last street that has begun.
    pub round: Round,
    /// What was put in on the streets before, the antes included, in chips.
    pub before: u64,
    /// How many streets may still begin.
    pub left: u8,
    /// The bet of the street, in chips.
    pub bet: u64,
    /// How many wagers the street has had.
    pub wagers: u64,
}

/// Tells what a player's blind lacks because his stack is short, in chips.
fn lacking(start: &HandStart, player: &StartSeat) -> u64
    ensures { result ≡ lacking start.now player.now }
{
    start
        .blind_of(player.seat)
        .saturating_sub(start.posted(player))
}

/// Gives a player of the start as he begins the hand.
fn seated(start: &HandStart, player: &StartSeat) -> Bettor
    ensures { result ≡ seated start.now player.now }
{
    let put = start.posted(player);
    Bettor {
        seat: player.seat,
        put,
        behind: player.stack - start.ante_posted(player) - put,
        live: true,
    }
}

/// A player as he begins the hand.
impl InSlot for Option<Bettor> {
    ghost made = { λ start player. Some (seated start player) };

    fn make(start: &HandStart, player: &StartSeat) -> Option<Bettor> {
        Some(seated(start, player))
    }
}

/// Gives the players who are dealt in, by the seats 1 to 10, as they begin the hand.
fn all_seated(start: &HandStart) -> [Option<Bettor>; 10]
    requires { IsLawfulStart start.now }
    ensures { result ≡ map (option_map (seated start.now)) (players_by_seat start.now) }
{
    let mut slots = [None; 10];
    fill_slots(start, start.seats.items(), &mut slots, None);
    slots
}

/// Tells what the short blinds of these players lack, in chips.
fn all_lacking(start: &HandStart, players: &[StartSeat]) -> u64
    requires { sum_by (lacking start.now) players.now < 2 ^ 60 }
    ensures { result ≡ sum_by (lacking start.now) players.now }
{
    match players {
        [] => 0,
        [player, rest @ ..] => lacking(start, player) + all_lacking(start, rest),
    }
}

/// Tells what these players post as antes, in chips.
fn all_antes(start: &HandStart, players: &[StartSeat]) -> u64
    requires { sum_by (ante_posted start.now) players.now < 2 ^ 60 }
    ensures { result ≡ sum_by (ante_posted start.now) players.now }
{
    match players {
        [] => 0,
        [player, rest @ ..] => start.ante_posted(player) + all_antes(start, rest),
    }
}

/// Tells what the players of a hand post as antes, in chips. Where the level has none nobody is asked.
fn antes(start: &HandStart) -> u64
    requires { IsLawfulStart start.now }
    ensures { result ≡ dead_chips start.now }
{
    if start.blind.ante == 0 {
        return 0;
    }
    all_antes(start, start.seats.items())
}

/// Gives the bet of a street with so many streets to come after it, in chips.
fn bet_with(start: &HandStart, left: u8) -> u64
    requires { IsLawfulStart start.now }
    ensures { result ≡ bet_with start.now left }
{
    if start.cap == 0 {
        start.blind.big
    } else {
        bet_of(start.blind.big, 3u8.saturating_sub(left))
    }
}

/// Tells whether a street has ended: nobody is due and more than one player is live.
fn has_ended(round: &Round) -> bool
    ensures { result ≡ has_ended round.now }
{
    round.due().is_none() && !round.is_one_live()
}

/// Tells what an act of a seat on a street comes to, by the limits of the game, or why it is refused.
fn check(round: &Round, game: Game, seat: u8, act: Act) -> Result<Done, Refusal>
    ensures ok { OnOk result (act_refusal (limits_of game) round.now seat act ≡ None) }
    ensures done { IfOk result (λ done. done ≡ done_by (facing_in round.now seat) act) }
    ensures err { IfErr result (λ refusal. act_refusal (limits_of game) round.now seat act ≡ Some refusal) }
{
    match game {
        Game::Holdem => round.check(&NoLimit, seat, act),
        Game::Omaha => round.check(&PotLimit, seat, act),
        Game::Hilo => round.check(&PotLimit, seat, act),
    }
}

/// Tells what an act of a seat comes to by fixed limit, or why it is refused. It is a function of its own, since most
/// hands have no fixed limit.
#[inline(never)]
fn check_limited(round: &Round, limit: &FixedLimit, seat: u8, act: Act) -> Result<Done, Refusal>
    ensures ok { OnOk result (act_refusal (fixed_limit limit.now) round.now seat act ≡ None) }
    ensures done { IfOk result (λ done. done ≡ done_by (facing_in round.now seat) act) }
    ensures err { IfErr result (λ refusal. act_refusal (fixed_limit limit.now) round.now seat act ≡ Some refusal) }
{
    round.check(limit, seat, act)
}

impl Betting {
    /// Makes a hand as it stands before the first act, on its first street.
    pub fn first(start: &HandStart) -> Betting
        requires { IsLawfulStart start.now }
        ensures at { IsAt start.now (first_streets start.now) result }
        ensures ready { IsReady result }
        ensures there { map is_some result.round.players ≡ map is_some (players_by_seat start.now) }
        ensures before { result.before ≡ dead_chips start.now }
    {
        let bettors = all_seated(start);
        let counted = all_lacking(start, start.seats.items());
        let opening = start.blind.big;
        Betting {
            round: Round::start(
                &bettors,
                start.marks.big,
                opening,
                start.blind.big,
                start.blind.unit,
                counted,
            ),
            before: antes(start),
            left: 3,
            bet: start.blind.big,
            wagers: 1,
        }
    }

    /// Begins the next street.
    #[inline(never)]
    fn begin_next(&mut self, start: &HandStart)
        requires lawful { IsLawfulStart start.now }
        requires ready { IsReady self.old }
        requires some { 1 ≤ self.old.left }
        ensures at { (streets : Streets) → IsAt start.now streets self.old
            → IsAt start.now (with_next_street start.now streets) self.new }
        ensures ready { IsReady self.new }
        ensures there { map is_some self.new.round.players ≡ map is_some self.old.round.players }
        ensures left { self.new.left + 1 ≡ self.old.left }
    {
        let counted = self.before + self.round.put();
        let bettors = self.round.next_bettors();
        let left = self.left - 1;
        let bet = bet_with(start, left);
        *self = Betting {
            round: Round::start(
                &bettors,
                start.marks.button,
                0,
                bet,
                start.blind.unit,
                counted,
            ),
            before: counted,
            left,
            bet,
            wagers: 0,
        };
    }

    /// Begins every street that may begin: a later one begins where the one before it has ended.
    pub fn deal_on(&mut self, start: &HandStart)
        requires lawful { IsLawfulStart start.now }
        requires ready { IsReady self.old }
        ensures at { (streets : Streets) → IsAt start.now streets self.old
            → IsAt start.now (dealt_on start.now self.old.left streets) self.new }
        ensures ready { IsReady self.new }
        ensures there { map is_some self.new.round.players ≡ map is_some self.old.round.players }
    {
        if self.left == 0 {
            return;
        }
        if !has_ended(&self.round) {
            return;
        }
        self.begin_next(start);
        self.deal_on(start)
    }

    /// Gives the fixed limit of the street as it stands, where so many wagers may be made on it.
    pub fn limit(&self, cap: u64) -> FixedLimit
        requires { IsReady self.now }
        ensures { result ≡ record { bet = self.now.bet; cap = cap; wagers = self.now.wagers } }
    {
        FixedLimit {
            bet: self.bet,
            cap,
            wagers: self.wagers,
        }
    }

    /// Tells what an act of a seat comes to, by the limits of the hand, or why it is refused.
    pub fn check(&self, start: &HandStart, seat: u8, act: Act) -> Result<Done, Refusal>
        requires { IsReady self.now }
        ensures ok { OnOk result ((streets : Streets) → IsAt start.now streets self.now
            → act_refusal (limits_on start.now streets) self.now.round seat act ≡ None) }
        ensures allowed { OnOk result (IsAllowed self.now.round seat act) }
        ensures done { IfOk result (λ done. done ≡ done_by (facing_in self.now.round seat) act) }
        ensures err { IfErr result (λ refusal. (streets : Streets) → IsAt start.now streets self.now
            → act_refusal (limits_on start.now streets) self.now.round seat act ≡ Some refusal) }
    {
        if start.cap == 0 {
            return check(&self.round, start.game, seat, act);
        }
        check_limited(&self.round, &self.limit(start.cap), seat, act)
    }

    /// Takes an act of a seat that is not refused, and tells what it puts in, in chips.
    #[inline(always)]
    pub fn take(&mut self, seat: u8, act: Act) -> u64
        requires ready { IsReady self.old }
        requires allowed { IsAllowed self.old.round seat act }
        ensures at { (start : HandStart) (streets : Streets) → IsAt start streets self.old
            → IsAt start (with_act streets (record { seat = seat; act = act })) self.new }
        ensures stand { (start : HandStart) (streets : Streets) → IsAt start streets self.old → IsReady self.new }
        ensures there { (start : HandStart) (streets : Streets) → IsAt start streets self.old
            → map is_some self.new.round.players ≡ map is_some self.old.round.players }
        ensures put { result ≡ (facing_in self.new.round seat).put - (facing_in self.old.round seat).put }
    {
        let before = self.round.facing(seat);
        self.round.take(seat, act);
        let after = self.round.facing(seat);
        self.wagers += wagers_of(self.bet, before.level, after.level);
        after.put.saturating_sub(before.put)
    }
}
