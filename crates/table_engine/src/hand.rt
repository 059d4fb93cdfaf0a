//! A hand that is played.

ghost use Rattle.std.specs.Prelude.{◌≡◌, ◌<◌, ◌≤◌, ◌^◌, [], ◌∷◌, ◌++◌, Some, None, IsTrue, false, true, sum, is_none, option_map, IfSome, IfOk, IfErr, OnOk, OnErr};
ghost use Rattle.table_engine.specs.Starts.{IsLawfulStart};
ghost use Rattle.betting_round.specs.ActChecks.{facing_in};
ghost use Rattle.betting_round.specs.Limits.{AreFewChips};
ghost use Rattle.table_engine.specs.Hands.{due_in_hand, due_name, is_live, is_over, seat_of_name, street_of, streets_of};
ghost use Rattle.table_engine.specs.Acts.{act_in_time, done_of_act, done_of_time, limit_in_hand, hand_after, hand_after_time, refusal_of_act, refusal_of_time, time_act, IsAnswer};
ghost use Rattle.table_engine.specs.Accepted.{IsAccepted};
ghost use Rattle.table_engine.specs.Awards.{awards_in_hand, most_awarded};
ghost use Rattle.table_engine.specs.Results.{award, is_won_by_folds, showdown_awards, starting_stacks};
ghost use Rattle.table_engine.specs.Plays.{IsLawfulPlay, IsCompletePlay};

use crate::awards::Awards;
use crate::betting::Betting;
use crate::dealing::{all_live, board_of, dealt_seats};
use crate::players::{pay, players_by_seat};
use crate::record::{Accepted, ActFault, ActOf, HandRecord};
use crate::start::{HandStart, StartSeat};
use crate::telling::{first_puts, tell};
use betting_round::{Act, Done, Facing};
use floor_text::{List, Name, Refusal};
use limit_betting::FixedLimit;
use pot_layers::PotTally;
use showdown::award as award_pots;
use std::alloc::{AllocError, Global};
use std::marker::Model;

/// For how many acts a hand takes the room when it begins. It takes more where more come.
const ACTS_OF_MOST: usize = 16;

/// A hand that is played. It cannot be cloned: who has it plays it to its end, by `finish`, or gives its start
/// back, by `void`. Contracts see it as its start and its acts so far.
#[derive(Drop)]
pub struct Hand {
    start: HandStart,
    acts: List<ActOf>,
    betting: Betting,
    tally: PotTally,
    /// Room for the stacks after the hand.
    stacks: Vec<u64>,
}

impl Model for Hand {
    ghost use Rattle.table_engine.specs.Hands.{HandTerms};
    ghost use Rattle.table_engine.specs.Kept.{IsHandKept};

    ghost Value = { HandTerms };

    ghost view = { λ h. record { start = h.start; acts = h.acts } };

    ghost invariant = { λ h. IsHandKept (record { start = h.start; acts = h.acts }) h.betting h.tally h.stacks.items };
}

impl Hand {
    /// Makes a hand before any act. It takes the room for its end; want of memory hands the start back.
    #[inline(never)]
    pub fn new(alloc: Global, start: HandStart) -> Result<Hand, HandStart>
        requires { IsLawfulStart start }
        ensures hand { IfOk result (λ hand. hand ≡ record { start = start; acts = [] }) }
        ensures played { IfOk result (λ hand. IsLawfulPlay hand) }
        ensures back { IfErr result (λ back. back ≡ start) }
    {
        let Ok(stacks) = Vec::from_elem(alloc, 0, start.seats.items().len()) else {
            return Err(start);
        };
        let Ok(acts) = Vec::with_capacity(alloc, ACTS_OF_MOST) else {
            return Err(start);
        };
        let mut betting = Betting::first(&start);
        let dead = betting.before;
        betting.deal_on(&start);
        let mut tally = PotTally::of(&first_puts(&start));
        tally.add_dead(dead);
        Ok(Hand {
            start,
            acts: List::from_vec(acts),
            betting,
            tally,
            stacks,
        })
    }

    /// Tells how the hand started. Every hand started lawfully and was played lawfully so far.
    pub fn start(&self) -> &HandStart
        ensures same { result.now ≡ self.now.start }
        ensures lawful { IsLawfulStart self.now.start }
        ensures played { IsLawfulPlay self.now }
    {
        &self.start
    }

    /// Gives the seat of the player who is due, if somebody is.
    fn due_seat(&self) -> Option<u8>
        ensures { result ≡ due_in_hand self.now }
    {
        self.betting.round.due()
    }

    /// Gives the name of the player who is due. `None` exactly where nobody is.
    pub fn due(&self) -> Option<Name>
        ensures name { result ≡ due_name self.now }
        ensures nobody { is_none result ≡ is_none (due_in_hand self.now) }
    {
        let seat = self.due_seat()?;
        self.start.name_in_seat(seat)
    }

    /// Tells what the player who is due faces. `None` exactly where nobody is due.
    pub fn facing(&self) -> Option<Facing>
        ensures facing { result ≡ option_map (facing_in (street_of self.now)) (due_in_hand self.now) }
        ensures few { IfSome result AreFewChips }
    {
        let seat = self.due_seat()?;
        Some(self.betting.round.facing(seat))
    }

    /// Gives the fixed limit of the player who is due. `None` exactly where there is no cap or nobody is due. It takes
    /// no memory.
    pub fn limit(&self) -> Option<FixedLimit>
        ensures { result ≡ limit_in_hand self.now }
    {
        if self.start.cap == 0 {
            return None;
        }
        let limit = self.betting.limit(self.start.cap);
        self.due_seat().map(|_| limit)
    }

    /// Gives the seat of the player of this name, if he is dealt in. Who acts is mostly due, and then there is no
    /// search.
    fn seat_of_name(&self, name: Name) -> Option<u8>
        ensures seat { result ≡ seat_of_name self.now.start name }
        ensures played { IsLawfulPlay self.now }
    {
        if let Some(seat) = self.betting.round.due() {
            if self.start.has_in_seat(seat, name) {
                return Some(seat);
            }
        }
        self.start.seat_of_name(name)
    }

    /// Tells whether the hand is over: nobody is due on the street and on no later one.
    pub fn is_over(&self) -> bool
        ensures { result ≡ is_over self.now }
    {
        self.due_seat().is_none()
    }

    /// Tells whether one player alone is live.
    pub fn is_won_by_folds(&self) -> bool
        ensures { result ≡ is_won_by_folds self.now }
    {
        self.betting.round.is_one_live()
    }

    /// Tells what the player in a seat does where time is called on him.
    fn act_in_time(&self, seat: u8) -> Act
        ensures { result ≡ act_in_time self.now seat }
    {
        let facing = self.betting.round.facing(seat);
        if facing.put < facing.level {
            Act::Fold
        } else {
            Act::Check
        }
    }

    /// Accepts an act of the player in a seat, where no check holds.
    // What is accepted is made where it is taken, and is not moved there from a call.
    #[inline(always)]
    fn accept_in_seat(&self, seat: u8, entry: ActOf) -> Result<Accepted, Refusal>
        requires seat { seat_of_name self.now.start entry.name ≡ Some seat }
        requires timed { entry.by_time ≡ true → entry ≡ time_act self.now }
        ensures err { IfErr result (λ refusal. refusal_of_act self.now entry.name entry.act ≡ Some refusal) }
        ensures entry { IfOk result (λ accepted. accepted.entry ≡ entry) }
        ensures accepted { IfOk result (λ accepted. IsAccepted self.now accepted) }
        ensures played { IsLawfulPlay self.now }
    {
        let done = self.betting.check(&self.start, seat, entry.act)?;
        Ok(Accepted { seat, entry, done })
    }

    /// Accepts an act of a player, where no check holds.
    #[inline(always)]
    fn accept(&self, name: Name, act: Act) -> Result<Accepted, Refusal>
        ensures err { IfErr result (λ refusal. refusal_of_act self.now name act ≡ Some refusal) }
        ensures entry { IfOk result (λ accepted.
            accepted.entry ≡ record { name = name; act = act; by_time = false }) }
        ensures accepted { IfOk result (λ accepted. IsAccepted self.now accepted) }
        ensures played { IsLawfulPlay self.now }
    {
        let Some(seat) = self.seat_of_name(name) else {
            return Err(Refusal::NotDealt);
        };
        let entry = ActOf {
            name,
            act,
            by_time: false,
        };
        self.accept_in_seat(seat, entry)
    }

    /// Accepts a called time, where somebody is due.
    fn accept_time(&self) -> Result<Accepted, Refusal>
        ensures ok { OnOk result (refusal_of_time self.now ≡ None) }
        ensures err { IfErr result (λ refusal. refusal_of_time self.now ≡ Some refusal) }
        ensures entry { IfOk result (λ accepted. accepted.entry ≡ time_act self.now) }
        ensures accepted { IfOk result (λ accepted. IsAccepted self.now accepted) }
        ensures played { IsLawfulPlay self.now }
    {
        let Some(seat) = self.betting.round.due() else {
            return Err(Refusal::HandOver);
        };
        let Some(name) = self.start.name_in_seat(seat) else {
            return Err(Refusal::HandOver);
        };
        let entry = ActOf {
            name,
            act: self.act_in_time(seat),
            by_time: true,
        };
        self.accept_in_seat(seat, entry)
    }

    /// Tells what an act of a player would come to. It is refused exactly with the first check of `act_checks` that
    /// holds: NotDealt (20) where the player is not dealt in, NotTurn (21), HandOver (22), and those of the act. It
    /// takes no memory.
    pub fn check(&self, name: Name, act: Act) -> Result<Done, Refusal>
        ensures ok { OnOk result (refusal_of_act self.now name act ≡ None) }
        ensures err { IfErr result (λ refusal. refusal_of_act self.now name act ≡ Some refusal) }
        ensures done { IfOk result (λ done. done ≡ done_of_act self.now name act) }
    {
        Ok(self.accept(name, act)?.done)
    }

    /// Tells what a called time would come to. It is refused with HandOver (22) exactly where nobody is due. It takes
    /// no memory.
    pub fn check_time(&self) -> Result<Done, Refusal>
        ensures ok { OnOk result (refusal_of_time self.now ≡ None) }
        ensures err { IfErr result (λ refusal. refusal_of_time self.now ≡ Some refusal) }
        ensures done { IfOk result (λ done. done ≡ done_of_time self.now) }
    {
        Ok(self.accept_time()?.done)
    }

    /// Takes an act that is not refused, once there is room for it. Want of memory leaves the hand as it was.
    #[inline(always)]
    fn take(&mut self, accepted: Accepted) -> Result<Done, AllocError>
        requires { IsAccepted self.old accepted }
        ensures state { OnOk result (self.new ≡ record self.old { acts = self.old.acts ++ accepted.entry ∷ [] }) }
        ensures done { IfOk result (λ done. done ≡ accepted.done) }
        ensures err { OnErr result (self.new ≡ self.old) }
        ensures played { IsLawfulPlay self.new }
    {
        let seat = accepted.seat;
        self.acts.push(accepted.entry)?;
        let put_in = self.betting.take(seat, accepted.entry.act);
        tell(&mut self.tally, seat, put_in, accepted.entry.act);
        self.betting.deal_on(&self.start);
        Ok(accepted.done)
    }

    /// Takes an act of a player. It is refused exactly as `check` says. `NoMemory` is want of memory for an act that is
    /// not refused. Either leaves the hand as it was.
    pub fn act(&mut self, name: Name, act: Act) -> Result<Done, ActFault>
        ensures answer { IsAnswer (refusal_of_act self.old name act) result }
        ensures state { OnOk result (self.new ≡ hand_after self.old name act false) }
        ensures done { IfOk result (λ done. done ≡ done_of_act self.old name act) }
        ensures err { OnErr result (self.new ≡ self.old) }
        ensures played { IsLawfulPlay self.new }
    {
        let accepted = self.accept(name, act)?;
        Ok(self.take(accepted)?)
    }

    /// Calls time. The player who is due folds where he has put in less than the bet level, and else he checks. It is
    /// refused exactly as `check_time` says. `NoMemory` is want of memory where somebody is due. Either leaves the hand
    /// as it was.
    pub fn time(&mut self) -> Result<Done, ActFault>
        ensures answer { IsAnswer (refusal_of_time self.old) result }
        ensures state { OnOk result (self.new ≡ hand_after_time self.old) }
        ensures done { IfOk result (λ done. done ≡ done_of_time self.old) }
        ensures err { OnErr result (self.new ≡ self.old) }
        ensures played { IsLawfulPlay self.new }
    {
        let accepted = self.accept_time()?;
        Ok(self.take(accepted)?)
    }

    /// Tells what the players get of the pots at the showdown of a hand that is over, in chips, by seat: index 0 is
    /// seat 1.
    #[inline(never)]
    fn showdown_awards(&self) -> [u64; 10]
        requires over { IsTrue (is_over self.now) }
        requires many { is_won_by_folds self.now ≡ false }
        ensures awards { result ≡ showdown_awards self.now }
        ensures few { sum result < 2 ^ 53 }
    {
        let players = players_by_seat(&self.start);
        let dealt = dealt_seats(&self.start, &players);
        let live = all_live(&self.start, &players, dealt, &self.betting.round);
        award_pots(
            &self.tally.pots(),
            &live,
            board_of(&self.start, dealt),
            self.start.game,
            self.start.blind.unit,
            self.start.marks.button,
            self.start.seat_count,
        )
    }

    /// Tells what the players get of the pots of a hand that is over. It takes no memory.
    pub fn awards(&self) -> Awards
        requires { IsTrue (is_over self.now) }
        ensures awards { result ≡ awards_in_hand self.now }
        ensures most { most_awarded result < 2 ^ 53 }
    {
        if self.is_won_by_folds() {
            return Awards::Sole(self.betting.before + self.betting.round.put());
        }
        Awards::BySeat(self.showdown_awards())
    }

    /// Tells whether a player is live. He is until he folds.
    pub fn is_live(&self, player: &StartSeat) -> bool
        ensures { result ≡ is_live self.now player.now }
    {
        match self.betting.round.bettor(player.seat) {
            Some(bettor) => bettor.live,
            None => false,
        }
    }

    /// Tells how many streets may still begin: 3 before the flop, and none once the river has begun.
    pub fn streets_left(&self) -> u8
        ensures { result ≡ (streets_of self.now).left }
    {
        self.betting.left
    }

    /// Tells what a player of a hand that is over gets, in chips. It takes no memory.
    pub fn award(&self, player: &StartSeat) -> u64
        requires over { IsTrue (is_over self.now) }
        requires first { 1 ≤ player.now.seat }
        requires last { player.now.seat ≤ 10 }
        ensures { result ≡ award self.now player.now }
    {
        self.awards().award_in(player.seat, self.is_live(player))
    }

    /// Ends a hand that is over: where one player alone is live he gets everything, else each pot goes to the best
    /// hands of those who are eligible for it. It takes no memory.
    #[inline(never)]
    pub fn finish(self) -> HandRecord
        requires { IsTrue (is_over self) }
        ensures start { result.start ≡ self.start }
        ensures acts { result.acts ≡ self.acts }
        ensures complete { IsCompletePlay result }
        ensures kept { sum result.stacks ≡ sum (starting_stacks self) }
    {
        let awards = self.awards();
        let mut stacks = self.stacks;
        pay(
            &mut stacks,
            self.start.seats.items(),
            &self.betting.round,
            &awards,
        );
        HandRecord {
            start: self.start,
            acts: self.acts,
            stacks: List::from_vec(stacks),
        }
    }

    /// Gives the start and the acts. It takes no memory.
    pub fn into_parts(self) -> (HandStart, List<ActOf>)
        ensures start { result.0 ≡ self.start }
        ensures acts { result.1 ≡ self.acts }
        ensures lawful { IsLawfulStart self.start }
        ensures played { IsLawfulPlay self }
    {
        let Hand { start, acts, .. } = self;
        (start, acts)
    }

    /// Gives the start back, as if nothing had been dealt. It takes no memory.
    pub fn void(self) -> HandStart
        ensures same { result ≡ self.start }
        ensures lawful { IsLawfulStart result }
    {
        let Hand { start, .. } = self;
        start
    }
}
