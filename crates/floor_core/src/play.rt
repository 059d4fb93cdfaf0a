//! A tournament whose plan is whole: its book, and its hands by table.

ghost use Rattle.std.specs.Prelude.{◌≡◌, ◌<◌, ◌^◌, length, slice_set, true, false, Some, IsSome, option_map, IfOk, OnOk, OnErr};
ghost use Rattle.std.specs.Option.{option_map_or, option_and_then};
ghost use Rattle.table_engine.specs.Hands.{HandTerms, is_over};
ghost use Rattle.table_engine.specs.Acts.{IsAnswer, refusal_of_act, refusal_of_time, hand_after, hand_after_time};
ghost use Rattle.table_engine.specs.Plays.{IsCompletePlay, recorded_hand};
ghost use Rattle.rulebook.specs.Checks.{IsChecked};
ghost use Rattle.tournament_events.specs.declared.event.Event.TheVariants as events;
ghost use Rattle.std.specs.Option.{option_copied};
ghost use Rattle.tournament_rules.specs.States.{first_play, hand_at, refusal_of, play_effect};
ghost use Rattle.tournament_rules.specs.Checks.{end_checks};
ghost use Rattle.tournament_rules.specs.Valid.{IsValid};
ghost use Rattle.tournament_rules.specs.Apart.{hand_in};
ghost use Rattle.tournament_rules.specs.Kinds.{leaves_hands};
ghost use Rattle.floor_core.specs.Acting.{refusal_by_hand};

use betting_round::Act;
use card_set::CardRow;
use floor_book::{Book, BookFault, clear_slots, empty_slots};
use floor_text::{Name, Refusal};
use level_plan::Plan;
use std::alloc::{AllocError, Global};
use std::marker::Model;
use table_engine::{Hand, HandRecord};
use tournament_events::Event;

/// The book, and by table number the hand that is played there. Contracts see it as a `PlayState`.
#[derive(Drop)]
pub(crate) struct Play {
    pub(crate) book: Book,
    hands: Vec<Option<Hand>>,
}

impl Model for Play {
    ghost use Rattle.std.specs.Prelude.{◌≡◌, map};
    ghost use Rattle.tournament_rules.specs.States.{PlayState};
    ghost use Rattle.tournament_rules.specs.Apart.{start_of, acts_of};

    ghost Value = { PlayState };

    ghost view = { λ play. record { book = play.book; acts = map acts_of play.hands.items } };

    // The starts of the hands are those that are out.
    ghost invariant = { λ play. map start_of play.hands.items ≡ play.book.started };
}

impl Play {
    /// Makes a tournament before any entry.
    #[tactic(auto, using(tournament_rules::proofs::Layers::layers))]
    pub(crate) fn new(alloc: Global, plan: Plan) -> Result<Play, AllocError>
        ensures { IfOk result (λ play. play ≡ first_play plan) }
    {
        let hands = empty_slots(alloc, plan.tables as usize + 1)?;
        let book = Book::new(alloc, plan)?;
        Ok(Play { book, hands })
    }

    /// Gives the hand that is played at a table, if one is.
    #[tactic(auto, using(tournament_rules::proofs::Layers::hand_read))]
    pub(crate) fn hand(&self, table: u8) -> Option<&Hand>
        ensures hand { option_copied result ≡ hand_at self.now table }
        ensures lawful { IsValid self.now.book }
    {
        let _ = self.book.seats();
        self.hands.get(usize::from(table))?.as_ref()
    }

    /// Begins a hand.
    #[tactic(auto, using(tournament_rules::proofs::Layers::layers), unfolding(tournament_rules::specs::States::refusal_of))]
    fn begin(&mut self, table: u64, row: &CardRow) -> Result<(), BookFault>
        requires { self.old.book.accepted < 2 ^ 60 }
        ensures answer { IsAnswer (refusal_of self.old (events.Begin table row.now)) result }
        ensures state { OnOk result (self.new ≡ play_effect self.old (events.Begin table row.now)) }
        ensures err { OnErr result (self.new ≡ self.old) }
    {
        let hand = self.book.begin(table, row)?;
        self.hands[table as usize] = Some(hand);
        Ok(())
    }

    /// Lets a player act in the hand at a table, where the tournament goes on, as if the name were known.
    #[tactic(auto, using(tournament_rules::proofs::Layers::layers), unfolding(crate::specs::Acting::refusal_by_hand))]
    fn act_in_hand(&mut self, table: u64, name: Name, act: Act) -> Result<(), BookFault>
        ensures answer { IsAnswer (refusal_by_hand self.old table name act) result }
        ensures state { OnOk result (self.new ≡ play_effect self.old (events.Act table name act)) }
        ensures err { OnErr result (self.new ≡ self.old) }
    {
        let table = self.book.check_playing(table)?;
        act_at(&mut self.hands, usize::from(table), name, act)
    }

    /// Lets a player act in the hand at a table. Who acts in a hand has entered, so that a name is looked for among the
    /// entries only where the act is refused.
    pub(crate) fn act(&mut self, table: u64, name: Name, act: Act) -> Result<(), BookFault>
        ensures answer { IsAnswer (refusal_of self.old (events.Act table name act)) result }
        ensures state { OnOk result (self.new ≡ play_effect self.old (events.Act table name act)) }
        ensures err { OnErr result (self.new ≡ self.old) }
    {
        // The book is lawful, so that who acts in a hand is among its entries.
        let _ = self.book.seats();
        self.book.check_going()?;
        match self.act_in_hand(table, name, act) {
            Ok(()) => Ok(()),
            Err(BookFault::No(refusal)) => {
                self.book.check_known(name)?;
                Err(BookFault::No(refusal))
            }
            Err(BookFault::NoMemory) => Err(BookFault::NoMemory),
        }
    }

    /// Calls time on the player who is due in the hand at a table.
    #[tactic(auto, using(tournament_rules::proofs::Layers::layers), unfolding(tournament_rules::specs::States::refusal_of))]
    fn time(&mut self, table: u64) -> Result<(), BookFault>
        ensures answer { IsAnswer (refusal_of self.old (events.Time table)) result }
        ensures state { OnOk result (self.new ≡ play_effect self.old (events.Time table)) }
        ensures err { OnErr result (self.new ≡ self.old) }
    {
        let table = self.book.check_hand(table)?;
        time_at(&mut self.hands, usize::from(table))
    }

    /// Settles the hand at a table.
    #[tactic(auto, using(tournament_rules::proofs::Layers::layers), unfolding(tournament_rules::specs::States::refusal_of))]
    fn settle(&mut self, table: u64) -> Result<(), BookFault>
        requires { self.old.book.accepted < 2 ^ 60 }
        ensures answer { IsAnswer (refusal_of self.old (events.Settle table)) result }
        ensures state { OnOk result (self.new ≡ play_effect self.old (events.Settle table)) }
        ensures err { OnErr result (self.new ≡ self.old) }
    {
        let table = self.book.check_hand(table)?;
        let index = usize::from(table);
        check_end(&self.hands, index)?;
        let done = finish_at(&mut self.hands, index);
        self.book.settle(&done);
        Ok(())
    }

    /// Stops the tournament: every hand is void.
    #[tactic(auto, using(tournament_rules::proofs::Layers::layers), unfolding(tournament_rules::specs::States::refusal_of))]
    fn stop(&mut self) -> Result<(), BookFault>
        requires { self.old.book.accepted < 2 ^ 60 }
        ensures answer { IsAnswer (refusal_of self.old events.Stop) result }
        ensures state { OnOk result (self.new ≡ play_effect self.old events.Stop) }
        ensures err { OnErr result (self.new ≡ self.old) }
    {
        // The book is lawful, so that its stop leaves no hand out.
        let _ = self.book.seats();
        self.book.carry_out(&Event::Stop)?;
        clear_slots(&mut self.hands);
        Ok(())
    }

    /// Takes an order that leaves the hands as they are.
    fn order(&mut self, event: &Event) -> Result<(), BookFault>
        requires few { self.old.book.accepted < 2 ^ 60 }
        requires order { leaves_hands event.now ≡ true }
        ensures answer { IsAnswer (refusal_of self.old event.now) result }
        ensures state { OnOk result (self.new ≡ play_effect self.old event.now) }
        ensures err { OnErr result (self.new ≡ self.old) }
    {
        self.book.carry_out(event)
    }

    /// Carries an event out, where it is not refused. An error leaves all as it was.
    #[tactic(auto, unfolding(tournament_rules::specs::States::refusal_of))]
    pub(crate) fn take(&mut self, event: &Event) -> Result<(), BookFault>
        requires { self.old.book.accepted < 2 ^ 60 }
        ensures answer { IsAnswer (refusal_of self.old event.now) result }
        ensures state { OnOk result (self.new ≡ play_effect self.old event.now) }
        ensures err { OnErr result (self.new ≡ self.old) }
        ensures lawful { IsValid self.old.book }
    {
        let _ = self.book.seats();
        match event {
            Event::Plan(_) | Event::Go => Err(BookFault::No(Refusal::PlanLate)),
            Event::Begin { table, row } => self.begin(*table, row),
            Event::Act { table, name, act } => self.act(*table, *name, *act),
            Event::Time { table } => self.time(*table),
            Event::Settle { table } => self.settle(*table),
            Event::Stop => self.stop(),
            _ => self.order(event),
        }
    }
}

/// Lets a player act in the hand at a table. An error leaves the hands as they were.
fn act_at(
    hands: &mut Vec<Option<Hand>>,
    index: usize,
    name: Name,
    act: Act,
) -> Result<(), BookFault>
    requires within { index < length hands.old.items }
    requires played { IsSome (hand_in hands.old.items index) }
    ensures answer { IsAnswer
        (option_and_then (λ hand. refusal_of_act hand name act) (hand_in hands.old.items index)) result }
    ensures state { OnOk result (hands.new.items ≡ slice_set hands.old.items index
        (option_map (λ hand. hand_after hand name act false) (hand_in hands.old.items index))) }
    ensures err { OnErr result (hands.new.items ≡ hands.old.items) }
{
    hands[index].as_mut().unwrap().act(name, act)?;
    Ok(())
}

/// Calls time on the player who is due in the hand at a table. An error leaves the hands as they were.
fn time_at(hands: &mut Vec<Option<Hand>>, index: usize) -> Result<(), BookFault>
    requires within { index < length hands.old.items }
    requires played { IsSome (hand_in hands.old.items index) }
    ensures answer { IsAnswer (option_and_then refusal_of_time (hand_in hands.old.items index)) result }
    ensures state { OnOk result (hands.new.items
        ≡ slice_set hands.old.items index (option_map hand_after_time (hand_in hands.old.items index))) }
    ensures err { OnErr result (hands.new.items ≡ hands.old.items) }
{
    hands[index].as_mut().unwrap().time()?;
    Ok(())
}

/// Checks that the hand at a table may be settled.
fn check_end(hands: &[Option<Hand>], index: usize) -> Result<(), Refusal>
    requires within { index < length hands.now }
    ensures checked { (hand : HandTerms) → hand_in hands.now index ≡ Some hand → IsChecked (end_checks hand) result }
    ensures over { OnOk result (option_map_or is_over (hand_in hands.now index) false ≡ true) }
{
    let Some(hand) = &hands[index] else {
        return Err(Refusal::NotOver);
    };
    if !hand.is_over() {
        return Err(Refusal::NotOver);
    }
    Ok(())
}

/// Ends the hand at a table, which is over.
fn finish_at(hands: &mut Vec<Option<Hand>>, index: usize) -> HandRecord
    requires within { index < length hands.old.items }
    requires over { option_map_or is_over (hand_in hands.old.items index) false ≡ true }
    ensures hand { hand_in hands.old.items index ≡ Some (recorded_hand result) }
    ensures play { IsCompletePlay result }
    ensures hands { hands.new.items ≡ slice_set hands.old.items index None }
{
    hands[index].take().unwrap().finish()
}
