//! What lies behind the lock of a table: its history, and the hand that lies there.

ghost use Rattle.std.specs.Prelude.{◌≡◌, ◌++◌, ◌≤◌, [], length, take, false, true, Some, None, IfOk, IfSome, IsNone, IsSome, is_none, is_ok, is_some, option_map, if◌then◌else◌};
ghost use Rattle.table_engine.specs.Acts.{time_act};
ghost use Rattle.table_engine.specs.Hands.{is_over};
ghost use Rattle.table_engine.specs.Starts.{IsLawfulStart};
ghost use Rattle.view_rules.specs.declared.entries.TableEntry.TheVariants as entries;
ghost use Rattle.dock_rules.specs.Added.{only_if};
ghost use Rattle.dock_rules.specs.Tables.{ActStandsAt, IsSoundTable, TimeStandsAt, called_entries, lying_hand, table_caller, time_refusal_at};
ghost use Rattle.table_dock.specs.Telling.{IsPieceRead};

use crate::called::called_act;
use crate::end::{TableEnd, Untold};
use betting_round::{Act, Done};
use floor_text::{List, Name, Refusal};
use history_lock::Grows;
use player_view::TableTeller;
use std::alloc::{AllocError, Global};
use std::marker::Model;
use table_engine::{ActFault, ActOf, Hand};
use view_rules::{Opening, TableEntry};

/// The history of a table, and the hand that lies there by it. Contracts see it as its history.
#[derive(Drop)]
pub struct TableHold {
    alloc: Global,
    entries: Vec<TableEntry>,
    hand: Option<Hand>,
}

impl Model for TableHold {
    ghost use Rattle.std.specs.Prelude.{List};
    ghost use Rattle.view_rules.specs.declared.entries.TableEntry.{TableEntry};

    ghost Value = { List TableEntry };

    ghost use Rattle.table_dock.specs.Kept.{IsTableKept};

    ghost view = { λ hold. hold.entries.items };

    ghost invariant = { IsTableKept };
}

impl Grows for TableHold {
    type Entry = TableEntry;

    ghost history = { λ hold. hold };

    ghost caller_of = { table_caller };

    fn count(&self) -> u64 {
        self.entries.len() as u64
    }
}

/// Copies the start of a hand for the history.
fn opening_of(alloc: Global, hand: &Hand) -> Result<Opening, AllocError>
    ensures same { IfOk result (λ opening. opening ≡ hand.now.start) }
    ensures lawful { IsLawfulStart hand.now.start }
{
    Opening::new(alloc, hand.start().copy(alloc)?)
}

impl TableHold {
    /// Makes a table with no history.
    pub(crate) fn new(alloc: Global) -> TableHold
        ensures { result ≡ [] }
    {
        TableHold {
            alloc,
            entries: Vec::new(alloc),
            hand: None,
        }
    }

    /// Puts a hand there, and takes the room for its end. Want of memory hands it back.
    pub(crate) fn open(&mut self, hand: Hand) -> Option<Hand>
        requires free { lying_hand self.old ≡ None }
        requires fresh { hand.acts ≡ [] }
        ensures entries { self.new ≡ self.old ++ only_if (is_none result) (entries.Opened hand.start) }
        ensures back { IfSome result (λ back. back ≡ hand) }
        ensures sound { IsSoundTable self.new }
    {
        let Ok(opening) = opening_of(self.alloc, &hand) else {
            return Some(hand);
        };
        let Ok(()) = self.entries.reserve(2) else {
            return Some(hand);
        };
        self.entries.push_reserved(TableEntry::Opened(opening));
        self.hand = Some(hand);
        None
    }

    /// Lets a player act in the hand that lies there.
    pub(crate) fn act(&mut self, caller: u32, name: Name, act: Act) -> Result<Done, ActFault>
        ensures answer { ActStandsAt self.old name act result }
        ensures entries { self.new ≡ self.old ++ only_if (is_ok result)
            (entries.Acted caller (record { name = name; act = act; by_time = false })) }
        ensures sound { IsSoundTable self.new }
    {
        let Some(hand) = &mut self.hand else {
            return Err(ActFault::No(Refusal::NotPlaying));
        };
        hand.check(name, act)?;
        self.entries.reserve(2)?;
        let done = hand.act(name, act)?;
        let act = ActOf {
            name,
            act,
            by_time: false,
        };
        self.entries
            .push_reserved(TableEntry::Acted { caller, act });
        Ok(done)
    }

    /// Calls time on the player who is due in the hand that lies there.
    pub(crate) fn time(&mut self, caller: u32) -> Result<Done, ActFault>
        ensures answer { TimeStandsAt self.old result }
        ensures entries { self.new ≡ self.old ++ (if is_ok result then called_entries caller self.old else []) }
        ensures sound { IsSoundTable self.new }
    {
        let Some(hand) = &mut self.hand else {
            return Err(ActFault::No(Refusal::NotPlaying));
        };
        let act = called_act(hand)?;
        self.entries.reserve(2)?;
        let done = hand.time()?;
        self.entries
            .push_reserved(TableEntry::Acted { caller, act });
        Ok(done)
    }

    /// Finds the act that a called time makes now. `None` only where the called time is refused.
    pub(crate) fn called(&self) -> Option<ActOf>
        ensures act { IfSome result (λ act. option_map time_act (lying_hand self.now) ≡ Some act) }
        ensures none { IsNone result → IsSome (time_refusal_at self.now) }
    {
        called_act(self.hand.as_ref()?).ok()
    }

    /// Tells whether a hand lies there that is over.
    pub(crate) fn is_over(&self) -> bool {
        self.hand.as_ref().is_some_and(|hand| hand.is_over())
    }

    /// Takes the hand away, if one lies there. It takes no memory.
    pub(crate) fn void(&mut self) -> Option<Hand>
        ensures hand { result ≡ lying_hand self.old }
        ensures entries { self.new ≡ self.old ++ only_if (is_some result) entries.Closed }
        ensures sound { IsSoundTable self.new }
    {
        let hand = self.hand.take()?;
        self.entries.push_reserved(TableEntry::Closed);
        Some(hand)
    }

    /// Takes the hand away where it is over. It takes no memory.
    pub(crate) fn close(&mut self) -> Option<Hand>
        requires lies { IsSome (lying_hand self.old) }
        ensures hand { IfSome result (λ hand. lying_hand self.old ≡ Some hand) }
        ensures over { IfSome (lying_hand self.old) (λ hand. is_some result ≡ is_over hand) }
        ensures entries { self.new ≡ self.old ++ only_if (is_some result) entries.Closed }
        ensures sound { IsSoundTable self.new }
    {
        match &self.hand {
            Some(hand) if hand.is_over() => {}
            _ => return None,
        }
        self.void()
    }

    /// Tells the entries from number `from` on, so many at most, and gives the number of the first that it left out.
    pub(crate) fn tell(
        &self,
        from: u64,
        most: u64,
        teller: &mut TableTeller,
        out: &mut Vec<u8>,
    ) -> Result<u64, Untold>
        requires from { from ≤ length self.now }
        requires told { teller.old.hand ≡ lying_hand (take from self.now) }
        ensures read { IsPieceRead self.now from most teller.old teller.new out.old.items out.new.items result }
        ensures sound { IsSoundTable self.now }
    {
        let last = from + most.min(self.count() - from);
        for index in from as usize..last as usize {
            let Ok(()) = teller.tell(&self.entries[index], out) else {
                return Err(Untold { told: index as u64 });
            };
        }
        Ok(last)
    }

    /// Gives the history and the hand.
    pub(crate) fn into_end(self) -> TableEnd
        ensures entries { result.entries ≡ self }
        ensures hand { result.hand ≡ lying_hand self }
        ensures sound { IsSoundTable self }
    {
        let TableHold { entries, hand, .. } = self;
        TableEnd {
            entries: List::from_vec(entries),
            hand,
        }
    }
}
