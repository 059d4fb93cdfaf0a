//! The dock: a table behind its lock.

ghost use Rattle.std.specs.Prelude.{◌≡◌, ℕ, ◌<◌, ◌≤◌, ◌↔◌, [], All, Any, false, true, IfErr, IfOk, IfSome, IsErr, is_none, is_ok, is_some, length, option_map, take, vec_len, Some, if◌then◌else◌};
ghost use mathlib.Core.List.{IsPrefix};
ghost use Rattle.history_lock.specs.Entries.{entries_by};
ghost use Rattle.history_lock.specs.Holds.{Stands};
ghost use Rattle.history_lock.specs.Passes.{IsSameButKnown, known, lock_of, opening_value, own, pass_number, seen};
ghost use Rattle.table_engine.specs.Acts.{IsAnswer, time_act};
ghost use Rattle.table_engine.specs.Hands.{is_over};
ghost use Rattle.view_rules.specs.declared.entries.TableEntry.TheVariants as entries;
ghost use Rattle.dock_rules.specs.Added.{only_if};
ghost use Rattle.dock_rules.specs.Tables.{ActStandsAt, AreOfTable, HasItsChips, IsLegalTableHistory, TimeStandsAt, called_entries, lies, lying_hand, table_caller, time_refusal_at};
ghost use Rattle.table_dock.specs.Telling.{IsPieceRead, IsRead};

use crate::end::{TableEnd, Untold};
use crate::gate::Gate;
use crate::hold::TableHold;
use betting_round::{Act, Done};
use floor_text::Name;
use history_lock::{Grows, HistoryLock, NotAll, Pass};
use player_view::TableTeller;
use std::sync::Wait;
use std::time::Duration;
use table_engine::{ActFault, ActOf, Hand};

/// The right to enter the lock of a table.
pub type TablePass = Pass<TableHold>;

/// A table behind its lock. Threads share it.
#[derive(Drop)]
pub struct TableDock {
    pub(crate) table: u8,
    pub(crate) lock: HistoryLock<TableHold>,
    /// It was made with no history.
    ghost begun: { opening_value lock ≡ [] },
}

impl TableDock {
    ghost use Rattle.table_dock.specs.Docks.{dock_id, dock_passes, table_of};

    /// Gives the number of the table.
    pub fn table(&self) -> u8
        ensures { result ≡ table_of self.now }
    {
        self.table
    }

    /// Brings a hand before any act, where none lies. Want of memory hands it back.
    pub fn open_hand<R: Wait>(
        &self,
        rt: &R,
        pass: TablePass,
        hand: Hand,
    ) -> (TablePass, Option<Hand>)
        requires lock { lock_of pass ≡ dock_id self.now }
        requires worker { pass_number pass ≡ 0 }
        requires none_lies { lies (own pass) ≡ false }
        requires table { hand.start.table ≡ table_of self.now }
        requires fresh { hand.acts ≡ [] }
        ensures stands { Stands pass result.0
            (λ at added. added ≡ only_if (is_none result.1) (entries.Opened hand.start)) }
        ensures back { IfSome result.1 (λ back. back ≡ hand) }

        // Where all hands that the worker opened are of this table, all that the history has are.
        ensures table { AreOfTable (table_of self.now) (own pass) → AreOfTable (table_of self.now) (seen result.0) }

        ensures legal { IsLegalTableHistory (seen result.0) }
        ensures chips { IfSome (lying_hand (seen result.0)) HasItsChips }
    {
        let mut inside = self.lock.enter(rt, pass);
        let back = inside.value_mut().open(hand);
        (self.lock.leave(inside), back)
    }

    /// Lets a player act in the hand that lies there. The gate is told while the lock is held.
    pub fn act<R: Wait, G: Gate>(
        &self,
        rt: &R,
        pass: TablePass,
        gate: &G,
        name: Name,
        act: Act,
    ) -> (TablePass, Result<Done, ActFault>)
        requires { lock_of pass ≡ dock_id self.now }
        ensures stands { Stands pass result.0
            (λ at added. ActStandsAt at name act result.1
            × (added ≡ only_if (is_ok result.1)
            (entries.Acted (pass_number pass) (record { name = name; act = act; by_time = false })))) }
        ensures legal { IsLegalTableHistory (seen result.0) }
        ensures chips { IfSome (lying_hand (seen result.0)) HasItsChips }
    {
        let mut inside = self.lock.enter(rt, pass);
        gate.held(self.table);
        let caller = inside.number();
        let answer = inside.value_mut().act(caller, name, act);
        let over = inside.value().is_over();
        let pass = self.lock.leave(inside);
        self.wake_if(over);
        (pass, answer)
    }

    /// Calls time on the player who is due in the hand that lies there.
    pub fn time<R: Wait>(&self, rt: &R, pass: TablePass) -> (TablePass, Result<Done, ActFault>)
        requires { lock_of pass ≡ dock_id self.now }
        ensures stands { Stands pass result.0
            (λ at added. TimeStandsAt at result.1
            × (added ≡ (if is_ok result.1 then called_entries (pass_number pass) at else []))) }
        ensures legal { IsLegalTableHistory (seen result.0) }
        ensures chips { IfSome (lying_hand (seen result.0)) HasItsChips }
    {
        let mut inside = self.lock.enter(rt, pass);
        let caller = inside.number();
        let answer = inside.value_mut().time(caller);
        let over = inside.value().is_over();
        let pass = self.lock.leave(inside);
        self.wake_if(over);
        (pass, answer)
    }

    /// Calls time as `time` does, and gives the act that this makes for the player who is due.
    pub fn call_time<R: Wait>(
        &self,
        rt: &R,
        pass: TablePass,
    ) -> (TablePass, Result<ActOf, ActFault>)
        requires { lock_of pass ≡ dock_id self.now }
        ensures stands { Stands pass result.0
            (λ at added. IsAnswer (time_refusal_at at) result.1
            × (IfOk result.1 (λ act. option_map time_act (lying_hand at) ≡ Some act)
            × (added ≡ (if is_ok result.1 then called_entries (pass_number pass) at else [])))) }
        ensures legal { IsLegalTableHistory (seen result.0) }
        ensures chips { IfSome (lying_hand (seen result.0)) HasItsChips }
    {
        let mut inside = self.lock.enter(rt, pass);
        let caller = inside.number();
        let act = inside.value().called();
        let answer = inside.value_mut().time(caller);
        let over = inside.value().is_over();
        let pass = self.lock.leave(inside);
        self.wake_if(over);
        match (answer, act) {
            (Ok(_), Some(act)) => (pass, Ok(act)),
            (Ok(_), None) => unreachable!(),
            (Err(fault), _) => (pass, Err(fault)),
        }
    }

    /// Takes the hand that lies there away, exactly where it is over. It takes no memory.
    pub fn close_hand<R: Wait>(&self, rt: &R, pass: TablePass) -> (TablePass, Option<Hand>)
        requires lock { lock_of pass ≡ dock_id self.now }
        requires worker { pass_number pass ≡ 0 }
        requires lies { lies (own pass) ≡ true }
        ensures stands { Stands pass result.0
            (λ at added. IfSome result.1 (λ hand. lying_hand at ≡ Some hand)
            × IfSome (lying_hand at) (λ hand. is_some result.1 ≡ is_over hand)
            × (added ≡ only_if (is_some result.1) entries.Closed)) }
        ensures legal { IsLegalTableHistory (seen result.0) }
        ensures chips { IfSome (lying_hand (seen result.0)) HasItsChips }
    {
        let mut inside = self.lock.enter(rt, pass);
        let hand = inside.value_mut().close();
        (self.lock.leave(inside), hand)
    }

    /// Takes the hand that lies there away, if one does. It takes no memory.
    pub fn void_hand<R: Wait>(&self, rt: &R, pass: TablePass) -> (TablePass, Option<Hand>)
        requires lock { lock_of pass ≡ dock_id self.now }
        requires worker { pass_number pass ≡ 0 }
        ensures stands { Stands pass result.0
            (λ at added. (result.1 ≡ lying_hand at) × (added ≡ only_if (is_some result.1) entries.Closed)) }
        ensures legal { IsLegalTableHistory (seen result.0) }
        ensures chips { IfSome (lying_hand (seen result.0)) HasItsChips }
    {
        let mut inside = self.lock.enter(rt, pass);
        let hand = inside.value_mut().void();
        (self.lock.leave(inside), hand)
    }

    /// Writes the lines of the entries from number `from` on at the end of `out`, and gives the number of all entries.
    /// After want of memory just those up to the number in its answer are told, each whole, and a later call goes on
    /// with it.
    pub fn read_lines<R: Wait>(
        &self,
        rt: &R,
        pass: TablePass,
        from: u64,
        teller: &mut TableTeller,
        out: &mut Vec<u8>,
    ) -> (TablePass, Result<u64, Untold>)
        requires lock { lock_of pass ≡ dock_id self.now }
        requires from { from ≤ length (seen pass) }
        requires table { teller.old.table ≡ table_of self.now }
        requires told { teller.old.hand ≡ lying_hand (take from (seen pass)) }
        ensures stands { Stands pass result.0
            (λ at added. IsRead at from teller.old teller.new out.old.items out.new.items result.1 × (added ≡ [])) }
        ensures legal { IsLegalTableHistory (seen result.0) }
        ensures chips { IfSome (lying_hand (seen result.0)) HasItsChips }
    {
        let (pass, _, answer) = self.follow(rt, pass, from, u64::MAX, teller, out);
        (pass, answer)
    }

    /// Reads as `read_lines` does, the lines of so many entries at most, and tells how many the same history has.
    pub fn follow<R: Wait>(
        &self,
        rt: &R,
        pass: TablePass,
        from: u64,
        most: u64,
        teller: &mut TableTeller,
        out: &mut Vec<u8>,
    ) -> (TablePass, u64, Result<u64, Untold>)
        requires lock { lock_of pass ≡ dock_id self.now }
        requires from { from ≤ length (seen pass) }
        requires table { teller.old.table ≡ table_of self.now }
        requires told { teller.old.hand ≡ lying_hand (take from (seen pass)) }
        ensures stands { Stands pass result.0 (λ at added. (result.1 ≡ length at)
            × (IsPieceRead at from most teller.old teller.new out.old.items out.new.items result.2 × (added ≡ []))) }
        ensures legal { IsLegalTableHistory (seen result.0) }
        ensures chips { IfSome (lying_hand (seen result.0)) HasItsChips }
    {
        let inside = self.lock.enter(rt, pass);
        let count = inside.value().count();
        let answer = inside.value().tell(from, most, teller, out);
        (self.lock.leave(inside), count, answer)
    }

    /// Loads how many entries the history has now. It waits for nobody, and takes no memory.
    pub fn news(&self, pass: &mut TablePass) -> u64
        requires { lock_of pass.old ≡ dock_id self.now }
        ensures known { known pass.new ≡ result }
        ensures not_below_known { known pass.old ≤ result }
        ensures not_below_seen { length (seen pass.old) ≤ result }
        ensures same { IsSameButKnown pass.old pass.new }
    {
        self.lock.news(pass)
    }

    /// Waits until the history has more entries than the pass knows of, or the hand that lies there is over, for so
    /// long at most, and may answer earlier. It makes no hold, and takes no memory.
    pub fn await_news<R: Wait>(&self, rt: &R, pass: TablePass, most: Duration) -> TablePass
        requires { lock_of pass ≡ dock_id self.now }
        ensures not_below_known { known pass ≤ known result }
        ensures not_below_seen { length (seen pass) ≤ known result }
        ensures same { IsSameButKnown pass result }
    {
        self.lock.await_news_within(rt, pass, Some(most))
    }

    /// Ends the wait of the worker where the hand is over.
    fn wake_if(&self, over: bool) {
        if over {
            self.lock.wake();
        }
    }

    /// Opens the lock for good, where all passes are given. Else the dock and the passes that were given come back. It
    /// takes no memory.
    pub fn close(self, passes: Vec<TablePass>) -> Result<TableEnd, (TableDock, Vec<TablePass>)>
        requires { All (λ p. lock_of p ≡ dock_id self) passes.items }
        ensures not_all { IsErr result ↔ (vec_len passes < dock_passes self) }
        ensures back { IfErr result (λ back. (back.0 ≡ self) × (back.1 ≡ passes)) }

        // The history begins with what each pass has seen, and its entries of a pass's number are just the pass's own.
        ensures seen { IfOk result (λ end. All (λ p. IsPrefix (seen p) end.entries) passes.items) }
        ensures own { IfOk result
            (λ end. All (λ p. entries_by table_caller (pass_number p) end.entries ≡ own p) passes.items) }

        // Each number of the dock's passes is that of a pass that was given, and they made all entries.
        ensures numbers { IfOk result
            (λ _. (k : ℕ) → k < dock_passes self → Any (λ p. pass_number p ≡ k) passes.items) }
        ensures others { IfOk result (λ end. All (λ e. table_caller e < dock_passes self) end.entries) }

        ensures hand { IfOk result (λ end. end.hand ≡ lying_hand end.entries) }
        ensures legal { IfOk result (λ end. IsLegalTableHistory end.entries) }
        ensures chips { IfOk result (λ end. IfSome (lying_hand end.entries) HasItsChips) }
    {
        let TableDock { table, lock } = self;
        match lock.close(passes) {
            Ok(hold) => Ok(hold.into_end()),
            Err(NotAll { lock, passes }) => Err((TableDock { table, lock }, passes)),
        }
    }
}
