//! The dock: the book and its journal behind their lock.

ghost use Rattle.std.specs.Prelude.{◌≡◌, ℕ, ◌<◌, ◌≤◌, ◌^◌, ◌↔◌, ◌++◌, [], All, Any, drop, not, take, IfErr, IfOk, IfSome, IsErr, OnErr, OnOk, is_ok, length, vec_len};
ghost use mathlib.Core.List.{IsPrefix};
ghost use Rattle.tournament_events.specs.declared.event.Event.TheVariants as events;
ghost use Rattle.table_engine.specs.Acts.{IsAnswer};
ghost use Rattle.table_engine.specs.Plays.{IsCompletePlay};
ghost use Rattle.tournament_rules.specs.Effects.{first_book};
ghost use Rattle.history_lock.specs.Entries.{entries_by, IsGrownByPasses};
ghost use Rattle.history_lock.specs.Holds.{Stands};
ghost use Rattle.history_lock.specs.Limits.{most_passes};
ghost use Rattle.history_lock.specs.Passes.{AreFresh, IsSameButKnown, known, lock_of, own, pass_number, seen};
ghost use Rattle.dock_rules.specs.Added.{only_if};
ghost use Rattle.dock_rules.specs.Journals.{Has, IsLegalJournal, book_of, entry_told, journal_caller, tale_of};
ghost use Rattle.dock_rules.specs.Pieces.{piece_end};
ghost use Rattle.dock_rules.specs.Points.{IsAskAnswer, ask_answer, event_done, hand_begun, is_done, journal_text, next_begin, place_of_name, refusal_at};
ghost use Rattle.book_dock.specs.Docks.{book_id, book_opening, book_passes};
ghost use Rattle.book_dock.specs.Ends.{given_back, is_settled, journal_of};
ghost use Rattle.book_dock.specs.Opening.{opening};

use crate::end::BookEnd;
use crate::followed::Followed;
use crate::hold::BookHold;
use crate::settle::SettleEnd;
use dock_rules::{Ask, AskAnswer};
use floor_book::BookFault;
use floor_text::Name;
use history_lock::{HistoryLock, NotAll, Pass, make};
use level_plan::Plan;
use seat_book::Place;
use std::alloc::{AllocError, Global};
use std::sync::Wait;
use table_engine::{Hand, HandRecord};

/// The right to enter a book's dock.
pub type BookPass = Pass<BookHold>;

/// The book and its journal behind their lock. Threads share it, each with a pass of its own.
#[derive(Drop)]
pub struct BookDock {
    pub(crate) lock: HistoryLock<BookHold>,
}

/// Opens the book of a plan, with so many passes, 1 to 256. All decks and draws come from the seed. Want of memory is
/// the only error.
pub fn make_book(
    alloc: Global,
    plan: Plan,
    seed: [u8; 32],
    passes: u32,
) -> Result<(BookDock, Vec<BookPass>), AllocError>
    requires { (0 < passes) × (passes ≤ most_passes) }
    ensures passes { IfOk result (λ made. book_passes made.0 ≡ passes) }
    ensures opening { IfOk result (λ made. book_opening made.0 ≡ opening seed plan) }
    ensures count { IfOk result (λ made. vec_len made.1 ≡ passes) }

    // Each pass has seen the lines of the plan and their end, which the opener brought. They are a legal journal of
    // this seed, and come to the plan's book.
    ensures fresh { IfOk result (λ made. AreFresh (book_id made.0) (opening seed plan) made.1.items) }
    ensures legal { OnOk result (IsLegalJournal (opening seed plan)) }
    ensures seed { OnOk result ((tale_of (opening seed plan)).seed ≡ seed) }
    ensures book { OnOk result (book_of (tale_of (opening seed plan)) ≡ first_book plan) }
{
    let hold = BookHold::new(alloc, seed, plan)?;
    match make(alloc, hold, passes) {
        Ok((lock, passes)) => Ok((BookDock { lock }, passes)),
        Err(_) => Err(AllocError),
    }
}

impl BookDock {
    /// Begins a hand at a table, with the deck that comes next, and gives it. It takes the room for the hand's settle.
    /// Who has the hand brings it back by `settle`, or voids it once the tournament is stopped. `No` has the first
    /// check that holds: `Stopped`, `NoTable`, `Playing`, `Lone`, `Halted`, `RaceDue` or `RoundDone`. Want of memory
    /// comes after the checks. Neither adds an entry.
    pub fn begin<R: Wait>(
        &self,
        rt: &R,
        pass: BookPass,
        table: u8,
    ) -> (BookPass, Result<Hand, BookFault>)
        requires { lock_of pass ≡ book_id self.now }
        ensures stands { Stands pass result.0
            (λ at added. IsAnswer (refusal_at (tale_of at) (next_begin (tale_of at) table)) result.1
            × IfOk result.1 (λ hand. hand ≡ hand_begun (tale_of at) table)
            × (added ≡ only_if (is_ok result.1)
            (entry_told (tale_of at) (pass_number pass) (next_begin (tale_of at) table) []))) }
        // What `settle` asks for.
        ensures has { IfOk result.1 (λ hand. Has (pass_number result.0) hand.start (tale_of (seen result.0))) }
        ensures legal { IsLegalJournal (seen result.0) }
        ensures few { length (seen result.0) < 2 ^ 60 }
    {
        let mut inside = self.lock.enter(rt, pass);
        let caller = inside.number();
        let answer = inside.value_mut().begin(caller, table);
        let pass = self.lock.leave(inside);
        self.wake_if(answer.is_ok());
        (pass, answer)
    }

    /// Settles a hand that this pass began and that is over, or hands its record back where the tournament was stopped.
    /// It takes no memory.
    pub fn settle<R: Wait>(&self, rt: &R, pass: BookPass, done: HandRecord) -> (BookPass, SettleEnd)
        requires lock { lock_of pass ≡ book_id self.now }
        requires has { Has (pass_number pass) done.start (tale_of (seen pass)) }
        requires play { IsCompletePlay done }
        ensures stands { Stands pass result.0
            (λ at added. (is_settled result.1 ≡ not (tale_of at).ended)
            × (added ≡ only_if (is_settled result.1)
            (entry_told (tale_of at) (pass_number pass) (events.Settle done.start.table) done.acts))) }
        ensures back { IfSome (given_back result.1) (λ back. back ≡ done) }
        ensures legal { IsLegalJournal (seen result.0) }
        ensures few { length (seen result.0) < 2 ^ 60 }
    {
        let mut inside = self.lock.enter(rt, pass);
        let caller = inside.number();
        let end = inside.value_mut().settle(caller, done);
        let pass = self.lock.leave(inside);
        self.lock.wake();
        (pass, end)
    }

    /// Carries out what the floor asks for, with the deck or the draw that comes next. `No` has the first check of the
    /// event that holds. The next order is refused by `Stopped` alone, and `NoOrder` says that none is owed. Want of
    /// memory comes after the checks. None of these adds an entry.
    pub fn order<R: Wait>(&self, rt: &R, pass: BookPass, ask: &Ask) -> (BookPass, AskAnswer)
        requires { lock_of pass ≡ book_id self.now }
        ensures stands { Stands pass result.0
            (λ at added. IsAskAnswer (ask_answer (tale_of at) ask.now) result.1
            × (added ≡ only_if (is_done result.1)
            (entry_told (tale_of at) (pass_number pass) (event_done (tale_of at) ask.now) []))) }
        ensures legal { IsLegalJournal (seen result.0) }
        ensures few { length (seen result.0) < 2 ^ 60 }
    {
        let mut inside = self.lock.enter(rt, pass);
        let caller = inside.number();
        let answer = inside.value_mut().order(caller, ask);
        let pass = self.lock.leave(inside);
        self.wake_if(answer == AskAnswer::Ok);
        (pass, answer)
    }

    /// Finds where the player of a name sits, if he does. It takes no memory.
    pub fn where_is<R: Wait>(&self, rt: &R, pass: BookPass, name: Name) -> (BookPass, Option<Place>)
        requires { lock_of pass ≡ book_id self.now }
        ensures stands { Stands pass result.0
            (λ at added. (result.1 ≡ place_of_name (tale_of at) name) × (added ≡ [])) }
        ensures legal { IsLegalJournal (seen result.0) }
        ensures few { length (seen result.0) < 2 ^ 60 }
    {
        let inside = self.lock.enter(rt, pass);
        let place = inside.value().place_of(name);
        (self.lock.leave(inside), place)
    }

    /// Writes the lines of the journal's entries from a number on at the end of `out`, and gives the number of all
    /// entries. The number is that of an entry that the pass has seen, or of the next. After want of memory, the only
    /// error, `out` is as before.
    pub fn read_lines<R: Wait>(
        &self,
        rt: &R,
        pass: BookPass,
        from: u64,
        out: &mut Vec<u8>,
    ) -> (BookPass, Result<u64, AllocError>)
        requires lock { lock_of pass ≡ book_id self.now }
        requires from { from ≤ length (seen pass) }
        ensures stands { Stands pass result.0 (λ at added. IfOk result.1 (λ count. count ≡ length at) × (added ≡ [])) }
        ensures lines { OnOk result.1 (out.new.items
            ≡ out.old.items ++ journal_text (drop from (seen result.0))) }
        ensures err { OnErr result.1 (out.new.items ≡ out.old.items) }
        ensures legal { IsLegalJournal (seen result.0) }
        ensures few { length (seen result.0) < 2 ^ 60 }
    {
        let (pass, followed) = self.follow(rt, pass, from, u64::MAX, out);
        (pass, followed.told)
    }

    /// Reads as `read_lines` does, the lines of so many entries at most, and tells of the same journal how many it has
    /// and whether the tournament was stopped.
    pub fn follow<R: Wait>(
        &self,
        rt: &R,
        pass: BookPass,
        from: u64,
        most: u64,
        out: &mut Vec<u8>,
    ) -> (BookPass, Followed)
        requires lock { lock_of pass ≡ book_id self.now }
        requires from { from ≤ length (seen pass) }
        ensures stands { Stands pass result.0 (λ at added. (result.1.stopped ≡ (tale_of at).ended)
            × ((result.1.count ≡ length at)
            × (IfOk result.1.told (λ last. last ≡ piece_end from most (length at)) × (added ≡ [])))) }
        ensures lines { IfOk result.1.told (λ last. out.new.items
            ≡ out.old.items ++ journal_text (drop from (take last (seen result.0)))) }
        ensures err { OnErr result.1.told (out.new.items ≡ out.old.items) }
        ensures legal { IsLegalJournal (seen result.0) }
        ensures few { length (seen result.0) < 2 ^ 60 }
    {
        let inside = self.lock.enter(rt, pass);
        let hold = inside.value();
        let followed = Followed {
            stopped: hold.stopped(),
            count: hold.number(),
            told: hold.read_lines(from, most, out),
        };
        (self.lock.leave(inside), followed)
    }

    /// Tells whether the tournament was stopped: whether the journal ends with the stop. It takes no memory.
    pub fn stopped<R: Wait>(&self, rt: &R, pass: BookPass) -> (BookPass, bool)
        requires { lock_of pass ≡ book_id self.now }
        ensures stands { Stands pass result.0 (λ at added. (result.1 ≡ (tale_of at).ended) × (added ≡ [])) }
        ensures legal { IsLegalJournal (seen result.0) }
        ensures few { length (seen result.0) < 2 ^ 60 }
    {
        let held = self.lock.enter(rt, pass);
        let stopped = held.value().stopped();
        (self.lock.leave(held), stopped)
    }

    /// Loads how many entries the journal has. It waits for nobody, and takes no memory.
    pub fn news(&self, pass: &mut BookPass) -> u64
        requires { lock_of pass.old ≡ book_id self.now }
        ensures known { known pass.new ≡ result }
        ensures not_below_known { known pass.old ≤ result }
        ensures not_below_seen { length (seen pass.old) ≤ result }
        ensures same { IsSameButKnown pass.old pass.new }
    {
        self.lock.news(pass)
    }

    /// Waits until the journal has more entries than the pass knows of, or for a wake, and may answer earlier. It makes
    /// no hold, and takes no memory.
    pub fn await_news<R: Wait>(&self, rt: &R, pass: BookPass) -> BookPass
        requires { lock_of pass ≡ book_id self.now }
        ensures not_below_known { known pass ≤ known result }
        ensures not_below_seen { length (seen pass) ≤ known result }
        ensures same { IsSameButKnown pass result }
    {
        self.lock.await_news(rt, pass)
    }

    /// Ends the waits of all threads that await news. It takes no memory.
    pub fn wake(&self) {
        self.lock.wake();
    }

    /// Ends the waits where the journal has grown.
    fn wake_if(&self, grown: bool) {
        if grown {
            self.lock.wake();
        }
    }

    /// Opens the lock for good, where all passes are given. Else the dock and the passes that were given come back. It
    /// takes no memory.
    pub fn close(self, passes: Vec<BookPass>) -> Result<BookEnd, (BookDock, Vec<BookPass>)>
        requires { All (λ p. lock_of p ≡ book_id self) passes.items }
        ensures not_all { IsErr result ↔ (vec_len passes < book_passes self) }
        ensures back { IfErr result (λ back. (back.0 ≡ self) × (back.1 ≡ passes)) }

        // The journal begins with all that each pass has seen, and its entries of each number are the pass's own.
        ensures seen { IfOk result (λ end. All (λ p. IsPrefix (seen p) (journal_of end)) passes.items) }
        ensures own { IfOk result
            (λ end. All (λ p. entries_by journal_caller (pass_number p) (journal_of end) ≡ own p) passes.items) }

        // Each number of the dock's passes is that of a pass that was given, and they made all behind the opening.
        ensures numbers { IfOk result
            (λ _. (k : ℕ) → k < book_passes self → Any (λ p. pass_number p ≡ k) passes.items) }
        ensures grown { IfOk result
            (λ end. IsGrownByPasses journal_caller (book_passes self) (book_opening self) (journal_of end)) }

        ensures legal { IfOk result (λ end. IsLegalJournal (journal_of end)) }
        ensures few { IfOk result (λ end. length (journal_of end) < 2 ^ 60) }
    {
        let BookDock { lock } = self;
        match lock.close(passes) {
            Ok(hold) => Ok(BookEnd { hold }),
            Err(NotAll { lock, passes }) => Err((BookDock { lock }, passes)),
        }
    }
}
