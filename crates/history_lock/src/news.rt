//! How a pass learns that the history has grown, without going in.
ghost use Rattle.std.specs.Prelude.{◌≡◌, ◌≤◌, length};
ghost use Rattle.history_lock.specs.Passes.{lock_id, lock_of, known, seen, IsSameButKnown};

use crate::bells::{ring, sleep};
use crate::grows::Grows;
use crate::lock::HistoryLock;
use crate::pass::Pass;
use crate::plays::{Arrive, Count};
use crate::rule::{COUNT, NEWS_BELL};
use std::sync::Wait;
use std::time::Duration;

impl<V: Grows> HistoryLock<V> {
    /// Loads the count of entries now. It waits for nobody, and takes no memory.
    pub fn news(&self, pass: &mut Pass<V>) -> u64
        requires { lock_of pass.old ≡ lock_id self.now }

        // The count that was loaded is what the pass knows from now on.
        ensures known { known pass.new ≡ result }

        ensures not_below_known { known pass.old ≤ result }
        ensures not_below_seen { length (seen pass.old) ≤ result }
        ensures same { IsSameButKnown pass.old pass.new }
    {
        let count = self.table.shared.load::<Count>(&mut pass.seat, COUNT);
        pass.known = count;
        count
    }

    /// Waits for a greater count than the pass knows, or for a wake, and may answer earlier.
    ///
    /// It sleeps only while no wake was called since it began, so a wake between its last load and the sleep ends the
    /// sleep.
    pub fn await_news<R: Wait>(&self, rt: &R, pass: Pass<V>) -> Pass<V>
        requires { lock_of pass ≡ lock_id self.now }

        // What the pass knows from now on was loaded in this call.
        ensures not_below_known { known pass ≤ known result }
        ensures not_below_seen { length (seen pass) ≤ known result }

        ensures same { IsSameButKnown pass result }
    {
        self.await_news_within(rt, pass, None)
    }

    /// Waits as `await_news` does, and for so long at most if that is given.
    pub fn await_news_within<R: Wait>(
        &self,
        rt: &R,
        pass: Pass<V>,
        most: Option<Duration>,
    ) -> Pass<V>
        requires { lock_of pass ≡ lock_id self.now }
        ensures not_below_known { known pass ≤ known result }
        ensures not_below_seen { length (seen pass) ≤ known result }
        ensures same { IsSameButKnown pass result }
    {
        let mut pass = pass;
        let steps = &self.table.shared;
        let rings = steps.peek(NEWS_BELL);
        let known = pass.known;
        if self.news(&mut pass) == known {
            sleep(rt, steps, NEWS_BELL, rings, most);
            self.news(&mut pass);
        }
        pass
    }

    /// Ends the waits of all threads that await news. It takes no memory.
    pub fn wake(&self) {
        let steps = &self.table.shared;
        let (_, mut seat) = steps.load_new_seat::<Arrive>(NEWS_BELL);
        ring(steps, &mut seat, NEWS_BELL);
    }
}
