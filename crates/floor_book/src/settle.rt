//! A hand is settled.

ghost use Rattle.std.specs.Prelude.{◌≡◌, ◌<◌, ◌^◌, Some};
ghost use Rattle.table_engine.specs.Plays.{IsCompletePlay, recorded_hand};
ghost use Rattle.tournament_rules.specs.Books.{start_at};
ghost use Rattle.tournament_rules.specs.Effects.{settled};

use crate::book::Book;
use crate::bust::bust_players;
use crate::pay::{pay_stacks, rest_table};
use crate::rounds::group_after;
use table_engine::HandRecord;

impl Book {
    /// Settles a hand that is out: each of its players has at rest the stack that its record names for him, and who
    /// has none leaves his seat and is out. Who goes out later is in a later group, where
    /// hand-for-hand is off. It takes no memory.
    #[tactic(auto, using(tournament_rules::proofs::Ends::valid_settled))]
    pub fn settle(&mut self, done: &HandRecord)
        requires few { self.old.accepted < 2 ^ 60 }
        requires started { start_at self.old.started done.now.start.table ≡ Some done.now.start }
        requires play { IsCompletePlay done.now }
        ensures { self.new ≡ settled self.old (recorded_hand done.now) }
    {
        let table = done.start.table;
        let group = group_after(self.seats.hands(), self.group);
        pay_stacks(
            &mut self.seats,
            done.start.seats.items(),
            done.stacks.items(),
        );
        rest_table(&mut self.seats, table);
        bust_players(&mut self.seats, &mut self.busts, done, self.group);
        self.started[usize::from(table)] = None;
        self.group = group;
        self.accepted += 1;
    }
}
