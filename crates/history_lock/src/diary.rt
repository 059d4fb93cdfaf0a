//! A value that grows, as small as can be: a list of notes. It shows what a caller of `leave` owes, and wrong
//! bodies of such a caller are tried on it.
ghost use Rattle.std.specs.Prelude.{◌≡◌, ◌∷◌, [], if◌then◌else◌};
ghost use Rattle.history_lock.specs.Holds.{Stands};
ghost use Rattle.history_lock.specs.Passes.{lock_id, lock_of, pass_number};

use crate::grows::Grows;
use crate::lock::HistoryLock;
use crate::pass::Pass;
use std::sync::Wait;

/// A note, with the number of the pass that made it.
#[derive(Clone, Copy, PartialEq, Eq)]
pub(crate) struct Note {
    pub(crate) caller: u32,
    pub(crate) page: u32,
}

/// Notes, the oldest first.
#[derive(Drop)]
pub(crate) struct Diary {
    pub(crate) notes: Vec<Note>,
}

impl Grows for Diary {
    type Entry = Note;

    ghost history = { λ diary. diary.notes.items };

    ghost caller_of = { λ note. note.caller };

    fn count(&self) -> u64 {
        self.notes.len() as u64
    }
}

/// Adds a note under the number of the pass, and says whether there was memory for it.
pub(crate) fn add_note(
    rt: &impl Wait,
    lock: &HistoryLock<Diary>,
    pass: Pass<Diary>,
    page: u32,
) -> (Pass<Diary>, bool)
    requires { lock_of pass ≡ lock_id lock.now }
    ensures { Stands pass result.0 (λ at added. added
        ≡ (if result.1 then (record { caller = pass_number pass; page = page }) ∷ [] else [])) }
{
    let mut inside = lock.enter(rt, pass);
    let caller = inside.number();
    let note = Note { caller, page };
    let added = inside.value_mut().notes.push(note).is_ok();
    (lock.leave(inside), added)
}

/// Adds a note, if there is memory for it, and promises nothing of it: here `leave` alone sees to the history.
pub(crate) fn jot(
    rt: &impl Wait,
    lock: &HistoryLock<Diary>,
    pass: Pass<Diary>,
    page: u32,
) -> Pass<Diary>
    requires { lock_of pass ≡ lock_id lock.now }
{
    let mut inside = lock.enter(rt, pass);
    let jotted = Note {
        caller: inside.number(),
        page,
    };
    let _ = inside.value_mut().notes.push(jotted);
    lock.leave(inside)
}
