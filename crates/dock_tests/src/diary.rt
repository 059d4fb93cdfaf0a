//! A diary behind a history lock.

ghost use Rattle.std.specs.Prelude.{◌≡◌, ◌<◌, ◌≤◌, All, IfOk, vec_len};
ghost use Rattle.history_lock.specs.Limits.{most_passes};
ghost use Rattle.history_lock.specs.Passes.{lock_id, lock_of};

use super::passes::sent;
use history_lock::{Grows, HistoryLock, NotAll, Pass, make};
use std::alloc::{AllocError, Global};
use std::process::Abort;
use std::sync::Wait;

/// A note, with the number of the pass that made it.
#[derive(Clone, Copy, PartialEq, Eq)]
pub struct Note {
    pub caller: u32,
    pub page: u32,
}

/// Notes, the oldest first.
#[derive(Drop)]
pub struct Diary {
    pub notes: Vec<Note>,
}

impl Grows for Diary {
    type Entry = Note;

    ghost history = { λ diary. diary.notes.items };

    ghost caller_of = { λ note. note.caller };

    fn count(&self) -> u64 {
        self.notes.len() as u64
    }
}

/// Makes a lock with so many passes round an empty diary.
pub fn open(alloc: Global, n: u32) -> Result<(HistoryLock<Diary>, Vec<Pass<Diary>>), AllocError>
    requires { (0 < n) × (n ≤ most_passes) }
    ensures count { IfOk result (λ r. vec_len r.1 ≡ n) }
    ensures theirs { IfOk result (λ r. All (λ p. lock_of p ≡ lock_id r.0) r.1.items) }
{
    let diary = Diary {
        notes: Vec::new(alloc),
    };
    match make(alloc, diary, n) {
        Ok(made) => Ok(made),
        Err(_) => Err(AllocError),
    }
}

/// Makes a lock with two passes round an empty diary.
pub fn open_two(alloc: Global) -> Result<(HistoryLock<Diary>, Pass<Diary>, Pass<Diary>), AllocError>
    ensures first { IfOk result (λ r. lock_of r.1 ≡ lock_id r.0) }
    ensures second { IfOk result (λ r. lock_of r.2 ≡ lock_id r.0) }
{
    let (lock, mut passes) = open(alloc, 2)?;
    let second = passes.remove(1);
    let first = passes.remove(0);
    Ok((lock, first, second))
}

/// Adds a note under the number of the pass, if there is memory for it.
pub fn add_note(
    rt: &impl Wait,
    lock: &HistoryLock<Diary>,
    pass: Pass<Diary>,
    page: u32,
) -> Pass<Diary>
    requires { lock_of pass ≡ lock_id lock.now }
    ensures { lock_of result ≡ lock_id lock.now }
{
    let mut inside = lock.enter(rt, pass);
    let note = Note {
        caller: inside.number(),
        page,
    };
    let _ = inside.value_mut().notes.push(note);
    lock.leave(inside)
}

/// Goes in, and gives the number of the pass that is inside, and the first note.
pub fn look(
    rt: &impl Wait,
    lock: &HistoryLock<Diary>,
    pass: Pass<Diary>,
) -> (Pass<Diary>, u32, Option<Note>)
    requires { lock_of pass ≡ lock_id lock.now }
    ensures { lock_of result.0 ≡ lock_id lock.now }
{
    let inside = sent(lock.enter(rt, pass));
    let number = inside.number();
    let first = inside.value().notes.get(0).copied();
    (lock.leave(inside), number, first)
}

/// Opens the lock for good with its two passes, and counts the notes. The first pass alone does not open it.
pub fn closed(
    rt: &impl Abort,
    alloc: Global,
    lock: HistoryLock<Diary>,
    first: Pass<Diary>,
    second: Pass<Diary>,
) -> Result<u64, AllocError>
    requires { (lock_of first ≡ lock_id lock) × (lock_of second ≡ lock_id lock) }
{
    let mut passes = Vec::new(alloc);
    passes.push(first)?;
    let Err(NotAll { lock, mut passes }) = lock.close(passes) else {
        panic!(rt; "one pass is not all")
    };
    passes.push(second)?;
    let Ok(diary) = lock.close(passes) else {
        panic!(rt; "both passes are all")
    };
    Ok(diary.count())
}
