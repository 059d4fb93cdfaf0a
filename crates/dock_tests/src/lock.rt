//! A history lock round a diary, on one thread and on several.

ghost use Rattle.std.specs.Prelude.{◌≡◌, ◌<◌, ◌≤◌};
ghost use Rattle.history_lock.specs.Limits.{most_passes};
ghost use Rattle.history_lock.specs.Passes.{lock_id, lock_of};

use super::diary::{Diary, Note, add_note, closed, look, open, open_two};
use history_lock::{HistoryLock, Pass};
use std::alloc::{AllocError, Global};
use std::sync::Wait;
use std::test::Fail;
use std::thread;
use std::thread::Threads;

const PAGES: u32 = 1000;

/// Adds a note for each page.
fn fill(rt: &impl Wait, lock: &HistoryLock<Diary>, pass: Pass<Diary>) -> Pass<Diary>
    requires { lock_of pass ≡ lock_id lock.now }
    ensures { lock_of result ≡ lock_id lock.now }
{
    let mut pass = pass;
    for page in 0..PAGES {
        pass = add_note(rt, lock, pass, page);
    }
    pass
}

/// Tells whether the caller has each page once, in rising order.
fn has_each_page(notes: &[Note], caller: u32) -> bool {
    let mut next = 0u32;
    for note in notes {
        if note.caller == caller {
            if note.page != next {
                return false;
            }
            next = next.wrapping_add(1);
        }
    }
    next == PAGES
}

/// Tells whether the callers below a number have each page once, in rising order, and nobody else has one.
fn is_full(notes: &[Note], callers: u32) -> bool {
    for caller in 0..callers {
        if !has_each_page(notes, caller) {
            return false;
        }
    }
    notes.len() == callers as usize * PAGES as usize
}

/// Tells whether so many threads that share a lock fill its diary, each all its pages.
fn is_filled_by<R: Threads + Wait + Sync>(rt: &R, alloc: Global, n: u32) -> Result<bool, AllocError>
    requires { (0 < n) × (n ≤ most_passes) }
{
    let (lock, passes) = open(alloc, n)?;
    let shared = &lock;
    let passes = thread::map_vec(
        rt,
        passes,
        &|pass: Pass<Diary>| -> Pass<Diary>
            requires { lock_of pass ≡ lock_id shared.now }
            ensures { lock_of result ≡ lock_id shared.entry.now }
        { fill(rt, shared, pass) },
    )?;
    match lock.close(passes) {
        Ok(diary) => Ok(is_full(&diary.notes, n)),
        Err(_) => Ok(false),
    }
}

#[test]
fn two_and_eight_threads_fill_a_diary(rt: HostRuntime) -> Result<(), Fail> {
    let two = is_filled_by(&rt, rt.alloc(), 2)?;
    let eight = is_filled_by(&rt, rt.alloc(), 8)?;
    assert!(rt; two && eight);
    Ok(())
}

#[test]
fn opens_with_all_passes_alone(rt: HostRuntime) -> Result<(), Fail> {
    let (lock, first, second) = open_two(rt.alloc())?;
    let number = first.number();
    let count = closed(&rt, rt.alloc(), lock, first, second)?;
    assert!(rt; number == 0 && count == 0);
    Ok(())
}

#[test]
fn news_counts_what_another_added(rt: HostRuntime) -> Result<(), Fail> {
    let (lock, first, mut second) = open_two(rt.alloc())?;
    let before = lock.news(&mut second);
    let first = add_note(&rt, &lock, first, 7);
    let after = lock.news(&mut second);
    let (second, number, found) = look(&rt, &lock, second);
    let count = closed(&rt, rt.alloc(), lock, first, second)?;
    assert!(rt; (before, after, number) == (0, 1, 1) && count == 1);
    assert!(rt; found == Some(Note { caller: 0, page: 7 }));
    Ok(())
}

/// Waits until another has added an entry, and tells whether it sees it.
fn await_entry<R: Wait>(rt: &R, lock: &HistoryLock<Diary>, pass: Pass<Diary>) -> (Pass<Diary>, bool)
    requires { lock_of pass ≡ lock_id lock.now }
    ensures { lock_of result.0 ≡ lock_id lock.now }
{
    let mut pass = pass;
    for _ in rt.forever() {
        if lock.news(&mut pass) > 0 {
            break;
        }
        pass = lock.await_news(rt, pass);
    }
    let (pass, _, found) = look(rt, lock, pass);
    (pass, found.is_some())
}

fn add_and_wake(rt: &impl Wait, lock: &HistoryLock<Diary>, pass: Pass<Diary>) -> Pass<Diary>
    requires { lock_of pass ≡ lock_id lock.now }
    ensures { lock_of result ≡ lock_id lock.now }
{
    let pass = add_note(rt, lock, pass, 0);
    lock.wake();
    pass
}

#[test]
fn a_thread_awaits_the_entry_of_another(rt: HostRuntime) -> Result<(), Fail> {
    let (lock, first, second) = open_two(rt.alloc())?;
    let shared = &lock;
    let (first, (second, found)) = thread::join(
        &rt,
        || -> Pass<Diary>
            requires { lock_of first ≡ lock_id shared.now }
            ensures { lock_of result ≡ lock_id shared.entry.now }
        { add_and_wake(&rt, shared, first) },
        || -> (Pass<Diary>, bool)
            requires { lock_of second ≡ lock_id shared.now }
            ensures { lock_of result.0 ≡ lock_id shared.entry.now }
        { await_entry(&rt, shared, second) },
    );
    let count = closed(&rt, rt.alloc(), lock, first, second)?;
    assert!(rt; found && count == 1);
    Ok(())
}
