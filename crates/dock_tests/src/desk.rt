//! What a desk asks at the dock of a table, and what it is answered.

ghost use Rattle.std.specs.Prelude.{◌≡◌, ◌≤◌, length, take};
ghost use Rattle.history_lock.specs.Passes.{lock_of, seen};
ghost use Rattle.table_dock.specs.Docks.{dock_id};

use betting_round::{Act, Done};
use floor_text::{Name, Refusal};
use std::sync::Wait;
use std::sync::atomic::{AtomicU64, Ordering};
use table_dock::{Gate, TableDock, TablePass};
use table_engine::ActFault;

/// What a desk asks.
#[derive(Clone, Copy)]
pub enum Asked {
    /// A player acts.
    Act(&'static str, Act),
    /// Time is called.
    Time,
}

/// What a desk asks, and what it is to be answered.
pub type Row = (Asked, Result<Done, Refusal>);

/// A gate that keeps the number of the table that it was told last.
#[derive(Drop)]
struct Watch {
    last: AtomicU64,
}

impl Gate for Watch {
    fn held(&self, table: u8) {
        self.last.store(table as u64, Ordering::SeqCst);
    }
}

/// Tells whether the answer is the one that is wanted.
fn is_answer(found: Result<Done, ActFault>, wanted: Result<Done, Refusal>) -> bool {
    match (found, wanted) {
        (Ok(found), Ok(wanted)) => found == wanted,
        (Err(ActFault::No(found)), Err(wanted)) => found == wanted,
        _ => false,
    }
}

/// Lets a player act, and tells whether the answer is the one that is wanted, and the gate was told of table 1.
pub fn act<R: Wait>(
    rt: &R,
    dock: &TableDock,
    desk: TablePass,
    who: Name,
    act: Act,
    wanted: Result<Done, Refusal>,
) -> (TablePass, bool)
    requires { lock_of desk ≡ dock_id dock.now }
    ensures lock { lock_of result.0 ≡ dock_id dock.now }
    ensures more { length (seen desk) ≤ length (seen result.0) }
    ensures kept { take (length (seen desk)) (seen result.0) ≡ seen desk }
{
    let gate = Watch {
        last: AtomicU64::new(0),
    };
    let (desk, found) = dock.act(rt, desk, &gate, who, act);
    let is_told = gate.last.load(Ordering::SeqCst) == 1;
    (desk, is_told && is_answer(found, wanted))
}

/// Asks for one thing, and tells whether the answer is the one that is wanted.
fn ask<R: Wait>(rt: &R, dock: &TableDock, desk: TablePass, row: &Row) -> (TablePass, bool)
    requires { lock_of desk ≡ dock_id dock.now }
    ensures { lock_of result.0 ≡ dock_id dock.now }
{
    let (asked, wanted) = *row;
    match asked {
        Asked::Act(who, played) => match Name::read(who.as_bytes()) {
            Some(who) => act(rt, dock, desk, who, played, wanted),
            None => (desk, false),
        },
        Asked::Time => {
            let (desk, found) = dock.time(rt, desk);
            (desk, is_answer(found, wanted))
        }
    }
}

/// Asks for one thing after another, and tells how many in a row are answered as is wanted.
pub fn answered<R: Wait>(
    rt: &R,
    dock: &TableDock,
    desk: TablePass,
    rows: &[Row],
) -> (TablePass, usize)
    requires { lock_of desk ≡ dock_id dock.now }
    ensures { lock_of result.0 ≡ dock_id dock.now }
{
    let mut desk = desk;
    for index in 0..rows.len() {
        let (next, is_wanted) = ask(rt, dock, desk, &rows[index]);
        desk = next;
        if !is_wanted {
            return (desk, index);
        }
    }
    (desk, rows.len())
}
