//! A desk: the passes with which its sessions are served.

ghost use Rattle.std.specs.Prelude.{◌≡◌, []};
ghost use Rattle.history_lock.specs.Passes.{lock_of, seen};
ghost use Rattle.dock_rules.specs.Journals.{tale_of};
ghost use Rattle.book_dock.specs.Docks.{book_id};
ghost use Rattle.session_desk.specs.Desks.{HasDeskMoved, nothing};

use book_dock::{BookDock, BookPass};
use floor_text::Name;
use std::alloc::Global;
use std::sync::Wait;
use table_dock::TablePass;
use table_engine::ActOf;

/// An act, or a called time, that a desk's session asked for and that was accepted.
#[derive(Clone, Copy)]
pub struct Asked {
    /// Who asked: the player of a name, or `None` for the floor.
    pub who: Option<Name>,
    /// The number of the table.
    pub table: u8,
    /// The act. Of a called time it is the one that was made for the player who was due.
    pub act: ActOf,
}

/// A desk, with its pass of the book and its pass of each table, the first table's first.
#[derive(Drop)]
pub struct Desk {
    pub(crate) book: BookPass,
    pub(crate) tables: Vec<TablePass>,
    pub(crate) asked: Vec<Asked>,
}

impl Desk {
    /// Makes a desk of these passes, whose sessions have asked for nothing. It takes no memory.
    pub fn new(alloc: Global, book: BookPass, tables: Vec<TablePass>) -> Desk
        ensures passes { (result.book ≡ book) × (result.tables ≡ tables) }
        ensures none { result.asked.items ≡ [] }
    {
        Desk {
            book,
            tables,
            asked: Vec::new(alloc),
        }
    }

    /// Lists the acts and called times that this desk's sessions had accepted, in order.
    pub fn asked(&self) -> &Vec<Asked>
        ensures { result.now ≡ self.now.asked }
    {
        &self.asked
    }

    /// Gives the passes back, with what the desk's sessions had accepted.
    pub fn parts(self) -> (BookPass, Vec<TablePass>, Vec<Asked>)
        ensures { (result.0 ≡ self.book) × ((result.1 ≡ self.tables) × (result.2 ≡ self.asked)) }
    {
        let Desk {
            book,
            tables,
            asked,
        } = self;
        (book, tables, asked)
    }

    /// Looks whether the tournament was stopped.
    pub(crate) fn stopped<R: Wait>(self, rt: &R, book: &BookDock) -> (Desk, bool)
        requires { lock_of self.book ≡ book_id book.now }
        ensures moved { HasDeskMoved 1 (λ table. 0) nothing self result.0 }
        ensures stopped { result.1 ≡ (tale_of (seen result.0.book)).ended }
    {
        let Desk {
            book: pass,
            tables,
            asked,
        } = self;
        let (pass, stopped) = book.stopped(rt, pass);
        let desk = Desk {
            book: pass,
            tables,
            asked,
        };
        (desk, stopped)
    }
}
