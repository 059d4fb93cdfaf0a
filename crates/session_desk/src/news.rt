//! News are told.

ghost use Rattle.std.specs.Prelude.{◌≡◌, ◌==◌, ◌<◌, ◌≤◌, ◌+◌, IfSome, is_some, length, slice_get, vec_len};
ghost use Rattle.history_lock.specs.Passes.{lock_of, seen};
ghost use Rattle.view_rules.specs.Shown.{Viewer};
ghost use Rattle.dock_rules.specs.Journals.{tale_of};
ghost use Rattle.book_dock.specs.Docks.{book_id};
ghost use Rattle.table_dock.specs.Docks.{dock_id, table_of};
ghost use Rattle.table_dock.specs.Telling.{number_told};
ghost use Rattle.session_desk.specs.Desks.{AreInOrder, HasDeskMoved, IsSameBut, IsDeskOf, nothing, sights};
ghost use Rattle.session_desk.specs.Standings.{count_of};
ghost use Rattle.session_desk.specs.Telling.{HasToldFloor, HasToldNews, HasToldTable, IsToldOf, IsWatch, reach_of, watch_of};

use crate::asking::{put_back, take_out};
use crate::desk::Desk;
use crate::told::{Told, Watch};
use book_dock::BookDock;
use std::sync::Wait;
use table_dock::{TableDock, Untold};

/// How many entries of a history are read in one hold at most, so that nobody's return keeps others from its lock.
const PIECE: u64 = 1_000;

/// What was found when news were told.
#[derive(Clone, Copy)]
pub(crate) struct Found {
    /// Whether the journal ends with the stop.
    pub(crate) stopped: bool,
    /// Whether memory ran out before all news were told.
    pub(crate) behind: bool,
}

/// Gives the number of the first entry of a table that was not told.
fn number_told(answer: Result<u64, Untold>) -> u64
    ensures { result ≡ number_told answer }
{
    match answer {
        Ok(count) => count,
        Err(untold) => untold.told,
    }
}

impl Desk {
    /// Writes the lines of the next piece of the journal that was not told yet. Answers besides what it found whether
    /// more of the journal is left.
    fn tell_floor_piece<R: Wait>(
        self,
        rt: &R,
        book: &BookDock,
        told: &mut Told,
        out: &mut Vec<u8>,
    ) -> (Desk, Found, bool)
        requires lock { lock_of self.book ≡ book_id book.now }
        requires within { told.old.journal ≤ length (seen self.book) }
        ensures moved { HasDeskMoved 1 (λ table. 0) nothing self result.0 }
        ensures told { HasToldFloor (seen result.0.book) (reach_of told.old) (reach_of told.new) result.2
            out.old.items out.new.items }
        ensures stopped { result.1.stopped ≡ (tale_of (seen result.0.book)).ended }
    {
        let Desk {
            book: pass,
            tables,
            asked,
        } = self;
        let (pass, followed) = book.follow(rt, pass, told.journal, PIECE, out);
        let desk = Desk {
            book: pass,
            tables,
            asked,
        };
        let found = Found {
            stopped: followed.stopped,
            behind: followed.told.is_err(),
        };
        if let Ok(count) = followed.told {
            told.journal = count;
        }
        (desk, found, told.journal < followed.count)
    }

    /// Writes the lines of the journal that were not told yet, piece by piece.
    fn tell_floor<R: Wait>(
        self,
        rt: &R,
        book: &BookDock,
        told: &mut Told,
        out: &mut Vec<u8>,
    ) -> (Desk, Found)
        requires lock { lock_of self.book ≡ book_id book.now }
        requires within { told.old.journal ≤ length (seen self.book) }
        ensures moved { HasDeskMoved 1 (λ table. 0) nothing self result.0 }
        ensures told { HasToldFloor (seen result.0.book) (reach_of told.old) (reach_of told.new) result.1.behind
            out.old.items out.new.items }
        ensures stopped { result.1.stopped ≡ (tale_of (seen result.0.book)).ended }
    {
        let mut desk = self;
        for _ in rt.forever() {
            let (next, found, is_left) = desk.tell_floor_piece(rt, book, told, out);
            desk = next;
            if found.behind || !is_left {
                return (desk, found);
            }
        }
        unreachable!()
    }

    /// Writes the lines of the next piece of a watched table that was not told yet. Answers whether memory ran out in
    /// it, and whether more of the table's history is left.
    fn tell_table_piece<R: Wait>(
        self,
        rt: &R,
        dock: &TableDock,
        index: usize,
        watch: &mut Watch,
        out: &mut Vec<u8>,
    ) -> (Desk, bool, bool)
        requires index { index < vec_len self.tables }
        requires pass { IfSome (slice_get self.tables.items index) (λ pass. lock_of pass ≡ dock_id dock.now) }
        requires table { table_of dock.now ≡ index + 1 }
        requires watch { (who : Viewer) × IsWatch who (index + 1) ((sights self).tables (index + 1)) watch.old }
        ensures moved { HasDeskMoved 0 (λ table. count_of (table == index + 1)) nothing self result.0 }
        ensures others { IsSameBut (index + 1) self result.0 }
        ensures told { HasToldTable ((sights result.0).tables (index + 1)) watch.old watch.new result.2
            out.old.items out.new.items }
        ensures watch { (who : Viewer) → IsWatch who (index + 1) ((sights self).tables (index + 1)) watch.old
            → IsWatch who (index + 1) ((sights result.0).tables (index + 1)) watch.new }
    {
        let Desk {
            book,
            mut tables,
            asked,
        } = self;
        let pass = take_out(&mut tables, index);
        let (pass, count, answer) = dock.follow(
            rt,
            pass,
            watch.told,
            PIECE,
            &mut watch.teller,
            out,
        );
        put_back(&mut tables, index, pass);
        let desk = Desk {
            book,
            tables,
            asked,
        };
        let behind = answer.is_err();
        watch.told = number_told(answer);
        (desk, behind, watch.told < count)
    }

    /// Writes the lines of a watched table that were not told yet, piece by piece. Answers whether memory ran out
    /// before all were.
    fn tell_table<R: Wait>(
        self,
        rt: &R,
        dock: &TableDock,
        index: usize,
        watch: &mut Watch,
        out: &mut Vec<u8>,
    ) -> (Desk, bool)
        requires index { index < vec_len self.tables }
        requires pass { IfSome (slice_get self.tables.items index) (λ pass. lock_of pass ≡ dock_id dock.now) }
        requires table { table_of dock.now ≡ index + 1 }
        requires watch { (who : Viewer) × IsWatch who (index + 1) ((sights self).tables (index + 1)) watch.old }
        ensures moved { HasDeskMoved 0 (λ table. count_of (table == index + 1)) nothing self result.0 }
        ensures others { IsSameBut (index + 1) self result.0 }
        ensures told { HasToldTable ((sights result.0).tables (index + 1)) watch.old watch.new result.1
            out.old.items out.new.items }
        ensures watch { (who : Viewer) → IsWatch who (index + 1) ((sights self).tables (index + 1)) watch.old
            → IsWatch who (index + 1) ((sights result.0).tables (index + 1)) watch.new }
    {
        let mut desk = self;
        for _ in rt.forever() {
            let (next, behind, is_left) = desk.tell_table_piece(rt, dock, index, watch, out);
            desk = next;
            if behind || !is_left {
                return (desk, behind);
            }
        }
        unreachable!()
    }

    /// Writes what the client was not told yet: the lines of the journal, and then those of each table that he watches,
    /// in rising number.
    pub(crate) fn tell<R: Wait>(
        self,
        rt: &R,
        book: &BookDock,
        docks: &Vec<TableDock>,
        told: &mut Told,
        out: &mut Vec<u8>,
    ) -> (Desk, Found)
        requires desk { IsDeskOf book.now docks.now.items self }
        requires docks { AreInOrder docks.now.items }
        requires told { IsToldOf (sights self) (reach_of told.old) }
        requires count { vec_len told.old.watches ≡ vec_len docks.now }
        ensures moved { HasDeskMoved 1 (λ table. count_of (is_some (watch_of (reach_of told.old) table))) nothing self
            result.0 }
        ensures told { HasToldNews (vec_len docks.now) (sights result.0) (reach_of told.old) (reach_of told.new)
            result.1.behind out.old.items out.new.items }
        ensures kept { IsToldOf (sights result.0) (reach_of told.new) }
        ensures count { vec_len told.new.watches ≡ vec_len docks.now }
        ensures stopped { result.1.stopped ≡ (tale_of (seen result.0.book)).ended }
    {
        let (mut desk, mut found) = self.tell_floor(rt, book, told, out);
        for index in 0..told.watches.len() {
            let Some(watch) = &mut told.watches[index] else {
                continue;
            };
            let (next, behind) = desk.tell_table(rt, &docks[index], index, watch, out);
            desk = next;
            found.behind = found.behind || behind;
        }
        (desk, found)
    }
}
