//! What a line asks for is done at a desk.

ghost use Rattle.std.specs.Prelude.{◌≡◌, ◌+◌, ◌<◌, ◌≤◌, ◌∷◌, [], false, true, Some, Ok, Err, IfErr, IfOk, IfSome, IfNone, MatchResult, OnOk, slice_get, vec_capacity, vec_len, if◌then◌else◌};
ghost use Rattle.std.specs.List.{insert, remove};
ghost use Rattle.history_lock.specs.Passes.{lock_of};
ghost use Rattle.level_plan.specs.Items.{is_between};
ghost use Rattle.book_dock.specs.Docks.{book_id};
ghost use Rattle.table_dock.specs.Docks.{dock_id, table_of};
ghost use Rattle.session_lines.specs.declared.request.Request.TheVariants as requests;
ghost use Rattle.session_desk.specs.Answers.{order_reply};
ghost use Rattle.session_desk.specs.Asking.{HasAnswered, HasCarriedOut, IsNoted, fault_reply};
ghost use Rattle.session_desk.specs.Desks.{AreInOrder, ArePassesOf, IsDeskOf};

use crate::desk::{Asked, Desk};
use betting_round::{Act, Done};
use book_dock::{Ask, AskAnswer, BookDock};
use floor_text::{Name, Refusal};
use session_lines::{Meaning, Reply, Request};
use std::sync::Wait;
use table_dock::{Gate, TableDock, TablePass};
use table_engine::{ActFault, ActOf};

/// Finds the index of a table among so many, by its number.
pub(crate) fn index_of(table: u64, count: usize) -> Option<usize>
    ensures some { IfSome result (λ index. (index < count) × (table ≡ index + 1)) }
    ensures between { IfSome result (λ index. is_between 1 count table ≡ true) }
    ensures none { IfNone result (is_between 1 count table ≡ false) }
{
    let index = table.checked_sub(1)? as usize;
    (index < count).then_some(index)
}

/// Takes the pass of a table out of the row.
pub(crate) fn take_out(tables: &mut Vec<TablePass>, index: usize) -> TablePass
    requires { index < vec_len tables.old }
    ensures pass { slice_get tables.old.items index ≡ Some result }
    ensures rest { tables.new.items ≡ remove tables.old.items index }
    ensures room { vec_len tables.new < vec_capacity tables.new }
{
    tables.remove(index)
}

/// Brings the pass of a table back to its place in the row, for which there is room.
pub(crate) fn put_back(tables: &mut Vec<TablePass>, index: usize, pass: TablePass)
    requires place { index ≤ vec_len tables.old }
    requires room { vec_len tables.old < vec_capacity tables.old }
    ensures { tables.new.items ≡ insert tables.old.items index pass }
{
    let _ = tables.insert(index, pass);
}

/// Tells whether there is a table to be told of.
fn watch_reply(table: u64, count: usize) -> Reply
    ensures { result ≡ (if is_between 1 count table then Reply.Ok else Reply.No Refusal.NoTable) }
{
    match index_of(table, count) {
        Some(_) => Reply::Ok,
        None => Reply::No(Refusal::NoTable),
    }
}

/// Tells what an order came to.
fn order_reply(answer: AskAnswer) -> Reply
    ensures { result ≡ order_reply answer }
{
    match answer {
        AskAnswer::Ok => Reply::Ok,
        AskAnswer::No(refusal) => Reply::No(refusal),
        AskAnswer::NoOrder => Reply::NoOrder,
        AskAnswer::NoMemory => Reply::NoMemory,
    }
}

/// Tells that an act was not taken.
fn fault_reply(fault: ActFault) -> Reply
    ensures { result ≡ fault_reply fault }
{
    match fault {
        ActFault::No(refusal) => Reply::No(refusal),
        ActFault::NoMemory => Reply::NoMemory,
    }
}

/// Gives the act of a player as it is listed, where it was taken.
fn act_taken(name: Name, act: Act, done: Result<Done, ActFault>) -> Result<ActOf, ActFault>
    ensures { MatchResult done (λ done. result ≡ Ok (record { name = name; act = act; by_time = false }))
        (λ fault. result ≡ Err fault) }
{
    done.map(|_| ActOf {
        name,
        act,
        by_time: false,
    })
}

/// Lists an act where it was accepted, and tells what it came to. There is room for it.
fn note(
    asked: &mut Vec<Asked>,
    who: Option<Name>,
    table: u8,
    taken: Result<ActOf, ActFault>,
) -> Reply
    requires { vec_len asked.old < vec_capacity asked.old }
    ensures { IsNoted who table taken asked.old.items asked.new.items result }
{
    match taken {
        Ok(act) => {
            asked.push_reserved(Asked { who, table, act });
            Reply::Ok
        }
        Err(fault) => fault_reply(fault),
    }
}

impl Desk {
    ghost use Rattle.dock_rules.specs.Tables.{act_refusal_at, time_refusal_at};
    ghost use Rattle.session_desk.specs.Answers.{act_asked, times_asked};
    ghost use Rattle.session_desk.specs.Asking.{IsDoneAt};

    /// Finds the index of a table among so many, and takes the room to list an act there. A table that is not there is
    /// refused first.
    fn ready_at(&mut self, table: u64, count: usize) -> Result<usize, Reply>
        ensures same { (self.new.book ≡ self.old.book) × (self.new.tables ≡ self.old.tables) }
        ensures items { self.new.asked.items ≡ self.old.asked.items }
        ensures index { IfOk result (λ index. (index < count) × (table ≡ index + 1)) }
        ensures between { IfOk result (λ index. is_between 1 count table ≡ true) }
        ensures room { OnOk result (vec_len self.new.asked < vec_capacity self.new.asked) }
        ensures refused { IfErr result (λ reply. reply
            ≡ (if is_between 1 count table then Reply.NoMemory else Reply.No Refusal.NoTable)) }
    {
        let Some(index) = index_of(table, count) else {
            return Err(Reply::No(Refusal::NoTable));
        };
        match self.asked.reserve(1) {
            Ok(()) => Ok(index),
            Err(_) => Err(Reply::NoMemory),
        }
    }

    /// Lets a player act at a table. There is room to list it.
    fn act<R: Wait, G: Gate>(
        self,
        rt: &R,
        dock: &TableDock,
        gate: &G,
        index: usize,
        name: Name,
        act: Act,
    ) -> (Desk, Reply)
        requires index { index < vec_len self.tables }
        requires pass { IfSome (slice_get self.tables.items index) (λ pass. lock_of pass ≡ dock_id dock.now) }
        requires table { table_of dock.now ≡ index + 1 }
        requires room { vec_len self.asked < vec_capacity self.asked }
        ensures done { IsDoneAt (index + 1) (λ at. act_refusal_at at name act)
            (λ at. act_asked (index + 1) name act ∷ []) self result.0 result.1 }
    {
        let Desk {
            book,
            mut tables,
            mut asked,
        } = self;
        let pass = take_out(&mut tables, index);
        let (pass, done) = dock.act(rt, pass, gate, name, act);
        put_back(&mut tables, index, pass);
        let taken = act_taken(name, act, done);
        let reply = note(&mut asked, Some(name), dock.table(), taken);
        let desk = Desk {
            book,
            tables,
            asked,
        };
        (desk, reply)
    }

    /// Calls time at a table. There is room to list the act.
    fn call_time<R: Wait>(self, rt: &R, dock: &TableDock, index: usize) -> (Desk, Reply)
        requires index { index < vec_len self.tables }
        requires pass { IfSome (slice_get self.tables.items index) (λ pass. lock_of pass ≡ dock_id dock.now) }
        requires table { table_of dock.now ≡ index + 1 }
        requires room { vec_len self.asked < vec_capacity self.asked }
        ensures done { IsDoneAt (index + 1) time_refusal_at (times_asked (index + 1)) self result.0 result.1 }
    {
        let Desk {
            book,
            mut tables,
            mut asked,
        } = self;
        let pass = take_out(&mut tables, index);
        let (pass, taken) = dock.call_time(rt, pass);
        put_back(&mut tables, index, pass);
        let reply = note(&mut asked, None, dock.table(), taken);
        let desk = Desk {
            book,
            tables,
            asked,
        };
        (desk, reply)
    }

    /// Lets the floor's order be carried out.
    fn order<R: Wait>(self, rt: &R, book: &BookDock, ask: &Ask) -> (Desk, Reply)
        requires { lock_of self.book ≡ book_id book.now }
        ensures { HasCarriedOut 0 self result.0 (requests.Order ask.now) result.1 }
    {
        let Desk {
            book: pass,
            tables,
            asked,
        } = self;
        let (pass, answer) = book.order(rt, pass, ask);
        let desk = Desk {
            book: pass,
            tables,
            asked,
        };
        (desk, order_reply(answer))
    }

    /// Lets a player act at the table of a number. A table that is not there is refused first, and memory is wanted
    /// before the act.
    fn act_at<R: Wait, G: Gate>(
        self,
        rt: &R,
        docks: &Vec<TableDock>,
        gate: &G,
        table: u64,
        name: Name,
        act: Act,
    ) -> (Desk, Reply)
        requires count { vec_len self.tables ≡ vec_len docks.now }
        requires passes { ArePassesOf docks.now.items self }
        requires docks { AreInOrder docks.now.items }
        ensures { HasCarriedOut (vec_len docks.now) self result.0 (requests.Act table name act) result.1 }
    {
        let mut desk = self;
        match desk.ready_at(table, docks.len()) {
            Ok(index) => desk.act(rt, &docks[index], gate, index, name, act),
            Err(reply) => (desk, reply),
        }
    }

    /// Calls time at the table of a number. A table that is not there is refused first, and memory is wanted before the
    /// call.
    fn call_time_at<R: Wait>(self, rt: &R, docks: &Vec<TableDock>, table: u64) -> (Desk, Reply)
        requires count { vec_len self.tables ≡ vec_len docks.now }
        requires passes { ArePassesOf docks.now.items self }
        requires docks { AreInOrder docks.now.items }
        ensures { HasCarriedOut (vec_len docks.now) self result.0 (requests.Time table) result.1 }
    {
        let mut desk = self;
        match desk.ready_at(table, docks.len()) {
            Ok(index) => desk.call_time(rt, &docks[index], index),
            Err(reply) => (desk, reply),
        }
    }

    /// Does what is asked for, as far as it is done at the desk.
    pub(crate) fn carry_out<R: Wait, G: Gate>(
        self,
        rt: &R,
        book: &BookDock,
        docks: &Vec<TableDock>,
        gate: &G,
        request: &Request,
    ) -> (Desk, Reply)
        requires desk { IsDeskOf book.now docks.now.items self }
        requires docks { AreInOrder docks.now.items }
        ensures { HasCarriedOut (vec_len docks.now) self result.0 request.now result.1 }
    {
        match request {
            Request::Watch(table) => (self, watch_reply(*table, docks.len())),
            Request::Act { table, name, act } => {
                self.act_at(rt, docks, gate, *table, *name, *act)
            },
            Request::Time(table) => self.call_time_at(rt, docks, *table),
            Request::Order(ask) => self.order(rt, book, ask),
        }
    }

    /// Does what a line means, as far as it is done at the desk, and gives the reply.
    pub(crate) fn answer<R: Wait, G: Gate>(
        self,
        rt: &R,
        book: &BookDock,
        docks: &Vec<TableDock>,
        gate: &G,
        meaning: &Meaning,
    ) -> (Desk, Reply)
        requires desk { IsDeskOf book.now docks.now.items self }
        requires docks { AreInOrder docks.now.items }
        ensures { HasAnswered (vec_len docks.now) self result.0 meaning.now result.1 }
    {
        match meaning {
            Meaning::Quit | Meaning::Hello(_) => (self, Reply::Ok),
            Meaning::Stranger => (self, Reply::Who),
            Meaning::Nonsense => (self, Reply::No(Refusal::Syntax)),
            Meaning::Asks(request) => self.carry_out(rt, book, docks, gate, request),
        }
    }
}
