//! The turns of a session.

ghost use Rattle.std.specs.Prelude.{◌≡◌, ◌≤◌, ◌∷◌, [], Some, false, is_err, is_some, true, vec_len, if◌then◌else◌};
ghost use Rattle.floor_text.specs.Outside.{Rose};
ghost use Rattle.history_lock.specs.Passes.{seen};
ghost use Rattle.plan_files.specs.Words.{WordTerms};
ghost use Rattle.dock_rules.specs.Journals.{tale_of};
ghost use Rattle.session_lines.specs.Meanings.{meaning_of};
ghost use Rattle.session_desk.specs.Desks.{AreInOrder, HasDeskMoved, IsDeskOf, nothing, sights};
ghost use Rattle.session_desk.specs.Inboxes.{is_line_held, line_of_cut, waiting};
ghost use Rattle.session_desk.specs.Standings.{count_of, is_quit};
ghost use Rattle.session_desk.specs.Telling.{HasToldKnown, IsToldOf, reach_of, watch_of};
ghost use Rattle.session_desk.specs.Turns.{HasResponded, HasSaid, IsTurn, MayMean, is_fault, took_idle, took_nothing};

use crate::desk::Desk;
use crate::exchange::{put_both, put_some};
use crate::inbox::Inbox;
use crate::news::Found;
use crate::session::{Session, SessionEnd, Step};
use crate::told::Told;
use book_dock::BookDock;
use floor_text::{Cut, Failed};
use links::{Link, Taken};
use plan_files::Words;
use session_lines::{Meaning, Reply, read_line};
use std::sync::Wait;
use table_dock::{Gate, TableDock};

/// Tells what the line that was handed out last means where this client speaks.
fn meaning_of(words: &Words, told: &Told, inbox: &Inbox, cut: Cut) -> Meaning
    ensures meaning { result ≡ meaning_of words.now told.now.speaker (line_of_cut cut inbox.now.line) }
    ensures lawful { MayMean told.now.speaker result }
{
    read_line(words, told.speaker, inbox.line(cut))
}

/// Tells what a turn came to that handled a line of this meaning.
fn step_after_line(meaning: &Meaning, put: Result<(), Failed>) -> Step
    ensures { result ≡ (if is_err put then Step.Over SessionEnd.LinkWrite
        else if is_quit (Some meaning.now) then Step.Over SessionEnd.Quit else Step.Replied) }
{
    match (put, meaning) {
        (Err(Failed), _) => Step::Over(SessionEnd::LinkWrite),
        (Ok(()), Meaning::Quit) => Step::Over(SessionEnd::Quit),
        (Ok(()), _) => Step::Replied,
    }
}

/// Tells what a turn came to in which the link was idle.
fn step_after_idle(stopped: bool, put: Result<(), Failed>) -> Step
    ensures { result ≡ (if is_err put then Step.Over SessionEnd.LinkWrite
        else if stopped then Step.Over SessionEnd.Closed else Step.Idled) }
{
    match put {
        Err(Failed) => Step::Over(SessionEnd::LinkWrite),
        Ok(()) if stopped => Step::Over(SessionEnd::Closed),
        Ok(()) => Step::Idled,
    }
}

impl Desk {
    /// Tells the news to whoever has said hello, and nothing to others.
    fn tell_known<R: Wait>(
        self,
        rt: &R,
        book: &BookDock,
        docks: &Vec<TableDock>,
        told: &mut Told,
        out: &mut Vec<u8>,
    ) -> (Desk, bool)
        requires desk { IsDeskOf book.now docks.now.items self }
        requires docks { AreInOrder docks.now.items }
        requires told { IsToldOf (sights self) (reach_of told.old) }
        requires count { vec_len told.old.watches ≡ vec_len docks.now }
        ensures moved { HasDeskMoved (count_of (is_some told.old.speaker))
            (λ table. count_of (is_some (watch_of (reach_of told.old) table))) nothing self result.0 }
        ensures news { HasToldKnown (vec_len docks.now) (sights result.0) (reach_of told.old) (reach_of told.new)
            result.1 out.old.items out.new.items }
        ensures kept { IsToldOf (sights result.0) (reach_of told.new) }
        ensures count { vec_len told.new.watches ≡ vec_len docks.now }
    {
        if told.speaker.is_none() {
            return (self, false);
        }
        let (desk, found) = self.tell(rt, book, docks, told, out);
        (desk, found.behind)
    }

    /// Does what a line means, and tells the news then. What the line changes of the client holds from then on.
    fn respond<R: Wait, G: Gate>(
        self,
        rt: &R,
        book: &BookDock,
        docks: &Vec<TableDock>,
        gate: &G,
        meaning: &Meaning,
        told: &mut Told,
        out: &mut Vec<u8>,
    ) -> (Desk, Reply, bool)
        requires desk { IsDeskOf book.now docks.now.items self }
        requires docks { AreInOrder docks.now.items }
        requires told { IsToldOf (sights self) (reach_of told.old) }
        requires count { vec_len told.old.watches ≡ vec_len docks.now }
        requires lawful { MayMean told.old.speaker meaning.now }
        ensures desk { IsDeskOf book.now docks.now.items result.0 }
        ensures responded { HasResponded (vec_len docks.now) self result.0 (reach_of told.old) (reach_of told.new)
            meaning.now result.1 result.2 out.old.items out.new.items }
        ensures kept { IsToldOf (sights result.0) (reach_of told.new) }
        ensures count { vec_len told.new.watches ≡ vec_len docks.now }
    {
        let (desk, reply) = self.answer(rt, book, docks, gate, meaning);
        let (desk, behind) = desk.tell_known(rt, book, docks, told, out);
        told.change(docks, meaning);
        (desk, reply, behind)
    }

    /// Looks at the journal, and tells the news to whoever has said hello.
    fn look<R: Wait>(
        self,
        rt: &R,
        book: &BookDock,
        docks: &Vec<TableDock>,
        told: &mut Told,
        out: &mut Vec<u8>,
    ) -> (Desk, Found)
        requires desk { IsDeskOf book.now docks.now.items self }
        requires docks { AreInOrder docks.now.items }
        requires told { IsToldOf (sights self) (reach_of told.old) }
        requires count { vec_len told.old.watches ≡ vec_len docks.now }
        ensures moved { HasDeskMoved 1
            (λ table. count_of (is_some (watch_of (reach_of told.old) table))) nothing self result.0 }
        ensures news { HasToldKnown (vec_len docks.now) (sights result.0) (reach_of told.old) (reach_of told.new)
            result.1.behind out.old.items out.new.items }
        ensures kept { IsToldOf (sights result.0) (reach_of told.new) }
        ensures count { vec_len told.new.watches ≡ vec_len docks.now }
        ensures stopped { result.1.stopped ≡ (tale_of (seen result.0.book)).ended }
    {
        if told.speaker.is_some() {
            return self.tell(rt, book, docks, told, out);
        }
        let (desk, stopped) = self.stopped(rt, book);
        let found = Found {
            stopped,
            behind: false,
        };
        (desk, found)
    }
}

impl Session {
    /// Handles a line: does what it asks, puts the news, and puts the reply behind them.
    fn handle<R: Wait, L: Link, G: Gate>(
        self,
        rt: &R,
        link: &mut L,
        words: &Words,
        book: &BookDock,
        docks: &Vec<TableDock>,
        gate: &G,
        cut: Cut,
    ) -> (Session, Step)
        requires desk { IsDeskOf book.now docks.now.items self.desk }
        requires docks { AreInOrder docks.now.items }
        ensures desk { IsDeskOf book.now docks.now.items result.0.desk }
        ensures inbox { result.0.inbox ≡ self.inbox }
        ensures said { HasSaid words.now (vec_len docks.now) (line_of_cut cut self.inbox.line ∷ []) took_nothing
            (L.told link.old) (L.told link.new) self result.0 result.1 }
        ensures later { L.faults link.old ≤ L.faults link.new }
        ensures cause { is_fault result.1 ≡ true → Rose (L.faults link.old) (L.faults link.new) }
    {
        let Session {
            desk,
            mut told,
            inbox,
            mut out,
            mut reply,
        } = self;
        let meaning = meaning_of(words, &told, &inbox, cut);
        out.clear();
        let (desk, said, behind) = desk.respond(
            rt, book, docks, gate, &meaning, &mut told, &mut out,
        );
        reply.write(said, behind);
        let put = put_both(link, &mut out, reply.bytes());
        let session = Session {
            desk,
            told,
            inbox,
            out,
            reply,
        };
        (session, step_after_line(&meaning, put))
    }

    /// Tells the news, where the link is idle.
    fn idle<R: Wait, L: Link>(
        self,
        rt: &R,
        link: &mut L,
        book: &BookDock,
        docks: &Vec<TableDock>,
    ) -> (Session, Step)
        requires desk { IsDeskOf book.now docks.now.items self.desk }
        requires docks { AreInOrder docks.now.items }
        ensures desk { IsDeskOf book.now docks.now.items result.0.desk }
        ensures inbox { result.0.inbox ≡ self.inbox }
        ensures said { (words : WordTerms) → HasSaid words (vec_len docks.now) [] took_idle
            (L.told link.old) (L.told link.new) self result.0 result.1 }
        ensures later { L.faults link.old ≤ L.faults link.new }
        ensures cause { is_fault result.1 ≡ true → Rose (L.faults link.old) (L.faults link.new) }
    {
        let Session {
            desk,
            mut told,
            inbox,
            mut out,
            reply,
        } = self;
        out.clear();
        let (desk, found) = desk.look(rt, book, docks, &mut told, &mut out);
        let put = put_some(link, &out);
        let session = Session {
            desk,
            told,
            inbox,
            out,
            reply,
        };
        (session, step_after_idle(found.stopped, put))
    }

    /// Takes once from the link, unless it has ended. No whole line is held.
    fn take<R: Wait, L: Link, G: Gate>(
        self,
        rt: &R,
        link: &mut L,
        words: &Words,
        book: &BookDock,
        docks: &Vec<TableDock>,
        gate: &G,
    ) -> (Session, Step)
        requires desk { IsDeskOf book.now docks.now.items self.desk }
        requires docks { AreInOrder docks.now.items }
        requires unread { self.inbox.unread ≡ [] }
        requires none { is_line_held (waiting self.inbox) ≡ false }
        ensures desk { IsDeskOf book.now docks.now.items result.0.desk }
        ensures turn { IsTurn L.told words.now (vec_len docks.now) link.old link.new self result.0 result.1 }
        ensures later { L.faults link.old ≤ L.faults link.new }
        ensures cause { is_fault result.1 ≡ true → Rose (L.faults link.old) (L.faults link.new) }
    {
        let mut session = self;
        if session.inbox.has_ended() {
            return (session, Step::Over(SessionEnd::Ended));
        }
        match session.inbox.take(link) {
            Ok(Taken::Bytes(_)) => (session, Step::Took),
            Ok(Taken::Idle) => session.idle(rt, link, book, docks),
            Ok(Taken::End) => match session.inbox.last_line() {
                Some(cut) => session.handle(rt, link, words, book, docks, gate, cut),
                None => (session, Step::Over(SessionEnd::Ended)),
            },
            Err(Failed) => (session, Step::Over(SessionEnd::LinkRead)),
        }
    }

    /// Makes one turn: handles the line that is held, or else takes once from the link. The docks are those of the
    /// tables 1, 2 and so on, and the desk's passes are theirs and the book's.
    pub fn turn<R: Wait, L: Link, G: Gate>(
        self,
        rt: &R,
        link: &mut L,
        words: &Words,
        book: &BookDock,
        docks: &Vec<TableDock>,
        gate: &G,
    ) -> (Session, Step)
        requires desk { IsDeskOf book.now docks.now.items self.desk }
        requires docks { AreInOrder docks.now.items }
        ensures desk { IsDeskOf book.now docks.now.items result.0.desk }

        // What the turn took from the link, what it said and put, and what it came to.
        ensures turn { IsTurn L.told words.now (vec_len docks.now) link.old link.new self result.0 result.1 }

        // The count of the link's faults never falls, and rose where the session is over by one.
        ensures later { L.faults link.old ≤ L.faults link.new }
        ensures cause { is_fault result.1 ≡ true → Rose (L.faults link.old) (L.faults link.new) }
    {
        let mut session = self;
        match session.inbox.next_line() {
            Some(cut) => session.handle(rt, link, words, book, docks, gate, cut),
            None => session.take(rt, link, words, book, docks, gate),
        }
    }
}
