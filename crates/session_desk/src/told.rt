//! How far a client was told.

ghost use Rattle.std.specs.Prelude.{◌≡◌, Some, IfOk, vec_len};
ghost use Rattle.session_lines.specs.declared.meaning.Meaning.TheVariants as meanings;
ghost use Rattle.session_lines.specs.declared.request.Request.TheVariants as requests;
ghost use Rattle.session_desk.specs.Desks.{AreInOrder};
ghost use Rattle.session_desk.specs.Telling.{first_reach, reach_after, reach_of, viewer_of};

use crate::asking::index_of;
use floor_text::Name;
use player_view::TableTeller;
use session_lines::{Meaning, Request, Speaker};
use std::alloc::{AllocError, Global};
use table_dock::TableDock;

/// How far a client was told of a table.
#[derive(Drop)]
pub(crate) struct Watch {
    /// How many entries of the table's history were told.
    pub(crate) told: u64,
    /// Who tells of it.
    pub(crate) teller: TableTeller,
}

/// Who a client is, and how far he was told.
#[derive(Drop)]
pub(crate) struct Told {
    pub(crate) alloc: Global,
    /// Who speaks: nobody before a right hello.
    pub(crate) speaker: Option<Speaker>,
    /// How many entries of the journal were told.
    pub(crate) journal: u64,
    /// For each table how far he was told of it, where he watches it.
    pub(crate) watches: Vec<Option<Watch>>,
}

/// Tells to whom lines are shown.
fn viewer_of(speaker: Option<Speaker>) -> Option<Name>
    ensures { result ≡ viewer_of speaker }
{
    match speaker? {
        Speaker::Player(name) => Some(name),
        Speaker::Floor => None,
    }
}

impl Told {
    /// Makes a client who has said nothing, and takes the room for so many tables.
    pub(crate) fn new(alloc: Global, tables: usize) -> Result<Told, AllocError>
        ensures { IfOk result (λ told. reach_of told ≡ first_reach tables) }
    {
        let mut watches = Vec::with_capacity(alloc, tables)?;
        for _ in 0..tables {
            watches.push_reserved(None);
        }
        Ok(Told {
            alloc,
            speaker: None,
            journal: 0,
            watches,
        })
    }

    /// Begins to watch a table, from its first entry on, unless it is watched before.
    fn watch(&mut self, docks: &Vec<TableDock>, table: u64)
        requires count { vec_len self.old.watches ≡ vec_len docks.now }
        requires docks { AreInOrder docks.now.items }
        ensures { reach_of self.new
            ≡ reach_after (vec_len docks.now) (Some (meanings.Asks (requests.Watch table))) (reach_of self.old) }
    {
        let Some(index) = index_of(table, docks.len()) else {
            return;
        };
        if self.watches[index].is_some() {
            return;
        }
        let who = viewer_of(self.speaker);
        self.watches[index] = Some(Watch {
            told: 0,
            teller: TableTeller::new(self.alloc, docks[index].table(), who),
        });
    }

    /// Changes what a line changes of who the client is and of what he watches.
    pub(crate) fn change(&mut self, docks: &Vec<TableDock>, meaning: &Meaning)
        requires count { vec_len self.old.watches ≡ vec_len docks.now }
        requires docks { AreInOrder docks.now.items }
        ensures { reach_of self.new ≡ reach_after (vec_len docks.now) (Some meaning.now) (reach_of self.old) }
    {
        match meaning {
            Meaning::Hello(speaker) => self.speaker = Some(*speaker),
            Meaning::Asks(Request::Watch(table)) => self.watch(docks, *table),
            _ => {}
        }
    }
}
