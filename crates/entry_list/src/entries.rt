//! The entry list.

ghost use Rattle.std.specs.Prelude.{◌≡◌, ◌<◌, ◌++◌, ◌∷◌, [], true, false, length, slice_get, Some, is_some, IfSome, IfOk, IfErr, OnOk, OnErr};
ghost use Rattle.entry_list.specs.Entries.{is_known, is_full, number_of};

use floor_text::Name;
use indexmap::IndexSet;
use rulebook::MOST_ENTRIES;
use std::alloc::{AllocFailed, Global};
use std::marker::Model;
use thiserror::Error;

/// Why a name was not added.
#[derive(Clone, Copy, Debug, PartialEq, Eq, Error)]
pub enum EntryFault {
    /// The name is there.
    #[error("the name is in the entry list")]
    Known,
    /// There are 640 names.
    #[error("the entry list is full")]
    Full,
    /// Memory ran out.
    #[error("out of memory")]
    NoMemory,
}

impl<T: Drop> From<AllocFailed<T>> for EntryFault {
    ghost use Rattle.std.specs.Prelude.{◌≡◌};
    ghost use Rattle.entry_list.specs.declared.entries.EntryFault.TheVariants.{NoMemory};

    ghost from_gives = { λ _ fault. fault ≡ NoMemory };

    fn from(_: AllocFailed<T>) -> EntryFault {
        EntryFault::NoMemory
    }
}

/// The names of those who entered, in order, each once. A player's number is the index of the name, from 0. Contracts
/// see it as the list of the names.
#[derive(Drop)]
pub struct EntryList {
    names: IndexSet<Name>,
}

impl Model for EntryList {
    ghost use Rattle.std.specs.Prelude.{ℕ, List};
    ghost use Rattle.entry_list.specs.Entries.{IsEntries};

    ghost Value = { List (List ℕ) };

    ghost view = { λ list. list.names.keys };

    ghost invariant = { λ list. IsEntries list.names.keys };
}

impl EntryList {
    ghost use Rattle.entry_list.specs.Entries.{IsEntries, IsEntryFault};

    /// Makes a list with no name.
    pub fn new(alloc: Global) -> EntryList
        ensures { result ≡ [] }
    {
        EntryList {
            names: IndexSet::new(alloc),
        }
    }

    /// Adds a name at the end and gives its number. `Known` comes exactly where the name is there, else `Full`
    /// exactly where 640 names are. An error leaves the list as it was.
    pub fn add(&mut self, name: Name) -> Result<u32, EntryFault>
        ensures number { IfOk result (λ player. player ≡ length self.old) }
        ensures added { OnOk result (self.new ≡ self.old ++ name ∷ []) }
        ensures ok { OnOk result ((is_known self.old name ≡ false) × (is_full self.old ≡ false)) }
        ensures fault { IfErr result (IsEntryFault self.old name) }
        ensures kept { OnErr result (self.new ≡ self.old) }
        ensures lawful { IsEntries self.new }
    {
        if self.names.contains(&name) {
            return Err(EntryFault::Known);
        }
        let player = self.names.len();
        if player >= MOST_ENTRIES {
            return Err(EntryFault::Full);
        }
        self.names.insert_full(name)?;
        Ok(player as u32)
    }

    /// Finds the number of a name, if it is there.
    pub fn find(&self, name: Name) -> Option<u32>
        ensures number { result ≡ number_of self.now name }
        ensures found { is_some result ≡ is_known self.now name }
        ensures within { IfSome result (λ player. player < length self.now) }
    {
        let index = self.names.get_index_of(&name)?;
        Some(index as u32)
    }

    /// Gives the name of a player.
    pub fn name(&self, player: u32) -> Name
        requires { player < length self.now }
        ensures { slice_get self.now player ≡ Some result }
    {
        *self.names.get_index(player as usize).unwrap()
    }

    /// Counts the names.
    pub fn len(&self) -> u32
        ensures len { result ≡ length self.now }
        ensures lawful { IsEntries self.now }
    {
        self.names.len() as u32
    }
}
