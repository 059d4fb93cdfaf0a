//! The session words of a plan file.

ghost use Rattle.std.specs.Prelude.{◌≡◌, Ok, IfOk, IfErr, codes, option_map};
ghost use Rattle.toml.specs.View.{view, table_view};
ghost use Rattle.plan_files.specs.FileValues.{said_at};
ghost use Rattle.plan_files.specs.PlanFiles.{IsWrong};
ghost use Rattle.plan_files.specs.Words.{word_named, player_of, each_player, players_of, words_in, word_of};

use crate::file_value::value_at;
use crate::session_word::{SessionWord, is_session_word};
use floor_text::{List, Name};
use level_plan::{PlanFault, PlanItem};
use rulebook::MOST_ENTRIES;
use std::alloc::{AllocError, Global};
use std::marker::Model;
use toml::{Table, Value};

/// A player's session word.
#[derive(Drop)]
pub struct PlayerWord {
    /// The player's name.
    pub name: Name,
    /// The player's word.
    pub word: SessionWord,
}

/// The session words of the floor and of the players, at most 640 of them.
#[derive(Drop)]
pub struct Words {
    floor: SessionWord,
    players: List<PlayerWord>,
}

impl Model for Words {
    ghost use Rattle.plan_files.specs.Words.{WordTerms};

    ghost Value = { WordTerms };

    ghost view = { λ words. record { floor = words.floor; players = words.players } };
}

impl Words {
    /// Gives the word of a name. `None` exactly where the name has no word.
    pub fn word(&self, name: Name) -> Option<&[u8]>
        ensures { option_map (λ word. word.now) result ≡ word_of self.now.players name }
    {
        self.players
            .items()
            .iter()
            .find(|player| player.name == name)
            .map(|player| player.word.bytes())
    }

    /// Gives the floor's word.
    pub fn floor(&self) -> &[u8]
        ensures { result.now ≡ self.now.floor }
    {
        self.floor.bytes()
    }
}

/// Reads the words of a file.
pub fn words_in(alloc: Global, file: &Table) -> Result<Words, PlanFault>
    ensures words { IfOk result (λ words. words_in (table_view file.now) ≡ Ok words) }
    ensures wrong { IfErr result (IsWrong (words_in (table_view file.now))) }
{
    let Some(floor) = floor_word_at(alloc, file)? else {
        return Err(PlanFault::Wrong(PlanItem::FloorWord));
    };
    let Some(players) = players_at(alloc, file)? else {
        return Err(PlanFault::Wrong(PlanItem::Words));
    };
    Ok(Words { floor, players })
}

/// Reads the floor's word. `None` exactly where it is missing or no session word.
fn floor_word_at(alloc: Global, file: &Table) -> Result<Option<SessionWord>, AllocError>
    ensures { IfOk result (λ word. word ≡ said_at word_named (codes "floor_word") (table_view file.now)) }
{
    match value_at(file, "floor_word") {
        Some(value) => word_of(alloc, value),
        None => Ok(None),
    }
}

/// Reads the words of the players. `None` exactly where they are missing, of another kind or not lawful.
fn players_at(alloc: Global, file: &Table) -> Result<Option<List<PlayerWord>>, AllocError>
    ensures { IfOk result (λ players. players ≡ said_at players_of (codes "words") (table_view file.now)) }
{
    match value_at(file, "words") {
        Some(value) => players_of(alloc, value),
        None => Ok(None),
    }
}

/// Reads a value as a session word. `None` exactly where it is none.
fn word_of(alloc: Global, value: &Value) -> Result<Option<SessionWord>, AllocError>
    ensures { IfOk result (λ word. word ≡ word_named (view value.now)) }
{
    match value.as_str() {
        Some(text) if is_session_word(text.as_bytes()) => {
            Ok(Some(SessionWord::copy_of(alloc, text.as_bytes())?))
        }
        _ => Ok(None),
    }
}

/// Reads a key and a value as a player's word. `None` exactly where they are none.
fn player_of(alloc: Global, key: &str, value: &Value) -> Result<Option<PlayerWord>, AllocError>
    ensures { IfOk result (λ player. player ≡ player_of key.now (view value.now)) }
{
    let Some(name) = Name::read(key.as_bytes()) else {
        return Ok(None);
    };
    match word_of(alloc, value)? {
        Some(word) => Ok(Some(PlayerWord { name, word })),
        None => Ok(None),
    }
}

/// Reads each member of a table as a player's word. `None` exactly where one is none.
fn each_player(alloc: Global, members: &Table) -> Result<Option<List<PlayerWord>>, AllocError>
    ensures { IfOk result (λ players. players ≡ each_player (table_view members.now)) }
{
    let mut players = List::new(alloc);
    'members: for (key, value) in members.iter() {
        let Some(player) = player_of(alloc, key.as_str(), value)? else {
            return Ok(None);
        };
        players.push(player)?;
    }
    Ok(Some(players))
}

/// Reads a value as the words of players. `None` exactly where it is none.
fn players_of(alloc: Global, value: &Value) -> Result<Option<List<PlayerWord>>, AllocError>
    ensures { IfOk result (λ players. players ≡ players_of (view value.now)) }
{
    let Some(members) = value.as_table() else {
        return Ok(None);
    };
    match each_player(alloc, members)? {
        Some(players) if players.items().len() <= MOST_ENTRIES => Ok(Some(players)),
        _ => Ok(None),
    }
}
