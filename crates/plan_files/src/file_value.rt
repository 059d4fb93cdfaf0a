//! The values of a plan file.

ghost use Rattle.std.specs.Prelude.{◌≡◌, Option, IfOk, option_map, option_and_then};
ghost use Rattle.toml.specs.Data.{Data, as_array, get_member};
ghost use Rattle.toml.specs.View.{view, items_view, array_view, table_view};
ghost use Rattle.plan_files.specs.FileValues.{ante_of, is_empty_list, natural_of, game_named, level_of, each_item, list_of, said_at};

use card_set::Game;
use floor_text::List;
use level_plan::Blind;
use line_words::Spelled;
use std::alloc::{AllocError, Global};
use toml::value::Array;
use toml::{Table, Value};

/// What a value of a plan file may say.
pub trait FileValue: Sized {
    /// What each value says, if it does.
    ghost said: { Data → Option Self };

    /// Reads a value. `None` exactly where it says nothing of the kind.
    fn of_value(value: &Value) -> Option<Self>
        ensures { result ≡ said (view value.now) };
}

/// A whole number that is not negative.
impl FileValue for u64 {
    ghost said = { natural_of };

    fn of_value(value: &Value) -> Option<u64> {
        u64::try_from(value.as_integer()?).ok()
    }
}

/// The word of a game.
impl FileValue for Game {
    ghost said = { game_named };

    fn of_value(value: &Value) -> Option<Game> {
        Game::read(value.as_str()?.as_bytes())
    }
}

/// Reads an ante: a whole number that is at least 1.
fn read_ante(value: &Value) -> Option<u64>
    ensures { result ≡ ante_of (view value.now) }
{
    let ante = u64::of_value(value)?;
    if ante > 0 { Some(ante) } else { None }
}

/// The three numbers of a level, or four where it has an ante.
impl FileValue for Blind {
    ghost said = { level_of };

    fn of_value(value: &Value) -> Option<Blind> {
        match value.as_array()?.as_slice() {
            [small, big, unit] => Some(Blind {
                small: u64::of_value(small)?,
                big: u64::of_value(big)?,
                unit: u64::of_value(unit)?,
                ante: 0,
            }),
            [small, big, unit, ante] => Some(Blind {
                small: u64::of_value(small)?,
                big: u64::of_value(big)?,
                unit: u64::of_value(unit)?,
                ante: read_ante(ante)?,
            }),
            _ => None,
        }
    }
}

/// Tells whether a value is a list with no member.
pub fn is_empty_list(value: &Value) -> bool
    ensures { result ≡ is_empty_list (view value.now) }
{
    match value.as_array() {
        Some(array) => matches!(array.as_slice(), []),
        None => false,
    }
}

/// Gives the value at a key. `None` exactly where the file has no such key.
pub fn value_at<'a>(file: &'a Table, key: &str) -> Option<&'a Value>
    ensures { option_map (λ value. view value.now) result ≡ get_member key.now (table_view file.now) }
{
    file.get(key)
}

/// Reads the value at a key. `None` exactly where the file has no such key, or says nothing of the kind there.
pub fn said_at<T: FileValue>(file: &Table, key: &str) -> Option<T>
    ensures { result ≡ said_at T.said key.now (table_view file.now) }
{
    match value_at(file, key) {
        Some(value) => T::of_value(value),
        None => None,
    }
}

/// Reads each of some values. `None` exactly where one says nothing of the kind.
fn each_of<T: FileValue + Drop>(
    alloc: Global,
    values: &[Value],
) -> Result<Option<List<T>>, AllocError>
    ensures { IfOk result (λ list. list ≡ each_item T.said (items_view values.now)) }
{
    let mut list = List::new(alloc);
    'values: for value in values {
        let Some(said) = T::of_value(value) else {
            return Ok(None);
        };
        list.push(said)?;
    }
    Ok(Some(list))
}

/// Gives the list of values at a key. `None` exactly where the file has no such key, or no list there.
fn array_at<'a>(file: &'a Table, key: &str) -> Option<&'a Array>
    ensures { option_map (λ array. array_view array.now) result
        ≡ option_and_then as_array (get_member key.now (table_view file.now)) }
{
    match value_at(file, key) {
        Some(value) => value.as_array(),
        None => None,
    }
}

/// Reads the list at a key. `None` exactly where the file has no such key, or no list of the kind there.
pub fn list_at<T: FileValue + Drop>(
    alloc: Global,
    file: &Table,
    key: &str,
) -> Result<Option<List<T>>, AllocError>
    ensures { IfOk result (λ list. list ≡ said_at (list_of T.said) key.now (table_view file.now)) }
{
    match array_at(file, key) {
        Some(array) => each_of(alloc, array),
        None => Ok(None),
    }
}
