//! Rows of things, among which others are spread.

ghost use Rattle.std.specs.Prelude.{◌≡◌, ◌+◌, ◌<◌, ◌∷◌, [], ◌++◌, All, IfOk, length, vec_capacity, vec_len};
ghost use Rattle.floor_crew.specs.Rows.{AreSpread, IsEmptyFor};

use std::alloc::{AllocError, Global};

/// Makes so many empty rows, each with room for so many things.
pub(crate) fn empty_rows<T: Drop>(
    alloc: Global,
    count: usize,
    room: usize,
) -> Result<Vec<Vec<T>>, AllocError>
    ensures count { IfOk result (λ rows. length rows.items ≡ count) }
    ensures empty { IfOk result (λ rows. All (IsEmptyFor room) rows.items) }
{
    let mut rows = Vec::with_capacity(alloc, count)?;
    for _ in 0..count {
        rows.push_reserved(Vec::with_capacity(alloc, room)?);
    }
    Ok(rows)
}

/// Takes the last thing out of a row.
pub(crate) fn take_last<T>(row: &mut Vec<T>) -> T
    requires { 0 < vec_len row.old }
    ensures last { row.old.items ≡ row.new.items ++ result ∷ [] }
    ensures fewer { vec_len row.new + 1 ≡ vec_len row.old }
{
    row.pop().unwrap()
}

/// Puts each thing behind those of the row at its place.
pub(crate) fn spread<T: Drop>(rows: &mut Vec<Vec<T>>, things: Vec<T>)
    requires count { vec_len things ≡ vec_len rows.old }
    requires room { All (λ row. vec_len row < vec_capacity row) rows.old.items }
    ensures { AreSpread rows.old.items rows.new.items things.items }
{
    let mut things = things;
    'each: while let Some(thing) = things.pop() {
        let index = things.len();
        rows[index].push_reserved(thing);
    }
}
