//! Rows of tables.

use std::alloc::Global;
use std::process::Abort;

/// Gives the index of the first row that is wrong.
fn first_wrong<T, F: Fn(&T) -> bool>(rows: &[T], is_right: F) -> Option<usize>
    requires { F.IsAlwaysCallable is_right }
{
    for index in 0..rows.len() {
        if !is_right(&rows[index]) {
            return Some(index);
        }
    }
    None
}

/// Asserts that each row is right.
pub fn are_right<T, F: Fn(&T) -> bool>(rt: &impl Abort, rows: &[T], is_right: F)
    requires { F.IsAlwaysCallable is_right }
{
    assert_eq!(rt; first_wrong(rows, is_right), None);
}

/// Asserts that each row is right, for what takes memory.
pub fn are_right_in<T, F: Fn(Global, &T) -> bool>(
    rt: &impl Abort,
    alloc: Global,
    rows: &[T],
    is_right: F,
)
    requires { F.IsAlwaysCallable is_right }
{
    are_right(rt, rows, |row| is_right(alloc, row));
}
