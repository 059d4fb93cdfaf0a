//! The rounds of a `SeatBook`.

ghost use Rattle.std.specs.Prelude.{◌≡◌, IsTrue, false, OnOk, OnErr, if◌then◌else◌};
ghost use Rattle.rulebook.specs.Checks.{IsChecked};
ghost use Rattle.seat_book.specs.Places.{IsTableOf};
ghost use Rattle.seat_book.specs.Seatings.{IsSeating};
ghost use Rattle.hand_rounds.specs.Rounds.{is_still_to_play, holds_open, is_unfinished, begin_checks, round_checks, switch_checks, begins_with, with_begun, round_closed, switched};

use balance_rule::halted;
use floor_text::Refusal;
use seat_book::{SeatBook, TableStatus};

/// Tells whether a table may begin a hand: `RoundDone` exactly where hand-for-hand is on and it has begun in this
/// round.
pub fn may_begin(book: &SeatBook, table: u8) -> Result<(), Refusal>
    requires { IsTableOf book.now.table_count table }
    ensures { IsChecked (begin_checks book.now table) result }
{
    if book.hands() && book.status(table).begun {
        return Err(Refusal::RoundDone);
    }
    Ok(())
}

/// Tells whether a table is still to play in the round.
fn is_still_to_play(book: &SeatBook, table: u8) -> bool
    requires { IsTableOf book.now.table_count table }
    ensures { result ≡ is_still_to_play book.now table }
{
    book.count(table) >= 2 && !halted(book, table) && !book.status(table).begun
}

/// Tells whether a table holds the round open.
fn holds_open(book: &SeatBook, table: u8) -> bool
    requires { IsTableOf book.now.table_count table }
    ensures { result ≡ holds_open book.now table }
{
    book.status(table).playing || is_still_to_play(book, table)
}

/// Tells whether some table holds the round open.
fn is_unfinished(book: &SeatBook) -> bool
    ensures { result ≡ is_unfinished book.now }
{
    for below in 0..book.table_count() {
        let table = below + 1;
        if holds_open(book, table) {
            return true;
        }
    }
    false
}

/// Makes the playing tables those that have begun in the round, or none.
fn set_begun(book: &mut SeatBook, playing: bool)
    ensures same { book.new ≡ with_begun (begins_with playing) book.old }
    ensures lawful { IsSeating book.new }
{
    for below in 0..book.table_count() {
        let table = below + 1;
        let status = book.status(table);
        let begun = playing && status.playing;
        book.set_status(table, TableStatus { begun, ..status });
    }
}

/// Tells whether the round may end: `RoundOpen` where hand-for-hand is on and a table plays or is still to play,
/// `SwitchWrong` where hand-for-hand is off.
pub fn may_close(book: &SeatBook) -> Result<(), Refusal>
    ensures { IsChecked (round_checks book.now) result }
{
    if !book.hands() {
        return Err(Refusal::SwitchWrong);
    }
    if is_unfinished(book) {
        return Err(Refusal::RoundOpen);
    }
    Ok(())
}

/// Ends a round, without a check: no table has begun in the next.
pub fn end_round(book: &mut SeatBook)
    ensures closed { book.new ≡ round_closed book.old }
    ensures lawful { IsSeating book.new }
{
    set_begun(book, false);
}

/// Ends a round, where it may end: no table has begun in the next.
pub fn close_round(book: &mut SeatBook) -> Result<(), Refusal>
    ensures checked { IsChecked (round_checks book.old) result }
    ensures closed { OnOk result (book.new ≡ round_closed book.old) }
    ensures kept { OnErr result (book.new ≡ book.old) }
    ensures lawful { OnOk result (IsSeating book.new) }
{
    may_close(book)?;
    end_round(book);
    Ok(())
}

/// Tells whether hand-for-hand may be switched so: `RoundOpen` at off where it is on and a table plays, `SwitchWrong`
/// where it is so already.
pub fn may_switch(book: &SeatBook, on: bool) -> Result<(), Refusal>
    ensures { IsChecked (switch_checks on book.now) result }
{
    if book.hands() == on {
        return Err(Refusal::SwitchWrong);
    }
    if !on && book.is_any_playing() {
        return Err(Refusal::RoundOpen);
    }
    Ok(())
}

/// Sets hand-for-hand on or off, without a check. On makes the playing tables those that have begun in the round, off
/// empties the round.
pub fn set_hands(book: &mut SeatBook, on: bool)
    ensures switched { book.new ≡ switched on book.old }
    ensures lawful { IsSeating book.new }
{
    set_begun(book, on);
    book.set_hands(on);
}

/// Switches hand-for-hand on or off, where it may be switched so. On makes the playing tables those that have begun in
/// the round, off empties the round.
pub fn switch(book: &mut SeatBook, on: bool) -> Result<(), Refusal>
    ensures checked { IsChecked (switch_checks on book.old) result }
    ensures switched { OnOk result (book.new ≡ switched on book.old) }
    ensures kept { OnErr result (book.new ≡ book.old) }
    ensures lawful { OnOk result (IsSeating book.new) }
{
    may_switch(book, on)?;
    set_hands(book, on);
    Ok(())
}
