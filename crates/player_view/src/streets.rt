//! The lines of the streets that begin.

ghost use Rattle.std.specs.Prelude.{◌≡◌, ◌≤◌, ◌++◌, map, OnOk};
ghost use Rattle.line_words.specs.Words.{Extends};
ghost use Rattle.table_engine.specs.Starts.{IsLawfulStart};
ghost use Rattle.view_rules.specs.Shown.{Flop, Turn, River};
ghost use Rattle.view_rules.specs.Seen.{opened};
ghost use Rattle.view_rules.specs.Spelling.{StreetLine};
ghost use Rattle.player_view.specs.Each.{street_lines, table_text};
ghost use Rattle.player_view.specs.OpenBy.{opened_since};

use crate::line::push_cards_line;
use line_words::Word;
use std::alloc::AllocError;
use table_engine::HandStart;

/// Writes the line of the flop, where it has begun since so many streets could still begin.
fn push_flop(
    table: u8,
    start: &HandStart,
    left_before: u8,
    left: u8,
    out: &mut Vec<u8>,
) -> Result<(), AllocError>
    requires { IsLawfulStart start.now }
    ensures ok { OnOk result (out.new.items
        ≡ out.old.items ++ table_text table (street_lines start.now Flop 3 left_before left)) }
    ensures kept { Extends out.old.items out.new.items }
{
    if left_before < 3 || left >= 3 {
        return Ok(());
    }
    let flop = [
        start.board_card(0),
        start.board_card(1),
        start.board_card(2),
    ];
    push_cards_line(table, &[Word::Text(b"flop")], &flop, out)
}

/// Writes the line of the turn, where it has begun since so many streets could still begin.
fn push_turn(
    table: u8,
    start: &HandStart,
    left_before: u8,
    left: u8,
    out: &mut Vec<u8>,
) -> Result<(), AllocError>
    requires { IsLawfulStart start.now }
    ensures ok { OnOk result (out.new.items
        ≡ out.old.items ++ table_text table (street_lines start.now Turn 2 left_before left)) }
    ensures kept { Extends out.old.items out.new.items }
{
    if left_before < 2 || left >= 2 {
        return Ok(());
    }
    push_cards_line(table, &[Word::Text(b"turn")], &[start.board_card(3)], out)
}

/// Writes the line of the river, where it has begun since so many streets could still begin.
fn push_river(
    table: u8,
    start: &HandStart,
    left_before: u8,
    left: u8,
    out: &mut Vec<u8>,
) -> Result<(), AllocError>
    requires { IsLawfulStart start.now }
    ensures ok { OnOk result (out.new.items
        ≡ out.old.items ++ table_text table (street_lines start.now River 1 left_before left)) }
    ensures kept { Extends out.old.items out.new.items }
{
    if left_before < 1 || left >= 1 {
        return Ok(());
    }
    push_cards_line(table, &[Word::Text(b"river")], &[start.board_card(4)], out)
}

/// Writes the lines of the streets that have begun since so many could still begin.
pub(crate) fn push_streets(
    table: u8,
    start: &HandStart,
    left_before: u8,
    left: u8,
    out: &mut Vec<u8>,
) -> Result<(), AllocError>
    requires lawful { IsLawfulStart start.now }
    requires before { left_before ≤ 3 }
    requires left { left ≤ left_before }
    ensures ok { OnOk result (out.new.items ≡ out.old.items
        ++ table_text table (map StreetLine (map (opened start.now) (opened_since left_before left)))) }
    ensures kept { Extends out.old.items out.new.items }
{
    push_flop(table, start, left_before, left, out)?;
    push_turn(table, start, left_before, left, out)?;
    push_river(table, start, left_before, left, out)
}
