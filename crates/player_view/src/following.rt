//! What follows the opening of a hand or an act: hands tabled, streets, and winners.

ghost use Rattle.std.specs.Prelude.{◌≡◌, ◌≤◌, ◌++◌, length, OnOk};
ghost use Rattle.line_words.specs.Words.{Extends};
ghost use Rattle.table_engine.specs.Hands.{streets_of};
ghost use Rattle.table_engine.specs.Plays.{IsLawfulPlay};
ghost use Rattle.table_engine.specs.Starts.{IsLawfulStart};
ghost use Rattle.view_rules.specs.Shown.{Viewer};
ghost use Rattle.view_rules.specs.Seen.{seen_hand};
ghost use Rattle.view_rules.specs.Lines.{following_lines};
ghost use Rattle.player_view.specs.Each.{table_text};
ghost use Rattle.player_view.specs.OpenBy.{open_by};

use crate::streets::push_streets;
use crate::tabled::push_showdown;
use crate::winners::push_winners;
use std::alloc::AllocError;
use table_engine::Hand;

/// Writes what follows the opening of a hand or an act. Before it so many streets could still begin. Nothing follows
/// most acts: no street begins, and the hand goes on.
pub(crate) fn push_following(
    table: u8,
    left_before: u8,
    hand: &Hand,
    out: &mut Vec<u8>,
) -> Result<(), AllocError>
    requires before { left_before ≤ 3 }
    requires left { (streets_of hand.now).left ≤ left_before }
    ensures ok { OnOk result ((who : Viewer) → out.new.items ≡ out.old.items
        ++ table_text table (following_lines (length (open_by left_before)) (seen_hand who hand.now))) }
    ensures kept { Extends out.old.items out.new.items }
    ensures lawful { IsLawfulStart hand.now.start }
    ensures played { IsLawfulPlay hand.now }
{
    let start = hand.start();
    let left = hand.streets_left();
    if left == left_before && !hand.is_over() {
        return Ok(());
    }
    push_showdown(table, hand, out)?;
    push_streets(table, start, left_before, left, out)?;
    push_winners(table, hand, out)
}
