//! The lines of an act.

ghost use Rattle.std.specs.Prelude.{◌≡◌, ◌≤◌, ◌++◌, OnOk};
ghost use Rattle.line_words.specs.Words.{Extends};
ghost use Rattle.table_engine.specs.declared.record.ActOf.{ActOf};
ghost use Rattle.table_engine.specs.Acts.{done_of_act};
ghost use Rattle.table_engine.specs.Hands.{HandTerms, streets_of};
ghost use Rattle.view_rules.specs.Shown.{Viewer};
ghost use Rattle.view_rules.specs.Seen.{seen_hand};
ghost use Rattle.view_rules.specs.Spelling.{ActLine, Table, line_text};
ghost use Rattle.view_rules.specs.Entries.{with_act};
ghost use Rattle.view_rules.specs.Lines.{act_lines};
ghost use Rattle.player_view.specs.Each.{table_text};

use crate::following::push_following;
use crate::line::push_table_line;
use betting_round::Done;
use floor_text::Name;
use line_words::Word;
use std::alloc::AllocError;
use table_engine::Hand;

/// Writes the line of what an act came to.
#[tactic(auto, unfolding(view_rules::specs::Spelling::line_text))]
fn push_done(table: u8, name: &Name, done: Done, out: &mut Vec<u8>) -> Result<(), AllocError>
    ensures ok { OnOk result (out.new.items ≡ out.old.items ++ line_text (Table table (ActLine name.now done))) }
    ensures kept { Extends out.old.items out.new.items }
{
    let name = Word::Text(name.bytes());
    match done {
        Done::Folded => push_table_line(table, &[name, Word::Text(b"fold")], out),
        Done::Checked => push_table_line(table, &[name, Word::Text(b"check")], out),
        Done::Called(chips) => push_table_line(
            table,
            &[name, Word::Text(b"call"), Word::Number(chips)],
            out,
        ),
        Done::BetTo(level) => push_table_line(
            table,
            &[name, Word::Text(b"bet"), Word::Number(level)],
            out,
        ),
        Done::RaisedTo(level) => push_table_line(
            table,
            &[name, Word::Text(b"raise"), Word::Number(level)],
            out,
        ),
    }
}

/// Writes the lines of an act: what it came to, and what follows in the hand after it. Before it so many streets could
/// still begin. Where memory runs out, `out` has something behind what it had.
pub fn push_act(
    table: u8,
    name: &Name,
    done: Done,
    left_before: u8,
    hand: &Hand,
    out: &mut Vec<u8>,
) -> Result<(), AllocError>
    requires before { left_before ≤ 3 }
    requires left { (streets_of hand.now).left ≤ left_before }
    ensures ok { OnOk result ((who : Viewer) (before : HandTerms) (act : ActOf) → hand.now ≡ with_act act before
        → (streets_of before).left ≡ left_before → done_of_act before act.name act.act ≡ done → act.name ≡ name.now
        → out.new.items ≡ out.old.items
        ++ table_text table (act_lines (seen_hand who before) act (seen_hand who hand.now))) }
    ensures kept { Extends out.old.items out.new.items }
{
    push_done(table, name, done, out)?;
    push_following(table, left_before, hand, out)
}
