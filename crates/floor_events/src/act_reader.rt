//! The line of an act is read apart from all others: most lines of a tournament are acts, and room for any item need
//! not be made for them.

ghost use Rattle.std.specs.Prelude.{◌≡◌, Some, IfSome};
ghost use Rattle.line_words.specs.Words.{words_of_line};
ghost use Rattle.line_words.specs.Rows.{read_fields};
ghost use Rattle.floor_events.specs.Grammar.{item_of_bytes};
ghost use Rattle.floor_events.specs.declared.act_reader.ActLine.{ActLine};
ghost use Rattle.floor_events.specs.Acts.{act_fields, act_line, item_of_act};

use betting_round::Act;
use floor_text::{LONGEST_LINE, Name};
use line_words::LineWords;

/// What the line of an act says.
#[derive(Clone, Copy)]
pub struct ActLine {
    /// The number of the table. Any number of the grammar may stand here.
    pub table: u64,
    /// The name of the player.
    pub name: Name,
    /// What he does.
    pub act: Act,
}

/// Reads the fields of an act, which stand behind its first word. It is a function of its own, so that no room is made
/// for them where the line is another one's.
#[inline(never)]
#[tactic(auto, unfolding(line_words::specs::Rows::read_fields))]
fn read_act_fields(fields: &[u8]) -> Option<ActLine>
    ensures { result ≡ read_fields act_fields act_line (words_of_line fields.now) }
{
    let mut words = LineWords::of_line(fields);
    Some(ActLine {
        table: words.field()?,
        name: words.field()?,
        act: words.act()?,
    })
}

/// Reads the line of an act, without its line feed. `None` exactly where it is not in the grammar or holds another
/// item.
#[inline(always)]
pub fn read_act(line: &[u8]) -> Option<ActLine>
    // What is read is the act that the line holds.
    ensures found { IfSome result (λ read. item_of_bytes line.now ≡ Some (item_of_act read)) }
    // What is so is read.
    ensures only { (read : ActLine) → item_of_bytes line.now ≡ Some (item_of_act read) → result ≡ Some read }
{
    if line.len() > LONGEST_LINE {
        return None;
    }
    read_act_fields(line.strip_prefix(b"act ")?)
}
