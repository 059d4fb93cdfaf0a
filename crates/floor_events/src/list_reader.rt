//! Events that hold lists are read: first everything onto the stack, so that memory is wanted only where the line is
//! in the grammar.

ghost use Rattle.std.specs.Prelude.{◌≡◌, codes, IfOk, OnErr, IsSome, option_map};
ghost use Rattle.line_words.specs.Rows.{read_by};
ghost use Rattle.tournament_events.specs.declared.event.Event.TheVariants as events;
ghost use Rattle.tournament_events.specs.declared.event.Item.TheVariants as items;
ghost use Rattle.floor_events.specs.Grammar.{grammar};

use floor_text::Name;
use level_plan::{MOST_SHARES, PlanLine};
use line_words::{Few, LineWords, MOST_MEMBERS, read_few};
use seat_book::Place;
use std::alloc::{AllocError, Global};
use tournament_events::{Event, Item};

/// Reads all words that are left as the shares of the prizes. `None` exactly where they are not 1 to 64 numbers;
/// memory is wanted only where they are.
#[tactic(auto, unfolding(line_words::specs::Rows::read_fields))]
pub fn read_shares(alloc: Global, line: &mut LineWords<'_>) -> Result<Option<Item>, AllocError>
    ensures exact { IfOk result (λ found. found ≡ option_map items.Event (read_by grammar (codes "shares") line.old)) }
    ensures err { OnErr result (IsSome (read_by grammar (codes "shares") line.old)) }
{
    let Some(shares) = read_few::<u64, MOST_SHARES>(line) else {
        return Ok(None);
    };
    Ok(Some(Item::Event(Event::Plan(PlanLine::Shares(shares.to_list(alloc)?)))))
}

/// The number of a table, seats and names.
type BreakParts = (u64, Few<Place, MOST_MEMBERS>, Few<Name, MOST_MEMBERS>);

#[tactic(auto, unfolding(line_words::specs::Rows::read_fields))]
fn read_break_parts(line: &mut LineWords<'_>) -> Option<BreakParts>
    ensures { option_map (λ parts. events.Break parts.0 parts.1 parts.2) result
        ≡ read_by grammar (codes "break") line.old }
{
    let table = line.field()?;
    let seats = line.field()?;
    Some((table, seats, line.last_field()?))
}

/// Reads all words that are left as the table that breaks, the seats that are filled and who takes them. `None`
/// exactly where they are not these; memory is wanted only where they are.
pub fn read_break(alloc: Global, line: &mut LineWords<'_>) -> Result<Option<Item>, AllocError>
    ensures exact { IfOk result (λ found. found ≡ option_map items.Event (read_by grammar (codes "break") line.old)) }
    ensures err { OnErr result (IsSome (read_by grammar (codes "break") line.old)) }
{
    let Some((table, seats, names)) = read_break_parts(line) else {
        return Ok(None);
    };
    Ok(Some(Item::Event(Event::Break {
        table,
        seats: seats.to_list(alloc)?,
        names: names.to_list(alloc)?,
    })))
}
