//! The plan of a file.

ghost use Rattle.std.specs.Prelude.{◌≡◌, Ok, IfOk, IfErr, OnOk, IsTrue};
ghost use Rattle.toml.specs.View.{table_view, view};
ghost use Rattle.level_plan.specs.Plans.{is_right};
ghost use Rattle.plan_files.specs.PlanFiles.{given, document_of, plan_in, plan_of_file, wagers_of, IsWrong};
ghost use Rattle.plan_files.specs.Steps.{after_line, after_levels, after_blinds, after_limit, after_room, after_entry, after_lists, after_items};
ghost use Rattle.plan_files.specs.Words.{served_of_file};

use crate::file_value::{FileValue, is_empty_list, list_at, said_at, value_at};
use crate::words::{Words, words_in};
use floor_text::List;
use level_plan::{Blind, Plan, PlanDraft, PlanFault, PlanItem, PlanLine};
use std::alloc::{AllocError, Global};
use toml::{Table, Value};

/// Reads the plan of a file's bytes, or names its first wrong item: the text, where it is no TOML; then each item that
/// is missing, of another kind or not lawful, in the order of a plan's items, where the fixed limit alone may be
/// missing; then `Late` and `Stack` by the end of a plan. Other keys are ignored. `NoMemory` is want of memory.
pub fn plan_from_toml(alloc: Global, bytes: &[u8]) -> Result<Plan, PlanFault>
    ensures plan { IfOk result (λ plan. plan_of_file bytes.now ≡ Ok plan) }
    ensures right { IfOk result (λ plan. IsTrue (is_right plan)) }
    ensures wrong { IfErr result (IsWrong (plan_of_file bytes.now)) }
{
    let file = document_of(alloc, bytes)?;
    plan_in(alloc, &file)
}

/// Reads the plan and the session words of a file's bytes, or names the first wrong item: as `plan_from_toml` does, and
/// then `FloorWord` and `Words`, where it is missing, of another kind or not lawful. `NoMemory` is want of memory.
pub fn served_from_toml(alloc: Global, bytes: &[u8]) -> Result<(Plan, Words), PlanFault>
    ensures served { IfOk result (λ served. served_of_file bytes.now ≡ Ok served) }
    ensures right { IfOk result (λ served. IsTrue (is_right served.0)) }
    ensures wrong { IfErr result (IsWrong (served_of_file bytes.now)) }
{
    let file = document_of(alloc, bytes)?;
    let plan = plan_in(alloc, &file)?;
    let words = words_in(alloc, &file)?;
    Ok((plan, words))
}

/// Reads the bytes as TOML.
fn document_of(alloc: Global, bytes: &[u8]) -> Result<Table, PlanFault>
    ensures file { IfOk result (λ file. document_of bytes.now ≡ Ok (table_view file)) }
    ensures wrong { IfErr result (IsWrong (document_of bytes.now)) }
{
    match toml::table_from_slice(alloc, bytes) {
        Ok(file) => Ok(file),
        Err(error) if error.is_memory() => Err(PlanFault::NoMemory),
        Err(_) => Err(PlanFault::Wrong(PlanItem::Toml)),
    }
}

/// Reads the plan that a file says.
fn plan_in(alloc: Global, file: &Table) -> Result<Plan, PlanFault>
    ensures plan { IfOk result (λ plan. plan_in (table_view file.now) ≡ Ok plan) }
    ensures right { IfOk result (λ plan. IsTrue (is_right plan)) }
    ensures wrong { IfErr result (IsWrong (plan_in (table_view file.now))) }
{
    items_in(alloc, file)?.go()
}

/// Gives a draft all items that a file says, in order.
fn items_in(alloc: Global, file: &Table) -> Result<PlanDraft, PlanFault>
    ensures items { IfOk result (λ draft. after_items (given (table_view file.now)) ≡ Ok draft) }
    ensures wrong { IfErr result (IsWrong (after_items (given (table_view file.now)))) }
{
    let mut draft = PlanDraft::new(alloc);
    give_room(&mut draft, file)?;
    give_entry(&mut draft, file)?;
    give_lists(alloc, &mut draft, file)?;
    Ok(draft)
}

/// Gives a draft the game, the tables and the seats.
fn give_room(draft: &mut PlanDraft, file: &Table) -> Result<(), PlanFault>
    ensures given { OnOk result (after_room (given (table_view file.now)) draft.old ≡ Ok draft.new) }
    ensures wrong { IfErr result (IsWrong (after_room (given (table_view file.now)) draft.old)) }
{
    let game = said_at(file, "game").map(PlanLine::Game);
    give(draft, PlanItem::Game, game)?;
    let tables = said_at(file, "tables").map(PlanLine::Tables);
    give(draft, PlanItem::Tables, tables)?;
    let seats = said_at(file, "seats").map(PlanLine::Seats);
    give(draft, PlanItem::Seats, seats)
}

/// Gives a draft the stack, the buy-in and the last level of entries.
fn give_entry(draft: &mut PlanDraft, file: &Table) -> Result<(), PlanFault>
    ensures given { OnOk result (after_entry (given (table_view file.now)) draft.old ≡ Ok draft.new) }
    ensures wrong { IfErr result (IsWrong (after_entry (given (table_view file.now)) draft.old)) }
{
    let stack = said_at(file, "stack").map(PlanLine::Stack);
    give(draft, PlanItem::Stack, stack)?;
    let buyin = said_at(file, "buyin").map(PlanLine::Buyin);
    give(draft, PlanItem::Buyin, buyin)?;
    let late = said_at(file, "late").map(PlanLine::Late);
    give(draft, PlanItem::Late, late)
}

/// Gives a draft the levels, the shares and the fixed limit.
fn give_lists(alloc: Global, draft: &mut PlanDraft, file: &Table) -> Result<(), PlanFault>
    ensures given { OnOk result (after_lists (given (table_view file.now)) draft.old ≡ Ok draft.new) }
    ensures wrong { IfErr result (IsWrong (after_lists (given (table_view file.now)) draft.old)) }
{
    let levels = levels_at(alloc, file)?;
    give_blinds(draft, levels.items())?;
    let shares = list_at(alloc, file, "shares")?.map(PlanLine::Shares);
    give(draft, PlanItem::Shares, shares)?;
    give_limit(draft, limit_at(file))
}

/// Reads the levels of a file, of which there are none where they are missing or of another kind.
fn levels_at(alloc: Global, file: &Table) -> Result<List<Blind>, AllocError>
    ensures { IfOk result (λ levels. levels ≡ (given (table_view file.now)).blinds) }
{
    match list_at(alloc, file, "blinds")? {
        Some(levels) => Ok(levels),
        None => Ok(List::new(alloc)),
    }
}

/// Reads the most wagers of a street: nothing where there is a list with no member, which counts as missing, and 0,
/// which is not lawful, where there is something of another kind.
fn read_wagers(value: &Value) -> Option<u64>
    ensures { result ≡ wagers_of (view value.now) }
{
    if is_empty_list(value) {
        return None;
    }
    Some(u64::of_value(value).unwrap_or(0))
}

/// Reads the fixed limit of a file, if it has one.
fn limit_at(file: &Table) -> Option<u64>
    ensures { result ≡ (given (table_view file.now)).cap }
{
    match value_at(file, "limit") {
        Some(value) => read_wagers(value),
        None => None,
    }
}

/// Gives a draft the line of a fixed limit, where there is one.
fn give_limit(draft: &mut PlanDraft, cap: Option<u64>) -> Result<(), PlanFault>
    ensures given { OnOk result (after_limit cap draft.old ≡ Ok draft.new) }
    ensures wrong { IfErr result (IsWrong (after_limit cap draft.old)) }
{
    match cap {
        Some(cap) => give(draft, PlanItem::Limit, Some(PlanLine::Limit(cap))),
        None => Ok(()),
    }
}

/// Gives a draft the line of an item, which is missing where there is none.
fn give(draft: &mut PlanDraft, item: PlanItem, line: Option<PlanLine>) -> Result<(), PlanFault>
    ensures given { OnOk result (after_line item line draft.old ≡ Ok draft.new) }
    ensures wrong { IfErr result (IsWrong (after_line item line draft.old)) }
{
    match line {
        Some(line) => draft.line(&line),
        None => Err(PlanFault::Wrong(item)),
    }
}

/// Gives a draft the levels, of which there has to be one.
fn give_blinds(draft: &mut PlanDraft, blinds: &[Blind]) -> Result<(), PlanFault>
    ensures given { OnOk result (after_blinds blinds.now draft.old ≡ Ok draft.new) }
    ensures wrong { IfErr result (IsWrong (after_blinds blinds.now draft.old)) }
{
    if blinds.is_empty() {
        return Err(PlanFault::Wrong(PlanItem::Blinds));
    }
    give_levels(draft, blinds)
}

/// Gives a draft each of some levels.
fn give_levels(draft: &mut PlanDraft, blinds: &[Blind]) -> Result<(), PlanFault>
    ensures given { OnOk result (after_levels blinds.now draft.old ≡ Ok draft.new) }
    ensures wrong { IfErr result (IsWrong (after_levels blinds.now draft.old)) }
{
    'levels: for blind in blinds {
        give(draft, PlanItem::Blinds, Some(PlanLine::Blinds(*blind)))?;
    }
    Ok(())
}
