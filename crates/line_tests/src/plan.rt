//! Plans, line by line.

use card_set::Game;
use floor_text::List;
use level_plan::{Blind, Plan, PlanDraft, PlanFault, PlanItem, PlanLine};
use std::alloc::{AllocError, Global};

/// Gives the line of a level.
fn blinds(numbers: [u64; 4]) -> PlanLine {
    let [small, big, unit, ante] = numbers;
    PlanLine::Blinds(Blind {
        small,
        big,
        unit,
        ante,
    })
}

/// Gives the line that sets an item to these numbers. That of the game sets Omaha, and hi-lo where there is a number.
fn line(alloc: Global, item: PlanItem, numbers: &[u64]) -> Result<PlanLine, AllocError> {
    Ok(match (item, numbers) {
        (PlanItem::Tables, [number]) => PlanLine::Tables(*number),
        (PlanItem::Seats, [number]) => PlanLine::Seats(*number),
        (PlanItem::Stack, [number]) => PlanLine::Stack(*number),
        (PlanItem::Buyin, [number]) => PlanLine::Buyin(*number),
        (PlanItem::Late, [number]) => PlanLine::Late(*number),
        (PlanItem::Blinds, [small, big, unit]) => blinds([*small, *big, *unit, 0]),
        (PlanItem::Blinds, [small, big, unit, ante]) => blinds([*small, *big, *unit, *ante]),
        (PlanItem::Limit, [number]) => PlanLine::Limit(*number),
        (PlanItem::Shares, _) => PlanLine::Shares(List::from_vec(Vec::from_slice(alloc, numbers)?)),
        (_, []) => PlanLine::Game(Game::Omaha),
        _ => PlanLine::Game(Game::Hilo),
    })
}

/// So many levels of the unit 100 before a line, the line, and whether a draft takes it and then takes it again.
static LINES: [(u64, PlanItem, &[u64], bool, bool); 68] = [
    // an item is given once, and numbers have their bounds
    (0, PlanItem::Game, &[8], true, false),
    (0, PlanItem::Tables, &[0], false, false),
    (0, PlanItem::Tables, &[1], true, false),
    (0, PlanItem::Tables, &[4], true, false),
    (0, PlanItem::Tables, &[64], true, false),
    (0, PlanItem::Tables, &[65], false, false),
    (0, PlanItem::Seats, &[1], false, false),
    (0, PlanItem::Seats, &[2], true, false),
    (0, PlanItem::Seats, &[8], true, false),
    (0, PlanItem::Seats, &[10], true, false),
    (0, PlanItem::Seats, &[11], false, false),
    (0, PlanItem::Stack, &[0], false, false),
    (0, PlanItem::Stack, &[1], true, false),
    (0, PlanItem::Stack, &[20_000], true, false),
    (0, PlanItem::Stack, &[1_000_000_000], true, false),
    (0, PlanItem::Stack, &[1_000_000_001], false, false),
    (0, PlanItem::Buyin, &[0], true, false),
    (0, PlanItem::Buyin, &[300], true, false),
    (0, PlanItem::Buyin, &[1_000_000_000], true, false),
    (0, PlanItem::Buyin, &[1_000_000_001], false, false),
    (0, PlanItem::Late, &[0], false, false),
    (0, PlanItem::Late, &[1], true, false),
    (0, PlanItem::Late, &[40], true, false),
    (0, PlanItem::Late, &[41], false, false),
    // blinds are multiples of their unit
    (0, PlanItem::Blinds, &[25, 50, 25], true, true),
    (0, PlanItem::Blinds, &[50, 50, 25], true, true),
    (
        0,
        PlanItem::Blinds,
        &[1_000_000_000, 1_000_000_000, 1_000_000_000],
        true,
        true,
    ),
    (0, PlanItem::Blinds, &[25, 50, 0], false, false),
    (0, PlanItem::Blinds, &[0, 50, 25], false, false),
    (0, PlanItem::Blinds, &[75, 50, 25], false, false),
    (0, PlanItem::Blinds, &[25, 1_000_000_025, 25], false, false),
    (0, PlanItem::Blinds, &[30, 50, 25], false, false),
    (0, PlanItem::Blinds, &[25, 60, 25], false, false),
    (
        0,
        PlanItem::Blinds,
        &[u64::MAX, u64::MAX, u64::MAX],
        false,
        false,
    ),
    // an ante is a multiple of the unit too, and may be greater than the blinds
    (0, PlanItem::Blinds, &[100, 200, 100, 0], true, true),
    (0, PlanItem::Blinds, &[100, 200, 100, 100], true, true),
    (0, PlanItem::Blinds, &[100, 200, 100, 200], true, true),
    (0, PlanItem::Blinds, &[100, 200, 100, 600], true, true),
    (0, PlanItem::Blinds, &[100, 200, 100, 50], false, false),
    (0, PlanItem::Blinds, &[100, 200, 100, 250], false, false),
    (
        0,
        PlanItem::Blinds,
        &[25, 50, 25, 1_000_000_000],
        true,
        true,
    ),
    (
        0,
        PlanItem::Blinds,
        &[25, 50, 25, 1_000_000_025],
        false,
        false,
    ),
    (0, PlanItem::Blinds, &[1, 2, 1, u64::MAX], false, false),
    // a unit is one to six times the last, and there are 40 levels at the most
    (1, PlanItem::Blinds, &[100, 200, 100], true, true),
    (1, PlanItem::Blinds, &[200, 400, 200], true, true),
    (1, PlanItem::Blinds, &[600, 1200, 600], true, true),
    (1, PlanItem::Blinds, &[700, 1400, 700], false, false),
    (1, PlanItem::Blinds, &[150, 300, 150], false, false),
    (1, PlanItem::Blinds, &[50, 100, 50], false, false),
    (39, PlanItem::Blinds, &[100, 200, 100], true, false),
    (40, PlanItem::Blinds, &[100, 200, 100], false, false),
    // shares fall, stay within the pool, and are 64 at the most
    (0, PlanItem::Shares, &[], false, false),
    (0, PlanItem::Shares, &[500, 0], false, false),
    (0, PlanItem::Shares, &[1], true, false),
    (0, PlanItem::Shares, &[1000], true, false),
    (0, PlanItem::Shares, &[1001], false, false),
    (0, PlanItem::Shares, &[300, 300], true, false),
    (0, PlanItem::Shares, &[300, 301], false, false),
    (0, PlanItem::Shares, &[500, 300, 200], true, false),
    (0, PlanItem::Shares, &[500, 300, 201], false, false),
    (0, PlanItem::Shares, &[u64::MAX, u64::MAX], false, false),
    (0, PlanItem::Shares, &[15; 64], true, false),
    (0, PlanItem::Shares, &[15; 65], false, false),
    // a street has 1 to 9 wagers
    (0, PlanItem::Limit, &[0], false, false),
    (0, PlanItem::Limit, &[1], true, false),
    (0, PlanItem::Limit, &[9], true, false),
    (0, PlanItem::Limit, &[10], false, false),
    (0, PlanItem::Limit, &[u64::MAX], false, false),
];

/// Tells whether a draft takes a line, or not, as a row says.
fn is_taken(alloc: Global, row: &(u64, PlanItem, &[u64], bool, bool)) -> Result<bool, PlanFault> {
    let mut draft = PlanDraft::new(alloc);
    let level = line(alloc, PlanItem::Blinds, &[100, 200, 100])?;
    for _ in 0..row.0 {
        draft.line(&level)?;
    }
    let line = line(alloc, row.1, row.2)?;
    Ok(draft.line(&line).is_ok() == row.3 && draft.line(&line).is_ok() == row.4)
}

#[test]
fn lines_are_held_to_their_bounds_and_items_are_given_once(rt: HostRuntime) {
    for row in &LINES {
        assert!(rt;
            is_taken(rt.alloc(), row).unwrap_or(false),
            "{} {:?}",
            row.0,
            row.2
        );
    }
}

/// The lines of a plan but for its stack and its last level to enter at: two levels, of the units 25 and 100, of which
/// the second has an ante.
static PLAN: [(PlanItem, &[u64]); 8] = [
    (PlanItem::Limit, &[4]),
    (PlanItem::Game, &[]),
    (PlanItem::Tables, &[3]),
    (PlanItem::Seats, &[9]),
    (PlanItem::Buyin, &[200]),
    (PlanItem::Blinds, &[25, 50, 25]),
    (PlanItem::Blinds, &[100, 200, 100, 300]),
    (PlanItem::Shares, &[500, 300, 200]),
];

/// Has a draft take a line, but for that of an item that is missing.
fn add(
    alloc: Global,
    draft: &mut PlanDraft,
    missing: Option<PlanItem>,
    item: PlanItem,
    numbers: &[u64],
) -> Result<(), PlanFault> {
    if Some(item) == missing {
        return Ok(());
    }
    draft.line(&line(alloc, item, numbers)?)
}

/// Ends a draft in which an item is missing, with this stack and with entries up to this level.
fn plan_but(
    alloc: Global,
    missing: Option<PlanItem>,
    stack: u64,
    late: u64,
) -> Result<Plan, PlanFault> {
    let mut draft = PlanDraft::new(alloc);
    add(alloc, &mut draft, missing, PlanItem::Stack, &[stack])?;
    add(alloc, &mut draft, missing, PlanItem::Late, &[late])?;
    for (item, numbers) in &PLAN {
        add(alloc, &mut draft, missing, *item, numbers)?;
    }
    draft.go()
}

/// A missing item, the stack and the last level to enter at, and the item that the end of the plan names.
static ENDS: [(Option<PlanItem>, u64, u64, Option<PlanItem>); 14] = [
    (Some(PlanItem::Game), 10_050, 3, Some(PlanItem::Game)),
    (Some(PlanItem::Tables), 10_050, 3, Some(PlanItem::Tables)),
    (Some(PlanItem::Seats), 10_050, 3, Some(PlanItem::Seats)),
    (Some(PlanItem::Stack), 10_050, 3, Some(PlanItem::Stack)),
    (Some(PlanItem::Buyin), 10_050, 3, Some(PlanItem::Buyin)),
    (Some(PlanItem::Late), 10_050, 3, Some(PlanItem::Late)),
    (Some(PlanItem::Blinds), 10_050, 3, Some(PlanItem::Blinds)),
    (Some(PlanItem::Shares), 10_050, 3, Some(PlanItem::Shares)),
    (Some(PlanItem::Limit), 10_050, 1, None),
    (None, 10_050, 1, None),
    (None, 10_050, 2, Some(PlanItem::Stack)),
    (None, 10_100, 2, None),
    (None, 10_100, 3, Some(PlanItem::Late)),
    (None, 10_050, 3, Some(PlanItem::Late)),
];

/// Tells whether a plan ends as a row says.
fn ends_so(alloc: Global, row: &(Option<PlanItem>, u64, u64, Option<PlanItem>)) -> bool {
    plan_but(alloc, row.0, row.1, row.2).err() == row.3.map(PlanFault::Wrong)
}

#[test]
fn the_end_names_the_first_wrong_item(rt: HostRuntime) {
    for row in &ENDS {
        assert!(rt; ends_so(rt.alloc(), row), "{} {}", row.1, row.2);
    }
}

/// Tells whether a plan of three tables of nine has this game, these units and the shares 500, 300 and 200.
pub fn is_plan(plan: &Plan, game: Game, units: &[u64]) -> bool {
    let numbers = [plan.tables, plan.seats, plan.stack, plan.buyin, plan.late];
    plan.game == game
        && numbers == [3, 9, 10_000, 200, 2]
        && plan
            .blinds
            .items()
            .iter()
            .map(|blind| blind.unit)
            .eq(units.iter().copied())
        && plan.shares.items() == [500, 300, 200].as_slice()
}

/// Tells whether a plan of two levels has this cap, and no ante at the first and 300 at the second.
fn has_cap(plan: &Plan, cap: u64) -> bool {
    let antes = plan.blinds.items().iter().map(|blind| blind.ante);
    is_plan(plan, Game::Omaha, &[25, 100]) && plan.cap == cap && antes.eq([0, 300].iter().copied())
}

/// Tells whether the right plan is given back, with the limit and without it.
fn is_right(alloc: Global) -> Result<bool, PlanFault> {
    Ok(
        has_cap(&plan_but(alloc, None, 10_000, 2)?, 4)
            && has_cap(&plan_but(alloc, Some(PlanItem::Limit), 10_000, 2)?, 0),
    )
}

#[test]
fn a_right_plan_is_given_back(rt: HostRuntime) {
    assert!(rt; is_right(rt.alloc()).unwrap_or(false));
}
