//! A plan that is given line by line.

ghost use Rattle.std.specs.Prelude.{◌≡◌, ◌<◌, false, true, [], ◌∷◌, ◌++◌, length, IsTrue, OnOk, OnErr, IfOk, IfErr, None};
ghost use Rattle.level_plan.specs.Items.{is_blind, may_follow, are_shares};
ghost use Rattle.level_plan.specs.Limits.{most_levels};
ghost use Rattle.level_plan.specs.Drafts.{empty_draft, is_wrong_line, item_of_line, line_fault, draft_after, go_fault, plan_of, IsFault};
ghost use Rattle.level_plan.specs.Plans.{is_right};

use crate::bounds::{FEWEST_SEATS, GREATEST_AMOUNT, MOST_LEVELS, MOST_WAGERS};
use crate::checks::{are_shares, is_between, is_blind, may_follow, unit_of_level};
use crate::line::{PlanFault, PlanItem, PlanLine};
use crate::plan::{Blind, Plan};
use card_set::Game;
use floor_text::List;
use rulebook::{MOST_SEATS, MOST_TABLES};
use std::alloc::{AllocError, Global};
use std::marker::Model;

/// What the accepted lines have given of a plan so far. Contracts see it as a `Draft`.
#[derive(Drop)]
pub struct PlanDraft {
    alloc: Global,
    game: Option<Game>,
    tables: Option<u64>,
    seats: Option<u64>,
    stack: Option<u64>,
    buyin: Option<u64>,
    late: Option<u64>,
    blinds: List<Blind>,
    shares: Option<List<u64>>,
    cap: Option<u64>,
}

impl Model for PlanDraft {
    ghost use Rattle.level_plan.specs.Drafts.{Draft, IsLawful};

    ghost Value = { Draft };

    ghost use Rattle.level_plan.specs.Fields.{draft_of};

    ghost view = { draft_of };

    ghost invariant = { λ fields. IsLawful (draft_of fields) };
}

/// Copies a list.
fn copy_of<T: Copy>(alloc: Global, list: &List<T>) -> Result<List<T>, AllocError>
    ensures { IfOk result (λ copy. copy ≡ list.now) }
{
    Ok(List::from_vec(Vec::from_slice(alloc, list.items())?))
}

impl PlanDraft {
    /// Makes a draft of which nothing is given. It takes no memory.
    pub fn new(alloc: Global) -> PlanDraft
        ensures { result ≡ empty_draft }
    {
        PlanDraft {
            alloc,
            game: None,
            tables: None,
            seats: None,
            stack: None,
            buyin: None,
            late: None,
            blinds: List::new(alloc),
            shares: None,
            cap: None,
        }
    }

    /// Tells whether a line is wrong here: its item was given before, or what it gives is not lawful.
    pub fn is_wrong(&self, line: &PlanLine) -> bool
        ensures { result ≡ is_wrong_line self.now line.now }
    {
        match line {
            PlanLine::Game(_) => self.game.is_some(),
            PlanLine::Tables(n) => self.tables.is_some() || !is_between(1, MOST_TABLES, *n),
            PlanLine::Seats(n) => self.seats.is_some() || !is_between(FEWEST_SEATS, MOST_SEATS, *n),
            PlanLine::Stack(n) => self.stack.is_some() || !is_between(1, GREATEST_AMOUNT, *n),
            PlanLine::Buyin(n) => self.buyin.is_some() || *n > GREATEST_AMOUNT,
            PlanLine::Late(n) => self.late.is_some() || !is_between(1, MOST_LEVELS as u64, *n),
            PlanLine::Blinds(blind) => {
                let blinds = self.blinds.items();
                blinds.len() >= MOST_LEVELS || !(is_blind(*blind) && may_follow(blinds, *blind))
            }
            PlanLine::Shares(shares) => self.shares.is_some() || !are_shares(shares.items()),
            PlanLine::Limit(n) => self.cap.is_some() || !is_between(1, MOST_WAGERS, *n),
        }
    }

    /// Adds the next level. Want of memory leaves the draft as it was.
    fn add_level(&mut self, blind: Blind) -> Result<(), AllocError>
        requires room { length self.old.blinds < most_levels }
        requires lawful { is_blind blind ≡ true }
        requires follows { may_follow self.old.blinds blind ≡ true }
        ensures ok { OnOk result (self.new ≡ record self.old { blinds = self.old.blinds ++ blind ∷ [] }) }
        ensures err { OnErr result (self.new ≡ self.old) }
    {
        self.blinds.push(blind)?;
        Ok(())
    }

    /// Sets the shares. Want of memory leaves the draft as it was.
    fn set_shares(&mut self, shares: &List<u64>) -> Result<(), AllocError>
        requires { are_shares shares.now ≡ true }
        ensures ok { OnOk result (self.new ≡ record self.old { shares = Some shares.now }) }
        ensures err { OnErr result (self.new ≡ self.old) }
    {
        let copy = copy_of(self.alloc, shares)?;
        self.shares = Some(copy);
        Ok(())
    }

    /// Takes what a line gives that is not wrong. Want of memory leaves the draft as it was.
    fn take(&mut self, line: &PlanLine) -> Result<(), AllocError>
        requires { is_wrong_line self.old line.now ≡ false }
        ensures ok { OnOk result (self.new ≡ draft_after self.old line.now) }
        ensures err { OnErr result (self.new ≡ self.old) }
    {
        match line {
            PlanLine::Game(game) => self.game = Some(*game),
            PlanLine::Tables(n) => self.tables = Some(*n),
            PlanLine::Seats(n) => self.seats = Some(*n),
            PlanLine::Stack(n) => self.stack = Some(*n),
            PlanLine::Buyin(n) => self.buyin = Some(*n),
            PlanLine::Late(n) => self.late = Some(*n),
            PlanLine::Blinds(blind) => self.add_level(*blind)?,
            PlanLine::Shares(shares) => self.set_shares(shares)?,
            PlanLine::Limit(n) => self.cap = Some(*n),
        }
        Ok(())
    }

    /// Takes a line. It is `Wrong` with the line's item exactly where that item was given before
    /// (blinds: 40 times) or what the line gives is not lawful. `NoMemory` is want of memory for a line
    /// that is not wrong. Either leaves the draft as it was.
    pub fn line(&mut self, line: &PlanLine) -> Result<(), PlanFault>
        ensures ok { OnOk result (self.new ≡ draft_after self.old line.now) }
        ensures taken { OnOk result (line_fault self.old line.now ≡ None) }
        ensures fault { IfErr result (IsFault (line_fault self.old line.now)) }
        ensures kept { OnErr result (self.new ≡ self.old) }
    {
        if self.is_wrong(line) {
            return Err(PlanFault::Wrong(line.item()));
        }
        self.take(line)?;
        Ok(())
    }

    /// Makes the plan, if it is whole and right. It is `Wrong` with the first missing item, of game, tables, seats,
    /// stack, buyin, late, blinds and shares; else with `Late` where `late` is above the number of levels;
    /// else with `Stack` where the stack is no multiple of the unit of level `late`. `NoMemory` is want of
    /// memory for a plan that is right.
    pub fn go(&self) -> Result<Plan, PlanFault>
        ensures plan { IfOk result (λ plan. plan ≡ plan_of self.now) }
        ensures complete { OnOk result (go_fault self.now ≡ None) }
        ensures right { IfOk result (λ plan. IsTrue (is_right plan)) }
        ensures fault { IfErr result (IsFault (go_fault self.now)) }
    {
        if let Some(item) = self.fault() {
            return Err(PlanFault::Wrong(item));
        }
        Ok(self.plan()?)
    }

    /// Makes the plan of a draft of which nothing is missing or wrong.
    fn plan(&self) -> Result<Plan, AllocError>
        requires { go_fault self.now ≡ None }
        ensures { IfOk result (λ plan. plan ≡ plan_of self.now) }
    {
        let blinds = copy_of(self.alloc, &self.blinds)?;
        let shares = copy_of(self.alloc, self.shares.as_ref().unwrap())?;
        Ok(Plan {
            game: self.game.unwrap(),
            tables: self.tables.unwrap(),
            seats: self.seats.unwrap(),
            stack: self.stack.unwrap(),
            buyin: self.buyin.unwrap(),
            late: self.late.unwrap(),
            blinds,
            shares,
            cap: self.cap.unwrap_or(0),
        })
    }

    /// Finds the wrong item of what is given, where that is no right plan.
    fn fault(&self) -> Option<PlanItem>
        ensures { result ≡ go_fault self.now }
    {
        if self.game.is_none() {
            return Some(PlanItem::Game);
        }
        if self.tables.is_none() {
            return Some(PlanItem::Tables);
        }
        if self.seats.is_none() {
            return Some(PlanItem::Seats);
        }
        let Some(stack) = self.stack else {
            return Some(PlanItem::Stack);
        };
        if self.buyin.is_none() {
            return Some(PlanItem::Buyin);
        }
        let Some(late) = self.late else {
            return Some(PlanItem::Late);
        };
        let blinds = self.blinds.items();
        if blinds.is_empty() {
            return Some(PlanItem::Blinds);
        }
        if self.shares.is_none() {
            return Some(PlanItem::Shares);
        }
        if late as usize > blinds.len() {
            return Some(PlanItem::Late);
        }
        if stack % unit_of_level(blinds, late) != 0 {
            return Some(PlanItem::Stack);
        }
        None
    }
}
