//! The lines that a dock tells of its table's history.

ghost use Rattle.std.specs.Prelude.{◌≡◌, ◌≤◌, ◌<◌, IfErr, IfOk, OnOk, length, take};
ghost use Rattle.history_lock.specs.Passes.{lock_of, seen};
ghost use Rattle.dock_rules.specs.Tables.{lying_hand};
ghost use Rattle.table_dock.specs.Docks.{dock_id, table_of};
ghost use Rattle.table_dock.specs.Telling.{number_told};

use super::desk::act;
use super::table::lying;
use betting_round::{Act, Done};
use floor_text::Name;
use player_view::TableTeller;
use std::alloc::AllocError;
use std::sync::Wait;
use std::test::Fail;
use table_dock::{TableDock, TablePass, Untold};

/// What bob is told of a hand that ann folds.
const BOBS: &str = "1: hand 1 1 1 4
1: seat 1 ann 3000
1: seat 4 bob 1000
1: post ann 100
1: post bob 200
1: ante bob 100
1: hole 2c2h3c3h
1: ann fold
1: win bob 400
";

/// Tells the entries from a number on.
fn tell_once<R: Wait>(
    rt: &R,
    dock: &TableDock,
    desk: TablePass,
    from: u64,
    teller: &mut TableTeller,
    out: &mut Vec<u8>,
) -> (TablePass, Result<u64, Untold>)
    requires lock { lock_of desk ≡ dock_id dock.now }
    requires from { from ≤ length (seen desk) }
    requires table { teller.old.table ≡ table_of dock.now }
    requires told { teller.old.hand ≡ lying_hand (take from (seen desk)) }
    ensures lock { lock_of result.0 ≡ dock_id dock.now }
    ensures ok { IfOk result.1 (λ count. count ≡ length (seen result.0)) }
    ensures err { IfErr result.1 (λ untold. untold.told < length (seen result.0)) }
    ensures hand { teller.new.hand ≡ lying_hand (take (number_told result.1) (seen result.0)) }
    ensures table { teller.new.table ≡ table_of dock.now }
{
    dock.read_lines(rt, desk, from, teller, out)
}

/// Tells the entries from a number on, and goes on once where memory ran out. Gives the number of all.
fn tell<R: Wait>(
    rt: &R,
    dock: &TableDock,
    desk: TablePass,
    from: u64,
    teller: &mut TableTeller,
    out: &mut Vec<u8>,
) -> Result<(TablePass, u64), AllocError>
    requires lock { lock_of desk ≡ dock_id dock.now }
    requires from { from ≤ length (seen desk) }
    requires table { teller.old.table ≡ table_of dock.now }
    requires told { teller.old.hand ≡ lying_hand (take from (seen desk)) }
    ensures lock { IfOk result (λ told. lock_of told.0 ≡ dock_id dock.now) }
    ensures all { IfOk result (λ told. told.1 ≡ length (seen told.0)) }
    ensures hand { IfOk result (λ told. teller.new.hand ≡ lying_hand (take told.1 (seen told.0))) }
    ensures table { OnOk result (teller.new.table ≡ table_of dock.now) }
{
    let (desk, answer) = tell_once(rt, dock, desk, from, teller, out);
    let untold = match answer {
        Ok(count) => return Ok((desk, count)),
        Err(untold) => untold,
    };
    let (desk, answer) = tell_once(rt, dock, desk, untold.told, teller, out);
    match answer {
        Ok(count) => Ok((desk, count)),
        Err(_) => Err(AllocError),
    }
}

#[test]
fn lines_are_told_from_the_middle(rt: HostRuntime) -> Result<(), Fail> {
    let ann = Name::read(b"ann").unwrap();
    let bob = Name::read(b"bob").unwrap();
    let (dock, _worker, desk) = lying(&rt, rt.alloc())?;
    let mut teller = TableTeller::new(rt.alloc(), 1, Some(bob));
    let mut out = Vec::new(rt.alloc());
    let (desk, opened) = tell(&rt, &dock, desk, 0, &mut teller, &mut out)?;
    let (desk, is_folded) = act(&rt, &dock, desk, ann, Act::Fold, Ok(Done::Folded));
    let (_desk, folded) = tell(&rt, &dock, desk, opened, &mut teller, &mut out)?;
    assert!(rt; (opened, folded) == (1, 2) && is_folded && out.as_slice() == BOBS.as_bytes());
    Ok(())
}
