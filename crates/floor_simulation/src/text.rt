//! What is told of a simulated tournament.

ghost use Rattle.std.specs.Prelude.{◌≡◌, true, IfOk};
ghost use Rattle.level_plan.specs.Plans.{is_right};
ghost use Rattle.simulation_rules.specs.Runs.{seed_of, simulation_text};
ghost use Rattle.floor_simulation.specs.Told.{told};

use crate::play::played;
use crate::simulation::Simulation;
use floor_events::write_report;
use level_plan::Plan;
use line_words::{Word, push_lines};
use std::alloc::{AllocError, Global};

/// Makes the seed of a number: the number as eight bytes, the least first, and 24 bytes of zero.
fn seed_of(number: u64) -> [u8; 32]
    ensures { result ≡ seed_of number }
{
    let mut seed = [0; 32];
    seed[..8].copy_from_slice(&number.to_le_bytes());
    seed
}

/// Tells how a simulated tournament went: its number, how many hands were settled, how many events there are, how many
/// players are left, each on its line, and the report.
fn told(alloc: Global, played: &Simulation, number: u64) -> Result<Vec<u8>, AllocError>
    ensures { IfOk result (λ text. text.items ≡ told number played.now.hands played.now.tournament) }
{
    let report = played.tournament.report()?;
    let left = report.seats.items().len() as u64;
    let mut text = Vec::new(alloc);
    push_lines(
        &mut text,
        &[
            &[Word::Text(b"simulate"), Word::Number(number)],
            &[Word::Text(b"hands"), Word::Number(played.hands)],
            &[
                Word::Text(b"events"),
                Word::Number(played.tournament.accepted()),
            ],
            &[Word::Text(b"left"), Word::Number(left)],
        ],
    )?;
    write_report(&report, &mut text)?;
    Ok(text)
}

/// Plays the simulated tournament of a plan and a number to its end, and tells how it went. The plan is a right one.
/// Want of memory is the only error.
pub fn simulation_text(alloc: Global, plan: &Plan, number: u64) -> Result<Vec<u8>, AllocError>
    requires { is_right plan.now ≡ true }
    ensures { IfOk result (λ text. text.items ≡ simulation_text number plan.now) }
{
    let played = played(alloc, plan, seed_of(number))?;
    told(alloc, &played, number)
}
