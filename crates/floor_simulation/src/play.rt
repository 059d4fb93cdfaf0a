//! A simulated tournament is played to its end.

ghost use Rattle.std.specs.Prelude.{◌≡◌, ◌≤◌, ◌<◌, ◌+◌, ◌^◌, true, false, [], ◌∷◌, length, count_by, Ok, IfOk, OnOk};
ghost use Rattle.level_plan.specs.Plans.{is_right};
ghost use Rattle.tournament_events.specs.declared.event.Event.TheVariants as events;
ghost use Rattle.tournament_rules.specs.States.{first_state, run, state_after};
ghost use Rattle.simulation_rules.specs.Steps.{simulated_next};
ghost use Rattle.simulation_rules.specs.Effort.{effort};
ghost use Rattle.simulation_rules.specs.Runs.{is_settle, plan_events, simulated_run};
ghost use Rattle.simulation_rules.specs.Left.{events_left};
ghost use Rattle.floor_simulation.specs.Midst.{IsInMidst, ComeToSame};

use crate::simulation::Simulation;
use floor_core::Tournament;
use level_plan::{Plan, PlanLine};
use plan_files::plan_lines;
use simulation_rules::{SimPlace, SimStep};
use std::alloc::{AllocError, Global};
use tournament_events::Event;

/// The place at the first table of the first round.
const FIRST_PLACE: SimPlace = SimPlace {
    round: 1,
    table: 1,
    played: false,
    any_played: false,
    done: false,
};

/// Gives a tournament a line of its plan.
fn take_line(tournament: &mut Tournament, line: PlanLine) -> Result<(), AllocError>
    requires { tournament.old.accepted < 2 ^ 60 }
    ensures { OnOk result (tournament.new ≡ state_after tournament.old (events.Plan line)) }
{
    tournament.apply(&Event::Plan(line))?;
    Ok(())
}

/// Makes a tournament with a plan: its lines and their end are taken.
fn planned(alloc: Global, plan: &Plan) -> Result<Tournament, AllocError>
    requires { is_right plan.now ≡ true }
    ensures { IfOk result (λ tournament. tournament ≡ run first_state (plan_events plan.now)) }
{
    let mut tournament = Tournament::new(alloc)?;
    for line in plan_lines(alloc, plan)? {
        take_line(&mut tournament, line)?;
    }
    tournament.apply(&Event::Go)?;
    Ok(tournament)
}

impl Simulation {
    /// Takes an event that comes next, and the place behind it.
    fn take_event(&mut self, event: &Event, place: SimPlace) -> Result<(), AllocError>
        requires few { self.old.tournament.accepted < 2 ^ 60 }
        requires counted { self.old.hands ≤ self.old.tournament.accepted }
        ensures state { OnOk result (self.new.tournament ≡ state_after self.old.tournament event.now) }
        ensures place { OnOk result (self.new.place ≡ place) }
        ensures hands { OnOk result (self.new.hands ≡ self.old.hands + count_by is_settle (event.now ∷ [])) }
        ensures seed { self.new.seed ≡ self.old.seed }
    {
        self.tournament.apply(event)?;
        self.place = place;
        if let Event::Settle { .. } = event {
            self.hands += 1;
        }
        Ok(())
    }

    /// Takes a step that comes next, and tells whether the tournament is not at its end.
    fn take(&mut self, step: &SimStep) -> Result<bool, AllocError>
        requires midst { IsInMidst self.old.tournament self.old.place self.old.hands }
        requires next { step.now ≡ simulated_next self.old.seed self.old.tournament self.old.place }
        ensures midst { OnOk result (IsInMidst self.new.tournament self.new.place self.new.hands) }
        ensures same { OnOk result (ComeToSame self.old.seed self.old.tournament self.old.place self.old.hands
            self.new.tournament self.new.place self.new.hands) }
        ensures falls { result ≡ Ok true
            → effort self.new.tournament self.new.place < effort self.old.tournament self.old.place }
        ensures end { result ≡ Ok false → events_left self.old.seed self.new.tournament self.new.place ≡ [] }
        ensures seed { self.new.seed ≡ self.old.seed }
    {
        match step {
            SimStep::Take(event, place) => self.take_event(event, *place)?,
            SimStep::Move(place) => self.place = *place,
            SimStep::End => return Ok(false),
        }
        Ok(true)
    }

    /// Takes the step that comes next, and tells whether the tournament is not at its end. No event is made of an act,
    /// since most of what comes are acts.
    fn step(&mut self) -> Result<bool, AllocError>
        requires { IsInMidst self.old.tournament self.old.place self.old.hands }
        ensures midst { OnOk result (IsInMidst self.new.tournament self.new.place self.new.hands) }
        ensures same { OnOk result (ComeToSame self.old.seed self.old.tournament self.old.place self.old.hands
            self.new.tournament self.new.place self.new.hands) }
        ensures falls { result ≡ Ok true
            → effort self.new.tournament self.new.place < effort self.old.tournament self.old.place }
        ensures end { result ≡ Ok false → events_left self.old.seed self.new.tournament self.new.place ≡ [] }
        ensures seed { self.new.seed ≡ self.old.seed }
    {
        if let Some((name, act)) = self.next_act() {
            let table = u64::from(self.place.table);
            self.tournament.act(table, name, act)?;
            return Ok(true);
        }
        let step = self.next()?;
        self.take(&step)
    }

    /// Plays to the end.
    fn play(&mut self) -> Result<(), AllocError>
        requires { IsInMidst self.old.tournament self.old.place self.old.hands }
        ensures state { OnOk result (self.new.tournament
            ≡ run self.old.tournament (events_left self.old.seed self.old.tournament self.old.place)) }
        ensures hands { OnOk result (self.new.hands ≡ self.old.hands
            + count_by is_settle (events_left self.old.seed self.old.tournament self.old.place)) }
        ensures events { OnOk result (self.new.tournament.accepted ≡ self.old.tournament.accepted
            + length (events_left self.old.seed self.old.tournament self.old.place)) }
    {
        while self.step()? {}
        Ok(())
    }
}

/// Plays the simulated tournament of a plan by a seed.
pub(crate) fn played(alloc: Global, plan: &Plan, seed: [u8; 32]) -> Result<Simulation, AllocError>
    requires { is_right plan.now ≡ true }
    ensures state { IfOk result (λ played. played.tournament ≡ run first_state (simulated_run seed plan.now)) }
    ensures hands { IfOk result (λ played. played.hands ≡ count_by is_settle (simulated_run seed plan.now)) }
    ensures events { IfOk result (λ played. played.tournament.accepted ≡ length (simulated_run seed plan.now)) }
{
    let mut simulation = Simulation {
        alloc,
        tournament: planned(alloc, plan)?,
        seed,
        place: FIRST_PLACE,
        hands: 0,
    };
    simulation.play()?;
    Ok(simulation)
}
