//! The players of a hand by their seats, and with other stacks.

ghost use Rattle.std.specs.Prelude.{◌≡◌, ◌==◌, ◌+◌, ◌<◌, ◌≤◌, ◌^◌, Some, None, true, find, length, map, replicate};
ghost use Rattle.std.specs.List.{list_all};
ghost use Rattle.std.specs.Option.{option_map_or};
ghost use Rattle.rulebook.specs.Seats.{walk};
ghost use Rattle.betting_round.specs.StreetActs.{chips_on};
ghost use Rattle.betting_round.specs.WhoIsDue.{player_in};
ghost use Rattle.level_plan.specs.Items.{is_between};
ghost use Rattle.table_engine.specs.Starts.{IsLawfulStart};
ghost use Rattle.table_engine.specs.declared.start.HandStart.{HandStart};
ghost use Rattle.table_engine.specs.declared.start.StartSeat.{StartSeat};
ghost use Rattle.table_engine.specs.Hands.{players_by_seat};
ghost use Rattle.table_engine.specs.Awards.{most_awarded, stack_after};
ghost use Rattle.table_engine.specs.Results.{with_stacks};

use crate::awards::Awards;
use crate::start::{HandStart, StartSeat};
use betting_round::Round;

/// What stands in the slot of a seat for a player of a start.
pub(crate) trait InSlot: Copy {
    /// What is made of a player.
    ghost made: { HandStart → StartSeat → Self };

    /// Makes it of a player.
    fn make(start: &HandStart, player: &StartSeat) -> Self
        ensures { result ≡ made start.now player.now };
}

/// The player.
impl InSlot for Option<StartSeat> {
    ghost made = { λ _ player. Some player };

    fn make(_start: &HandStart, player: &StartSeat) -> Option<StartSeat> {
        Some(*player)
    }
}

/// Fills the slots of the seats of players, where nobody is in any. Where two had one seat, the first would have it.
pub(crate) fn fill_slots<T: InSlot>(
    start: &HandStart,
    players: &[StartSeat],
    slots: &mut [T; 10],
    nobody: T,
)
    requires seats { list_all (λ player. is_between 1 10 player.seat) players.now ≡ true }
    requires empty { slots.old ≡ replicate 10 nobody }
    ensures { slots.new ≡ map (λ seat.
        option_map_or (T.made start.now) (find (λ player. player.seat == seat) players.now) nobody)
        (walk (λ seat. seat + 1) 10 0) }
{
    let count = players.len();
    for done in 0..count {
        let player = &players[count - 1 - done];
        slots[usize::from(player.seat) - 1] = T::make(start, player);
    }
}

/// Gives the players who are dealt in, by the seats 1 to 10.
pub(crate) fn players_by_seat(start: &HandStart) -> [Option<StartSeat>; 10]
    requires { IsLawfulStart start.now }
    ensures { result ≡ players_by_seat start.now }
{
    let mut slots = [None; 10];
    fill_slots(start, start.seats.items(), &mut slots, None);
    slots
}

/// Tells what the player in a seat has after a hand, in chips: what he has behind, and what he gets.
fn stack_after(round: &Round, seat: u8, awards: &Awards) -> u64
    requires first { 1 ≤ seat }
    requires last { seat ≤ 10 }
    requires small { chips_on round.now + most_awarded awards.now < 2 ^ 64 }
    ensures { result ≡ stack_after awards.now seat (player_in round.now.players seat) }
{
    match round.bettor(seat) {
        Some(bettor) => bettor.behind + awards.award_in(seat, bettor.live),
        None => 0,
    }
}

/// Puts the players' stacks after the hand into the room for them.
pub(crate) fn pay(stacks: &mut [u64], players: &[StartSeat], round: &Round, awards: &Awards)
    requires room { length stacks.old ≡ length players.now }
    requires seats { list_all (λ player. is_between 1 10 player.seat) players.now ≡ true }
    requires small { chips_on round.now + most_awarded awards.now < 2 ^ 64 }
    ensures { stacks.new ≡ map (λ player. stack_after awards.now player.seat (player_in round.now.players player.seat))
        players.now }
{
    for index in 0..stacks.len() {
        stacks[index] = stack_after(round, players[index].seat, awards);
    }
}

/// Gives each player the stack at his index of the list, in chips.
pub(crate) fn set_stacks(players: &mut [StartSeat], stacks: &[u64])
    requires { length stacks.now ≡ length players.old }
    ensures { players.new ≡ with_stacks players.old stacks.now }
{
    for index in 0..players.len() {
        players[index] = players[index].with_stack(stacks[index]);
    }
}
