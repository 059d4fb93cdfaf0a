//! What a hand tells its tally of the pots.

ghost use Rattle.std.specs.Prelude.{◌≡◌, ◌+◌, ◌-◌, ◌≤◌, ◌<◌, ◌^◌, Some, map};
ghost use Rattle.betting_round.specs.Acts.{is_fold};
ghost use Rattle.pot_layers.specs.Tallies.{total_told};
ghost use Rattle.table_engine.specs.Starts.{IsLawfulStart};
ghost use Rattle.table_engine.specs.Hands.{players_by_seat};
ghost use Rattle.table_engine.specs.Tellings.{first_put, told};

use crate::players::{InSlot, fill_slots};
use crate::start::{HandStart, StartSeat};
use betting_round::Act;
use pot_layers::{PotTally, Put};

/// What a player put in before any act.
impl InSlot for Put {
    ghost made = { λ start player. first_put start (Some player) };

    fn make(start: &HandStart, player: &StartSeat) -> Put {
        Put::live(start.posted(player))
    }
}

/// Tells what was put in before any act, by the seats 1 to 10.
pub(crate) fn first_puts(start: &HandStart) -> [Put; 10]
    requires { IsLawfulStart start.now }
    ensures { result ≡ map (first_put start.now) (players_by_seat start.now) }
{
    let mut slots = [Put::NOBODY; 10];
    fill_slots(start, start.seats.items(), &mut slots, Put::NOBODY);
    slots
}

/// Tells the tally that the player in a seat has acted, and has put in so much, in chips.
pub(crate) fn tell(tally: &mut PotTally, seat: u8, put_in: u64, act: Act)
    requires first { 1 ≤ seat }
    requires last { seat ≤ 10 }
    requires fits { total_told tally.old + put_in < 2 ^ 53 }
    ensures { tally.new ≡ record tally.old { puts = told tally.old.puts (seat - 1) put_in (is_fold act) } }
{
    tally.add(seat, put_in);
    if matches!(act, Act::Fold) {
        tally.fold(seat);
    }
}
