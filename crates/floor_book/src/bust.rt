//! Players who are broke go out.

ghost use Rattle.std.specs.Prelude.{◌≡◌, ◌<◌, ◌++◌, ◌∷◌, [], map, length, false, IsSome};
ghost use Rattle.std.specs.List.{list_any};
ghost use Rattle.rulebook.specs.Limits.{most_entries};
ghost use Rattle.seat_book.specs.Players.{place_of, lifted};
ghost use Rattle.table_engine.specs.Plays.{IsCompletePlay, recorded_hand};
ghost use Rattle.tournament_rules.specs.Players.{stayed};
ghost use Rattle.tournament_rules.specs.Effects.{bust_of, busted_by};
ghost use Rattle.tournament_rules.specs.Valid.{is_bust_of};
ghost use Rattle.floor_book.specs.Busts.{MayGoOut};

use place_list::PlaceList;
use seat_book::SeatBook;
use table_engine::{HandRecord, StartSeat};

/// Takes a player who is broke from his seat: he is out, in a group and with the stack that he began his last hand
/// with.
fn bust(seats: &mut SeatBook, busts: &mut PlaceList, player: StartSeat, group: u64)
    requires entry { player.player < most_entries }
    requires sits { IsSome (place_of seats.old.players player.player) }
    requires room { length busts.old < most_entries }
    requires once { list_any (is_bust_of player.player) busts.old ≡ false }
    ensures seats { seats.new ≡ record seats.old { players = lifted player.player seats.old.players } }
    ensures busts { busts.new ≡ busts.old ++ bust_of group player ∷ [] }
{
    seats.lift(player.player);
    busts.bust(player.player, player.stack, group);
}

/// Puts out the players whom a hand leaves without chips, in one group.
pub(crate) fn bust_players(
    seats: &mut SeatBook,
    busts: &mut PlaceList,
    done: &HandRecord,
    group: u64,
)
    requires play { IsCompletePlay done.now }
    requires may { MayGoOut done.now.start.seats seats.old.players busts.old }
    ensures seats { seats.new ≡ record seats.old {
      players = stayed (busted_by (recorded_hand done.now)) seats.old.players;
    } }
    ensures busts { busts.new ≡ busts.old ++ map (bust_of group) (busted_by (recorded_hand done.now)) }
{
    let players = done.start.seats.items();
    let stacks = done.stacks.items();
    for index in 0..players.len() {
        let player = players[index];
        if stacks[index] == 0 {
            bust(seats, busts, player, group);
        }
    }
}
