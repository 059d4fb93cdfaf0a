//! What is reported.

ghost use Rattle.std.specs.Prelude.{◌≡◌, ◌<◌, ◌^◌, length, map, option_map, slice_get, sum_by, IfOk};
ghost use Rattle.std.specs.List.{All};
ghost use Rattle.seat_book.specs.Players.{players_in};
ghost use Rattle.table_engine.specs.Starts.{chips_of};
ghost use Rattle.tournament_rules.specs.Books.{starters_of};
ghost use Rattle.tournament_rules.specs.Chips.{rest_in, play_of};
ghost use Rattle.tournament_rules.specs.Players.{is_one_of, is_in_hand};
ghost use Rattle.tournament_rules.specs.Report.{reported, reported_out, winner, standings_in, book_report};

use crate::book::Book;
use entry_list::EntryList;
use floor_text::List;
use place_list::Standing;
use seat_book::Seated;
use std::alloc::{AllocError, Global};
use table_engine::{HandStart, StartSeat};
use tournament_events::{Report, ReportOut, ReportSeat};

/// Sums the stacks at rest, in chips.
fn rest_of(slots: &[Option<Seated>]) -> u64
    requires { sum_by (λ player. player.stack) (players_in slots.now) < 2 ^ 64 }
    ensures { result ≡ sum_by (λ player. player.stack) (players_in slots.now) }
{
    let mut chips = 0;
    for slot in slots {
        if let Some(player) = slot {
            chips += player.stack;
        }
    }
    chips
}

/// Gives the players with whom a hand started, where one did.
fn starters_of(start: &Option<HandStart>) -> &[StartSeat]
    ensures { result.now ≡ starters_of start.now }
{
    match start {
        Some(start) => start.seats.items(),
        None => &[],
    }
}

/// Sums the stacks with which players began a hand, in chips.
fn chips_of(players: &[StartSeat]) -> u64
    requires { chips_of players.now < 2 ^ 64 }
    ensures { result ≡ chips_of players.now }
{
    players.iter().map(|player| player.stack).sum()
}

/// Sums the stacks with which the players of all started hands began, in chips.
fn play_of(started: &[Option<HandStart>]) -> u64
    requires { sum_by (λ start. chips_of (starters_of start)) started.now < 2 ^ 64 }
    ensures { result ≡ sum_by (λ start. chips_of (starters_of start)) started.now }
{
    let mut chips = 0;
    for start in started {
        chips += chips_of(starters_of(start));
    }
    chips
}

/// Tells whether a player is one of those with whom a hand started.
fn is_one_of(starters: &[StartSeat], player: &Seated) -> bool
    ensures { result ≡ is_one_of starters.now player.now }
{
    starters
        .iter()
        .any(|starter| starter.player == player.player)
}

/// Reports a player who is in, with the stack at rest, or in play.
fn reported(started: &[Option<HandStart>], player: &Seated) -> ReportSeat
    requires { player.now.place.table < length started.now }
    ensures { result ≡ reported started.now player.now }
{
    let is_in_hand = is_one_of(
        starters_of(&started[usize::from(player.place.table)]),
        player,
    );
    ReportSeat {
        place: player.place,
        name: player.name,
        stack: (!is_in_hand).then_some(player.stack),
    }
}

/// Reports the players who are in, by table and then seat.
fn all_reported(
    alloc: Global,
    started: &[Option<HandStart>],
    slots: &[Option<Seated>],
) -> Result<List<ReportSeat>, AllocError>
    requires { All (λ player. player.place.table < length started.now) (players_in slots.now) }
    ensures { IfOk result (λ lines. lines ≡ map (reported started.now) (players_in slots.now)) }
{
    let mut lines = List::new(alloc);
    for slot in slots {
        if let Some(player) = slot {
            lines.push(reported(started, player))?;
        }
    }
    Ok(lines)
}

/// Gives the number of the first player who sits, in the order of tables and seats.
fn first_number(slots: &[Option<Seated>]) -> Option<u32>
    ensures { result ≡ option_map (λ player. player.player) (slice_get (players_in slots.now) 0) }
{
    for slot in slots {
        if let Some(player) = slot {
            return Some(player.player);
        }
    }
    None
}

/// Reports a player who is out, or the winner, under the name with which he entered.
fn reported_out(entries: &EntryList, standing: &Standing) -> ReportOut
    requires { standing.now.player < length entries.now }
    ensures { result ≡ reported_out entries.now standing.now }
{
    ReportOut {
        place: standing.place,
        name: entries.name(standing.player),
        prize: standing.prize,
    }
}

/// Reports players who are out, and the winner, in their order.
fn outs_reported(
    alloc: Global,
    entries: &EntryList,
    standings: &[Standing],
) -> Result<List<ReportOut>, AllocError>
    requires { All (λ standing. standing.player < length entries.now) standings.now }
    ensures { IfOk result (λ lines. lines ≡ map (reported_out entries.now) standings.now) }
{
    let mut lines = List::new(alloc);
    for standing in standings {
        lines.push(reported_out(entries, standing))?;
    }
    Ok(lines)
}

impl Book {
    /// Sums the stacks at rest, in chips.
    fn chips_at_rest(&self) -> u64
        ensures { result ≡ rest_in self.now }
    {
        rest_of(self.seats.slots())
    }

    /// Sums the stacks with which the players of all started hands began, in chips.
    fn chips_in_play(&self) -> u64
        ensures { result ≡ play_of self.now }
    {
        play_of(&self.started)
    }

    /// Gives the player who has won: where the tournament is over, the one who is in.
    fn winner(&self) -> Option<u32>
        ensures { result ≡ winner self.now }
    {
        if self.over() {
            first_number(self.seats.slots())
        } else {
            None
        }
    }

    /// Tells where the players stand who are out, and the winner where the tournament is over.
    fn standings(&self) -> Result<Vec<Standing>, AllocError>
        ensures { IfOk result (λ standings. standings.items ≡ standings_in self.now) }
    {
        self.busts.standings(
            self.alloc,
            self.entries.len(),
            self.reentries,
            self.winner(),
            self.plan.buyin,
            self.plan.shares.items(),
        )
    }

    /// Reports the players who are out, and the winner where the tournament is over, by place and then by entry.
    fn all_out(&self) -> Result<List<ReportOut>, AllocError>
        ensures { IfOk result (λ lines. lines ≡ map (reported_out self.now.entries) (standings_in self.now)) }
    {
        outs_reported(self.alloc, &self.entries, &self.standings()?)
    }

    /// Reports how the tournament stands.
    pub fn report(&self) -> Result<Report, AllocError>
        ensures { IfOk result (λ report. report ≡ book_report self.now) }
    {
        Ok(Report {
            level: self.level,
            sold: u64::from(self.entries.len() + self.reentries) * self.plan.stack,
            removed: self.removed,
            added: self.added,
            rest: self.chips_at_rest(),
            play: self.chips_in_play(),
            seats: all_reported(self.alloc, &self.started, self.seats.slots())?,
            outs: self.all_out()?,
        })
    }
}
