//! The cards of a hand.

ghost use Rattle.std.specs.Prelude.{◌≡◌, ◌≤◌, ◌<◌, None, Some, map};
ghost use Rattle.button_blinds.specs.SeatSets.{seat_count};
ghost use Rattle.card_set.specs.Decks.{IsDeck};
ghost use Rattle.table_engine.specs.Starts.{IsLawfulStart};
ghost use Rattle.table_engine.specs.Hands.{players_by_seat};
ghost use Rattle.table_engine.specs.Deals.{board_card, board_of, dealt_seats, hole_card, hole_count, listed, tabled};
ghost use Rattle.table_engine.specs.Results.{live_on};

use crate::players::players_by_seat;
use crate::start::{HandStart, StartSeat};
use betting_round::Round;
use button_blinds::SeatSet;
use card_set::{Card, Game};
use deal_order::{board_place, hole_place};
use showdown::Live;

/// Gives the seats that are dealt in, where the players stand by the seats 1 to 10.
pub(crate) fn dealt_seats(start: &HandStart, players: &[Option<StartSeat>; 10]) -> SeatSet
    requires { players.now ≡ players_by_seat start.now }
    ensures { result ≡ dealt_seats start.now }
{
    let mut dealt = SeatSet::empty();
    for (index, player) in players.iter().enumerate() {
        if player.is_some() {
            dealt = dealt.with(index as u8 + 1);
        }
    }
    dealt
}

/// Tells how many hole cards each player is dealt.
fn hole_count(game: Game) -> u8
    ensures count { result ≡ hole_count game }
    ensures some { 2 ≤ result }
    ensures most { result ≤ 4 }
{
    match game {
        Game::Holdem => 2,
        Game::Omaha | Game::Hilo => 4,
    }
}

/// Gives a player's hole card, counted from 0, by his seat.
fn hole_card(start: &HandStart, dealt: SeatSet, seat: u8, card: u8) -> Card
    requires lawful { IsLawfulStart start.now }
    requires dealt { dealt ≡ dealt_seats start.now }
    requires card { card < hole_count start.now.game }
    ensures { result ≡ hole_card start.now seat card }
{
    let holes = hole_count(start.game);
    start.deck.card(hole_place(
        dealt,
        start.marks.button,
        start.seat_count,
        holes,
        seat,
        card,
    ))
}

/// Tells which of a player's hole cards stands at an index of the four that a showdown lists: in hold'em his two stand
/// twice.
fn listed(game: Game, index: u8) -> u8
    requires { index < 4 }
    ensures card { result ≡ listed game index }
    ensures dealt { result < hole_count game }
{
    match game {
        Game::Holdem => index % 2,
        Game::Omaha | Game::Hilo => index,
    }
}

/// Gives the card at an index of the four that a showdown lists of a player.
fn listed_card(start: &HandStart, dealt: SeatSet, seat: u8, index: u8) -> Card
    requires lawful { IsLawfulStart start.now }
    requires dealt { dealt ≡ dealt_seats start.now }
    requires index { index < 4 }
    ensures { result ≡ hole_card start.now seat (listed start.now.game index) }
{
    hole_card(start, dealt, seat, listed(start.game, index))
}

/// Gives a player at the showdown, with his hole cards.
fn tabled(start: &HandStart, dealt: SeatSet, seat: u8) -> Live
    requires lawful { IsLawfulStart start.now }
    requires dealt { dealt ≡ dealt_seats start.now }
    ensures { result ≡ tabled start.now seat }
{
    Live {
        seat,
        hole: [
            listed_card(start, dealt, seat, 0),
            listed_card(start, dealt, seat, 1),
            listed_card(start, dealt, seat, 2),
            listed_card(start, dealt, seat, 3),
        ],
    }
}

/// Gives a card of the board, counted from 0.
fn board_card(start: &HandStart, dealt: SeatSet, card: u8) -> Card
    requires dealt { dealt ≡ dealt_seats start.now }
    requires card { card ≤ 4 }
    ensures card { result ≡ board_card start.now card }
    ensures deck { IsDeck start.now.deck }
{
    let holes = hole_count(start.game);
    start.deck.card(board_place(dealt.count(), holes, card))
}

/// Gives the board: the flop, the turn and the river.
pub(crate) fn board_of(start: &HandStart, dealt: SeatSet) -> [Card; 5]
    requires { dealt ≡ dealt_seats start.now }
    ensures board { result ≡ board_of start.now }
    ensures deck { IsDeck start.now.deck }
{
    [
        board_card(start, dealt, 0),
        board_card(start, dealt, 1),
        board_card(start, dealt, 2),
        board_card(start, dealt, 3),
        board_card(start, dealt, 4),
    ]
}

/// Gives a player of the start who is live, with his hole cards.
fn live_on(
    start: &HandStart,
    dealt: SeatSet,
    round: &Round,
    player: Option<StartSeat>,
) -> Option<Live>
    requires lawful { IsLawfulStart start.now }
    requires dealt { dealt ≡ dealt_seats start.now }
    ensures { result ≡ live_on start.now round.now player }
{
    let player = player?;
    let bettor = round.bettor(player.seat)?;
    if !bettor.live {
        return None;
    }
    Some(tabled(start, dealt, player.seat))
}

/// Gives the live players with their hole cards, by the seats 1 to 10.
pub(crate) fn all_live(
    start: &HandStart,
    players: &[Option<StartSeat>; 10],
    dealt: SeatSet,
    round: &Round,
) -> [Option<Live>; 10]
    requires lawful { IsLawfulStart start.now }
    requires players { players.now ≡ players_by_seat start.now }
    requires dealt { dealt ≡ dealt_seats start.now }
    ensures { result ≡ map (live_on start.now round.now) (players_by_seat start.now) }
{
    [
        live_on(start, dealt, round, players[0]),
        live_on(start, dealt, round, players[1]),
        live_on(start, dealt, round, players[2]),
        live_on(start, dealt, round, players[3]),
        live_on(start, dealt, round, players[4]),
        live_on(start, dealt, round, players[5]),
        live_on(start, dealt, round, players[6]),
        live_on(start, dealt, round, players[7]),
        live_on(start, dealt, round, players[8]),
        live_on(start, dealt, round, players[9]),
    ]
}

impl HandStart {
    /// Gives the seats that are dealt in.
    fn dealt(&self) -> SeatSet
        requires { IsLawfulStart self.now }
        ensures { result ≡ dealt_seats self.now }
    {
        dealt_seats(self, &players_by_seat(self))
    }

    /// Tells how many hole cards each player is dealt.
    pub fn hole_count(&self) -> u8
        ensures count { result ≡ hole_count self.now.game }
        ensures some { 2 ≤ result }
        ensures most { result ≤ 4 }
    {
        hole_count(self.game)
    }

    /// Gives a player's hole card, counted from 0, by his seat. It takes no memory.
    pub fn hole_card(&self, seat: u8, card: u8) -> Card
        requires lawful { IsLawfulStart self.now }
        requires card { card < hole_count self.now.game }
        ensures { result ≡ hole_card self.now seat card }
    {
        hole_card(self, self.dealt(), seat, card)
    }

    /// Gives a card of the board, counted from 0: three of the flop, the turn and the river. It takes no memory.
    pub fn board_card(&self, card: u8) -> Card
        requires lawful { IsLawfulStart self.now }
        requires card { card ≤ 4 }
        ensures { result ≡ board_card self.now card }
    {
        board_card(self, self.dealt(), card)
    }
}
