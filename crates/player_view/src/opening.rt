//! The lines of a hand that begins.

ghost use Rattle.std.specs.Prelude.{◌≡◌, ◌++◌, OnOk};
ghost use Rattle.std.specs.List.{flat_map};
ghost use Rattle.line_words.specs.Words.{Extends};
ghost use Rattle.table_engine.specs.Hands.{player_of, seat_of_name};
ghost use Rattle.table_engine.specs.Starts.{IsLawfulStart};
ghost use Rattle.view_rules.specs.Shown.{own_places};
ghost use Rattle.view_rules.specs.Seen.{cards_at, seen_hand};
ghost use Rattle.view_rules.specs.Spelling.{HandLine, SeatLine, Table, line_text};
ghost use Rattle.view_rules.specs.Lines.{ante_lines, hole_lines, opening_lines, post_lines};
ghost use Rattle.player_view.specs.Each.{table_text};

use crate::following::push_following;
use crate::hole_cards::push_hole_cards;
use crate::line::push_table_line;
use floor_text::Name;
use line_words::Word;
use std::alloc::AllocError;
use table_engine::{Hand, HandStart, StartSeat};

/// How many streets may follow the first of a hand.
const MOST_STREETS: u8 = 3;

/// Writes the line of a hand that begins: its number and its marks.
#[tactic(auto, unfolding(view_rules::specs::Spelling::line_text))]
fn push_hand(table: u8, start: &HandStart, out: &mut Vec<u8>) -> Result<(), AllocError>
    ensures ok { OnOk result (out.new.items
        ≡ out.old.items ++ line_text (Table table (HandLine start.now.serial start.now.marks))) }
    ensures kept { Extends out.old.items out.new.items }
{
    push_table_line(
        table,
        &[
            Word::Text(b"hand"),
            Word::Number(start.serial),
            Word::Number(u64::from(start.marks.button)),
            Word::Number(u64::from(start.marks.small)),
            Word::Number(u64::from(start.marks.big)),
        ],
        out,
    )
}

/// Writes the line of a player who is dealt in.
#[tactic(auto, unfolding(view_rules::specs::Spelling::line_text))]
fn push_seat(table: u8, player: &StartSeat, out: &mut Vec<u8>) -> Result<(), AllocError>
    ensures ok { OnOk result (out.new.items ≡ out.old.items ++ line_text (Table table (SeatLine player.now))) }
    ensures kept { Extends out.old.items out.new.items }
{
    push_table_line(
        table,
        &[
            Word::Text(b"seat"),
            Word::Number(u64::from(player.seat)),
            Word::Text(player.name.bytes()),
            Word::Number(player.stack),
        ],
        out,
    )
}

/// Writes the lines of players who are dealt in.
fn push_seats(table: u8, players: &[StartSeat], out: &mut Vec<u8>) -> Result<(), AllocError>
    ensures ok { OnOk result (out.new.items
        ≡ out.old.items ++ flat_map (λ player. line_text (Table table (SeatLine player))) players.now) }
    ensures kept { Extends out.old.items out.new.items }
{
    for player in players {
        push_seat(table, player, out)?;
    }
    Ok(())
}

/// Finds the player who is dealt in at a seat.
fn find_player(start: &HandStart, seat: u8) -> Option<StartSeat>
    ensures { result ≡ player_of start.now seat }
{
    start
        .seats
        .items()
        .iter()
        .copied()
        .find(|player| player.seat == seat)
}

/// Writes the line of the ante that a player posts, where he posts one.
#[tactic(auto, unfolding(view_rules::specs::Spelling::line_text))]
fn push_ante(
    table: u8,
    start: &HandStart,
    player: &StartSeat,
    out: &mut Vec<u8>,
) -> Result<(), AllocError>
    ensures ok { OnOk result (out.new.items
        ≡ out.old.items ++ table_text table (ante_lines start.now player.now)) }
    ensures kept { Extends out.old.items out.new.items }
{
    let ante = start.ante_posted(player);
    if ante == 0 {
        return Ok(());
    }
    push_table_line(
        table,
        &[
            Word::Text(b"ante"),
            Word::Text(player.name.bytes()),
            Word::Number(ante),
        ],
        out,
    )
}

/// Writes the lines of what is posted from a mark's seat, where a player is dealt in there: his blind, and his ante.
#[tactic(auto, unfolding(view_rules::specs::Spelling::line_text))]
fn push_post(table: u8, start: &HandStart, seat: u8, out: &mut Vec<u8>) -> Result<(), AllocError>
    ensures ok { OnOk result (out.new.items ≡ out.old.items ++ table_text table (post_lines start.now seat)) }
    ensures kept { Extends out.old.items out.new.items }
{
    let Some(player) = find_player(start, seat) else {
        return Ok(());
    };
    push_table_line(
        table,
        &[
            Word::Text(b"post"),
            Word::Text(player.name.bytes()),
            Word::Number(start.posted(&player)),
        ],
        out,
    )?;
    push_ante(table, start, &player, out)
}

/// Writes the lines of what is posted.
fn push_posts(table: u8, start: &HandStart, out: &mut Vec<u8>) -> Result<(), AllocError>
    ensures ok { OnOk result (out.new.items ≡ out.old.items
        ++ (table_text table (post_lines start.now start.now.marks.small)
        ++ table_text table (post_lines start.now start.now.marks.big))) }
    ensures kept { Extends out.old.items out.new.items }
{
    push_post(table, start, start.marks.small, out)?;
    push_post(table, start, start.marks.big, out)
}

/// Finds the seat of the player of this name.
fn seat_of(start: &HandStart, name: Name) -> Option<u8>
    ensures { result ≡ seat_of_name start.now name }
{
    let mut players = start.seats.items().iter();
    players
        .find(|player| player.name == name)
        .map(|player| player.seat)
}

/// Writes the line of a player's own hole cards, where he is dealt in.
fn push_own(
    table: u8,
    start: &HandStart,
    who: Option<Name>,
    out: &mut Vec<u8>,
) -> Result<(), AllocError>
    requires { IsLawfulStart start.now }
    ensures ok { OnOk result (out.new.items
        ≡ out.old.items ++ table_text table (hole_lines (cards_at start.now (own_places who start.now)))) }
    ensures kept { Extends out.old.items out.new.items }
{
    let Some(name) = who else {
        return Ok(());
    };
    match seat_of(start, name) {
        Some(seat) => push_hole_cards(table, &[Word::Text(b"hole")], start, seat, out),
        None => Ok(()),
    }
}

/// Writes the lines of a hand that begins: its number and its marks, its players, what is posted, the own hole cards
/// of whoever is told, and what follows. Where memory runs out, `out` has something behind what it had.
pub fn push_opening(
    table: u8,
    who: Option<Name>,
    hand: &Hand,
    out: &mut Vec<u8>,
) -> Result<(), AllocError>
    ensures ok { OnOk result (out.new.items
        ≡ out.old.items ++ table_text table (opening_lines (seen_hand who hand.now))) }
    ensures kept { Extends out.old.items out.new.items }
{
    let start = hand.start();
    push_hand(table, start, out)?;
    push_seats(table, start.seats.items(), out)?;
    push_posts(table, start, out)?;
    push_own(table, start, who, out)?;
    push_following(table, MOST_STREETS, hand, out)
}
