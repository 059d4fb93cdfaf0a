//! The lines of the hands that are tabled.

ghost use Rattle.std.specs.Prelude.{◌≡◌, ◌++◌, map, OnOk};
ghost use Rattle.std.specs.List.{flat_map};
ghost use Rattle.line_words.specs.Words.{Extends};
ghost use Rattle.table_engine.specs.Starts.{IsLawfulStart};
ghost use Rattle.view_rules.specs.Shown.{is_shown_down, tabled_players};
ghost use Rattle.view_rules.specs.Seen.{tabled};
ghost use Rattle.view_rules.specs.Spelling.{ShowLine, Table, line_text};
ghost use Rattle.player_view.specs.Each.{shown_lines, table_text};

use crate::clockwise::in_turn;
use crate::hole_cards::push_hole_cards;
use line_words::Word;
use std::alloc::AllocError;
use table_engine::{Hand, HandStart, StartSeat};

/// Writes the line of a player's tabled hand.
#[tactic(auto, unfolding(view_rules::specs::Spelling::line_text))]
fn push_show(
    table: u8,
    start: &HandStart,
    player: &StartSeat,
    out: &mut Vec<u8>,
) -> Result<(), AllocError>
    requires { IsLawfulStart start.now }
    ensures ok { OnOk result (out.new.items
        ≡ out.old.items ++ line_text (Table table (ShowLine (tabled start.now player.now)))) }
    ensures kept { Extends out.old.items out.new.items }
{
    let words = [Word::Text(b"show"), Word::Text(player.name.bytes())];
    push_hole_cards(table, &words, start, player.seat, out)
}

/// Writes the line of a player's tabled hand, where he is live.
fn push_shown(
    table: u8,
    hand: &Hand,
    player: &StartSeat,
    out: &mut Vec<u8>,
) -> Result<(), AllocError>
    ensures ok { OnOk result (out.new.items ≡ out.old.items ++ table_text table (shown_lines hand.now player.now)) }
    ensures kept { Extends out.old.items out.new.items }
{
    if hand.is_live(player) {
        push_show(table, hand.start(), player, out)
    } else {
        Ok(())
    }
}

/// Writes the lines of the tabled hands of those who are live among these players.
fn push_tabled(
    table: u8,
    hand: &Hand,
    players: &[StartSeat],
    out: &mut Vec<u8>,
) -> Result<(), AllocError>
    ensures ok { OnOk result (out.new.items
        ≡ out.old.items ++ flat_map (λ player. table_text table (shown_lines hand.now player)) players.now) }
    ensures kept { Extends out.old.items out.new.items }
{
    for player in players {
        push_shown(table, hand, player, out)?;
    }
    Ok(())
}

/// Tells whether a hand is shown down.
fn is_shown_down(hand: &Hand) -> bool
    ensures { result ≡ is_shown_down hand.now }
{
    hand.is_over() && !hand.is_won_by_folds()
}

/// Writes the lines of the hands that are tabled, where the hand is shown down.
pub(crate) fn push_showdown(table: u8, hand: &Hand, out: &mut Vec<u8>) -> Result<(), AllocError>
    ensures ok { OnOk result (out.new.items ≡ out.old.items
        ++ table_text table (map ShowLine (map (tabled hand.now.start) (tabled_players hand.now)))) }
    ensures kept { Extends out.old.items out.new.items }
{
    if !is_shown_down(hand) {
        return Ok(());
    }
    let players = in_turn(hand.start());
    push_tabled(table, hand, players.first, out)?;
    push_tabled(table, hand, players.last, out)
}
