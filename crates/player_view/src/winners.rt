//! The lines of what the winners get.

ghost use Rattle.std.specs.Prelude.{◌≡◌, ◌≤◌, ◌++◌, true, map, OnOk};
ghost use Rattle.std.specs.List.{flat_map, list_all};
ghost use Rattle.line_words.specs.Words.{Extends};
ghost use Rattle.level_plan.specs.Items.{is_between};
ghost use Rattle.table_engine.specs.Awards.{awards_in_hand};
ghost use Rattle.view_rules.specs.Seen.{winners_of};
ghost use Rattle.view_rules.specs.Spelling.{WinLine};
ghost use Rattle.player_view.specs.Each.{table_text, win_lines};

use crate::clockwise::in_turn;
use crate::line::push_table_line;
use line_words::Word;
use std::alloc::AllocError;
use table_engine::{Awards, Hand, StartSeat};

/// Writes the line of what a player gets of a hand that is over, where he gets something.
fn push_win(
    table: u8,
    hand: &Hand,
    awards: &Awards,
    player: &StartSeat,
    out: &mut Vec<u8>,
) -> Result<(), AllocError>
    requires awards { awards.now ≡ awards_in_hand hand.now }
    requires first { 1 ≤ player.now.seat }
    requires last { player.now.seat ≤ 10 }
    ensures ok { OnOk result (out.new.items ≡ out.old.items ++ table_text table (win_lines hand.now player.now)) }
    ensures kept { Extends out.old.items out.new.items }
{
    let won = awards.award_in(player.seat, hand.is_live(player));
    if won == 0 {
        return Ok(());
    }
    push_table_line(
        table,
        &[
            Word::Text(b"win"),
            Word::Text(player.name.bytes()),
            Word::Number(won),
        ],
        out,
    )
}

/// Writes the lines of those among these players who get something of a hand that is over.
fn push_won(
    table: u8,
    hand: &Hand,
    awards: &Awards,
    players: &[StartSeat],
    out: &mut Vec<u8>,
) -> Result<(), AllocError>
    requires awards { awards.now ≡ awards_in_hand hand.now }
    requires seats { list_all (λ player. is_between 1 10 player.seat) players.now ≡ true }
    ensures ok { OnOk result (out.new.items
        ≡ out.old.items ++ flat_map (λ player. table_text table (win_lines hand.now player)) players.now) }
    ensures kept { Extends out.old.items out.new.items }
{
    for player in players {
        push_win(table, hand, awards, player, out)?;
    }
    Ok(())
}

/// Writes the lines of what each winner gets, where the hand is over.
pub(crate) fn push_winners(table: u8, hand: &Hand, out: &mut Vec<u8>) -> Result<(), AllocError>
    ensures ok { OnOk result (out.new.items ≡ out.old.items ++ table_text table (map WinLine (winners_of hand.now))) }
    ensures kept { Extends out.old.items out.new.items }
{
    if !hand.is_over() {
        return Ok(());
    }
    let players = in_turn(hand.start());
    let awards = hand.awards();
    push_won(table, hand, &awards, players.first, out)?;
    push_won(table, hand, &awards, players.last, out)
}
