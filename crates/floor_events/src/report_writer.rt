//! Reports are written.

ghost use Rattle.std.specs.Prelude.{◌≡◌, ◌∷◌, ◌++◌, ℕ, List, [], codes, OnOk, OnErr};
ghost use Rattle.std.specs.List.{flat_map};
ghost use Rattle.floor_events.specs.Spelling.{report_head, report_end, seat_line, out_line, report_text};
ghost use Rattle.line_words.specs.Words.{line_of_words, Extends};

use line_words::{Word, push_line, push_lines, whole_or_nothing};
use std::alloc::AllocError;
use tournament_events::{Report, ReportOut, ReportSeat};

/// What has a line of its own in a report.
trait ReportLine {
    /// The line of each value.
    ghost line: { Self → List ℕ };

    /// Writes the line at the end of `out`. Where memory runs out, `out` has something behind what it had.
    fn push_report_line(&self, out: &mut Vec<u8>) -> Result<(), AllocError>
        ensures ok { OnOk result (out.new.items ≡ out.old.items ++ line self.now) }
        ensures kept { Extends out.old.items out.new.items };
}

fn push_head(report: &Report, out: &mut Vec<u8>) -> Result<(), AllocError>
    ensures ok { OnOk result (out.new.items ≡ out.old.items ++ report_head report.now) }
    ensures kept { Extends out.old.items out.new.items }
{
    let star = Word::Text(b"*");
    push_lines(
        out,
        &[
            &[star, Word::Text(b"report")],
            &[star, Word::Text(b"level"), Word::Number(report.level)],
            &[star, Word::Text(b"sold"), Word::Number(report.sold)],
            &[star, Word::Text(b"removed"), Word::Number(report.removed)],
            &[star, Word::Text(b"added"), Word::Number(report.added)],
            &[star, Word::Text(b"rest"), Word::Number(report.rest)],
            &[star, Word::Text(b"play"), Word::Number(report.play)],
        ],
    )
}

impl ReportLine for ReportSeat {
    ghost line = { seat_line };

    fn push_report_line(&self, out: &mut Vec<u8>) -> Result<(), AllocError> {
        let stack = match self.stack {
            None => Word::Text(b"play"),
            Some(stack) => Word::Number(stack),
        };
        push_line(
            out,
            &[
                Word::Text(b"*"),
                Word::Text(b"seat"),
                Word::Number(u64::from(self.place.table)),
                Word::Number(u64::from(self.place.seat)),
                Word::Text(self.name.bytes()),
                stack,
            ],
        )
    }
}

impl ReportLine for ReportOut {
    ghost line = { out_line };

    fn push_report_line(&self, out: &mut Vec<u8>) -> Result<(), AllocError> {
        push_line(
            out,
            &[
                Word::Text(b"*"),
                Word::Text(b"out"),
                Word::Number(u64::from(self.place)),
                Word::Text(self.name.bytes()),
                Word::Number(self.prize),
            ],
        )
    }
}

/// Writes the lines of players one after another.
fn push_players<T: ReportLine>(players: &[T], out: &mut Vec<u8>) -> Result<(), AllocError>
    ensures ok { OnOk result (out.new.items ≡ out.old.items ++ flat_map T.line players.now) }
    ensures kept { Extends out.old.items out.new.items }
{
    for player in players {
        player.push_report_line(out)?;
    }
    Ok(())
}

fn push_report(report: &Report, out: &mut Vec<u8>) -> Result<(), AllocError>
    ensures ok { OnOk result (out.new.items ≡ out.old.items ++ report_text report.now) }
    ensures kept { Extends out.old.items out.new.items }
{
    push_head(report, out)?;
    push_players(report.seats.items(), out)?;
    push_players(report.outs.items(), out)?;
    push_line(out, &[Word::Text(b"*"), Word::Text(b"end")])
}

/// Writes a report at the end of `out`, all its lines. After want of memory `out` is as before.
pub fn write_report(report: &Report, out: &mut Vec<u8>) -> Result<(), AllocError>
    ensures ok { OnOk result (out.new.items ≡ out.old.items ++ report_text report.now) }
    ensures err { OnErr result (out.new.items ≡ out.old.items) }
{
    let before = out.len();
    let written = push_report(report, out);
    whole_or_nothing(written, before, out)
}
