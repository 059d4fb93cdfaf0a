//! Answers are written.

ghost use Rattle.std.specs.Prelude.{◌≡◌, ◌++◌, OnOk, OnErr};
ghost use Rattle.line_words.specs.Words.{Extends};
ghost use Rattle.floor_events.specs.Spelling.{item_word, answer_text};

use level_plan::PlanItem;
use line_words::{Word, push_line, whole_or_nothing};
use std::alloc::AllocError;
use tournament_events::Answer;

fn item_word(item: PlanItem) -> &'static [u8]
    ensures { result.now ≡ item_word item }
{
    match item {
        PlanItem::Toml => b"toml",
        PlanItem::Game => b"game",
        PlanItem::Tables => b"tables",
        PlanItem::Seats => b"seats",
        PlanItem::Stack => b"stack",
        PlanItem::Buyin => b"buyin",
        PlanItem::Late => b"late",
        PlanItem::Blinds => b"blinds",
        PlanItem::Shares => b"shares",
        PlanItem::Limit => b"limit",
        PlanItem::FloorWord => b"floor_word",
        PlanItem::Words => b"words",
    }
}

fn push_answer(answer: Answer, out: &mut Vec<u8>) -> Result<(), AllocError>
    ensures ok { OnOk result (out.new.items ≡ out.old.items ++ answer_text answer) }
    ensures kept { Extends out.old.items out.new.items }
{
    match answer {
        Answer::Ok => push_line(out, &[Word::Text(b"ok")]),
        Answer::No(refusal) => push_line(
            out,
            &[
                Word::Text(b"no"),
                Word::Number(refusal.number()),
                Word::Text(refusal.name().as_bytes()),
            ],
        ),
        Answer::PlanWrong(item) => push_line(
            out,
            &[
                Word::Text(b"no"),
                Word::Text(b"4"),
                Word::Text(b"PlanWrong"),
                Word::Text(item_word(item)),
            ],
        ),
    }
}

/// Writes an answer at the end of `out`, with its line feed. After want of memory `out` is as before.
pub fn write_answer(answer: &Answer, out: &mut Vec<u8>) -> Result<(), AllocError>
    ensures ok { OnOk result (out.new.items ≡ out.old.items ++ answer_text answer.now) }
    ensures err { OnErr result (out.new.items ≡ out.old.items) }
{
    let before = out.len();
    let written = push_answer(*answer, out);
    whole_or_nothing(written, before, out)
}
