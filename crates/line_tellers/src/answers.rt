//! Lines are answered one by one, and at the end comes the report.

ghost use Rattle.std.specs.Prelude.{◌≡◌, ◌<◌, ◌+◌, ◌^◌, ◌++◌, ℕ, [], Some, IfOk, IfSome, OnOk};
ghost use Rattle.floor_events.specs.Grammar.{item_of_bytes};
ghost use Rattle.floor_events.specs.Spelling.{answer_text};
ghost use Rattle.replay_rules.specs.Replay.{answer_to_item, state_after_item, replay_text};
ghost use Rattle.line_tellers.specs.Handed.{item_of_next};
ghost use Rattle.line_tellers.specs.Runs.{HasRun};
ghost use Rattle.line_tellers.specs.Told.{answers_told};

use crate::lines::tell_lines;
use crate::teller::{LineTeller, put_text};
use command_lines::Fault;
use floor_core::Tournament;
use floor_events::{read_act, read_item, write_answer, write_report};
use floor_text::{Next, Refusal, Sink, Source};
use std::alloc::{AllocError, Global};
use std::marker::Model;
use tournament_events::{Answer, Item};

/// Answers a line of at most 400 bytes.
fn answer_line(
    alloc: Global,
    tournament: &mut Tournament,
    line: &[u8],
) -> Result<Answer, AllocError>
    requires { tournament.old.accepted < 2 ^ 60 }
    ensures answer { IfOk result (λ answer. answer ≡ answer_to_item tournament.old (item_of_bytes line.now)) }
    ensures state { OnOk result (tournament.new ≡ state_after_item tournament.old (item_of_bytes line.now)) }
{
    if let Some(act) = read_act(line) {
        return tournament.act(act.table, act.name, act.act);
    }
    match read_item(alloc, line)? {
        Some(Item::Event(event)) => tournament.apply(&event),
        Some(Item::Note) => Ok(Answer::Ok),
        None => Ok(Answer::No(Refusal::Syntax)),
    }
}

/// Answers what was handed out: a line, or one that is too long, which is none of the grammar.
fn answer_handed(
    alloc: Global,
    tournament: &mut Tournament,
    handed: Next,
    line: &[u8],
) -> Result<Answer, AllocError>
    requires { tournament.old.accepted < 2 ^ 60 }
    ensures answer { IfOk result (λ answer. answer ≡ answer_to_item tournament.old (item_of_next handed line.now)) }
    ensures state { OnOk result (tournament.new ≡ state_after_item tournament.old (item_of_next handed line.now)) }
{
    match handed {
        Next::Line => answer_line(alloc, tournament, line),
        Next::TooLong | Next::End => Ok(Answer::No(Refusal::Syntax)),
    }
}

/// Tells what each line is answered, and at the end the report. The text of an accepted line stands in the program, and
/// that of the last refusal is kept for as long as the same one comes. Contracts see it as the text that is due.
#[derive(Drop)]
struct AnswerTeller {
    /// Whether the text of an accepted line is due, and not the one that is kept.
    accepted: bool,
    /// The answer whose text is kept, if it is one's.
    answer: Option<Answer>,
    text: Vec<u8>,
}

impl Model for AnswerTeller {
    ghost use Rattle.std.specs.Prelude.{◌≡◌, ℕ, List, if◌then◌else◌};
    ghost use Rattle.std.specs.Option.{ForSome};
    ghost use Rattle.tournament_events.specs.declared.answer.Answer.TheVariants as answers;
    ghost use Rattle.floor_events.specs.Spelling.{answer_text};

    ghost Value = { List ℕ };

    ghost view = { λ teller. if teller.accepted then answer_text answers.Ok else teller.text.items };

    ghost invariant = { λ teller. ForSome teller.answer (λ answer. teller.text.items ≡ answer_text answer) };
}

impl AnswerTeller {
    /// Makes a room for texts, with none due yet.
    fn new(alloc: Global) -> AnswerTeller
        ensures { result ≡ [] }
    {
        AnswerTeller {
            accepted: false,
            answer: None,
            text: Vec::new(alloc),
        }
    }

    /// Has the text of an answer due, and puts it together where it is not there.
    fn keep(&mut self, answer: &Answer) -> Result<(), AllocError>
        ensures { OnOk result (self.new ≡ answer_text answer.now) }
    {
        if let Answer::Ok = answer {
            self.accepted = true;
            return Ok(());
        }
        self.accepted = false;
        if self.answer == Some(*answer) {
            return Ok(());
        }
        self.answer = None;
        self.text.clear();
        write_answer(answer, &mut self.text)?;
        self.answer = Some(*answer);
        Ok(())
    }
}

impl LineTeller for AnswerTeller {
    ghost telling = { λ _. answers_told };

    ghost due = { λ text. text };

    fn take(
        &mut self,
        alloc: Global,
        tournament: &mut Tournament,
        handed: Next,
        line: &[u8],
    ) -> Result<(), AllocError> {
        let answer = answer_handed(alloc, tournament, handed, line)?;
        self.keep(&answer)
    }

    #[tactic(auto, unfolding(replay_rules::specs::Replay::final_text))]
    fn end(&mut self, tournament: &Tournament) -> Result<(), AllocError> {
        self.accepted = false;
        self.answer = None;
        self.text.clear();
        write_report(&tournament.report()?, &mut self.text)
    }

    fn put<O: Sink>(&self, may_wait: bool, out: &mut O) -> Result<(), Fault> {
        if self.accepted {
            put_text(b"ok\n", may_wait, out)
        } else {
            put_text(&self.text, may_wait, out)
        }
    }
}

/// Answers all lines of the input, and puts the report behind the answers.
pub fn replay<I: Source, O: Sink>(alloc: Global, input: &mut I, out: &mut O) -> Result<(), Fault>
    ensures run { HasRun I.left I.faults O.written O.held O.faults answers_told
        input.old input.new out.old out.new result }
    ensures text { OnOk result (IfSome (I.left input.old)
        (λ bytes. IfSome (O.written out.old) (λ before. O.written out.new ≡ Some (before ++ replay_text bytes)))) }
{
    let mut teller = AnswerTeller::new(alloc);
    tell_lines(alloc, &mut teller, input, out)
}
