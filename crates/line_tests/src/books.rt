//! Plays a book by hand beside a tournament: the hands are played outside of the book, and both tell the same. What
//! goes wrong is told by `None`.

ghost use Rattle.std.specs.Prelude.{◌≡◌, Some, IfSome};
ghost use Rattle.tournament_rules.specs.Books.{start_at};

use super::book_scripts::{BOOK_SCRIPTS, BookScript};
use super::events::answered;
use super::texts::{is_made, is_same, text_of};
use floor_core::{Book, Tournament};
use floor_events::{read_item, write_report};
use level_plan::{Plan, PlanDraft};
use std::alloc::Global;
use table_engine::Hand;
use tournament_events::{Answer, Event, Item, Report};

/// A book and a tournament with the same plan.
#[derive(Drop)]
struct Beside {
    book: Book,
    tournament: Tournament,
}

/// Goes on where something is so.
fn so(it: bool) -> Option<()> {
    if it { Some(()) } else { None }
}

/// Reads the event of a line.
fn event(alloc: Global, line: &str) -> Option<Event> {
    match read_item(alloc, line.as_bytes()) {
        Ok(Some(Item::Event(event))) => Some(event),
        _ => None,
    }
}

/// Lets a tournament take an event.
fn apply(tournament: &mut Tournament, event: &Event) -> Option<Answer> {
    if tournament.accepted() >= 1 << 60 {
        return None;
    }
    tournament.apply(event).ok()
}

/// Lets a tournament take lines, each of which it answers by `ok`.
fn take_all(alloc: Global, tournament: &mut Tournament, lines: &str) -> Option<()> {
    for line in lines.lines() {
        so(apply(tournament, &event(alloc, line)?)? == Answer::Ok)?;
    }
    Some(())
}

/// Reads the plan of the lines.
fn plan(alloc: Global, lines: &str) -> Option<Plan> {
    let mut draft = PlanDraft::new(alloc);
    for line in lines.lines() {
        if let Event::Plan(line) = event(alloc, line)? {
            draft.line(&line).ok()?;
        }
    }
    draft.go().ok()
}

/// Opens a tournament with the plan.
fn planned(alloc: Global, lines: &str) -> Option<Tournament> {
    let mut tournament = Tournament::new(alloc).ok()?;
    take_all(alloc, &mut tournament, lines)?;
    Some(tournament)
}

/// Opens a book and a tournament with the plan.
fn both(alloc: Global, lines: &str) -> Option<Beside> {
    let book = Book::new(alloc, plan(alloc, lines)?).ok()?;
    let tournament = planned(alloc, lines)?;
    Some(Beside { book, tournament })
}

/// Lets a book take a line that it takes by itself.
fn order(book: &mut Book, event: &Event) -> Option<Answer> {
    if book.accepted() >= 1 << 60 {
        return None;
    }
    match event {
        Event::Enter { .. }
        | Event::Reenter { .. }
        | Event::Balance { .. }
        | Event::Break { .. }
        | Event::Level
        | Event::Race { .. }
        | Event::Hands(_)
        | Event::Round
        | Event::Stop => book.order(event).ok(),
        _ => None,
    }
}

/// Lets both take a line that the book takes by itself, and both answer alike.
fn order_both(both: &mut Beside, event: &Event) -> Option<Answer> {
    let told = order(&mut both.book, event)?;
    so(apply(&mut both.tournament, event)? == told)?;
    Some(told)
}

/// Lets both take the event of a line that the book takes by itself.
fn order_text(alloc: Global, both: &mut Beside, line: &str) -> Option<Answer> {
    order_both(both, &event(alloc, line)?)
}

/// Lets both take a line that the book takes by itself, which both answer as it says.
fn order_line(alloc: Global, both: &mut Beside, line: &str) -> Option<()> {
    let (line, answer) = line.split_once(" : ").unwrap_or((line, "ok"));
    let told = order_text(alloc, both, line)?;
    let text = text_of(alloc, answer.as_bytes(), b"\n", 1, b"").ok()?;
    so(is_made(answered(alloc, &told), &text))
}

/// Lets both take lines that the book takes by itself.
fn order_all(alloc: Global, both: &mut Beside, lines: &str) -> Option<()> {
    for line in lines.lines() {
        order_line(alloc, both, line)?;
    }
    Some(())
}

/// Begins a hand outside of the book.
fn begin(book: &mut Book, event: &Event) -> Option<Hand>
    ensures { IfSome result (λ hand. start_at book.new.started hand.start.table ≡ Some hand.start) }
{
    if book.accepted() >= 1 << 60 {
        return None;
    }
    match event {
        Event::Begin { table, row } => book.begin(*table, row).ok(),
        _ => None,
    }
}

/// Lets a player act in a hand, where the event is an act.
fn act(hand: &mut Hand, event: &Event) -> Option<()>
    ensures { hand.new.start ≡ hand.old.start }
{
    if let Event::Act { name, act, .. } = event {
        hand.act(*name, *act).ok()?;
    }
    Some(())
}

/// Lets the players of a hand act, as lines tell.
fn act_all(alloc: Global, hand: &mut Hand, lines: &str) -> Option<()>
    ensures { hand.new.start ≡ hand.old.start }
{
    for line in lines.lines() {
        act(hand, &event(alloc, line)?)?;
    }
    Some(())
}

/// Ends a hand: the book settles what it came to, or stops, and then the hand is void.
fn end(book: &mut Book, hand: Hand) -> Option<()>
    requires { start_at book.old.started hand.start.table ≡ Some hand.start }
{
    if book.accepted() >= 1 << 60 {
        return None;
    }
    if hand.is_over() {
        book.settle(&hand.finish());
        return Some(());
    }
    let stopped = book.order(&Event::Stop).ok()?;
    let _ = hand.void();
    so(stopped == Answer::Ok)
}

/// Plays a hand outside of the book.
fn hand(alloc: Global, book: &mut Book, lines: &str) -> Option<()> {
    let (first, rest) = lines.split_once("\n").unwrap_or((lines, ""));
    let mut hand = begin(book, &event(alloc, first)?)?;
    act_all(alloc, &mut hand, rest)?;
    end(book, hand)
}

/// Writes a report out.
fn text(alloc: Global, report: &Report) -> Option<Vec<u8>> {
    let mut text = Vec::new(alloc);
    write_report(report, &mut text).ok()?;
    Some(text)
}

/// Gives the text of the report, which is the same on both sides, as is whether the tournament is over.
fn report(alloc: Global, both: &Beside) -> Option<Vec<u8>> {
    let ours = text(alloc, &both.book.report().ok()?)?;
    let theirs = text(alloc, &both.tournament.report().ok()?)?;
    so(is_same(&ours, &theirs) && both.book.over() == both.tournament.over())?;
    Some(ours)
}

/// Plays a part on both sides, and both report the same.
fn go_on(alloc: Global, both: &mut Beside, part: &str) -> Option<()> {
    if part.starts_with("begin") {
        hand(alloc, &mut both.book, part)?;
        take_all(alloc, &mut both.tournament, part)?;
    } else {
        order_all(alloc, both, part)?;
    }
    report(alloc, both)?;
    Some(())
}

/// Plays parts on both sides.
fn go_on_all(alloc: Global, both: &mut Beside, parts: &[&str]) -> Option<()> {
    for part in parts {
        go_on(alloc, both, part)?;
    }
    Some(())
}

/// Tells whether the tournament is over as is told, and the report has this text.
fn ends_so(alloc: Global, both: &Beside, over: bool, text: &str) -> Option<bool> {
    let told = report(alloc, both)?;
    Some(both.book.over() == over && is_same(&told, text.as_bytes()))
}

/// Plays parts on both sides, and tells whether they end so.
fn play_on(
    alloc: Global,
    both: &mut Beside,
    parts: &[&str],
    over: bool,
    text: &str,
) -> Option<bool> {
    go_on_all(alloc, both, parts)?;
    ends_so(alloc, both, over, text)
}

/// Plays a script on both sides, and tells whether it ends as the script says.
fn play(alloc: Global, script: &BookScript) -> Option<bool> {
    let mut both = both(alloc, script.plan)?;
    play_on(alloc, &mut both, script.parts, script.over, script.report)
}

#[test]
fn a_book_by_hand_tells_what_a_tournament_tells(rt: HostRuntime) {
    for script in BOOK_SCRIPTS {
        assert!(rt;
            play(rt.alloc(), script).unwrap_or(false),
            "{}",
            script.name
        );
    }
}
