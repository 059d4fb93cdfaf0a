//! What a line of the list says, and how events, answers and reports are written.

use super::texts::{is_made, is_same, text_of};
use betting_round::Act;
use card_set::{Card, Game};
use floor_events::{read_act, read_item, write_answer, write_event, write_report};
use floor_text::{List, Name, Refusal, read_number};
use level_plan::{Blind, PlanItem, PlanLine};
use seat_book::Place;
use std::alloc::{AllocError, Global};
use tournament_events::{Answer, Event, Item, Report, ReportOut, ReportSeat};

/// Lines that are not in the grammar: the first one is empty.
const OUTSIDE: &str = "
\x20
 *
go\x20
 go
go\r
go\0
\0
Go
goes
go now
stop 1
game
game poker
game holdem omaha
game  holdem
tables
tables 06
tables 00
tables +6
tables -1
tables 1.5
tables 6\x20
tables 6 6
tables\t6
tables six
tables 9007199254740992
blinds 50 100
blinds 50 100 050
blinds 50 100 50 0
blinds 50 100 50 025
blinds 50 100 50 25 25
blinds 50 100 50 -25
blinds 50 100 50\x20
shares
shares 500 x
limit
limit 04
limit four
limit 4 4
limit 4\x20
Limit 4
enter ann 1
enter ann 1 2 3
enter floor 1 2
enter 1ann 1 2
enter abcdefghijklmnopq 1 2
reenter
reenter ann 1
reenter ann 1 2 3
reenter ann 01 2
reenter ann 1 2\x20
reenter floor 1 2
reenter 1ann 1 2
re-enter ann 1 2
begin 1
begin 1 2c
act 1 ann
act 1 floor fold
act ann 1 fold
act 1 ann fold\x20
act 1 ann fold 0
act 1 ann Check
act 1 ann checks
act 1 ann call 100
act 1 ann all-in
act 1 ann bet
act 1 ann bet 0400
act 1 ann bet 400\x20
act 1 ann raise
act 1 ann raise to 400
act 1 ann raise 400 1
act 1 ann raise 9007199254740992
settle
settle 01
settle 1 1
time
time 01
time 1 ann
balance
balance 1
balance 1\x20
balance 1 02
balance 1 2 3
balance 1,2
balance 1.2
balance 1 ann
break
break 2
break 2 1.5
break 2 1.5\x20
break 2  ann
break 2 ann 1.5
break 02 1.5 ann
break 2 1.5 ann bob
break 2 1.5, ann
break 2 ,1.5 ann
break 2 1.5,,1.6 ann
break 2 1.5 ann,
break 2 1.5 ,ann
break 2 , ann
break 2 1.5 floor
break 2 1.5 ann,1bob
break 2 1.5 ann.bob
break 2 1 ann
break 2 1. ann
break 2 .5 ann
break 2 1..5 ann
break 2 1.5.6 ann
break 2 1.0 ann
break 2 0.1 ann
break 2 65.1 ann
break 2 1.11 ann
break 2 01.1 ann
break 2 1.01 ann
break 3 1.1,1.2,1.3,1.4,1.5,1.6,1.7,1.8,1.9,1.10,2.1 a,b,c,d,e,f,g,h,i,j
break 3 1.1,1.2,1.3,1.4,1.5,1.6,1.7,1.8,1.9,1.10 a,b,c,d,e,f,g,h,i,j,k
level\x20
level 2
levels
Level
race
race 1
race 1 2c
race 01 2c
race ann
hands
hands\x20
hands On
hands on off
hands  on
hands 1
round 1
rounds
begin 1 tc2d2h2s3c3d3h3s4c4d4h4s5c5d5h5s6c6d6h6s7c7d7h7s8c8d8h8s9c9d9h9sTcTdThTsJcJdJhJsQcQdQhQsKcKdKhKsAcAdAhAs
begin 1 2c2d2h2s3c3d3h3s4c4d4h4s5c5d5h5s6c6d6h6s7c7d7h7s8c8d8h8s9c9d9h9sTcTdThTsJcJdJhJsQcQdQhQsKcKdKhKsAcAdAh
race 64 2c2c2c2c2c2c2c2c2c2c2c2c2c2c2c2c2c2c2c2c2c2c2c2c2c2c2c2c2c2c2c2c2c2c2c2c2c2c2c2c2c2c2c2c2c2c2c2c2c2c2c
";

/// Tells whether a line holds no item.
fn is_outside(alloc: Global, line: &[u8]) -> Result<bool, AllocError> {
    Ok(read_act(line).is_none() && read_item(alloc, line)?.is_none())
}

/// Gives the first line that holds an item.
fn first_inside(alloc: Global, lines: &'static str) -> Result<Option<&'static str>, AllocError> {
    for line in lines.split_terminator('\n') {
        if !is_outside(alloc, line.as_bytes())? {
            return Ok(Some(line));
        }
    }
    Ok(None)
}

/// Tells whether lines that are no text hold no item.
fn are_outside(alloc: Global) -> Result<bool, AllocError> {
    Ok(is_outside(alloc, b"\xff")? && is_outside(alloc, b"stop\xff")?)
}

#[test]
fn lines_outside_the_grammar_hold_no_item(rt: HostRuntime) {
    let found = first_inside(rt.alloc(), OUTSIDE);
    let are_outside = are_outside(rt.alloc()).unwrap_or(false);
    assert!(rt; are_outside && matches!(found, Ok(None)), "{found:?}");
}

/// Notes and lines of events in their one spelling, and what they say: the first word, a name, and numbers. A game and
/// an act are told by their places in the grammar, a switch by 1 or 0, a list by how long it is, and a row by the ranks
/// and suits of its first and its last card. Numbers that are left out are 0.
const ITEMS: &str = "* : *
* go : *
** : *
*\r : *
* out 1 ann 140 : *
game holdem : game 0
game omaha : game 1
game hilo : game 2
tables 0 : tables 0
tables 64 : tables 64
seats 10 : seats 10
stack 9007199254740991 : stack 9007199254740991
buyin 0 : buyin 0
buyin 1000 : buyin 1000
late 3 : late 3
blinds 50 100 25 : blinds 50 100 25
blinds 50 100 25 1 : blinds 50 100 25 1
blinds 0 0 0 9007199254740991 : blinds 0 0 0 9007199254740991
shares 500 300 200 : shares 3
limit 0 : limit 0
limit 4 : limit 4
limit 10 : limit 10
go : go
enter Ann_01 0 64 : enter Ann_01 0 64
reenter Ann_01 0 64 : reenter Ann_01 0 64
reenter bob 9007199254740991 0 : reenter bob 9007199254740991 0
begin 1 2c2d2h2s3c3d3h3s4c4d4h4s5c5d5h5s6c6d6h6s7c7d7h7s8c8d8h8s9c9d9h9sTcTdThTsJcJdJhJsQcQdQhQsKcKdKhKsAcAdAhAs : begin 1 2 0 14 3
begin 1 As2d2h2s3c3d3h3s4c4d4h4s5c5d5h5s6c6d6h6s7c7d7h7s8c8d8h8s9c9d9h9sTcTdThTsJcJdJhJsQcQdQhQsKcKdKhKsAcAdAhAs : begin 1 14 3 14 3
act 12 ann fold : act ann 12 0
act 12 ann check : act ann 12 1
act 12 ann call : act ann 12 2
act 12 ann allin : act ann 12 3
act 12 ann bet 0 : act ann 12 4 0
act 12 ann bet 400 : act ann 12 4 400
act 12 ann raise 600 : act ann 12 5 600
act 12 ann raise 9007199254740991 : act ann 12 5 9007199254740991
time 5 : time 5
settle 3 : settle 3
balance 1 64 : balance 1 64
balance 0 9007199254740991 : balance 0 9007199254740991
break 2 64.10,1.6 bob,Ann_01 : break 2 2 2
break 3 1.1 a : break 3 1 1
break 2 1.5 ann : break 2 1 1
break 0 1.1,64.10 Floor : break 0 2 1
break 7 2.1 a,b,a : break 7 1 3
break 3 1.1,1.2,1.3,1.4,1.5,1.6,1.7,1.8,1.9,1.10 a,b,c,d,e,f,g,h,i,j : break 3 10 10
level : level
race 64 2c2c2c2c2c2c2c2c2c2c2c2c2c2c2c2c2c2c2c2c2c2c2c2c2c2c2c2c2c2c2c2c2c2c2c2c2c2c2c2c2c2c2c2c2c2c2c2c2c2c2c2c : race 64 2 0 2 0
hands on : hands 1
hands off : hands 0
round : round
stop : stop
";

/// What is said: a word, a name or nothing, and numbers.
#[derive(Clone, Copy)]
pub struct Telling<'a> {
    pub word: &'a [u8],
    pub name: &'a [u8],
    pub numbers: [u64; 5],
}

/// Makes what is said of a word and numbers.
pub fn said(word: &'static str, numbers: [u64; 5]) -> Telling<'static> {
    Telling {
        word: word.as_bytes(),
        name: b"",
        numbers,
    }
}

/// Makes what is said of a word, a name and numbers.
pub fn said_of<'a>(word: &'static str, name: &'a Name, numbers: [u64; 5]) -> Telling<'a> {
    Telling {
        word: word.as_bytes(),
        name: name.bytes(),
        numbers,
    }
}

/// Tells whether what is said is what a text has: the word, then the name if there is one, and the numbers.
pub fn is_told(told: &Telling<'_>, text: &str) -> bool {
    let mut words = text.split(' ');
    let mut numbers = [0; 5];
    let mut name = b"".as_slice();
    let mut count: usize = 0;
    let word = words.next().unwrap_or("");
    for word in words {
        match read_number(word.as_bytes()) {
            Some(number) => {
                if let Some(place) = numbers.get_mut(count) {
                    *place = number;
                }
                count = count.saturating_add(1);
            }
            None => name = word.as_bytes(),
        }
    }
    is_same(told.word, word.as_bytes()) && is_same(told.name, name) && told.numbers == numbers
}

/// Tells a level.
fn told_level(blind: &Blind) -> Telling<'static> {
    said(
        "blinds",
        [blind.small, blind.big, blind.unit, blind.ante, 0],
    )
}

/// Tells a line of a plan.
fn told_plan(line: &PlanLine) -> Telling<'static> {
    match line {
        PlanLine::Game(Game::Holdem) => said("game", [0; 5]),
        PlanLine::Game(Game::Omaha) => said("game", [1, 0, 0, 0, 0]),
        PlanLine::Game(Game::Hilo) => said("game", [2, 0, 0, 0, 0]),
        PlanLine::Tables(number) => said("tables", [*number, 0, 0, 0, 0]),
        PlanLine::Seats(number) => said("seats", [*number, 0, 0, 0, 0]),
        PlanLine::Stack(number) => said("stack", [*number, 0, 0, 0, 0]),
        PlanLine::Buyin(number) => said("buyin", [*number, 0, 0, 0, 0]),
        PlanLine::Late(number) => said("late", [*number, 0, 0, 0, 0]),
        PlanLine::Blinds(blind) => told_level(blind),
        PlanLine::Shares(shares) => said("shares", [shares.items().len() as u64, 0, 0, 0, 0]),
        PlanLine::Limit(number) => said("limit", [*number, 0, 0, 0, 0]),
    }
}

/// Tells an act at a table by its place in the grammar, and its amount or 0.
pub fn told_act(table: u64, act: Act) -> [u64; 5] {
    match act {
        Act::Fold => [table, 0, 0, 0, 0],
        Act::Check => [table, 1, 0, 0, 0],
        Act::Call => [table, 2, 0, 0, 0],
        Act::AllIn => [table, 3, 0, 0, 0],
        Act::Bet(amount) => [table, 4, amount, 0, 0],
        Act::Raise(amount) => [table, 5, amount, 0, 0],
    }
}

/// Tells a row of cards at a table.
fn told_row(table: u64, first: Card, last: Card) -> [u64; 5] {
    [
        table,
        u64::from(first.rank),
        u64::from(first.suit),
        u64::from(last.rank),
        u64::from(last.suit),
    ]
}

/// Tells an event.
fn told(event: &Event) -> Telling<'_> {
    match event {
        Event::Plan(line) => told_plan(line),
        Event::Go => said("go", [0; 5]),
        Event::Enter { name, table, seat } => said_of("enter", name, [*table, *seat, 0, 0, 0]),
        Event::Reenter { name, table, seat } => said_of("reenter", name, [*table, *seat, 0, 0, 0]),
        Event::Begin { table, row } => {
            said("begin", told_row(*table, row.cards[0], row.cards[51]))
        }
        Event::Act { table, name, act } => said_of("act", name, told_act(*table, *act)),
        Event::Time { table } => said("time", [*table, 0, 0, 0, 0]),
        Event::Settle { table } => said("settle", [*table, 0, 0, 0, 0]),
        Event::Balance { from, to } => said("balance", [*from, *to, 0, 0, 0]),
        Event::Break {
            table,
            seats,
            names,
        } => {
            let places = seats.items().len() as u64;
            said("break", [*table, places, names.items().len() as u64, 0, 0])
        }
        Event::Level => said("level", [0; 5]),
        Event::Race { table, row } => said("race", told_row(*table, row.cards[0], row.cards[51])),
        Event::Hands(on) => said("hands", [u64::from(*on), 0, 0, 0, 0]),
        Event::Round => said("round", [0; 5]),
        Event::Stop => said("stop", [0; 5]),
    }
}

/// Tells whether a line is read apart as the act that it says, or as none where it says none.
fn is_act(line: &str, text: &str) -> bool {
    match read_act(line.as_bytes()) {
        Some(read) => is_told(
            &said_of("act", &read.name, told_act(read.table, read.act)),
            text,
        ),
        None => !line.starts_with("act"),
    }
}

/// Writes an event behind other words.
fn written(alloc: Global, event: &Event) -> Result<Vec<u8>, AllocError> {
    let mut out = Vec::from_slice(alloc, b"ok ")?;
    write_event(event, &mut out)?;
    Ok(out)
}

/// Tells whether an event says what a text has, and is written as its line.
fn is_event(alloc: Global, event: &Event, line: &str, text: &str) -> Result<bool, AllocError> {
    let right = text_of(alloc, b"ok ", line.as_bytes(), 1, b"")?;
    Ok(is_told(&told(event), text) && is_made(written(alloc, event), &right))
}

/// Tells whether a line is read as the item that says what a text has.
fn is_item(alloc: Global, line: &str, text: &str) -> Result<bool, AllocError> {
    match &read_item(alloc, line.as_bytes())? {
        Some(Item::Event(event)) => is_event(alloc, event, line, text),
        Some(Item::Note) => Ok(text == "*"),
        None => Ok(false),
    }
}

/// Gives the first row whose line is not read as what stands behind it.
fn first_misread(alloc: Global) -> Result<Option<&'static str>, AllocError> {
    for row in ITEMS.lines() {
        let (line, text) = row.split_once(" : ").unwrap_or((row, ""));
        if !(is_act(line, text) && is_item(alloc, line, text)?) {
            return Ok(Some(row));
        }
    }
    Ok(None)
}

#[test]
fn items_are_read_and_events_are_written_again(rt: HostRuntime) {
    let misread = first_misread(rt.alloc());
    assert!(rt; matches!(misread, Ok(None)), "{misread:?}");
}

/// Tells whether a note may hold any bytes.
fn is_note(alloc: Global) -> Result<bool, AllocError> {
    Ok(matches!(read_item(alloc, b"* \xff\0")?, Some(Item::Note)))
}

#[test]
fn a_note_holds_any_bytes(rt: HostRuntime) {
    assert!(rt; is_note(rt.alloc()).unwrap_or(false));
}

/// Tells whether a break takes two to these places in turn.
fn is_break_of_two(event: &Event) -> bool {
    let Event::Break { seats, names, .. } = event else {
        return false;
    };
    let places = [
        Place {
            table: 64,
            seat: 10,
        },
        Place { table: 1, seat: 6 },
    ];
    match names.items() {
        [first, second] => {
            seats.items() == places.as_slice()
                && is_same(first.bytes(), b"bob")
                && is_same(second.bytes(), b"Ann_01")
        }
        _ => false,
    }
}

/// Tells whether a line is read as such a break.
fn breaks_two(alloc: Global, line: &[u8]) -> Result<bool, AllocError> {
    match &read_item(alloc, line)? {
        Some(Item::Event(event)) => Ok(is_break_of_two(event)),
        _ => Ok(false),
    }
}

#[test]
fn breaks_tell_places_and_names_in_turn(rt: HostRuntime) {
    let is_so = breaks_two(rt.alloc(), b"break 2 64.10,1.6 bob,Ann_01");
    assert!(rt; is_so.unwrap_or(false));
}

/// How a line begins, what follows so many times, what ends it, how long it is, and how many shares it has.
static SHARES: [(&[u8], &[u8], usize, &[u8], usize, Option<usize>); 5] = [
    (b"shares 500", b" 1", 0, b"", 10, Some(1)),
    (b"shares 500", b" 1", 63, b"", 136, Some(64)),
    (b"shares 500", b" 1", 64, b"", 138, None),
    (
        b"shares",
        b" 12345",
        62,
        b" 1234567890 1234567890",
        400,
        Some(64),
    ),
    (
        b"shares",
        b" 12345",
        62,
        b" 1234567890 12345678901",
        401,
        None,
    ),
];

/// Counts the shares of a line, where it has some.
fn count_of_shares(alloc: Global, line: &[u8]) -> Result<Option<usize>, AllocError> {
    match &read_item(alloc, line)? {
        Some(Item::Event(Event::Plan(PlanLine::Shares(shares)))) => Ok(Some(shares.items().len())),
        _ => Ok(None),
    }
}

/// Tells whether a line is as long as a row says, and has as many shares.
fn has_shares(
    alloc: Global,
    row: &(&[u8], &[u8], usize, &[u8], usize, Option<usize>),
) -> Result<bool, AllocError> {
    let line = text_of(alloc, row.0, row.1, row.2, row.3)?;
    Ok(line.len() == row.4 && count_of_shares(alloc, &line)? == row.5)
}

#[test]
fn shares_are_at_most_64_and_lines_400_bytes(rt: HostRuntime) {
    for row in &SHARES {
        assert!(rt;
            has_shares(rt.alloc(), row).unwrap_or(false),
            "{} bytes",
            row.4
        );
    }
}

/// Answers, and what is written of them.
static ANSWERS: [(Answer, &[u8]); 7] = [
    (Answer::Ok, b"ok\n"),
    (Answer::No(Refusal::Syntax), b"no 1 Syntax\n"),
    (Answer::No(Refusal::NotTurn), b"no 21 NotTurn\n"),
    (Answer::No(Refusal::ListFull), b"no 44 ListFull\n"),
    (Answer::No(Refusal::StillIn), b"no 45 StillIn\n"),
    (
        Answer::PlanWrong(PlanItem::Seats),
        b"no 4 PlanWrong seats\n",
    ),
    (
        Answer::PlanWrong(PlanItem::Limit),
        b"no 4 PlanWrong limit\n",
    ),
];

/// Writes an answer.
pub fn answered(alloc: Global, answer: &Answer) -> Result<Vec<u8>, AllocError> {
    let mut out = Vec::new(alloc);
    write_answer(answer, &mut out)?;
    Ok(out)
}

#[test]
fn answers_have_their_text(rt: HostRuntime) {
    for (answer, text) in &ANSWERS {
        assert!(rt; is_made(answered(rt.alloc(), answer), text), "{text:?}");
    }
}

/// Makes a report of two players who are in, and of one who is out.
fn report(alloc: Global, names: [Name; 3]) -> Result<Report, AllocError> {
    let [ann, bob, cat] = names;
    let seats = vec![in alloc;
        ReportSeat {
            place: Place { table: 1, seat: 1 },
            name: ann,
            stack: Some(1000)
        },
        ReportSeat {
            place: Place { table: 2, seat: 10 },
            name: bob,
            stack: None
        },
    ]?;
    let outs = vec![in alloc;
        ReportOut {
            place: 3,
            name: cat,
            prize: 250
        },
    ]?;
    Ok(Report {
        level: 4,
        sold: 3000,
        removed: 75,
        added: 100,
        rest: 1000,
        play: 2025,
        seats: List::from_vec(seats),
        outs: List::from_vec(outs),
    })
}

/// Writes a report behind an answer.
fn reported(alloc: Global) -> Option<Vec<u8>> {
    let names = [
        Name::read(b"ann")?,
        Name::read(b"bob")?,
        Name::read(b"cat")?,
    ];
    let report = report(alloc, names).ok()?;
    let mut out = Vec::from_slice(alloc, b"ok\n").ok()?;
    write_report(&report, &mut out).ok()?;
    Some(out)
}

#[test]
fn a_report_has_its_text(rt: HostRuntime) {
    assert!(rt; reported(rt.alloc()).is_some_and(|text| is_same(&text, REPORT)));
}

/// A report behind an answer.
const REPORT: &[u8] = b"ok
* report
* level 4
* sold 3000
* removed 75
* added 100
* rest 1000
* play 2025
* seat 1 1 ann 1000
* seat 2 10 bob play
* out 3 cat 250
* end
";
