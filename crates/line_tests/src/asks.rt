//! What the clients of a session say, and what they are replied.

use super::events::{Telling, is_told, said, said_of, told_act};
use super::texts::is_same;
use dock_rules::Ask;
use floor_text::{Name, Refusal};
use plan_files::{Words, served_from_toml};
use session_lines::{LONGEST_REPLY, Meaning, Reply, ReplyText, Request, Speaker, read_line};
use std::alloc::{AllocError, Global};

/// A plan file with the words of the floor, ann and Bob_2.
const FILE: &str = "game = \"holdem\"
tables = 3
seats = 9
stack = 10000
buyin = 200
late = 1
blinds = [[25, 50, 25]]
shares = [1000]
floor_word = \"tower7\"
words = { ann = \"a1\", Bob_2 = \"B2\" }
";

/// Who speaks, his lines with what they mean, and what a line of his that is too long means. A meaning is a word, a
/// name, and numbers: an act is told by its place in the grammar and its amount, and a switch by 1 or 0.
struct Lines {
    speaker: &'static [u8],
    lines: &'static str,
    too_long: &'static str,
}

static SPEAKERS: [Lines; 3] = [
    // before a right hello
    Lines {
        speaker: b"",
        lines: NOBODY,
        too_long: "who",
    },
    // the floor behind its hello
    Lines {
        speaker: b"floor",
        lines: FLOOR,
        too_long: "-",
    },
    // ann behind her hello
    Lines {
        speaker: b"ann",
        lines: ANN,
        too_long: "-",
    },
];

/// Lines before a right hello: right ones, those with another's word or nobody's, with a name that has no word, and
/// other words.
const NOBODY: &str = "hello ann a1 : player ann
hello Bob_2 B2 : player Bob_2
hello floor tower7 : floor
quit : quits
hello ann B2 : who
hello ann tower7 : who
hello ann A1 : who
hello ann a : who
hello ann a12 : who
hello floor a1 : who
hello floor B2 : who
hello floor floor : who
hello cat a1 : who
hello Ann a1 : who
hello bob_2 B2 : who
hello Floor tower7 : who
 : who
hello : who
hello ann : who
hello  ann a1 : who
hello ann  a1 : who
hello ann a1  : who
 hello ann a1 : who
hello ann a1\r : who
Hello ann a1 : who
Quit : who
quit  : who
watch 1 : who
* a note : who
";

/// Lines of the floor behind its hello: what it asks for, what a player asks for, a second hello, what is filled in or
/// goes by itself, and other words.
const FLOOR: &str = "quit : quits
watch 1 : watch 1
watch 0 : watch 0
watch 9007199254740991 : watch 9007199254740991
time 2 : time 2
enter ann 1 4 : enter ann 1 4
enter cat 0 77 : enter cat 0 77
reenter ann 1 4 : reenter ann 1 4
reenter cat 0 77 : reenter cat 0 77
balance 1 2 : balance 1 2
break 3 : break 3
level : level
race 2 : race 2
hands on : hands 1
hands off : hands 0
round : round
stop : stop
next : next
act 1 fold : -
act 1 ann fold : -
hello floor tower7 : -
hello ann a1 : -
break 3 1.2 cat : -
begin 1 : -
settle 1 : -
go : -
* a note : -
 : -
watch : -
watch 1 2 : -
watch 01 : -
watch 9007199254740992 : -
time : -
enter ann 1 : -
enter floor 1 1 : -
enter ann  1 1 : -
reenter ann 1 : -
reenter ann 1 1 1 : -
reenter ann 01 1 : -
reenter floor 1 1 : -
reenter : -
enter ann 1 1\r : -
balance 1 : -
level 2 : -
hands On : -
stop  : -
next 1 : -
next order : -
";

/// Lines of ann behind her hello: what she asks for, another's act or her own with her name, what the floor asks for, a
/// second hello, and other words.
const ANN: &str = "quit : quits
watch 3 : watch 3
watch 65 : watch 65
act 1 fold : act ann 1 0 0
act 2 check : act ann 2 1 0
act 3 call : act ann 3 2 0
act 64 allin : act ann 64 3 0
act 1 bet 200 : act ann 1 4 200
act 0 raise 0 : act ann 0 5 0
act 1 bob fold : -
act 1 ann fold : -
enter ann 1 1 : -
reenter ann 1 1 : -
time 1 : -
balance 1 2 : -
break 3 : -
level : -
race 1 : -
hands on : -
hands off : -
round : -
stop : -
next : -
hello ann a1 : -
hello floor tower7 : -
hello ann B2 : -
 : -
* a note : -
watch one : -
act 1 : -
act fold : -
act 1 bet : -
act 1 bet 0200 : -
act 1 fold 1 : -
act  1 fold : -
act 1 fold  : -
";

/// Tells what the floor asks for.
fn told_order(ask: &Ask) -> Telling<'_> {
    match ask {
        Ask::Enter { name, table, seat } => said_of("enter", name, [*table, *seat, 0, 0, 0]),
        Ask::Reenter { name, table, seat } => said_of("reenter", name, [*table, *seat, 0, 0, 0]),
        Ask::Balance { from, to } => said("balance", [*from, *to, 0, 0, 0]),
        Ask::Break { table } => said("break", [*table, 0, 0, 0, 0]),
        Ask::Level => said("level", [0; 5]),
        Ask::Race { table } => said("race", [*table, 0, 0, 0, 0]),
        Ask::Hands(on) => said("hands", [u64::from(*on), 0, 0, 0, 0]),
        Ask::Round => said("round", [0; 5]),
        Ask::Stop => said("stop", [0; 5]),
        Ask::NextOrder => said("next", [0; 5]),
    }
}

/// Tells what a line means.
fn told(meaning: &Meaning) -> Telling<'_> {
    match meaning {
        Meaning::Quit => said("quits", [0; 5]),
        Meaning::Hello(Speaker::Floor) => said("floor", [0; 5]),
        Meaning::Hello(Speaker::Player(name)) => said_of("player", name, [0; 5]),
        Meaning::Stranger => said("who", [0; 5]),
        Meaning::Nonsense => said("-", [0; 5]),
        Meaning::Asks(Request::Watch(table)) => said("watch", [*table, 0, 0, 0, 0]),
        Meaning::Asks(Request::Act { table, name, act }) => {
            said_of("act", name, told_act(*table, *act))
        }
        Meaning::Asks(Request::Time(table)) => said("time", [*table, 0, 0, 0, 0]),
        Meaning::Asks(Request::Order(ask)) => told_order(ask),
    }
}

/// Gives who speaks, by the word for him.
fn speaker_of(word: &[u8]) -> Option<Speaker> {
    match word {
        b"floor" => Some(Speaker::Floor),
        _ => Name::read(word).map(Speaker::Player),
    }
}

/// Tells whether a line of a speaker means what a text has.
fn means(words: &Words, speaker: &[u8], line: Option<&[u8]>, text: &str) -> bool {
    let meaning = read_line(words, speaker_of(speaker), line);
    is_told(&told(&meaning), text)
}

/// Gives the first row whose line does not mean what stands behind it, or what a line that is too long is to mean where
/// it does not.
fn first_wrong(words: &Words, lines: &Lines) -> Option<&'static str> {
    for row in lines.lines.lines() {
        let (line, text) = row.split_once(" : ").unwrap_or((row, ""));
        if !means(words, lines.speaker, Some(line.as_bytes()), text) {
            return Some(row);
        }
    }
    if means(words, lines.speaker, None, lines.too_long) {
        return None;
    }
    Some(lines.too_long)
}

/// Reads the words of the file, and gives the first row that is wrong.
fn wrong_of(alloc: Global, lines: &Lines) -> Option<&'static str> {
    match served_from_toml(alloc, FILE.as_bytes()) {
        Ok((_, words)) => first_wrong(&words, lines),
        Err(_) => Some("the file"),
    }
}

#[test]
fn lines_are_told_by_who_speaks(rt: HostRuntime) {
    for lines in &SPEAKERS {
        let wrong = wrong_of(rt.alloc(), lines);
        assert!(rt; wrong.is_none(), "{wrong:?}");
    }
}

/// Replies, whether their news is behind, and their text.
static REPLIES: [(Reply, bool, &[u8]); 12] = [
    (Reply::Ok, false, b"= ok\n"),
    (Reply::Ok, true, b"= ok behind\n"),
    (Reply::Who, false, b"= who\n"),
    (Reply::No(Refusal::Syntax), false, b"= no 1 Syntax\n"),
    (
        Reply::No(Refusal::Stopped),
        true,
        b"= no 5 Stopped behind\n",
    ),
    (Reply::No(Refusal::NoTable), false, b"= no 8 NoTable\n"),
    (
        Reply::No(Refusal::NotNextToBreak),
        true,
        b"= no 36 NotNextToBreak behind\n",
    ),
    (Reply::No(Refusal::NotUnit), false, b"= no 32 NotUnit\n"),
    (Reply::NoOrder, false, b"= none\n"),
    (Reply::NoOrder, true, b"= none behind\n"),
    (Reply::NoMemory, false, b"= memory\n"),
    (Reply::NoMemory, true, b"= memory\n"),
];

/// Tells whether a reply has a text, over a text that was written before.
fn is_reply(text: &mut ReplyText, row: &(Reply, bool, &[u8])) -> bool {
    text.write(row.0, row.1);
    is_same(text.bytes(), row.2) && row.2.len() <= LONGEST_REPLY
}

/// Tells whether replies are written one after another.
fn are_written(alloc: Global) -> Result<bool, AllocError> {
    let mut text = ReplyText::new(alloc)?;
    if !text.bytes().is_empty() {
        return Ok(false);
    }
    for row in &REPLIES {
        if !is_reply(&mut text, row) {
            return Ok(false);
        }
    }
    Ok(true)
}

#[test]
fn replies_are_written(rt: HostRuntime) {
    assert!(rt; are_written(rt.alloc()).unwrap_or(false));
}
