//! Plan files: what is read of them and what is refused, the words of a server, and whole sources.

use super::plan::is_plan;
use super::texts::{is_same, text_of};
use card_set::Game;
use floor_events::write_event;
use floor_text::{MemSource, Name};
use level_plan::{Plan, PlanDraft, PlanFault, PlanItem};
use plan_files::{WholeEnd, Words, plan_from_toml, plan_lines, read_whole, served_from_toml};
use std::alloc::{AllocError, Global};
use tournament_events::Event;

/// The lines of a right plan file, each with its key.
const LINES: [(&str, &[u8]); 10] = [
    ("game", b"game = \"holdem\""),
    ("tables", b"tables = 3"),
    ("seats", b"seats = 9"),
    ("stack", b"stack = 10000"),
    ("buyin", b"buyin = 200"),
    ("late", b"late = 2"),
    (
        "blinds",
        b"blinds = [[25, 50, 25], [50, 100, 25], [100, 200, 100], [500, 1000, 100], [2000, 4000, 500], [10000, 20000, 500]]",
    ),
    ("shares", b"shares = [500, 300, 200]"),
    ("floor_word", b"floor_word = \"tower7\""),
    ("words", b"words = { ann = \"a1\", bob = \"B2\" }"),
];

/// Gives a right plan file, but for the line of one key. For the key `all` the line is the whole file.
fn file_with(alloc: Global, key: &str, line: &[u8]) -> Result<Vec<u8>, AllocError> {
    if key == "all" {
        return Vec::from_slice(alloc, line);
    }
    let mut file = Vec::new(alloc);
    for (known, right) in &LINES {
        file.extend_from_slice(if *known == key { line } else { *right })?;
        file.push(b'\n')?;
    }
    Ok(file)
}

/// Reads a file for its plan, or for its plan and its words, and gives the fault.
fn fault_of(alloc: Global, has_words: bool, file: &[u8]) -> Option<PlanFault> {
    if has_words {
        served_from_toml(alloc, file).err()
    } else {
        plan_from_toml(alloc, file).err()
    }
}

/// Keys of plan files, their lines, and the item that is wrong then. In a line, `|` stands for a line feed.
const PLANS: &str = "none :  -> right
game : \"game\" = 'omaha' -> right
tables : tables = 0x40 -> right
buyin : buyin = 0 -> right
late : late = 4 -> right
late : late = 6 -> right
blinds : blinds = [[25, 50, 25, 25], [50, 100, 25, 100]] -> right
blinds : blinds = [[25, 50, 25], [50, 100, 25, 1_000_000_000], [50, 100, 25]] -> right
late : late = 2|limit = 1 -> right
late : late = 2|limit = 9 -> right
shares : shares = [ 1000, ] -> right
tables : tables = 3|title = \"Friday\"|host.name = 'Ann' -> right
tables : tables = 3 # of the side room -> right
floor_word : floor_word = 7 -> right
words : [words]|floor = 1 -> right
game :  -> game
game : game = 7 -> game
game : game = \"\" -> game
game : game = \"Holdem\" -> game
game : game = [\"holdem\"] -> game
game : game.name = \"holdem\" -> game
tables :  -> tables
tables : tables = \"3\" -> tables
tables : tables = 3.0 -> tables
tables : tables = { count = 3 } -> tables
tables : tables = 0 -> tables
tables : tables = 65 -> tables
tables : tables = -3 -> tables
seats :  -> seats
seats : seats = true -> seats
seats : seats = 1 -> seats
seats : seats = 11 -> seats
seats : seats = -9 -> seats
stack :  -> stack
stack : stack = [10000] -> stack
stack : stack = 0 -> stack
stack : stack = 1_000_000_001 -> stack
stack : stack = -9223372036854775808 -> stack
buyin :  -> buyin
buyin : buyin = 2026-11-28 -> buyin
buyin : buyin = 1_000_000_001 -> buyin
buyin : buyin = -1 -> buyin
late :  -> late
late : late = inf -> late
late : late = 0 -> late
late : late = 41 -> late
late : late = -2 -> late
blinds :  -> blinds
blinds : blinds = [] -> blinds
blinds : blinds = 25 -> blinds
blinds : blinds = [25, 50, 25] -> blinds
blinds : blinds = [[]] -> blinds
blinds : blinds = [[25, 50]] -> blinds
blinds : blinds = [[25, 50, 25, 0]] -> blinds
blinds : blinds = [[25, 50, 25, 30], [50, 100, 25]] -> blinds
blinds : blinds = [[25, 50, 25], [50, 100, 25, -25]] -> blinds
blinds : blinds = [[25, 50, 25, 1_000_000_025]] -> blinds
blinds : blinds = [[25, 50, 25, \"25\"]] -> blinds
blinds : blinds = [[25, 50, 25, 25, 25]] -> blinds
blinds : blinds = [[25, 50, \"25\"]] -> blinds
blinds : blinds = [[25, 50, 25], 100] -> blinds
blinds : blinds = [[25, -50, 25]] -> blinds
blinds : blinds = [[25, 50, 20]] -> blinds
blinds : blinds = [[25, 50, 25], [10, 20, 10]] -> blinds
shares :  -> shares
shares : shares = [] -> shares
shares : shares = 1000 -> shares
shares : shares = [500, \"500\"] -> shares
shares : shares = [500, 501] -> shares
shares : shares = [-1000] -> shares
shares : shares = [1001] -> shares
late : late = 2|limit = 0 -> limit
late : late = 2|limit = 10 -> limit
late : late = 2|limit = -4 -> limit
late : late = 2|limit = \"4\" -> limit
late : late = 2|limit = 4.0 -> limit
late : late = 2|limit = [4] -> limit
late : late = 2|limit.cap = 4 -> limit
shares : limit = 0|shares = [1001] -> shares
game : limit = 0|game = \"\" -> game
late : limit = 0|late = 7 -> limit
stack : limit = 0|stack = 10010 -> limit
late : late = 2|limit = 4|limit = 4 -> toml
late : late = 7|limit = 4 -> late
late : late = 7 -> late
stack : stack = 10010 -> stack
late : late = -> toml
late : late = 2 2 -> toml
late : tables = 3 -> toml
late : late = 2|late = 2 -> toml
late : late = 2|late.level = 2 -> toml
late : late = 9223372036854775808 -> toml
game : tables = 0 -> toml
game : x = 1|late = 0 -> toml
late : x = 1 -> late
all :  -> game
all : shares = []|blinds = 3 -> game
all : game = 'hilo'|shares = [] -> tables
all : game = 'hilo'|seats = 1|tables = 1 -> seats
";

/// Keys of plan files with words, their lines, and the item that is wrong then.
const SERVED: &str = "none :  -> right
floor_word :  -> floor_word
floor_word : floor_word = 7 -> floor_word
floor_word : floor_word = \"\" -> floor_word
floor_word : floor_word = \"a b\" -> floor_word
floor_word : floor_word = \"töwer\" -> floor_word
floor_word : floor_word = \"abcdefghijklmnopqrstuvwxyz012345\" -> right
floor_word : floor_word = \"abcdefghijklmnopqrstuvwxyz0123456\" -> floor_word
words :  -> words
words : words = [] -> words
words : words = \"ann\" -> words
words : words = {} -> right
words : [words]|ann = \"a1\"|Bob_2 = \"b\" -> right
words : words.ann = \"a1\" -> right
words : words = { ann = 7 } -> words
words : words = { ann = \"\" } -> words
words : words = { ann = \"a1\", bob = \"b-2\" } -> words
words : words = { floor = \"a1\" } -> words
words : words = { 1ann = \"a1\" } -> words
words : words = { \"ann b\" = \"a1\" } -> words
words : words = { abcdefghijklmnopq = \"a1\" } -> words
stack : stack = 10010 -> stack
floor_word : limit = 0 -> limit
words : limit = 4 -> words
";

/// Names what is wrong in a file.
fn named(fault: Option<PlanFault>) -> &'static str {
    match fault {
        None => "right",
        Some(PlanFault::NoMemory) => "memory",
        Some(PlanFault::Wrong(item)) => match item {
            PlanItem::Toml => "toml",
            PlanItem::Game => "game",
            PlanItem::Tables => "tables",
            PlanItem::Seats => "seats",
            PlanItem::Stack => "stack",
            PlanItem::Buyin => "buyin",
            PlanItem::Late => "late",
            PlanItem::Blinds => "blinds",
            PlanItem::Shares => "shares",
            PlanItem::Limit => "limit",
            PlanItem::FloorWord => "floor_word",
            PlanItem::Words => "words",
        },
    }
}

/// Tells whether a file with another line for a key has this wrong.
fn is_wrong(
    alloc: Global,
    has_words: bool,
    key: &str,
    line: &[u8],
    item: &str,
) -> Result<bool, AllocError> {
    let file = file_with(alloc, key, line)?;
    Ok(named(fault_of(alloc, has_words, &file)) == item)
}

/// Gives the lines of a row.
fn lines_of(alloc: Global, row: &str) -> Result<Vec<u8>, AllocError> {
    let mut lines = Vec::new(alloc);
    for byte in row.as_bytes() {
        lines.push(if *byte == b'|' { b'\n' } else { *byte })?;
    }
    Ok(lines)
}

/// Tells whether a row is right.
fn is_row(alloc: Global, has_words: bool, row: &str) -> Result<bool, AllocError> {
    let (key, rest) = row.split_once(" : ").unwrap_or((row, ""));
    let (line, item) = rest.split_once(" -> ").unwrap_or((rest, ""));
    is_wrong(alloc, has_words, key, &lines_of(alloc, line)?, item)
}

/// Gives the first row that is not right.
fn first_wrong(
    alloc: Global,
    has_words: bool,
    rows: &'static str,
) -> Result<Option<&'static str>, AllocError> {
    for row in rows.lines() {
        if !is_row(alloc, has_words, row)? {
            return Ok(Some(row));
        }
    }
    Ok(None)
}

#[test]
fn the_first_wrong_item_of_a_plan_is_named(rt: HostRuntime) {
    let wrong = first_wrong(rt.alloc(), false, PLANS);
    assert!(rt; matches!(wrong, Ok(None)), "{wrong:?}");
}

#[test]
fn words_are_checked_behind_the_plan(rt: HostRuntime) {
    let wrong = first_wrong(rt.alloc(), true, SERVED);
    assert!(rt; matches!(wrong, Ok(None)), "{wrong:?}");
}

/// Tells whether files that are no text are no TOML.
fn are_no_toml(alloc: Global) -> Result<bool, AllocError> {
    Ok(
        is_wrong(alloc, false, "all", b"game = 'hilo'\xff", "toml")?
            && is_wrong(alloc, false, "all", b"# \xff\n", "toml")?,
    )
}

#[test]
fn a_file_that_is_no_text_is_no_toml(rt: HostRuntime) {
    assert!(rt; are_no_toml(rt.alloc()).unwrap_or(false));
}

/// A key, how its line begins, what follows so many times, and what is wrong then.
static LISTS: [(&str, &[u8], &[u8], usize, &str); 4] = [
    ("blinds", b"blinds = [", b"[1, 2, 1], ", 40, "right"),
    ("blinds", b"blinds = [", b"[1, 2, 1], ", 41, "blinds"),
    ("shares", b"shares = [", b"15, ", 64, "right"),
    ("shares", b"shares = [", b"15, ", 65, "shares"),
];

/// Tells whether a list is read, or not, as a row says.
fn is_bound(alloc: Global, row: &(&str, &[u8], &[u8], usize, &str)) -> Result<bool, AllocError> {
    let line = text_of(alloc, row.1, row.2, row.3, b"]")?;
    is_wrong(alloc, false, row.0, &line, row.4)
}

#[test]
fn lists_are_held_to_their_bounds(rt: HostRuntime) {
    for row in &LISTS {
        assert!(rt;
            is_bound(rt.alloc(), row).unwrap_or(false),
            "{} {}",
            row.0,
            row.3
        );
    }
}

/// Gives lines of words for so many players.
fn words_for(alloc: Global, count: u64) -> Result<String, AllocError> {
    let mut lines = String::from_str(alloc, "[words]\n")?;
    for player in 0..count {
        lines.push_str(format!(in alloc; "p{player} = \"w{player}\"\n")?.as_str())?;
    }
    Ok(lines)
}

/// Tells whether this is wrong where so many players have words.
fn is_wrong_for(alloc: Global, count: u64, item: &str) -> Result<bool, AllocError> {
    let lines = words_for(alloc, count)?;
    is_wrong(alloc, true, "words", lines.as_bytes(), item)
}

#[test]
fn at_most_640_players_have_words(rt: HostRuntime) {
    assert!(rt;
        is_wrong_for(rt.alloc(), 640, "right").unwrap_or(false)
            && is_wrong_for(rt.alloc(), 641, "words").unwrap_or(false)
    );
}

/// Names, and the words that they have.
static NAMES: [(&[u8], Option<&[u8]>); 4] = [
    (b"ann", Some(b"a1")),
    (b"bob", Some(b"B2")),
    (b"Ann", None),
    (b"cat", None),
];

/// Tells whether a name has this word.
fn has_word(words: &Words, name: &[u8], word: Option<&[u8]>) -> bool {
    match Name::read(name) {
        Some(name) => words.word(name) == word,
        None => false,
    }
}

/// Tells whether the words are those of the right file.
fn are_right(words: &Words) -> bool {
    for (name, word) in &NAMES {
        if !has_word(words, name, *word) {
            return false;
        }
    }
    is_same(words.floor(), b"tower7")
}

/// Makes a plan again by its lines.
fn again(alloc: Global, plan: &Plan) -> Result<Plan, PlanFault> {
    let mut draft = PlanDraft::new(alloc);
    for line in &plan_lines(alloc, plan)? {
        draft.line(line)?;
    }
    draft.go()
}

/// The units of the right file.
static UNITS: [u64; 6] = [25, 25, 100, 100, 500, 500];

/// Tells whether the lines of the right file's plan make it again.
fn is_again(alloc: Global, plan: &Plan) -> Result<bool, PlanFault> {
    let again = again(alloc, plan)?;
    Ok(is_plan(&again, Game::Holdem, &UNITS) && again.blinds.items() == plan.blinds.items())
}

/// Tells whether the right file, read for its words too, gives them and its plan.
fn is_served(alloc: Global, file: &[u8]) -> Result<bool, PlanFault> {
    let (plan, words) = served_from_toml(alloc, file)?;
    Ok(
        are_right(&words)
            && is_plan(&plan, Game::Holdem, &UNITS)
            && is_again(alloc, &plan).unwrap_or(false),
    )
}

/// Tells whether the right file gives its plan.
fn is_planned(alloc: Global, file: &[u8]) -> Result<bool, PlanFault> {
    Ok(is_plan(&plan_from_toml(alloc, file)?, Game::Holdem, &UNITS))
}

/// Tells whether the right file is read.
fn is_read(alloc: Global) -> Result<bool, AllocError> {
    let file = file_with(alloc, "", b"")?;
    Ok(is_served(alloc, &file).unwrap_or(false) && is_planned(alloc, &file).unwrap_or(false))
}

#[test]
fn a_right_file_gives_its_plan_and_words_and_its_lines_make_it_again(rt: HostRuntime) {
    assert!(rt; is_read(rt.alloc()).unwrap_or(false));
}

/// A plan file with an ante at the second level and a fixed limit.
const ANTE_AND_LIMIT: &str = "limit = 4
game = \"omaha\"
tables = 3
seats = 9
stack = 10000
buyin = 200
late = 2
blinds = [[25, 50, 25], [50, 100, 25, 100]]
shares = [500, 300, 200]
";

/// The lines of its plan.
const ITS_LINES: &str = "game omaha
tables 3
seats 9
stack 10000
buyin 200
late 2
blinds 25 50 25
blinds 50 100 25 100
shares 500 300 200
limit 4
";

/// Writes the lines of the plan of a file, a line feed behind each.
fn lines_written(alloc: Global, file: &[u8]) -> Result<Vec<u8>, PlanFault> {
    let plan = plan_from_toml(alloc, file)?;
    let mut text = Vec::new(alloc);
    for line in plan_lines(alloc, &plan)? {
        write_event(&Event::Plan(line), &mut text)?;
        text.push(b'\n')?;
    }
    Ok(text)
}

#[test]
fn the_limit_is_the_last_line_of_a_plan(rt: HostRuntime) {
    let written = lines_written(rt.alloc(), ANTE_AND_LIMIT.as_bytes());
    assert!(rt; written.is_ok_and(|text| is_same(&text, ITS_LINES.as_bytes())));
}

/// So many bytes, which call fails, how many bytes may be read at the most, and what is read.
static SOURCES: [(usize, u64, u64, Result<usize, WholeEnd>); 9] = [
    (0, 0, 0, Ok(0)),
    (1, 0, 0, Err(WholeEnd::InputTooLong)),
    (1, 0, 1, Ok(1)),
    (200_000, 0, 200_000, Ok(200_000)),
    (200_001, 0, 200_000, Err(WholeEnd::InputTooLong)),
    (200_000, 0, u64::MAX, Ok(200_000)),
    (200_000, 3, 200_000, Err(WholeEnd::ReadFault)),
    (200_000, 5, 200_000, Err(WholeEnd::ReadFault)),
    (200_000, 6, 200_000, Ok(200_000)),
];

/// Tells whether bytes are read as a row says.
fn is_whole(
    alloc: Global,
    row: &(usize, u64, u64, Result<usize, WholeEnd>),
) -> Result<bool, AllocError> {
    let bytes = vec![in alloc; 7; row.0]?;
    let mut source = MemSource::new(bytes, vec![in alloc; row.1]?);
    Ok(read_whole(alloc, &mut source, row.2).map(|whole| whole.len()) == row.3)
}

#[test]
fn a_source_is_read_to_its_end(rt: HostRuntime) {
    for row in &SOURCES {
        assert!(rt;
            is_whole(rt.alloc(), row).unwrap_or(false),
            "{} {}",
            row.0,
            row.2
        );
    }
}
