//! Runs over memory that are refused: words that are no command, and plan files that are wrong or too long.

use super::plans::{PLAN, THREE_OF_NINE};
use super::runs::{NOTHING, run};
use super::texts::text_of;
use std::alloc::{AllocError, Global};

/// The line on err where the words are no command.
const USAGE: &str = "usage: replay / view NAME / simulate N / serve PORT DESKS\n";

/// Words that are no command.
static WORDS: [&[&str]; 15] = [
    &[],
    &["replay", "x"],
    &["--help"],
    &["Replay"],
    &["view"],
    &["view", "floor"],
    &["view", "1ann"],
    &["view", "ann-"],
    &["view", "abcdefghijklmnopq"],
    &["view", "ann", "bob"],
    &["View", "ann"],
    &["simulate"],
    &["simulate", "07"],
    &["simulate", "7", "7"],
    &["serve", "7000", "2"],
];

/// Tells whether words over an input end with a status and a line on err, and nothing on out.
fn is_refused(
    alloc: Global,
    words: &[&str],
    input: Vec<u8>,
    status: u8,
    told: &str,
) -> Result<bool, AllocError> {
    let ran = run(alloc, words, input, NOTHING)?;
    Ok(ran.is(status, b"", told.as_bytes()))
}

/// Tells whether words are refused as no command.
fn are_no_command(alloc: Global, words: &[&str]) -> Result<bool, AllocError> {
    let input = PLAN.as_bytes().to_vec(alloc)?;
    is_refused(alloc, words, input, 2, USAGE)
}

#[test]
fn words_that_are_no_command_touch_nothing(rt: HostRuntime) {
    for words in &WORDS {
        assert!(rt;
            are_no_command(rt.alloc(), words).unwrap_or(false),
            "{words:?}"
        );
    }
}

/// How a line of the plan begins, the line in its place, and what is told then.
static LINES: [(&str, &str, &str); 12] = [
    ("seats", "seats = = 9", "plan toml\n"),
    ("game", "game = \"stud\"", "plan game\n"),
    ("tables", "tables = 0", "plan tables\n"),
    ("seats", "seats = 11", "plan seats\n"),
    ("stack", "", "plan stack\n"),
    ("buyin", "buyin = -1", "plan buyin\n"),
    ("late", "late = 7", "plan late\n"),
    ("blinds", "blinds = []", "plan blinds\n"),
    ("blinds", "blinds = [[25, 50, 25, 10]]", "plan blinds\n"),
    ("shares", "shares = { first = 1000 }", "plan shares\n"),
    ("late", "limit = 0\nlate = 7", "plan limit\n"),
    ("stack", "stack = 10010", "plan stack\n"),
];

/// Gives the plan with another line in the place of the one that begins with a word.
fn with_line(alloc: Global, word: &str, other: &str) -> Result<Vec<u8>, AllocError> {
    let mut bytes = Vec::new(alloc);
    for line in THREE_OF_NINE.lines() {
        let line = if line.starts_with(word) { other } else { line };
        bytes.extend_from_slice(line.as_bytes())?;
        bytes.push(b'\n')?;
    }
    Ok(bytes)
}

/// Tells whether a plan is refused as a row says.
fn is_wrong(alloc: Global, row: &(&str, &str, &str)) -> Result<bool, AllocError> {
    is_refused(
        alloc,
        &["simulate", "7"],
        with_line(alloc, row.0, row.1)?,
        6,
        row.2,
    )
}

#[test]
fn a_wrong_plan_is_named(rt: HostRuntime) {
    for row in &LINES {
        assert!(rt; is_wrong(rt.alloc(), row).unwrap_or(false), "{row:?}");
    }
}

/// How many bytes a plan file of comments has, the status, and what is told.
static LENGTHS: [(usize, u8, &str); 2] = [
    (1_048_576, 6, "plan game\n"),
    (1_048_577, 8, "input too long\n"),
];

/// Tells whether a plan file of comments is refused as a row says.
fn is_no_plan(alloc: Global, row: &(usize, u8, &str)) -> Result<bool, AllocError> {
    let input = text_of(alloc, b"", b"#", row.0, b"")?;
    is_refused(alloc, &["simulate", "7"], input, row.1, row.2)
}

#[test]
fn a_plan_file_has_a_limit(rt: HostRuntime) {
    for row in &LENGTHS {
        assert!(rt; is_no_plan(rt.alloc(), row).unwrap_or(false), "{row:?}");
    }
}
