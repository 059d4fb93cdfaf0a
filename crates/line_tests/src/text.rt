//! Bytes and their lines, sources and sinks, names and numbers.

use super::texts::{is_made, is_same, text_of};
use floor_text::{
    BufferedSink, Cut, Failed, LineCutter, LineReader, MemSource, Name, Next, ReadEnd,
    ReaderSource, Refusal, Sink, Source, WriterSink, read_number, refusals_are_told_apart,
};
use std::alloc::{AllocError, Global};
use std::io::{self, Write};

/// Appends a line that was handed out and `|`, or `!` for a line that is too long.
fn note(text: &mut Vec<u8>, cut: Cut, line: &[u8]) -> Result<(), AllocError> {
    match cut {
        Cut::Line => {
            text.extend_from_slice(line)?;
            text.push(b'|')?;
        }
        Cut::TooLong => text.push(b'!')?,
    }
    Ok(())
}

/// Gives the lines that a cutter hands out.
fn lines_cut(alloc: Global, bytes: &[u8]) -> Result<Vec<u8>, AllocError> {
    let mut text = Vec::new(alloc);
    let mut cutter = LineCutter::new(alloc)?;
    for byte in bytes {
        if let Some(cut) = cutter.push(*byte) {
            note(&mut text, cut, cutter.line())?;
        }
    }
    if let Some(cut) = cutter.end() {
        note(&mut text, cut, cutter.line())?;
    }
    Ok(text)
}

/// Appends what a reader hands out next, and tells whether more may come: `?` where its source failed, and `>` where
/// the input is too long.
fn read_on(
    text: &mut Vec<u8>,
    reader: &mut LineReader,
    source: &mut MemSource,
) -> Result<bool, AllocError> {
    match reader.next_line(source) {
        Ok(Next::Line) => note(text, Cut::Line, reader.line())?,
        Ok(Next::TooLong) => note(text, Cut::TooLong, reader.line())?,
        Ok(Next::End) => return Ok(false),
        Err(ReadEnd::ReadFault) => text.push(b'?')?,
        Err(ReadEnd::InputTooLong) => {
            text.push(b'>')?;
            return Ok(false);
        }
    }
    Ok(true)
}

/// Gives the lines that a reader hands out of a source, of whose calls these fail.
fn lines_read(
    alloc: Global,
    bytes: Vec<u8>,
    limit: u64,
    failing: u64,
) -> Result<Vec<u8>, AllocError> {
    let mut text = Vec::new(alloc);
    let mut source = MemSource::new(bytes, vec![in alloc; failing]?);
    let mut reader = LineReader::new(alloc, limit)?;
    for _ in 0..1000 {
        if !read_on(&mut text, &mut reader, &mut source)? {
            break;
        }
    }
    Ok(text)
}

/// So many letters and what stands behind them, and the lines of both: so many letters again, and what stands behind
/// them there.
static CUTS: [(usize, &[u8], usize, &[u8]); 9] = [
    (0, b"", 0, b""),
    (0, b"\n\n", 0, b"||"),
    (1, b"\ntwo", 1, b"|two|"),
    (0, b"\x00\n\xff\r\n", 0, b"\x00|\xff\r|"),
    (400, b"\nb", 400, b"|b|"),
    (400, b"", 400, b"|"),
    (401, b"\nb", 0, b"!b|"),
    (401, b"", 0, b"!"),
    (70_000, b"\nb\n", 0, b"!b|"),
];

/// Tells whether the cutter and a reader hand out these lines of some bytes.
fn are_lines(alloc: Global, bytes: Vec<u8>, lines: &[u8]) -> bool {
    is_made(lines_cut(alloc, &bytes), lines) && is_made(lines_read(alloc, bytes, 100_000, 0), lines)
}

/// Tells whether letters and what stands behind them are cut as a row says.
fn is_cut(alloc: Global, row: &(usize, &[u8], usize, &[u8])) -> Result<bool, AllocError> {
    let bytes = text_of(alloc, b"", b"a", row.0, row.1)?;
    let lines = text_of(alloc, b"", b"a", row.2, row.3)?;
    Ok(are_lines(alloc, bytes, &lines))
}

#[test]
fn cutter_and_reader_give_the_same_lines(rt: HostRuntime) {
    for row in &CUTS {
        assert!(rt; is_cut(rt.alloc(), row).unwrap_or(false), "{row:?}");
    }
}

/// How many bytes a reader takes of two lines at the most, which call of its source fails, and what it hands out.
static STOPS: [(u64, u64, &[u8]); 8] = [
    (0, 0, b">"),
    (2, 0, b">"),
    (3, 0, b"ab|>"),
    (4, 0, b"ab|c|"),
    (u64::MAX, 1, b"?ab|c|"),
    (u64::MAX, 2, b"ab|?c|"),
    (u64::MAX, 3, b"ab|c|?"),
    (u64::MAX, 4, b"ab|c|"),
];

/// Tells whether a reader of two lines hands out what a row says.
fn is_read(alloc: Global, row: &(u64, u64, &[u8])) -> Result<bool, AllocError> {
    let bytes = b"ab\nc".to_vec(alloc)?;
    Ok(is_made(lines_read(alloc, bytes, row.0, row.1), row.2))
}

#[test]
fn reader_stops_past_its_limit_and_goes_on_after_a_fault(rt: HostRuntime) {
    for row in &STOPS {
        assert!(rt; is_read(rt.alloc(), row).unwrap_or(false), "{row:?}");
    }
}

/// What is handed out of two lines in turn, and whether the source has ended then.
static ENDS: [(Next, bool); 3] = [(Next::Line, false), (Next::Line, true), (Next::End, true)];

/// Tells whether a reader tells of two lines that their source ended.
fn tells_the_end(alloc: Global) -> Result<bool, AllocError> {
    let mut source = MemSource::new(b"ab\nc".to_vec(alloc)?, Vec::new(alloc));
    let mut reader = LineReader::new(alloc, 4)?;
    for (next, ended) in &ENDS {
        if reader.next_line(&mut source) != Ok(*next) || reader.ended() != *ended {
            return Ok(false);
        }
    }
    Ok(true)
}

#[test]
fn reader_tells_that_its_source_ended(rt: HostRuntime) {
    assert!(rt; tells_the_end(rt.alloc()).unwrap_or(false));
}

/// Tells whether two bytes are taken of a reader, and then none.
fn takes_two() -> bool {
    let mut source = ReaderSource::new(b"ab".as_slice());
    let mut buffer = [0; 4];
    source.take(&mut buffer) == Ok(2)
        && is_same(&buffer, b"ab\0\0")
        && source.take(&mut buffer) == Ok(0)
}

/// Tells whether three bytes are put to a writer.
fn puts_three(alloc: Global) -> bool {
    let mut bytes = Vec::new(alloc);
    WriterSink::new(&mut bytes).put(b"abc") == Ok(()) && is_same(&bytes, b"abc")
}

#[test]
fn adapters_pass_bytes_on(rt: HostRuntime) {
    assert!(rt; takes_two() && puts_three(rt.alloc()));
}

/// A writer that takes no byte.
#[derive(Drop)]
struct FullDevice;

impl Write for FullDevice {
    fn write(&mut self, _bytes: &[u8]) -> io::Result<usize> {
        Ok(0)
    }

    fn flush(&mut self) -> io::Result<()> {
        Ok(())
    }
}

/// So many bytes that are put later to a device that takes none, what that gives, and what it gives to put them.
static HELD: [(usize, Result<(), Failed>, Result<(), Failed>); 3] = [
    (0, Ok(()), Ok(())),
    (2, Ok(()), Err(Failed)),
    (65_536, Err(Failed), Err(Failed)),
];

/// Tells whether a sink over a device that takes no byte holds bytes, and puts them, as the rows say.
fn holds(alloc: Global) -> Result<bool, AllocError> {
    let mut sink = BufferedSink::new(alloc, FullDevice)?;
    for (count, held, put) in &HELD {
        let bytes = text_of(alloc, b"", b"a", *count, b"")?;
        if sink.put_later(&bytes) != *held || sink.put(b"") != *put {
            return Ok(false);
        }
    }
    Ok(true)
}

#[test]
fn a_buffered_sink_fails_only_where_it_writes(rt: HostRuntime) {
    assert!(rt; holds(rt.alloc()).unwrap_or(false));
}

/// Words, whether each is a name, and the number that it spells.
static WORDS: [(&[u8], bool, Option<u64>); 17] = [
    (b"a", true, None),
    (b"Floor", true, None),
    (b"ann_1", true, None),
    (b"abcdefghijklmnop", true, None),
    (b"", false, None),
    (b"floor", false, None),
    (b"1a", false, None),
    (b"_a", false, None),
    (b"a-b", false, None),
    (b"abcdefghijklmnopq", false, None),
    (b"0", false, Some(0)),
    (b"10", false, Some(10)),
    (b"9007199254740991", false, Some(9_007_199_254_740_991)),
    (b"9007199254740992", false, None),
    (b"18446744073709551616", false, None),
    (b"01", false, None),
    (b"1 ", false, None),
];

/// Tells whether a word is read as a row says.
fn is_word(row: &(&[u8], bool, Option<u64>)) -> bool {
    Name::read(row.0).is_some() == row.1 && read_number(row.0) == row.2
}

#[test]
fn words_are_read(rt: HostRuntime) {
    for row in &WORDS {
        assert!(rt; is_word(row), "{row:?}");
    }
}

#[test]
fn refusals_have_their_numbers_and_names(rt: HostRuntime) {
    refusals_are_told_apart();
    assert!(rt; Refusal::StillIn.number() == 45 && Refusal::StillIn.name() == "StillIn");
}
