//! The lines of an input are told of one by one.

ghost use Rattle.std.specs.Prelude.{◌⊎◌, ◌≡◌, ◌≢◌, ◌≤◌, ◌<◌, ◌+◌, ◌^◌, List, ℕ, length, Option, Ok, Err, true, false, [], IfOk, IfSome, MatchResult, OnOk, IfErr, IsErrOf};
ghost use Rattle.floor_text.specs.Outside.{Rose, Puts};
ghost use Rattle.floor_text.specs.LineReader.{lines_of_next};
ghost use Rattle.floor_text.specs.Reading.{bytes_ahead};
ghost use Rattle.level_plan.specs.declared.line.PlanItem.{PlanItem};
ghost use Rattle.tournament_rules.specs.States.{State, first_state};
ghost use Rattle.tournament_rules.specs.Valid.{IsValidState};
ghost use Rattle.line_tellers.specs.Limits.{input_limit};
ghost use Rattle.command_lines.specs.Endings.{IsOfWriting, IsOfReading};
ghost use Rattle.line_tellers.specs.Promise.{Keeps, IsTelling, IsCounted, HasTold, TakesAndPuts, IsToldOf};
ghost use Rattle.line_tellers.specs.Told.{Telling};
ghost use Rattle.line_tellers.specs.Runs.{HasRun};

use crate::teller::LineTeller;
use command_lines::Fault;
use floor_core::Tournament;
use floor_text::{LineReader, Next, Sink, Source};
use std::alloc::{AllocError, Global};

/// The most bytes that an input may have.
const INPUT_LIMIT: u64 = 268_435_456;

/// Puts what is told at the end, by one put. Nothing is held back behind it.
fn tell_end<T: LineTeller, O: Sink>(
    teller: &mut T,
    tournament: &Tournament,
    out: &mut O,
) -> Result<(), Fault>
    ensures bytes { IfSome (O.written out.old)
        (λ before. Puts before ((T.telling teller.old).at_end tournament.now) (O.written out.new) result) }
    ensures memory { IsErrOf result Fault.NoMemory → out.new ≡ out.old }
    ensures let_go { OnOk result (O.held out.new ≡ []) }
    ensures later { O.faults out.old ≤ O.faults out.new }
    ensures write { IsErrOf result Fault.Write → Rose (O.faults out.old) (O.faults out.new) }
    ensures others { IfErr result IsOfWriting }
{
    teller.end(tournament)?;
    teller.put(false, out)
}

/// Hands out the next line of the input, which had not come to its end.
fn next_line<I: Source>(reader: &mut LineReader, input: &mut I) -> Result<Next, Fault>
    requires going { reader.old.ended ≡ false }
    requires limit { reader.old.limit ≡ input_limit }

    // What was told of the lines before is told of all but the one that is handed out, or of what a fault lets be told.
    ensures told { (telling : Telling) (bytes before : List ℕ) (state : State) (written : Option (List ℕ))
        → IsTelling telling bytes before state (I.left input.old) written [] reader.old
        → MatchResult result
        (λ next. IsTelling telling bytes before state (I.left input.new) written
        (lines_of_next (Ok next) reader.new.line) reader.new)
        (λ fault. HasTold (IsToldOf fault telling) bytes before (I.left input.new) written) }
    ensures ahead { IfOk result (λ next.
        bytes_ahead reader.new + length (lines_of_next (Ok next) reader.new.line) ≤ bytes_ahead reader.old) }
    ensures end { result ≡ Ok Next.End → reader.new.ended ≡ true }

    // The bytes taken are counted, whatever comes.
    ensures counts { (first : Option (List ℕ)) → IsCounted first (I.left input.old) reader.old
        → IsCounted first (I.left input.new) reader.new }
    ensures limit { reader.new.limit ≡ reader.old.limit }
    ensures too_long { IsErrOf result Fault.InputTooLong → reader.new.limit < reader.new.taken }

    // The other fault has its cause.
    ensures input_later { I.faults input.old ≤ I.faults input.new }
    ensures read { IsErrOf result Fault.Read → Rose (I.faults input.old) (I.faults input.new) }
    ensures others { IfErr result IsOfReading }
{
    Ok(reader.next_line(input)?)
}

/// Tells of a line that was handed out, and hands out the next one. Where the input came to its end behind that line,
/// it is asked no more. `out` may hold what is told back only where the next line is at hand: whoever sends lines has
/// what is told of each before the program waits.
#[tactic(auto, using(crate::proofs::Counted::counted_item))]
fn tell_next<T: LineTeller, I: Source, O: Sink>(
    alloc: Global,
    reader: &mut LineReader,
    tournament: &mut Tournament,
    teller: &mut T,
    line: Next,
    input: &mut I,
    out: &mut O,
) -> Result<Next, Fault>
    requires few { tournament.old.accepted < 2 ^ 60 }
    requires valid { IsValidState tournament.old }
    requires some { line ≢ Next.End }
    requires limit { reader.old.limit ≡ input_limit }

    // What was told of the lines before this one is told of all but the next one, or of what a fault lets be told.
    ensures told { (bytes before : List ℕ)
        → IsTelling (T.telling teller.old) bytes before tournament.old (I.left input.old) (O.written out.old)
        (lines_of_next (Ok line) reader.old.line) reader.old
        → MatchResult result
        (λ next. IsTelling (T.telling teller.old) bytes before tournament.new (I.left input.new) (O.written out.new)
        (lines_of_next (Ok next) reader.new.line) reader.new)
        (λ fault. HasTold (IsToldOf fault (T.telling teller.old)) bytes before (I.left input.new)
        (O.written out.new)) }
    ensures same { OnOk result (T.telling teller.new ≡ T.telling teller.old) }
    ensures ahead { IfOk result (λ next.
        bytes_ahead reader.new + length (lines_of_next (Ok next) reader.new.line) ≤ bytes_ahead reader.old) }
    ensures counted { OnOk result (tournament.new.accepted ≤ tournament.old.accepted + 1) }
    ensures valid { OnOk result (IsValidState tournament.new) }
    ensures end { result ≡ Ok Next.End → reader.new.ended ≡ true }

    // The bytes taken are counted, whatever comes.
    ensures counts { (first : Option (List ℕ)) → IsCounted first (I.left input.old) reader.old
        → IsCounted first (I.left input.new) reader.new }
    ensures limit { reader.new.limit ≡ reader.old.limit }
    ensures too_long { IsErrOf result Fault.InputTooLong → reader.new.limit < reader.new.taken }

    // Where the input was asked for more, nothing is held back.
    ensures asks { (input.new ≡ input.old) ⊎ (O.held out.new ≡ []) }
    ensures let_go { IfErr result (λ fault. IsOfReading fault → O.held out.new ≡ []) }

    // The other faults have their causes.
    ensures input_later { I.faults input.old ≤ I.faults input.new }
    ensures out_later { O.faults out.old ≤ O.faults out.new }
    ensures read { IsErrOf result Fault.Read → Rose (I.faults input.old) (I.faults input.new) }
    ensures write { IsErrOf result Fault.Write → Rose (O.faults out.old) (O.faults out.new) }
    ensures words { IsErrOf result Fault.Usage → ⊥ }
    ensures hall { IsErrOf result Fault.Hall → ⊥ }
    ensures plan { (item : PlanItem) → IsErrOf result (Fault.Plan item) → ⊥ }
{
    teller.take(alloc, tournament, line, reader.line())?;
    let at_hand = reader.next_held();
    teller.put(at_hand.is_some(), out)?;
    match at_hand {
        Some(next) => Ok(next),
        None if reader.ended() => Ok(Next::End),
        None => next_line(reader, input),
    }
}

/// Makes a reader of an input, which takes no more than the limit.
fn input_reader(alloc: Global) -> Result<LineReader, AllocError>
    ensures { IfOk result (λ reader. reader
        ≡ record { held = []; line = []; taken = 0; limit = input_limit; ended = false }) }
{
    LineReader::new(alloc, INPUT_LIMIT)
}

/// Tells of all lines of the input, by a reader that took nothing of it and in a tournament that took no line, and then
/// of their end. The reader and the tournament are lent, since to drop them at each exit of the loop is dear to prove.
fn tell_to_end<T: LineTeller, I: Source, O: Sink>(
    alloc: Global,
    reader: &mut LineReader,
    tournament: &mut Tournament,
    teller: &mut T,
    input: &mut I,
    out: &mut O,
) -> Result<(), Fault>
    requires fresh { reader.old ≡ record { held = []; line = []; taken = 0; limit = input_limit; ended = false } }
    requires first { tournament.old ≡ first_state }
    ensures { HasRun I.left I.faults O.written O.held O.faults (T.telling teller.old)
        input.old input.new out.old out.new result }
{
    let mut line = next_line(reader, input)?;
    'lines: while line != Next::End {
        line = tell_next(alloc, reader, tournament, teller, line, input, out)?;
    }
    tell_end(teller, tournament, out)
}

/// Tells of all lines of the input, and then of their end, each by one put.
pub fn tell_lines<T: LineTeller, I: Source, O: Sink>(
    alloc: Global,
    teller: &mut T,
    input: &mut I,
    out: &mut O,
) -> Result<(), Fault>
    ensures { HasRun I.left I.faults O.written O.held O.faults (T.telling teller.old)
        input.old input.new out.old out.new result }
{
    let mut reader = input_reader(alloc)?;
    let mut tournament = Tournament::new(alloc)?;
    tell_to_end(alloc, &mut reader, &mut tournament, teller, input, out)
}

/// Has `out` let go of what was told before, where memory ran out in the midst. A failure of that is a failure of
/// `out`.
pub fn close<O: Sink>(ran: Result<(), Fault>, out: &mut O) -> Result<(), Fault>
    ensures kept { Keeps (O.written out.old) (O.written out.new) }
    ensures told { (telling : Telling) (first left before : Option (List ℕ))
        → IfErr ran (λ fault. TakesAndPuts (IsToldOf fault telling) first left before (O.written out.old))
        → IfErr result (λ fault. TakesAndPuts (IsToldOf fault telling) first left before (O.written out.new)) }
    ensures let_go { result ≡ Err Fault.NoMemory → O.held out.new ≡ [] }
    ensures same { ran ≢ Err Fault.NoMemory → out.new ≡ out.old }
    ensures later { O.faults out.old ≤ O.faults out.new }
    ensures ran { (result ≡ ran) ⊎ ((result ≡ Err Fault.Write) × Rose (O.faults out.old) (O.faults out.new)) }
{
    if ran == Err(Fault::NoMemory) {
        out.put(b"")?;
    }
    ran
}
