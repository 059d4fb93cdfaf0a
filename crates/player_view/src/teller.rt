//! Who tells of a table.

ghost use Rattle.std.specs.Prelude.{◌≡◌, ◌++◌, ℕ, None, option_map, IsSomeAnd, IfOk, IfErr, OnOk, OnErr};
ghost use Rattle.line_words.specs.Words.{Extends};
ghost use Rattle.table_engine.specs.Acts.{done_of_act};
ghost use Rattle.table_engine.specs.Plays.{IsLawfulPlay};
ghost use Rattle.table_engine.specs.Starts.{IsLawfulStart};
ghost use Rattle.view_rules.specs.Entries.{IsLawfulAct, MayCome, TableTold, entry_lines, told_after, with_act};
ghost use Rattle.view_rules.specs.Shown.{Viewer};
ghost use Rattle.view_rules.specs.Spelling.{lines_text};
ghost use Rattle.player_view.specs.Tellers.{IsPlayable, IsTelling, hand_of, kept_hand, played, taken_back, without_last};

use crate::act::push_act;
use crate::opening::push_opening;
use betting_round::Done;
use floor_text::{List, Name};
use std::alloc::{AllocError, Global};
use std::marker::Model;
use std::mem::replace;
use table_engine::{ActFault, ActOf, Hand, HandStart};
use view_rules::TableEntry;

/// The start and the acts of a hand.
#[derive(Drop)]
struct Kept {
    start: HandStart,
    acts: List<ActOf>,
}

/// A hand as far as it was told.
#[derive(Drop)]
enum Told {
    /// No hand is played.
    Nothing,
    /// The hand that is played.
    Played(Hand),
    /// The hand of which memory ran out in the midst of an act's lines. It is played again at the next entry.
    Again(Kept),
}

/// Tells a player, or nobody, of one table, entry by entry. It plays a hand of its own along with the entries.
#[derive(Drop)]
pub struct TableTeller {
    alloc: Global,
    table: u8,
    who: Option<Name>,
    told: Told,
}

impl Model for TableTeller {
    ghost use Rattle.view_rules.specs.Entries.{TableTold};

    ghost Value = { TableTold };

    ghost use Rattle.player_view.specs.Inside.{told_by, tells_lawfully};

    ghost view = { told_by };

    ghost invariant = { tells_lawfully };
}

/// Plays an act in a hand, in which it may come next. Want of memory leaves the hand as it was.
fn play(hand: &mut Hand, act: &ActOf) -> Result<Done, ActFault>
    requires { IsLawfulAct hand.old act.now }
    ensures state { OnOk result (hand.new ≡ with_act act.now hand.old) }
    ensures done { IfOk result (λ done. done ≡ done_of_act hand.old act.now.name act.now.act) }
    ensures memory { IfErr result (λ fault. fault ≡ ActFault.NoMemory) }
    ensures err { OnErr result (hand.new ≡ hand.old) }
{
    if act.by_time {
        hand.time()
    } else {
        hand.act(act.name, act.act)
    }
}

/// Plays acts from a start on. Want of memory hands the start back.
fn play_all(alloc: Global, start: HandStart, acts: &[ActOf]) -> Result<Hand, HandStart>
    requires start { IsLawfulStart start }
    requires play { IsLawfulPlay (record { start = start; acts = acts.now }) }
    ensures hand { IfOk result (λ hand. hand ≡ record { start = start; acts = acts.now }) }
    ensures back { IfErr result (λ back. back ≡ start) }
{
    let mut hand = Hand::new(alloc, start)?;
    for act in acts {
        if play(&mut hand, act).is_err() {
            return Err(hand.void());
        }
    }
    Ok(hand)
}

/// Plays a hand that is kept again. Want of memory hands back what was kept.
fn play_again(alloc: Global, kept: Kept) -> Result<Hand, Kept>
    requires { IsPlayable (kept_hand kept) }
    ensures hand { IfOk result (λ hand. hand ≡ kept_hand kept) }
    ensures back { IfErr result (λ back. back ≡ kept) }
{
    let Kept { start, acts } = kept;
    match play_all(alloc, start, acts.items()) {
        Ok(hand) => Ok(hand),
        Err(start) => Err(Kept { start, acts }),
    }
}

/// Plays the hand again that is to be played again, if one is.
fn resume(alloc: Global, told: &mut Told) -> Result<(), AllocError>
    requires { IsTelling told.old }
    ensures ok { OnOk result (told.new ≡ played (hand_of told.old)) }
    ensures err { OnErr result (told.new ≡ told.old) }
{
    let Told::Again(_) = told else {
        return Ok(());
    };
    match replace(told, Told::Nothing) {
        Told::Again(kept) => match play_again(alloc, kept) {
            Ok(hand) => {
                *told = Told::Played(hand);
                Ok(())
            }
            Err(kept) => {
                *told = Told::Again(kept);
                Err(AllocError)
            }
        },
        other => {
            *told = other;
            Ok(())
        }
    }
}

/// Gives the parts of a hand as it was before its last act.
fn take_back(hand: Hand) -> Kept
    ensures kept { result ≡ without_last hand }
    ensures playable { IsPlayable (kept_hand result) }
{
    let (start, acts) = hand.into_parts();
    let mut acts = acts.into_vec();
    let _last = acts.pop();
    Kept {
        start,
        acts: List::from_vec(acts),
    }
}

/// Takes the last act of the hand that is played back, until it is played again.
fn keep(told: &mut Told)
    requires { IsTelling told.old }
    ensures back { told.new ≡ taken_back told.old }
    ensures telling { IsTelling told.new }
{
    match replace(told, Told::Nothing) {
        Told::Played(hand) => *told = Told::Again(take_back(hand)),
        other => *told = other,
    }
}

/// Tells of an act of the hand that is played. Where memory runs out, `out` has something behind what it had.
fn tell_act(
    alloc: Global,
    table: u8,
    told: &mut Told,
    act: &ActOf,
    out: &mut Vec<u8>,
) -> Result<(), AllocError>
    requires telling { IsTelling told.old }
    requires lawful { IsSomeAnd (hand_of told.old) (λ hand. IsLawfulAct hand act.now) }
    ensures ok { OnOk result ((who : Viewer) (caller : ℕ) → out.new.items ≡ out.old.items
        ++ lines_text (entry_lines (record { table = table; who = who; hand = hand_of told.old })
        (TableEntry.Acted caller act.now))) }
    ensures told { OnOk result (hand_of told.new ≡ option_map (with_act act.now) (hand_of told.old)) }
    ensures extends { Extends out.old.items out.new.items }
    ensures err { OnErr result (hand_of told.new ≡ hand_of told.old) }
    ensures telling { IsTelling told.new }
{
    resume(alloc, told)?;
    let Told::Played(hand) = told else {
        return Ok(());
    };
    let left_before = hand.streets_left();
    let Ok(done) = play(hand, act) else {
        return Err(AllocError);
    };
    let written = push_act(table, &act.name, done, left_before, hand, out);
    if written.is_err() {
        keep(told);
    }
    written
}

impl TableTeller {
    /// Makes who tells a player, or nobody, of a table where no hand is played.
    pub fn new(alloc: Global, table: u8, who: Option<Name>) -> TableTeller
        ensures { result ≡ record { table = table; who = who; hand = None } }
    {
        TableTeller {
            alloc,
            table,
            who,
            told: Told::Nothing,
        }
    }

    /// Tells of a hand that begins.
    fn open(&mut self, start: &HandStart, out: &mut Vec<u8>) -> Result<(), AllocError>
        requires free { self.old.hand ≡ None }
        requires lawful { IsLawfulStart start.now }
        ensures ok { OnOk result (out.new.items
            ≡ out.old.items ++ lines_text (entry_lines self.old (TableEntry.Opened start.now))) }
        ensures told { OnOk result (self.new ≡ told_after self.old (TableEntry.Opened start.now)) }
        ensures extends { Extends out.old.items out.new.items }
        ensures kept { OnErr result (self.new ≡ self.old) }
    {
        let Ok(hand) = Hand::new(self.alloc, start.copy(self.alloc)?) else {
            return Err(AllocError);
        };
        push_opening(self.table, self.who, &hand, out)?;
        self.told = Told::Played(hand);
        Ok(())
    }

    /// Tells of an act.
    fn act(&mut self, act: &ActOf, out: &mut Vec<u8>) -> Result<(), AllocError>
        requires { IsSomeAnd self.old.hand (λ hand. IsLawfulAct hand act.now) }
        ensures ok { OnOk result ((caller : ℕ) → out.new.items
            ≡ out.old.items ++ lines_text (entry_lines self.old (TableEntry.Acted caller act.now))) }
        ensures told { OnOk result ((caller : ℕ)
            → self.new ≡ told_after self.old (TableEntry.Acted caller act.now)) }
        ensures extends { Extends out.old.items out.new.items }
        ensures kept { OnErr result (self.new ≡ self.old) }
    {
        tell_act(self.alloc, self.table, &mut self.told, act, out)
    }

    /// Tells of an entry. Where memory runs out, `out` has something behind what it had.
    fn tell_entry(&mut self, entry: &TableEntry, out: &mut Vec<u8>) -> Result<(), AllocError>
        requires { MayCome self.old.hand entry.now }
        ensures ok { OnOk result (out.new.items ≡ out.old.items ++ lines_text (entry_lines self.old entry.now)) }
        ensures told { OnOk result (self.new ≡ told_after self.old entry.now) }
        ensures extends { Extends out.old.items out.new.items }
        ensures kept { OnErr result (self.new ≡ self.old) }
    {
        match entry {
            TableEntry::Opened(opening) => self.open(opening.start(), out),
            TableEntry::Acted { act, .. } => self.act(act, out),
            TableEntry::Closed => {
                self.told = Told::Nothing;
                Ok(())
            }
        }
    }

    /// Writes the lines of an entry, which may come next, at the end of `out`. After want of memory both the teller and
    /// `out` are as before.
    pub fn tell(&mut self, entry: &TableEntry, out: &mut Vec<u8>) -> Result<(), AllocError>
        requires { MayCome self.old.hand entry.now }
        ensures ok { OnOk result (out.new.items ≡ out.old.items ++ lines_text (entry_lines self.old entry.now)) }
        ensures told { OnOk result (self.new ≡ told_after self.old entry.now) }
        ensures err { OnErr result (out.new.items ≡ out.old.items) }
        ensures kept { OnErr result (self.new ≡ self.old) }
    {
        let before = out.len();
        let told = self.tell_entry(entry, out);
        if told.is_err() {
            out.truncate(before);
        }
        told
    }
}
