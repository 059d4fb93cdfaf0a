//! The reasons for which a line is refused, each with its number and its name.

ghost use Rattle.std.specs.Prelude.{◌≡◌};
ghost use Rattle.floor_text.specs.declared.refusal.Refusal.{Refusal};
ghost use Rattle.floor_text.specs.Refusals.{refusal_number, refusal_name};

/// Why an event is refused. The numbers are 1 to 45 in this order.
#[derive(Clone, Copy, PartialEq, Eq)]
pub enum Refusal {
    /// The line is not in the grammar.
    Syntax,
    /// `go` has not been accepted.
    NoPlan,
    /// `go` has been accepted.
    PlanLate,
    /// The plan line, or the plan at `go`, is wrong.
    PlanWrong,
    /// `stop` has been accepted.
    Stopped,
    /// The name is in the entry list.
    NameKnown,
    /// The name is not in the entry list.
    NameUnknown,
    /// The table is not one of the plan, or not open where the event needs it open.
    NoTable,
    /// The seat is not one of the plan.
    NoSeat,
    /// A player sits there.
    SeatTaken,
    /// Another table that could be entered has a lower count.
    NotFewest,
    /// The level is above the last one for late entries.
    LateClosed,
    /// The table is playing.
    Playing,
    /// The table is not playing.
    NotPlaying,
    /// The table has one player.
    Lone,
    /// The table is halted.
    Halted,
    /// A chip race is pending.
    RaceDue,
    /// Hand-for-hand is on and the table has begun in this round.
    RoundDone,
    /// The row repeats a card.
    DeckWrong,
    /// The player is not among the hand's dealt players.
    NotDealt,
    /// Another player is due.
    NotTurn,
    /// Nobody is due.
    HandOver,
    /// The hand is not over.
    NotOver,
    /// A check that faces a bet.
    CheckFacing,
    /// A call with nothing to call.
    NothingToCall,
    /// A bet that faces a bet.
    BetFacing,
    /// A raise with nothing to raise.
    NothingToRaise,
    /// A bet or raise below the minimum.
    TooSmall,
    /// A bet or raise beyond the player's chips.
    PastStack,
    /// A bet or raise above the pot bound.
    PastPot,
    /// A raise where the betting was not reopened.
    NotReopened,
    /// A bet or raise that is no multiple of the table's unit.
    NotUnit,
    /// The table has fewer players than a fullest open table.
    NotFullest,
    /// The table has more players than an open table with the fewest.
    NotShortest,
    /// The counts of the two tables differ by less than two.
    EvenEnough,
    /// An open table has a higher number.
    NotNextToBreak,
    /// The other open tables have fewer empty seats than this one has players.
    NoRoom,
    /// The draw is no permutation of the seats to fill or of the names.
    DrawWrong,
    /// The plan has no further level.
    LastLevel,
    /// The round of hand-for-hand is still open.
    RoundOpen,
    /// Hand-for-hand is on already, or off already.
    SwitchWrong,
    /// No race is pending at this table.
    NoRace,
    /// The tournament is over.
    Over,
    /// The entries and the re-entries are together 640.
    ListFull,
    /// The player has a seat.
    StillIn,
}

impl Refusal {
    /// Gives the refusal's number, by which programs tell refusals apart.
    pub fn number(self) -> u64
        ensures { result ≡ refusal_number self }
    {
        match self {
            Refusal::Syntax => 1,
            Refusal::NoPlan => 2,
            Refusal::PlanLate => 3,
            Refusal::PlanWrong => 4,
            Refusal::Stopped => 5,
            Refusal::NameKnown => 6,
            Refusal::NameUnknown => 7,
            Refusal::NoTable => 8,
            Refusal::NoSeat => 9,
            Refusal::SeatTaken => 10,
            Refusal::NotFewest => 11,
            Refusal::LateClosed => 12,
            Refusal::Playing => 13,
            Refusal::NotPlaying => 14,
            Refusal::Lone => 15,
            Refusal::Halted => 16,
            Refusal::RaceDue => 17,
            Refusal::RoundDone => 18,
            Refusal::DeckWrong => 19,
            Refusal::NotDealt => 20,
            Refusal::NotTurn => 21,
            Refusal::HandOver => 22,
            Refusal::NotOver => 23,
            Refusal::CheckFacing => 24,
            Refusal::NothingToCall => 25,
            Refusal::BetFacing => 26,
            Refusal::NothingToRaise => 27,
            Refusal::TooSmall => 28,
            Refusal::PastStack => 29,
            Refusal::PastPot => 30,
            Refusal::NotReopened => 31,
            Refusal::NotUnit => 32,
            Refusal::NotFullest => 33,
            Refusal::NotShortest => 34,
            Refusal::EvenEnough => 35,
            Refusal::NotNextToBreak => 36,
            Refusal::NoRoom => 37,
            Refusal::DrawWrong => 38,
            Refusal::LastLevel => 39,
            Refusal::RoundOpen => 40,
            Refusal::SwitchWrong => 41,
            Refusal::NoRace => 42,
            Refusal::Over => 43,
            Refusal::ListFull => 44,
            Refusal::StillIn => 45,
        }
    }

    /// Gives the refusal's name, as an answer line shows it behind the number.
    pub fn name(self) -> &'static str
        ensures { result.now ≡ refusal_name self }
    {
        match self {
            Refusal::Syntax => "Syntax",
            Refusal::NoPlan => "NoPlan",
            Refusal::PlanLate => "PlanLate",
            Refusal::PlanWrong => "PlanWrong",
            Refusal::Stopped => "Stopped",
            Refusal::NameKnown => "NameKnown",
            Refusal::NameUnknown => "NameUnknown",
            Refusal::NoTable => "NoTable",
            Refusal::NoSeat => "NoSeat",
            Refusal::SeatTaken => "SeatTaken",
            Refusal::NotFewest => "NotFewest",
            Refusal::LateClosed => "LateClosed",
            Refusal::Playing => "Playing",
            Refusal::NotPlaying => "NotPlaying",
            Refusal::Lone => "Lone",
            Refusal::Halted => "Halted",
            Refusal::RaceDue => "RaceDue",
            Refusal::RoundDone => "RoundDone",
            Refusal::DeckWrong => "DeckWrong",
            Refusal::NotDealt => "NotDealt",
            Refusal::NotTurn => "NotTurn",
            Refusal::HandOver => "HandOver",
            Refusal::NotOver => "NotOver",
            Refusal::CheckFacing => "CheckFacing",
            Refusal::NothingToCall => "NothingToCall",
            Refusal::BetFacing => "BetFacing",
            Refusal::NothingToRaise => "NothingToRaise",
            Refusal::TooSmall => "TooSmall",
            Refusal::PastStack => "PastStack",
            Refusal::PastPot => "PastPot",
            Refusal::NotReopened => "NotReopened",
            Refusal::NotUnit => "NotUnit",
            Refusal::NotFullest => "NotFullest",
            Refusal::NotShortest => "NotShortest",
            Refusal::EvenEnough => "EvenEnough",
            Refusal::NotNextToBreak => "NotNextToBreak",
            Refusal::NoRoom => "NoRoom",
            Refusal::DrawWrong => "DrawWrong",
            Refusal::LastLevel => "LastLevel",
            Refusal::RoundOpen => "RoundOpen",
            Refusal::SwitchWrong => "SwitchWrong",
            Refusal::NoRace => "NoRace",
            Refusal::Over => "Over",
            Refusal::ListFull => "ListFull",
            Refusal::StillIn => "StillIn",
        }
    }
}

/// Says that two refusals have two numbers and two names, so either tells which refusal it is.
pub fn refusals_are_told_apart()
    ensures numbers { (r s : Refusal) → refusal_number r ≡ refusal_number s → r ≡ s }
    ensures names { (r s : Refusal) → refusal_name r ≡ refusal_name s → r ≡ s }
{}
