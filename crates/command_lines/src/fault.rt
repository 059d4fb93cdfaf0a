//! Why a run ends otherwise than well.

ghost use Rattle.std.specs.Prelude.{◌⊎◌, ◌≡◌, IfSome};
ghost use Rattle.floor_text.specs.Outside.{Rose};
ghost use Rattle.floor_text.specs.declared.line_reader.ReadEnd.TheVariants as read_ends;
ghost use Rattle.command_lines.specs.declared.fault.Fault.TheVariants.{Write, NoMemory, Plan};
ghost use Rattle.command_lines.specs.Endings.{LetsGo, PutsLine, fault_status, fault_line, fault_of_read_end, fault_of_whole_end, fault_of_plan};

use floor_text::{Failed, ReadEnd, Sink};
use level_plan::{PlanFault, PlanItem};
use plan_files::WholeEnd;
use std::alloc::AllocError;

/// Why a run ends otherwise than well.
#[derive(Clone, Copy, PartialEq, Eq)]
pub enum Fault {
    /// The words are no written command.
    Usage,
    /// The source failed.
    Read,
    /// The sink of the answers failed.
    Write,
    /// Memory ran out.
    NoMemory,
    /// This item of the plan is wrong.
    Plan(PlanItem),
    /// The hall failed, and gave no doors.
    Hall,
    /// The input has more bytes than the limit.
    InputTooLong,
}

/// Gives the line that tells which item of a plan is wrong.
fn plan_line(item: PlanItem) -> &'static [u8]
    ensures { result.now ≡ fault_line (Plan item) }
{
    match item {
        PlanItem::Toml => b"plan toml\n",
        PlanItem::Game => b"plan game\n",
        PlanItem::Tables => b"plan tables\n",
        PlanItem::Seats => b"plan seats\n",
        PlanItem::Stack => b"plan stack\n",
        PlanItem::Buyin => b"plan buyin\n",
        PlanItem::Late => b"plan late\n",
        PlanItem::Blinds => b"plan blinds\n",
        PlanItem::Shares => b"plan shares\n",
        PlanItem::Limit => b"plan limit\n",
        PlanItem::FloorWord => b"plan floor_word\n",
        PlanItem::Words => b"plan words\n",
    }
}

impl Fault {
    /// Gives the exit status.
    pub fn status(self) -> u8
        ensures { result ≡ fault_status self }
    {
        match self {
            Fault::Usage => 2,
            Fault::Read => 3,
            Fault::Write => 4,
            Fault::NoMemory => 5,
            Fault::Plan(_) => 6,
            Fault::Hall => 7,
            Fault::InputTooLong => 8,
        }
    }

    /// Gives the line that tells it.
    pub fn line(self) -> &'static [u8]
        ensures { result.now ≡ fault_line self }
    {
        match self {
            Fault::Usage => b"usage: replay / view NAME / simulate N / serve PORT DESKS\n",
            Fault::Read => b"read fault\n",
            Fault::Write => b"write fault\n",
            Fault::NoMemory => b"out of memory\n",
            Fault::Plan(item) => plan_line(item),
            Fault::Hall => b"hall fault\n",
            Fault::InputTooLong => b"input too long\n",
        }
    }

    /// Puts the line that tells it on err, and gives its status. A failure of err changes nothing.
    pub fn tell<E: Sink>(self, err: &mut E) -> u8
        ensures status { result ≡ fault_status self }
        ensures line { IfSome (E.written err.old)
            (λ before. PutsLine before (fault_line self) (E.written err.new) (E.faults err.old) (E.faults err.new)) }
        ensures let_go { LetsGo E.held err.old err.new ⊎ Rose (E.faults err.old) (E.faults err.new) }
    {
        let _ = err.put(self.line());
        self.status()
    }
}

impl From<AllocError> for Fault {
    ghost from_gives = { λ _ fault. fault ≡ NoMemory };

    fn from(_: AllocError) -> Fault {
        Fault::NoMemory
    }
}

impl From<Failed> for Fault {
    ghost from_gives = { λ _ fault. fault ≡ Write };

    fn from(_: Failed) -> Fault {
        Fault::Write
    }
}

impl From<ReadEnd> for Fault {
    ghost from_gives = { λ end fault. fault ≡ fault_of_read_end end };

    fn from(end: ReadEnd) -> Fault {
        match end {
            ReadEnd::ReadFault => Fault::Read,
            ReadEnd::InputTooLong => Fault::InputTooLong,
        }
    }
}

impl From<WholeEnd> for Fault {
    ghost from_gives = { λ end fault. fault ≡ fault_of_whole_end end };

    fn from(end: WholeEnd) -> Fault {
        match end {
            WholeEnd::ReadFault => Fault::Read,
            WholeEnd::InputTooLong => Fault::InputTooLong,
            WholeEnd::NoMemory => Fault::NoMemory,
        }
    }
}

impl From<PlanFault> for Fault {
    ghost from_gives = { λ reason fault. fault ≡ fault_of_plan reason };

    fn from(reason: PlanFault) -> Fault {
        match reason {
            PlanFault::Wrong(item) => Fault::Plan(item),
            PlanFault::NoMemory => Fault::NoMemory,
        }
    }
}
