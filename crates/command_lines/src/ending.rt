//! How a run ends.

ghost use Rattle.std.specs.Prelude.{◌⊎◌, ◌≡◌, IfErr, IfSome, OnOk};
ghost use Rattle.floor_text.specs.Outside.{Rose};
ghost use Rattle.command_lines.specs.Endings.{LetsGo, PutsLine, fault_line, run_status};

use crate::fault::Fault;
use floor_text::Sink;

/// Ends a run: gives its exit status, and puts the line that tells its fault on err. Of a run that ended well nothing
/// is put. A failure of err changes nothing.
pub fn finish<E: Sink>(ran: Result<(), Fault>, err: &mut E) -> u8
    ensures status { result ≡ run_status ran }
    ensures quiet { OnOk ran (err.new ≡ err.old) }
    ensures line { IfErr ran (λ fault. IfSome (E.written err.old) (λ before.
        PutsLine before (fault_line fault) (E.written err.new) (E.faults err.old) (E.faults err.new))) }
    ensures let_go { LetsGo E.held err.old err.new ⊎ Rose (E.faults err.old) (E.faults err.new) }
{
    match ran {
        Ok(()) => 0,
        Err(fault) => fault.tell(err),
    }
}
