//! A source that is read to its end.

ghost use Rattle.std.specs.Prelude.{◌≡◌, ◌<◌, ◌≤◌, [], length, Some, Err, IfOk, IfSome};
ghost use Rattle.floor_text.specs.Outside.{Rose};
ghost use Rattle.plan_files.specs.Wholes.{TakesUpTo};

use crate::limits::BLOCK;
use floor_text::{Failed, Source};
use std::alloc::{AllocError, Global};

/// Why a source was not read to its end.
#[derive(Clone, Copy, PartialEq, Eq)]
pub enum WholeEnd {
    /// The source failed.
    ReadFault,
    /// More bytes were taken than the limit allows.
    InputTooLong,
    /// Memory ran out.
    NoMemory,
}

impl From<AllocError> for WholeEnd {
    ghost use Rattle.plan_files.specs.declared.whole.WholeEnd.TheVariants.{NoMemory};

    ghost from_gives = { λ _ end. end ≡ NoMemory };

    fn from(_: AllocError) -> WholeEnd {
        WholeEnd::NoMemory
    }
}

impl From<Failed> for WholeEnd {
    ghost use Rattle.plan_files.specs.declared.whole.WholeEnd.TheVariants.{ReadFault};

    ghost from_gives = { λ _ end. end ≡ ReadFault };

    fn from(_: Failed) -> WholeEnd {
        WholeEnd::ReadFault
    }
}

/// Makes room for the bytes that are asked of a source at once.
fn empty_block(alloc: Global) -> Result<Vec<u8>, AllocError>
    ensures { IfOk result (λ block. 0 < length block.items) }
{
    vec![in alloc; 0; BLOCK]
}

/// Reads all bytes of a source, up to its end. `InputTooLong` comes exactly where more bytes were taken than the limit
/// allows, and `ReadFault` only where the source failed in this call.
pub fn read_whole<S: Source>(alloc: Global, source: &mut S, limit: u64) -> Result<Vec<u8>, WholeEnd>
    ensures whole { IfOk result (λ whole. IfSome (S.left source.old)
        (λ bytes. (whole.items ≡ bytes) × (S.left source.new ≡ Some []))) }
    ensures within { IfOk result (λ whole. length whole.items ≤ limit) }
    ensures taken { IfSome (S.left source.old)
        (λ bytes. TakesUpTo limit bytes (S.left source.new) (result ≡ Err WholeEnd.InputTooLong)) }
    ensures faults { S.faults source.old ≤ S.faults source.new }
    ensures read_fault { result ≡ Err WholeEnd.ReadFault → Rose (S.faults source.old) (S.faults source.new) }
{
    let mut block = empty_block(alloc)?;
    let mut whole = Vec::new(alloc);
    'reading: loop {
        let taken = source.take(&mut block)?;
        if taken == 0 {
            return Ok(whole);
        }
        if taken as u64 > limit - whole.len() as u64 {
            return Err(WholeEnd::InputTooLong);
        }
        whole.extend_from_slice(&block[..taken])?;
    }
}
