//! The start of a hand as a table's history holds it.

ghost use Rattle.std.specs.Prelude.{◌≡◌, IfOk};

use std::alloc::{AllocError, Global};
use std::marker::Model;
use table_engine::HandStart;

/// The start of a hand on the heap, so that an entry of a history is no larger than an act needs. Contracts see it as
/// the start.
#[derive(Drop)]
pub struct Opening {
    start: Box<HandStart>,
}

impl Model for Opening {
    ghost use Rattle.table_engine.specs.declared.start.HandStart.{HandStart};

    ghost Value = { HandStart };

    ghost view = { λ opening. opening.start.value };
}

impl Opening {
    /// Puts a start on the heap. Want of memory is the only error.
    pub fn new(alloc: Global, start: HandStart) -> Result<Opening, AllocError>
        ensures { IfOk result (λ opening. opening ≡ start) }
    {
        Ok(Opening {
            start: Box::new(alloc, start)?,
        })
    }

    /// Gives the start.
    pub fn start(&self) -> &HandStart
        ensures { result.now ≡ self.now }
    {
        &self.start
    }
}
