//! What is written as text.

ghost use Rattle.std.specs.Prelude.{◌≡◌, ◌∷◌, ◌++◌, ℕ, List, map, take, OnOk, OnErr};
ghost use Rattle.std.specs.List.{join_with_byte, flat_map};
ghost use Rattle.line_words.specs.Words.{Extends};

use std::alloc::AllocError;

/// What is written as one text.
pub trait WriteText {
    /// The text of each value.
    ghost text: { Self → List ℕ };

    /// Writes the text at the end of `out`. Where memory runs out, `out` has something behind what it had.
    fn push_text(&self, out: &mut Vec<u8>) -> Result<(), AllocError>
        ensures ok { OnOk result (out.new.items ≡ out.old.items ++ text self.now) }
        ensures kept { Extends out.old.items out.new.items };
}

/// Takes back what was written behind the first `before` bytes of `out`, where it was not written whole.
pub fn whole_or_nothing(
    written: Result<(), AllocError>,
    before: usize,
    out: &mut Vec<u8>,
) -> Result<(), AllocError>
    ensures same { result ≡ written }
    ensures ok { OnOk result (out.new.items ≡ out.old.items) }
    ensures err { OnErr result (out.new.items ≡ take before out.old.items) }
{
    if written.is_err() {
        out.truncate(before);
    }
    written
}

/// Writes texts one after another, with a byte before each. Where memory runs out, `out` has something behind what it
/// had.
#[inline(always)]
pub fn push_behind<T: WriteText>(
    between: u8,
    items: &[T],
    out: &mut Vec<u8>,
) -> Result<(), AllocError>
    ensures ok { OnOk result (out.new.items ≡ out.old.items ++ flat_map (λ item. between ∷ T.text item) items.now) }
    ensures kept { Extends out.old.items out.new.items }
{
    for item in items {
        out.push(between)?;
        item.push_text(out)?;
    }
    Ok(())
}

/// Writes texts one after another, with a byte between each two. Where memory runs out, `out` has something behind
/// what it had.
#[inline(always)]
pub fn push_joined<T: WriteText>(
    between: u8,
    items: &[T],
    out: &mut Vec<u8>,
) -> Result<(), AllocError>
    ensures ok { OnOk result (out.new.items ≡ out.old.items ++ join_with_byte between (map T.text items.now)) }
    ensures kept { Extends out.old.items out.new.items }
{
    let [first, others @ ..] = items else {
        return Ok(());
    };
    first.push_text(out)?;
    push_behind(between, others, out)
}
