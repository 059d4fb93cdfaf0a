//! The draw of a broken table.

ghost use Rattle.std.specs.Prelude.{◌≡◌, ℕ, true, IfOk, IsPermutation};
ghost use Rattle.break_draw.specs.declared.random.DrawKind.TheVariants.{Seats, Names};
ghost use Rattle.seat_book.specs.Seatings.{Seating};
ghost use Rattle.balance_rule.specs.Filling.{names_at};
ghost use Rattle.break_draw.specs.Draws.{is_draw};
ghost use Rattle.break_draw.specs.Generator.{drawn_order};

use crate::{DrawKind, shuffle};
use floor_text::Name;
use seat_book::Place;
use std::alloc::{AllocError, Global};

/// Gives a list in the order of a draw.
fn drawn<T: Copy + Drop>(
    alloc: Global,
    seed: [u8; 32],
    kind: DrawKind,
    number: u64,
    items: &[T],
) -> Result<Vec<T>, AllocError>
    ensures order { IfOk result (λ drawn. drawn.items ≡ drawn_order seed kind number items.now) }
    ensures same { IfOk result (λ drawn. IsPermutation items.now drawn.items) }
{
    let mut drawn = Vec::from_slice(alloc, items)?;
    shuffle(&mut drawn, seed, kind, number);
    Ok(drawn)
}

/// Draws an order of the seats to fill and an order of the names of a table's players in rising seat, by the seed and
/// the number of the draw; for every seed it is one that `check_draw` takes. Want of memory is the only error.
pub fn draw(
    alloc: Global,
    seed: [u8; 32],
    k: u64,
    fill: &Vec<Place>,
    names: &Vec<Name>,
) -> Result<(Vec<Place>, Vec<Name>), AllocError>
    ensures seats { IfOk result (λ drawn. drawn.0.items ≡ drawn_order seed Seats k fill.now.items) }
    ensures names { IfOk result (λ drawn. drawn.1.items ≡ drawn_order seed Names k names.now.items) }
    ensures same_seats { IfOk result (λ drawn. IsPermutation fill.now.items drawn.0.items) }
    ensures same_names { IfOk result (λ drawn. IsPermutation names.now.items drawn.1.items) }
    ensures right { (seating : Seating) (table : ℕ) → names.now.items ≡ names_at seating table
        → IfOk result (λ drawn. is_draw seating table fill.now.items drawn.0.items drawn.1.items ≡ true) }
{
    let seats = drawn(alloc, seed, DrawKind::Seats, k, fill)?;
    let players = drawn(alloc, seed, DrawKind::Names, k, names)?;
    Ok((seats, players))
}
