//! The break of a table: which seats its players take, and the draw of who takes which.
//!
//! It stands on floor_text, rulebook, button_blinds, seat_book and balance_rule, and on `rand`, `rand_chacha`,
//! `rand_core` and `thiserror`. `fill_seats` chooses the seats, and `fill_list` makes a list of them; `draw` puts seats
//! and names into an order by a seed, and `check_draw` says whether an order is one. `fill_list` and `draw` alone take
//! memory. `generator` makes the generator of any draw of a tournament. The laws say which seats are filled, and when.
#![tactic(auto)]

mod checks;
mod draws;
mod faults;
mod fill;
mod filling;
mod laws;
mod random;

pub use checks::check_draw;
pub use draws::draw;
pub use faults::DrawFault;
pub use fill::FillSeats;
pub use filling::{fill_list, fill_seats};
pub use laws::{
    a_break_leaves_the_tables_even, a_draw_passes_its_check, a_fill_list_has_empty_seats_elsewhere,
    a_fill_list_is_there_exactly_where_there_is_room, the_next_seat_is_where_the_fewest_are,
};
pub use random::{DrawKind, generator, shuffle};
