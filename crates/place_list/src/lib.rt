//! The players who are out, and their places and prizes.
//!
//! It stands on rulebook, for numbers of which no two are the same. A `PlaceList` keeps who went out when and with how
//! many chips, and gives the standings at any moment: a place is found from the whole list each time. `laws` has what
//! holds of all places and prizes.
#![tactic(auto)]

mod bust;
pub mod laws;
mod order;
mod place_list;
mod prizes;
mod standing;
mod tie;

pub use bust::Bust;
pub use place_list::PlaceList;
pub use standing::Standing;
