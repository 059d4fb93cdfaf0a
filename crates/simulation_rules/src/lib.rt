//! The rules of a simulated tournament: which event comes next, and the list that comes of it.
//!
//! It stands on tournament_rules, floor_director and plan_files and what these stand on. It has the types of a place
//! and of a step, the definitions, by which `floor_simulation` plays, and laws: an order that is owed is accepted
//! (`an_owed_order_is_accepted`), and such orders come to an end (`owed_orders_come_to_an_end`); each event of a
//! simulated tournament is accepted (`a_simulated_event_is_accepted`), and it comes to its end (`a_simulation_ends`).
#![tactic(auto)]

mod laws;
mod place;
mod step;

pub use laws::{
    a_simulated_event_is_accepted, a_simulation_ends, an_owed_order_is_accepted,
    owed_orders_come_to_an_end,
};
pub use place::SimPlace;
pub use step::SimStep;
