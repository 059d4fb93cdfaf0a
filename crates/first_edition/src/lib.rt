//! The first edition: what a stream was answered before a player who is out could enter again, before a level could
//! have an ante, and before a plan could have a fixed limit.
//!
//! It stands on tournament_rules and has definitions, and laws: a stream whose lines are all in the grammar of that
//! edition is answered as it was, it leads to no ante, no fixed limit and no re-entry, and a hand without an ante and
//! without a fixed limit is played as it was. `specs/First.antt` and `specs/FirstHands.antt` have just those
//! definitions that have changed since, as they stood, and what is made of them; what they cite of other crates stands
//! there as it stood.
#![tactic(auto)]

pub mod laws;
