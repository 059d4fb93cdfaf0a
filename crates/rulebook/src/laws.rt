//! What the search through a list of people has to do with the seats of the table, and what the limits are.

ghost use Rattle.std.specs.Prelude.{◌≡◌, ◌≤◌, ℕ, Bool, true, List, find, map};
ghost use Rattle.rulebook.specs.Limits.{most_entries, most_seats, most_tables};
ghost use Rattle.rulebook.specs.Pairs.{are_rising};
ghost use Rattle.rulebook.specs.Search.{found_along, are_at_table};
ghost use Rattle.rulebook.specs.Seats.{clockwise_after, people_clockwise_after};

use crate::limits::{MOST_ENTRIES, MOST_SEATS, MOST_TABLES};

/// Says that of people who are listed in rising seat, the first that the search through the list finds is the first
/// that is found along the seats of the table clockwise, from the seat after this one.
pub fn search_is_the_walk<A>()
    ensures { (seat_of : A → ℕ) (wanted : A → Bool) (people : List A) (seats seat : ℕ) → seat ≤ seats
        → are_rising (map seat_of people) ≡ true → are_at_table seat_of seats people ≡ true
        → find wanted (people_clockwise_after seat_of people seat)
        ≡ found_along seat_of wanted people (clockwise_after seats seat) }
{}

/// Says that the limits that the code goes by are those of the rules.
pub fn limits_are_the_rules()
    ensures tables { MOST_TABLES ≡ most_tables }
    ensures seats { MOST_SEATS ≡ most_seats }
    ensures entries { MOST_ENTRIES ≡ most_entries }
{}
