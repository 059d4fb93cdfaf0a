//! The shapes of halls, and who enters there.

use super::hall::Shape;
use super::scene::Deed;
use crate::client::FINE;
use session_desk::SessionEnd;

/// What is told of the blinds of one level.
const TOLD: &str = "# blinds 100 200 100\n";

/// What is told of two levels, of which the second has greater chips.
const TOLD_TWO: &str = "# blinds 100 200 100\n# blinds 500 1000 500\n";

/// A table of two seats.
pub const PAIR: Shape = Shape {
    game: "holdem",
    tables: 1,
    seats: 2,
    levels: "[[100, 200, 100]]",
    told: TOLD,
};

/// A table of two seats that plays Omaha.
pub const OMAHA: Shape = Shape {
    game: "omaha",
    tables: 1,
    seats: 2,
    levels: "[[100, 200, 100]]",
    told: TOLD,
};

/// A table of two seats. The second level has greater chips.
pub const RISING_PAIR: Shape = Shape {
    game: "holdem",
    tables: 1,
    seats: 2,
    levels: "[[100, 200, 100], [500, 1000, 500]]",
    told: TOLD_TWO,
};

/// Two tables of two seats. The second level has greater chips.
pub const RISING: Shape = Shape {
    game: "holdem",
    tables: 2,
    seats: 2,
    levels: "[[100, 200, 100], [500, 1000, 500]]",
    told: TOLD_TWO,
};

/// Two tables of four seats.
pub const FOUR_SEATS: Shape = Shape {
    game: "holdem",
    tables: 2,
    seats: 4,
    levels: "[[100, 200, 100]]",
    told: TOLD,
};

/// Two tables of six seats.
pub const SIX_SEATS: Shape = Shape {
    game: "holdem",
    tables: 2,
    seats: 6,
    levels: "[[100, 200, 100]]",
    told: TOLD,
};

/// Three tables of two seats.
pub const THREE: Shape = Shape {
    game: "holdem",
    tables: 3,
    seats: 2,
    levels: "[[100, 200, 100]]",
    told: TOLD,
};

/// The floor lets ann and bob enter.
pub const ENTER_BOTH: Deed<'static> = Deed::Session(
    SessionEnd::Ended,
    FINE,
    "> hello floor f
= ok
> begin 1
# PLAN
= no 1 Syntax
> enter ann 1 1
# enter ann 1 1
= ok
> enter bob 1 2
# enter bob 1 2
= ok
.
",
);

/// The floor lets four enter: ann and cat at the first table, and bob and dan at the second.
pub const ENTER_FOUR: Deed<'static> = Deed::Session(
    SessionEnd::Ended,
    FINE,
    "> hello floor f
= ok
> enter ann 1 1
# PLAN
# enter ann 1 1
= ok
> enter bob 2 1
# enter bob 2 1
= ok
> enter cat 1 2
# enter cat 1 2
= ok
> enter dan 2 2
# enter dan 2 2
= ok
.
",
);
