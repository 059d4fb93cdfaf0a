//! What a player has put in.

ghost use Rattle.std.specs.Prelude.{◌≡◌, true, false};

/// What a player has put in during the whole hand, in chips, and whether he is live: he has not folded.
#[derive(Clone, Copy, PartialEq, Eq)]
pub struct Put {
    /// What he has put in during the whole hand, in chips.
    pub amount: u64,
    /// Whether he is live.
    pub live: bool,
}

impl Put {
    /// A seat where nobody was dealt in: nothing is put in, and nobody is live.
    pub const NOBODY: Put = Put {
        amount: 0,
        live: false,
    };

    /// Tells what a live player has put in, in chips.
    pub fn live(amount: u64) -> Put
        ensures { result ≡ record { amount = amount; live = true } }
    {
        Put { amount, live: true }
    }

    /// Tells what a player has put in who has folded, in chips.
    pub fn folded(amount: u64) -> Put
        ensures { result ≡ record { amount = amount; live = false } }
    {
        Put {
            amount,
            live: false,
        }
    }
}
