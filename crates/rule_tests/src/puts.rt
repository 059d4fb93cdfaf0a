//! What players have put in.

ghost use Rattle.std.specs.Prelude.{◌≡◌, ◌<◌, ◌≤◌, ◌^◌};
ghost use Rattle.pot_layers.specs.Layers.{is_contested};
ghost use Rattle.pot_layers.specs.PotTests.{are_whole_puts};
ghost use Rattle.pot_layers.specs.Tallies.{total_put};

use pot_layers::Put;

/// What players have put in by their seats from 1, and whether they are live. Behind the last nobody was dealt in.
pub type PutRow = &'static [(u32, bool)];

/// Gives what the player of an index has put in.
fn put_at(row: PutRow, index: usize) -> Put
    ensures { result.amount < 2 ^ 32 }
{
    match row.get(index) {
        Some((amount, live)) => Put {
            amount: u64::from(*amount),
            live: *live,
        },
        None => Put::NOBODY,
    }
}

/// Gives what the players have put in.
pub fn puts_of(row: PutRow) -> [Put; 10]
    ensures { total_put result < 2 ^ 52 }
{
    [
        put_at(row, 0),
        put_at(row, 1),
        put_at(row, 2),
        put_at(row, 3),
        put_at(row, 4),
        put_at(row, 5),
        put_at(row, 6),
        put_at(row, 7),
        put_at(row, 8),
        put_at(row, 9),
    ]
}

/// Tells whether a live player has put in chips.
pub fn is_contested(puts: &[Put; 10]) -> bool
    ensures { result ≡ is_contested puts.now }
{
    puts.iter().any(|put| put.live && put.amount >= 1)
}

/// Tells whether the puts are whole units.
pub fn are_whole(unit: u64, puts: &[Put; 10]) -> bool
    requires { 1 ≤ unit }
    ensures { result ≡ are_whole_puts unit puts.now }
{
    puts.iter().all(|put| put.amount % unit == 0)
}
