//! The generator of a draw.

ghost use Rattle.std.specs.Prelude.{◌≡◌, ◌≤◌, ◌+◌, ◌++◌, length, take, drop, IsPermutation};
ghost use Rattle.std.specs.Int.{w64, to_le_bytes};
ghost use Rattle.break_draw.specs.Generator.{kind_number, draw_bytes, draw_generator, drawn_order};

use rand::SeedableRng;
use rand::seq::SliceRandom;
use rand_chacha::ChaCha20Rng;

/// What is drawn. The number of a kind keeps the draws of one event apart.
#[derive(Clone, Copy, PartialEq, Eq)]
pub enum DrawKind {
    /// The deck of a hand or of a chip race: 0.
    Deck,
    /// The order of the seats to fill: 1.
    Seats,
    /// The order of the names of a broken table's players: 2.
    Names,
    /// The act of a simulated player: 3.
    Act,
}

impl DrawKind {
    fn number(self) -> u64
        ensures { result ≡ kind_number self }
    {
        match self {
            DrawKind::Deck => 0,
            DrawKind::Seats => 1,
            DrawKind::Names => 2,
            DrawKind::Act => 3,
        }
    }
}

/// Writes a number as eight bytes, the least first, into a seed.
fn with_number(seed: [u8; 32], start: usize, number: u64) -> [u8; 32]
    requires { start + 8 ≤ 32 }
    ensures bytes { result ≡ take start seed ++ (to_le_bytes w64 number ++ drop (start + 8) seed) }
    ensures len { length result ≡ 32 }
{
    let mut bytes = seed;
    bytes[start..start + 8].copy_from_slice(&number.to_le_bytes());
    bytes
}

/// Gives the bytes from which the generator of a draw is made: the first 16 of the seed, the number of the draw and
/// that of its kind.
fn draw_bytes(seed: [u8; 32], kind: DrawKind, number: u64) -> [u8; 32]
    ensures { result ≡ draw_bytes seed kind number }
{
    let numbered = with_number(seed, 16, number);
    with_number(numbered, 24, kind.number())
}

/// Makes the generator of a draw.
#[tactic(auto, unfolding(crate::specs::Generator::draw_generator))]
pub fn generator(seed: [u8; 32], kind: DrawKind, number: u64) -> ChaCha20Rng
    ensures { result ≡ draw_generator seed kind number }
{
    ChaCha20Rng::from_seed(draw_bytes(seed, kind, number))
}

/// Puts a list into the order of a draw.
pub fn shuffle<T>(items: &mut [T], seed: [u8; 32], kind: DrawKind, number: u64)
    ensures drawn { items.new ≡ drawn_order seed kind number items.old }
    ensures permutation { IsPermutation items.old items.new }
{
    let mut generator = generator(seed, kind, number);
    items.shuffle(&mut generator);
}
