//! Each player's best card of a race.

ghost use Rattle.std.specs.Prelude.{◌≡◌, ◌<◌, ◌≤◌, ◌*◌, ◌%◌, length, true};
ghost use Rattle.chip_race.specs.Races.{is_higher};
ghost use Rattle.chip_race.specs.BestCards.{better, highest, best_cards, is_ahead};

use card_set::Card;

/// Tells whether a card is higher than another: by rank, and of the same rank spades, hearts, diamonds, clubs.
pub(crate) fn is_higher(one: Card, other: Card) -> bool
    ensures { result ≡ is_higher one other }
{
    one.rank > other.rank || one.rank == other.rank && one.suit > other.suit
}

/// Gives the better of the best card so far and one more.
fn better(best: Option<Card>, card: Card) -> Option<Card>
    ensures { result ≡ better best card }
{
    match best {
        Some(best) if !is_higher(card, best) => Some(best),
        _ => Some(card),
    }
}

/// Gives the highest of some cards.
fn highest(cards: &[Card]) -> Option<Card>
    ensures { result ≡ highest cards.now }
{
    let mut best = None;
    for card in cards {
        best = better(best, *card);
    }
    best
}

/// Gives each player's best card: he gets one card for each odd chip of the old unit, and cards go from the top,
/// players in rising seat.
pub(crate) fn best_cards(
    stacks: &[u64; 10],
    old: u64,
    new: u64,
    cards: &[Card],
) -> [Option<Card>; 10]
    requires unit { 1 ≤ old }
    requires greater { old < new }
    requires most { new ≤ 6 * old }
    requires deck { length cards.now ≡ 52 }
    ensures { result ≡ best_cards old new stacks.now cards.now }
{
    let mut best = [None; 10];
    let mut left = cards;
    for index in 0..stacks.len() {
        let chips = stacks[index] % new / old;
        let (own, rest) = left.split_at(chips as usize);
        best[index] = highest(own);
        left = rest;
    }
    best
}
