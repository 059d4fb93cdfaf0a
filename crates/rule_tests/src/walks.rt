//! The best high hands as a plain walk through all choices finds them.

ghost use Rattle.std.specs.Prelude.{◌≤◌};

use card_choices::{are_distinct, fives, pairs, threes};
use card_set::{Card, Deck};
use hand_rank::{HighValue, best_holdem, best_omaha, five_card_value};

/// How often each category came in hands whose best value is the one that the walk finds. `None` where one is another.
type Seen = Option<[u32; 9]>;

/// Gives the best value in hold'em as a plain walk through the 21 choices finds it.
fn walk_holdem(hole: [Card; 2], board: [Card; 5]) -> HighValue {
    let fives = fives(hole, board);
    let mut best = five_card_value(&fives[0].cards());
    for five in &fives {
        best = best.max(five_card_value(&five.cards()));
    }
    best
}

/// Gives the best value in Omaha as a plain walk through the 60 choices finds it.
fn walk_omaha(hole: [Card; 4], board: [Card; 5]) -> HighValue {
    let pairs = pairs(hole);
    let threes = threes(board);
    let mut best = five_card_value(&pairs[0].with(threes[0]).cards());
    for pair in &pairs {
        for three in &threes {
            best = best.max(five_card_value(&pair.with(*three).cards()));
        }
    }
    best
}

/// Gives some card of those that come first in a deck, by shifts of a number.
fn draw(deck: &Deck, state: &mut u64, cards: u64) -> Card
    requires some { 1 ≤ cards }
    requires few { cards ≤ 52 }
{
    *state ^= *state << 13;
    *state ^= *state >> 7;
    *state ^= *state << 17;
    deck.card((*state % cards) as usize)
}

/// Gives so many cards of those that come first in a deck, of which one may come twice.
fn draw_cards<const N: usize>(deck: &Deck, state: &mut u64, cards: u64) -> [Card; N]
    requires some { 1 ≤ cards }
    requires few { cards ≤ 52 }
{
    let mut drawn = [deck.card(0); N];
    for card in &mut drawn {
        *card = draw(deck, state, cards);
    }
    drawn
}

/// Counts a hand by its category, if its best value is the one that the walk finds.
fn count(seen: Seen, best: HighValue, walked: HighValue) -> Seen {
    let mut seen = seen?;
    if best != walked {
        return None;
    }
    let times = seen.get_mut(usize::from(*best.numbers().as_slice().first()?))?;
    *times = times.saturating_add(1);
    Some(seen)
}

/// Compares the best values of hands of hold'em with those of the walk.
fn compare_holdem() -> Seen {
    let deck = Deck::sorted();
    let mut state = 88172645463325252;
    let mut seen = Some([0u32; 9]);
    for _ in 0..4000 {
        let hole = draw_cards(&deck, &mut state, 52);
        let board = draw_cards(&deck, &mut state, 52);
        if are_distinct(&hole, &board) {
            seen = count(seen, best_holdem(hole, board), walk_holdem(hole, board));
        }
    }
    seen
}

/// Compares the best values of hands of Omaha of so many cards with those of the walk.
fn compare_omaha(cards: u64) -> Seen
    requires some { 1 ≤ cards }
    requires few { cards ≤ 52 }
{
    let deck = Deck::sorted();
    let mut state = 88172645463325252;
    let mut seen = Some([0u32; 9]);
    for _ in 0..4000 {
        let hole = draw_cards(&deck, &mut state, cards);
        let board = draw_cards(&deck, &mut state, cards);
        if are_distinct(&hole, &board) {
            seen = count(seen, best_omaha(hole, board), walk_omaha(hole, board));
        }
    }
    seen
}

/// Counts the hands that came.
fn total(seen: Seen) -> u32 {
    let mut total = 0u32;
    for times in seen.unwrap_or([0; 9]) {
        total = total.saturating_add(times);
    }
    total
}

/// Tells how often the rarest category came, of this one and all better ones.
fn least(seen: Seen, category: usize) -> u32 {
    let mut least = u32::MAX;
    for times in seen.unwrap_or([0; 9]).iter().skip(category) {
        least = least.min(*times);
    }
    least
}

#[test]
fn holdem_is_as_the_walk_finds_it(rt: HostRuntime) {
    assert!(rt; total(compare_holdem()) > 2000);
}

#[test]
fn omaha_is_as_the_walk_finds_it(rt: HostRuntime) {
    assert!(rt; least(compare_omaha(52), 0) > 0);
}

#[test]
fn omaha_of_few_ranks_is_as_the_walk_finds_it(rt: HostRuntime) {
    assert!(rt; least(compare_omaha(24), 4) > 5);
}
