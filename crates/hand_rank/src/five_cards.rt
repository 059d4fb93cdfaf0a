//! The value of five cards, by how often their ranks occur.

ghost use Rattle.std.specs.Prelude.{◌≡◌, ◌≤◌, ◌==◌, List, length};
ghost use Rattle.std.specs.List.{list_all};
ghost use Rattle.card_set.specs.declared.card.Card.{Card};
ghost use Rattle.hand_rank.specs.Counts.{AreCountsOf, AreKindsOf};
ghost use Rattle.hand_rank.specs.Sets.{ranks_of};
ghost use Rattle.hand_rank.specs.Values.{ranks_that_occur, run_top, are_of_one_suit, value_of_distinct, five_card_value};

use crate::category::Category;
use crate::high_value::HighValue;
use crate::numbers::Numbers;
use crate::rank_set::RankSet;
use card_set::Card;

/// Tells how often each rank occurs, by its number.
fn count_ranks(cards: &[Card; 5]) -> [u8; 15]
    ensures { AreCountsOf result cards.now }
{
    let mut counts = [0; 15];
    for card in cards {
        counts[card.rank as usize] += 1;
    }
    counts
}

/// Gives the ranks that occur so often.
fn ranks_that_occur(counts: &[u8; 15], often: u8) -> RankSet
    requires { 1 ≤ often }
    ensures { (cards : List Card) → AreCountsOf counts.now cards
        → ranks_of result.bits ≡ ranks_that_occur cards often }
{
    let mut ranks = RankSet::empty();
    for rank in 2..15 {
        if counts[rank as usize] == often {
            ranks = ranks.with(rank);
        }
    }
    ranks
}

/// The ranks that occur four times, three times, twice and once.
#[derive(Clone, Copy)]
struct Kinds {
    four: RankSet,
    three: RankSet,
    two: RankSet,
    one: RankSet,
}

impl Kinds {
    /// Tells how often the ranks of five cards occur.
    fn of(cards: &[Card; 5]) -> Kinds
        ensures { AreKindsOf result.four.bits result.three.bits result.two.bits result.one.bits cards.now }
    {
        let counts = count_ranks(cards);
        Kinds {
            four: ranks_that_occur(&counts, 4),
            three: ranks_that_occur(&counts, 3),
            two: ranks_that_occur(&counts, 2),
            one: ranks_that_occur(&counts, 1),
        }
    }
}

/// Gives the top rank of five distinct ranks, if they run.
fn run_top(ranks: &[u8]) -> Option<u8>
    ensures { result ≡ run_top ranks.now }
{
    match ranks {
        [14, 5, 4, 3, 2] => Some(5),
        [top, _, _, _, last] if top.saturating_sub(*last) == 4 => Some(*top),
        _ => None,
    }
}

/// Tells whether all cards have a suit.
fn have_suit(cards: &[Card], suit: u8) -> bool
    ensures { result ≡ list_all (λ card. card.suit == suit) cards.now }
{
    cards.iter().all(|card| card.suit == suit)
}

/// Tells whether there is one suit.
fn are_of_one_suit(cards: &[Card]) -> bool
    ensures { result ≡ are_of_one_suit cards.now }
{
    match cards {
        [] => true,
        [first, others @ ..] => have_suit(others, first.suit),
    }
}

/// Gives the value of five cards of distinct ranks.
fn value_of_distinct(cards: &[Card; 5], ranks: RankSet) -> HighValue
    requires { length (ranks_of ranks.bits) ≤ 5 }
    ensures { result
        ≡ value_of_distinct (run_top (ranks_of ranks.bits)) (are_of_one_suit cards.now) (ranks_of ranks.bits) }
{
    let mut numbers = Numbers::new();
    numbers.push_ranks(ranks);
    match (run_top(numbers.as_slice()), are_of_one_suit(cards)) {
        (Some(top), true) => HighValue::of_run(Category::StraightFlush, top),
        (Some(top), false) => HighValue::of_run(Category::Straight, top),
        (None, true) => HighValue::of_distinct(Category::Flush, ranks),
        (None, false) => HighValue::of_distinct(Category::HighCard, ranks),
    }
}

/// Gives the value of five cards: their category, and then the distinct ranks.
pub fn five_card_value(cards: &[Card; 5]) -> HighValue
    ensures { result ≡ five_card_value cards.now }
{
    let kinds = Kinds::of(cards);
    if !kinds.four.is_empty() {
        return HighValue::of(Category::FourOfAKind, kinds.four, kinds.one);
    }
    if !kinds.three.is_empty() {
        if kinds.two.is_empty() {
            return HighValue::of(Category::ThreeOfAKind, kinds.three, kinds.one);
        }
        return HighValue::of(Category::FullHouse, kinds.three, kinds.two);
    }
    if kinds.two.has_more(1) {
        return HighValue::of(Category::TwoPair, kinds.two, kinds.one);
    }
    if !kinds.two.is_empty() {
        return HighValue::of(Category::OnePair, kinds.two, kinds.one);
    }
    value_of_distinct(cards, kinds.one)
}
