//! The texts of cards, rows and decks.

use crate::rows::are_right;
use card_set::{Card, Deck, card_text, read_card, read_cards, read_row};

const SORTED: &[u8; 104] =
    b"2c2d2h2s3c3d3h3s4c4d4h4s5c5d5h5s6c6d6h6s7c7d7h7s8c8d8h8s9c9d9h9sTcTdThTsJcJdJhJsQcQdQhQsKcKdKhKsAcAdAhAs";

/// Two bytes, and the rank and the suit of the card that they are, if they are one.
type CardRow = (&'static [u8; 2], Option<(u8, u8)>);

static CARDS: [CardRow; 19] = [
    (b"2c", Some((2, 0))),
    (b"9d", Some((9, 1))),
    (b"Th", Some((10, 2))),
    (b"Js", Some((11, 3))),
    (b"Qc", Some((12, 0))),
    (b"Kd", Some((13, 1))),
    (b"Ah", Some((14, 2))),
    (b"10", None),
    (b"0c", None),
    (b"1c", None),
    (b"tc", None),
    (b"jd", None),
    (b"ah", None),
    (b"Xc", None),
    (b"TC", None),
    (b"Tx", None),
    (b"cT", None),
    (b" c", None),
    (b"T ", None),
];

fn is_card(row: &CardRow) -> bool {
    let (text, wanted) = *row;
    match read_card(text[0], text[1]) {
        Some(card) => Some((card.rank, card.suit)) == wanted,
        None => wanted.is_none(),
    }
}

#[test]
fn cards_and_other_bytes(rt: HostRuntime) {
    are_right(&rt, &CARDS, is_card);
}

/// Tells whether each card is read back from its text.
fn are_read_back() -> bool {
    for number in 0..52u8 {
        let card = Card {
            rank: 2 + number / 4,
            suit: number % 4,
        };
        let [a, b] = card_text(card);
        if read_card(a, b) != Some(card) {
            return false;
        }
    }
    true
}

#[test]
fn each_card_is_read_back(rt: HostRuntime) {
    assert!(rt; are_read_back());
}

/// Bytes, and the ranks and suits of the two cards that they are, none if they are not two.
type TwoRow = (&'static [u8], &'static [(u8, u8)]);

static TWO_CARDS: [TwoRow; 9] = [
    (b"TdAs", &[(10, 1), (14, 3)]),
    (b"2c2c", &[(2, 0), (2, 0)]),
    (b"", &[]),
    (b"Td", &[]),
    (b"TdA", &[]),
    (b"TdAs2", &[]),
    (b"TdAs2c", &[]),
    (b"tdAs", &[]),
    (b"TdSa", &[]),
];

fn are_two(row: &TwoRow) -> bool {
    let Some(cards) = read_cards::<2>(row.0) else {
        return row.1.is_empty();
    };
    let [one, two] = cards;
    match row.1 {
        [first, second] => { (one.rank, one.suit) == *first && (two.rank, two.suit) == *second }
        _ => false,
    }
}

#[test]
fn so_many_cards_are_read(rt: HostRuntime) {
    are_right(&rt, &TWO_CARDS, are_two);
}

/// Tells whether bytes are a deck, if they are a row.
fn is_deck(bytes: &[u8]) -> Option<bool> {
    let row = read_row(bytes)?;
    Some(Deck::of_row(&row).is_some())
}

/// Gives the sorted deck with some bytes in place of its first ones.
fn with_first(first: &[u8]) -> [u8; 104] {
    let mut bytes = *SORTED;
    for (byte, other) in bytes.iter_mut().zip(first) {
        *byte = *other;
    }
    bytes
}

/// Bytes in place of a sorted deck's first ones, and whether that is a deck, if it is a row.
static FIRST: [(&[u8], Option<bool>); 7] = [
    (b"", Some(true)),
    (b"2d2c", Some(true)),
    (b"As", Some(false)),
    (b"2d", Some(false)),
    (b"9h", Some(false)),
    (b"10c", None),
    (b"2c, ", None),
];

#[test]
fn a_row_may_repeat_a_card_and_a_deck_not(rt: HostRuntime) {
    are_right(&rt, &FIRST, |(first, wanted)| {
        is_deck(&with_first(first)) == *wanted
    });
}

#[test]
fn rows_have_52_cards(rt: HostRuntime) {
    let mut longer = [b'c'; 105];
    longer[..104].copy_from_slice(SORTED);
    assert!(rt;
        is_deck(&longer).is_none()
            && is_deck(&SORTED[..103]).is_none()
            && is_deck(&SORTED[..102]).is_none()
            && is_deck(b"").is_none()
            && read_cards::<0>(b"").is_some()
    );
}

/// Tells whether the row in order is that of the sorted deck, card by card.
fn is_in_order() -> Option<bool> {
    let row = read_row(SORTED)?;
    let deck = Deck::of_row(&row)?;
    let sorted = Deck::sorted();
    for index in 0..52 {
        if deck.card(index) != sorted.card(index) || row.cards[index] != sorted.card(index) {
            return Some(false);
        }
    }
    Some(row.cards == deck.row().cards && row.cards == sorted.row().cards)
}

#[test]
fn a_deck_in_order(rt: HostRuntime) {
    assert!(rt; is_in_order() == Some(true));
}

/// Gives the first two cards and the last one of the sorted deck whose first two are exchanged.
fn exchanged() -> Option<[Card; 3]> {
    let row = read_row(&with_first(b"2d2c"))?;
    let deck = Deck::of_row(&row)?;
    Some([deck.card(0), deck.card(1), deck.card(51)])
}

#[test]
fn two_cards_of_a_deck_are_exchanged(rt: HostRuntime) {
    let wanted = [
        Card { rank: 2, suit: 1 },
        Card { rank: 2, suit: 0 },
        Card { rank: 14, suit: 3 },
    ];
    assert!(rt; exchanged() == Some(wanted));
}
