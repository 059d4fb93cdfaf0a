//! Hands, act by act.

use crate::dealt::{Dealt, Stakes, deal, deck_of};
use crate::rows::are_right_in;
use betting_round::{Act, Done};
use card_set::{Deck, Game};
use floor_text::{Name, Refusal};
use std::alloc::Global;
use table_engine::{ActFault, Hand};

/// A name, what its player does, or nothing where time is called, and what is answered.
type Answered = (&'static [u8], Option<Act>, Result<Done, Refusal>);

/// A hand, what is done one after another, and how it stands then. No stacks are wanted where the list is empty.
struct HandScript {
    dealt: Dealt,
    game: Game,
    deck: &'static [u8],
    acts: &'static [Answered],
    is_over: bool,
    is_won_by_folds: bool,
    stacks: &'static [u64],
}

const SORTED: &[u8] =
    b"2c2d2h2s3c3d3h3s4c4d4h4s5c5d5h5s6c6d6h6s7c7d7h7s8c8d8h8s9c9d9h9sTcTdThTsJcJdJhJsQcQdQhQsKcKdKhKsAcAdAhAs";

const ACES: &[u8] =
    b"2cAh2hAs3c3d3h3s4c4d4h4s5c5d5h5s6c6d6h6s7c7d7h7s8c8d8h8s9c9d9h9sTcTdThTsJcJdJhJsQcQdQhQsKcKdKhKsAcAd2d2s";

const SIDE_POT: &[u8] =
    b"KdAdAh2cKhJcJd3c2dKsQs7d2s5c3d2h3h3s4c4d4h4s5d5h5s6c6d6h6s7c7h7s8c8d8h8s9c9d9h9sTcTdThTsJhJsQcQdQhKcAcAs";

const NO_FLUSH: &[u8] =
    b"4dAh5dKs6sQc8c2d2c3h7h9h2hJh2s4c3c3d3s4h4s5c5h5s6c6d6h7c7d7s8d8h8s9c9d9sTcTdThTsJcJdJsQdQhQsKcKdKhAcAdAs";

const ONE_SPLIT: &[u8] =
    b"AsAh2s2hKcJdQcTd2c3c4d5s2d9h3d9d3h3s4c4h4s5c5d5h6c6d6h6s7c7d7h7s8c8d8h8s9c9sTcThTsJcJhJsQdQhQsKdKhKsAcAd";

const NO_LOW: &[u8] =
    b"AsQh2sQd3hTd4c9c2cKsQsJd2d5c3c2h3d3s4d4h4s5d5h5s6c6d6h6s7c7d7h7s8c8d8h8s9d9h9sTcThTsJcJhJsQcKcKdKhAcAdAh";

const HALVES: &[u8] =
    b"AsKcAd2cKs2d9cQdJc9dQhTc2h3c4d8s2sKh3dKd3h3s4c4h4s5c5d5h5s6c6d6h6s7c7d7h7s8c8d8h9h9sTdThTsJdJhJsQcQsAcAh";

static HANDS: [HandScript; 16] = [
    // bets and refusals between two
    HandScript {
        dealt: Dealt::Two(1000, 1000),
        game: Game::Holdem,
        deck: SORTED,
        acts: &[
            (b"bob", Some(Act::Check), Err(Refusal::NotTurn)),
            (b"cat", Some(Act::Fold), Err(Refusal::NotDealt)),
            (b"ann", Some(Act::Check), Err(Refusal::CheckFacing)),
            (b"ann", Some(Act::Bet(400)), Err(Refusal::BetFacing)),
            (b"ann", Some(Act::Raise(300)), Err(Refusal::TooSmall)),
            (b"ann", Some(Act::Raise(1100)), Err(Refusal::PastStack)),
            (b"ann", Some(Act::Raise(425)), Err(Refusal::NotUnit)),
            (b"ann", Some(Act::Raise(400)), Ok(Done::RaisedTo(400))),
            (b"bob", Some(Act::Raise(500)), Err(Refusal::TooSmall)),
            (b"bob", Some(Act::Raise(625)), Err(Refusal::NotUnit)),
            (b"bob", Some(Act::Raise(1050)), Err(Refusal::PastStack)),
            (b"bob", Some(Act::Call), Ok(Done::Called(200))),
            // On the flop.
            (b"bob", Some(Act::Call), Err(Refusal::NothingToCall)),
            (b"bob", Some(Act::Raise(400)), Err(Refusal::NothingToRaise)),
            (b"bob", Some(Act::Bet(100)), Err(Refusal::TooSmall)),
            (b"bob", Some(Act::Bet(0)), Err(Refusal::TooSmall)),
            (b"bob", Some(Act::Bet(650)), Err(Refusal::PastStack)),
            (b"bob", Some(Act::Bet(225)), Err(Refusal::NotUnit)),
            (b"ann", Some(Act::Check), Err(Refusal::NotTurn)),
            (b"bob", Some(Act::Check), Ok(Done::Checked)),
            (b"ann", Some(Act::Call), Err(Refusal::NothingToCall)),
            (b"ann", Some(Act::Raise(400)), Err(Refusal::NothingToRaise)),
            (b"ann", Some(Act::Bet(200)), Ok(Done::BetTo(200))),
            (b"bob", Some(Act::Check), Err(Refusal::CheckFacing)),
            (b"bob", Some(Act::Bet(400)), Err(Refusal::BetFacing)),
            (b"bob", Some(Act::Call), Ok(Done::Called(200))),
            // On the turn.
            (b"bob", Some(Act::Bet(300)), Ok(Done::BetTo(300))),
            (b"ann", Some(Act::Raise(600)), Err(Refusal::PastStack)),
            (b"ann", Some(Act::Fold), Ok(Done::Folded)),
            (b"bob", Some(Act::Check), Err(Refusal::HandOver)),
            (b"ann", Some(Act::Check), Err(Refusal::HandOver)),
        ],
        is_over: true,
        is_won_by_folds: true,
        stacks: &[400, 1600],
    },
    // short all ins
    // Nine of ten are left to act; the second stacks are short.
    HandScript {
        dealt: Dealt::Ten(5000, 800),
        game: Game::Holdem,
        deck: SORTED,
        acts: &[
            (b"ann", Some(Act::Raise(600)), Ok(Done::RaisedTo(600))),
            (b"bob", Some(Act::AllIn), Ok(Done::RaisedTo(800))),
            (b"cat", Some(Act::Call), Ok(Done::Called(800))),
            (b"dan", Some(Act::Fold), Ok(Done::Folded)),
            (b"eve", Some(Act::Fold), Ok(Done::Folded)),
            (b"fay", Some(Act::Fold), Ok(Done::Folded)),
            (b"gus", Some(Act::Fold), Ok(Done::Folded)),
            (b"hal", Some(Act::Fold), Ok(Done::Folded)),
            (b"ida", Some(Act::Fold), Ok(Done::Folded)),
            (b"jon", Some(Act::Fold), Ok(Done::Folded)),
            (b"ann", Some(Act::Raise(1200)), Err(Refusal::NotReopened)),
            (b"ann", Some(Act::AllIn), Err(Refusal::NotReopened)),
            (b"ann", Some(Act::Call), Ok(Done::Called(200))),
            // On the flop bob is all-in, and ann and cat play on.
            (b"cat", Some(Act::Check), Err(Refusal::NotTurn)),
            (b"ann", Some(Act::Bet(200)), Ok(Done::BetTo(200))),
            (b"cat", Some(Act::Raise(300)), Err(Refusal::TooSmall)),
            (b"cat", Some(Act::Raise(400)), Ok(Done::RaisedTo(400))),
            (b"ann", Some(Act::Fold), Ok(Done::Folded)),
            (b"cat", Some(Act::Check), Err(Refusal::HandOver)),
        ],
        is_over: true,
        is_won_by_folds: false,
        stacks: &[],
    },
    // a short all in on the flop
    HandScript {
        dealt: Dealt::Three(5000, 5000, 500),
        game: Game::Holdem,
        deck: SORTED,
        acts: &[
            (b"ann", Some(Act::Call), Ok(Done::Called(200))),
            (b"bob", Some(Act::Call), Ok(Done::Called(100))),
            (b"cat", Some(Act::Call), Err(Refusal::NothingToCall)),
            (b"cat", Some(Act::Check), Ok(Done::Checked)),
            (b"bob", Some(Act::Bet(200)), Ok(Done::BetTo(200))),
            (b"cat", Some(Act::AllIn), Ok(Done::RaisedTo(300))),
            (b"ann", Some(Act::Call), Ok(Done::Called(300))),
            (b"bob", Some(Act::Raise(600)), Err(Refusal::NotReopened)),
            (b"bob", Some(Act::AllIn), Err(Refusal::NotReopened)),
            (b"bob", Some(Act::Call), Ok(Done::Called(100))),
            (b"bob", Some(Act::Check), Ok(Done::Checked)),
            (b"ann", Some(Act::Check), Ok(Done::Checked)),
            (b"bob", Some(Act::AllIn), Ok(Done::BetTo(4500))),
            (b"ann", Some(Act::AllIn), Ok(Done::Called(4500))),
            (b"ann", Some(Act::Check), Err(Refusal::HandOver)),
        ],
        is_over: true,
        is_won_by_folds: false,
        stacks: &[],
    },
    // a short big blind leaves the level
    // The board is 3s 4c 4d 4s 5d; bob has 2c 2s, cat 2d 3c and ann 2h 3d. The 150 of all three are split by cat and
    // ann, and cat is the first of them after the button; the 300 of ann and bob are ann's.
    HandScript {
        dealt: Dealt::Three(1000, 1000, 50),
        game: Game::Holdem,
        deck: SORTED,
        acts: &[
            (b"ann", Some(Act::Call), Ok(Done::Called(200))),
            (b"bob", Some(Act::Check), Err(Refusal::CheckFacing)),
            (b"bob", Some(Act::Call), Ok(Done::Called(100))),
            (b"bob", Some(Act::Check), Ok(Done::Checked)),
            (b"ann", Some(Act::Check), Ok(Done::Checked)),
            (b"bob", Some(Act::Check), Ok(Done::Checked)),
            (b"ann", Some(Act::Check), Ok(Done::Checked)),
            (b"bob", Some(Act::Check), Ok(Done::Checked)),
            (b"ann", Some(Act::Check), Ok(Done::Checked)),
            (b"ann", Some(Act::Check), Err(Refusal::HandOver)),
        ],
        is_over: true,
        is_won_by_folds: false,
        stacks: &[1150, 800, 100],
    },
    // a small bet on the flop
    HandScript {
        dealt: Dealt::Three(300, 1000, 1000),
        game: Game::Holdem,
        deck: SORTED,
        acts: &[
            (b"ann", Some(Act::Call), Ok(Done::Called(200))),
            (b"bob", Some(Act::Call), Ok(Done::Called(100))),
            (b"cat", Some(Act::Check), Ok(Done::Checked)),
            (b"bob", Some(Act::Check), Ok(Done::Checked)),
            (b"cat", Some(Act::Bet(100)), Err(Refusal::TooSmall)),
            (b"cat", Some(Act::Check), Ok(Done::Checked)),
            (b"ann", Some(Act::Bet(100)), Ok(Done::BetTo(100))),
        ],
        is_over: false,
        is_won_by_folds: false,
        stacks: &[],
    },
    // the pot bounds a raise in omaha
    HandScript {
        dealt: Dealt::Three(5000, 5000, 5000),
        game: Game::Omaha,
        deck: SORTED,
        acts: &[
            (b"ann", Some(Act::Raise(800)), Err(Refusal::PastPot)),
            (b"ann", Some(Act::AllIn), Err(Refusal::PastPot)),
            (b"ann", Some(Act::Raise(700)), Ok(Done::RaisedTo(700))),
            (b"bob", Some(Act::Fold), Ok(Done::Folded)),
            (b"cat", Some(Act::Call), Ok(Done::Called(500))),
            (b"cat", Some(Act::Bet(1550)), Err(Refusal::PastPot)),
            (b"cat", Some(Act::Bet(1500)), Ok(Done::BetTo(1500))),
        ],
        is_over: false,
        is_won_by_folds: false,
        stacks: &[],
    },
    // a short blind counts in full
    HandScript {
        dealt: Dealt::Three(5000, 5000, 50),
        game: Game::Hilo,
        deck: SORTED,
        acts: &[
            (b"ann", Some(Act::Raise(750)), Err(Refusal::PastPot)),
            (b"ann", Some(Act::Raise(700)), Ok(Done::RaisedTo(700))),
            (b"bob", Some(Act::Call), Ok(Done::Called(600))),
            (b"bob", Some(Act::Bet(1500)), Err(Refusal::PastPot)),
            (b"bob", Some(Act::Bet(1450)), Ok(Done::BetTo(1450))),
        ],
        is_over: false,
        is_won_by_folds: false,
        stacks: &[],
    },
    // time is called
    HandScript {
        dealt: Dealt::Three(1000, 1000, 1000),
        game: Game::Holdem,
        deck: SORTED,
        acts: &[
            (b"ann", None, Ok(Done::Folded)),
            (b"bob", Some(Act::Call), Ok(Done::Called(100))),
            (b"cat", None, Ok(Done::Checked)),
            (b"bob", None, Ok(Done::Checked)),
            (b"cat", Some(Act::Bet(200)), Ok(Done::BetTo(200))),
            (b"bob", None, Ok(Done::Folded)),
            (b"cat", None, Err(Refusal::HandOver)),
        ],
        is_over: true,
        is_won_by_folds: true,
        stacks: &[1000, 800, 1200],
    },
    // nobody is due where both are all in
    HandScript {
        dealt: Dealt::Two(100, 100),
        game: Game::Holdem,
        deck: SORTED,
        acts: &[(b"ann", Some(Act::Fold), Err(Refusal::HandOver))],
        is_over: true,
        is_won_by_folds: false,
        stacks: &[],
    },
    // all in and a call
    // bob has 2c 2h, ann Ah As, and the board is 3d 3h 3s 4d 4s: threes full of fours against threes full of aces.
    HandScript {
        dealt: Dealt::Two(1000, 1000),
        game: Game::Holdem,
        deck: ACES,
        acts: &[
            (b"ann", Some(Act::AllIn), Ok(Done::RaisedTo(1000))),
            (b"bob", Some(Act::Call), Ok(Done::Called(800))),
        ],
        is_over: true,
        is_won_by_folds: false,
        stacks: &[2000, 0],
    },
    // an uncalled bet comes back
    // The same cards: ann wins what she can, and 600 of bob's 1000 were met by nobody.
    HandScript {
        dealt: Dealt::Two(400, 1000),
        game: Game::Holdem,
        deck: ACES,
        acts: &[
            (b"ann", Some(Act::Call), Ok(Done::Called(100))),
            (b"bob", Some(Act::AllIn), Ok(Done::RaisedTo(1000))),
            (b"ann", Some(Act::Call), Ok(Done::Called(200))),
        ],
        is_over: true,
        is_won_by_folds: false,
        stacks: &[800, 600],
    },
    // a side pot and odd units
    // ann has Kd Kh, bob Ad Jc, cat Ah Jd, and the board is Ks Qs 7d 5c 2h. ann wins the 400 of all, of which dan paid
    // 100; bob and cat split 500, of which dan paid 100, and bob is the first of them after the button.
    HandScript {
        dealt: Dealt::Four(100, 300, 300, 1000),
        game: Game::Holdem,
        deck: SIDE_POT,
        acts: &[
            (b"cat", Some(Act::Call), Ok(Done::Called(200))),
            (b"dan", Some(Act::Call), Ok(Done::Called(200))),
            (b"bob", Some(Act::AllIn), Ok(Done::RaisedTo(300))),
            (b"cat", Some(Act::Call), Ok(Done::Called(100))),
            (b"dan", Some(Act::Fold), Ok(Done::Folded)),
        ],
        is_over: true,
        is_won_by_folds: false,
        stacks: &[400, 300, 200, 800],
    },
    // a flush needs two hole cards
    // ann has Ah Ks Qc 2d, bob 4d 5d 6s 8c, and the board is 3h 7h 9h Jh 4c: ace high against a straight to the seven.
    HandScript {
        dealt: Dealt::Two(300, 300),
        game: Game::Omaha,
        deck: NO_FLUSH,
        acts: &[
            (b"ann", Some(Act::AllIn), Ok(Done::RaisedTo(300))),
            (b"bob", Some(Act::Call), Ok(Done::Called(100))),
        ],
        is_over: true,
        is_won_by_folds: false,
        stacks: &[0, 600],
    },
    // one split in hi lo
    // bob has As 2s Kc Qc, ann Ah 2h Jd Td, and the board is 3c 4d 5s 9h 9d: the same straight and the same low.
    HandScript {
        dealt: Dealt::Two(300, 300),
        game: Game::Hilo,
        deck: ONE_SPLIT,
        acts: &[
            (b"ann", Some(Act::AllIn), Ok(Done::RaisedTo(300))),
            (b"bob", Some(Act::Call), Ok(Done::Called(100))),
        ],
        is_over: true,
        is_won_by_folds: false,
        stacks: &[300, 300],
    },
    // no low in hi lo
    // bob has As 2s 3h 4c, ann Qh Qd Td 9c, and the board is Ks Qs Jd 5c 2h: two cards to a low, and a straight for
    // ann.
    HandScript {
        dealt: Dealt::Two(300, 300),
        game: Game::Hilo,
        deck: NO_LOW,
        acts: &[
            (b"ann", Some(Act::AllIn), Ok(Done::RaisedTo(300))),
            (b"bob", Some(Act::Call), Ok(Done::Called(100))),
        ],
        is_over: true,
        is_won_by_folds: false,
        stacks: &[600, 0],
    },
    // halves with an odd unit
    // bob has As 2c 9c 9d, cat Kc Ks Qd Qh, ann Ad 2d Jc Tc, and the board is 3c 4d 8s Kh Kd. Of 750 in units of 50
    // cat's four kings have 400; ann and bob have the same low and split 350, of which bob, after the button, has the
    // odd unit.
    HandScript {
        dealt: Dealt::Three(250, 250, 250),
        game: Game::Hilo,
        deck: HALVES,
        acts: &[
            (b"ann", Some(Act::AllIn), Ok(Done::RaisedTo(250))),
            (b"bob", Some(Act::Call), Ok(Done::Called(150))),
            (b"cat", Some(Act::Call), Ok(Done::Called(50))),
        ],
        is_over: true,
        is_won_by_folds: false,
        stacks: &[150, 200, 400],
    },
];

/// An ante of 200 at a unit of 100.
const ANTE: Stakes = Stakes {
    unit: 100,
    ante: 200,
    cap: 0,
};

/// Hands with an ante, which cat posts after her big blind. The board is 3s 4c 4d 4s 5d; cat has 2d 3c and ann 2h 3d,
/// who tie, and bob has 2c 2s, which is less.
static WITH_ANTE: [HandScript; 6] = [
    // everyone folds: cat wins 500
    HandScript {
        dealt: Dealt::Staked(ANTE, 1000, 1000, 1000),
        game: Game::Holdem,
        deck: SORTED,
        acts: &[
            (b"ann", Some(Act::Fold), Ok(Done::Folded)),
            (b"bob", Some(Act::Fold), Ok(Done::Folded)),
        ],
        is_over: true,
        is_won_by_folds: true,
        stacks: &[1000, 900, 1100],
    },
    // everyone calls: 800 are split, and the ante is no part of what has to be met
    HandScript {
        dealt: Dealt::Staked(ANTE, 1000, 1000, 1000),
        game: Game::Holdem,
        deck: SORTED,
        acts: &[
            (b"ann", Some(Act::Call), Ok(Done::Called(200))),
            (b"bob", Some(Act::Call), Ok(Done::Called(100))),
            (b"cat", Some(Act::Check), Ok(Done::Checked)),
            (b"bob", Some(Act::Check), Ok(Done::Checked)),
            (b"cat", Some(Act::Bet(700)), Err(Refusal::PastStack)),
            (b"cat", Some(Act::Check), Ok(Done::Checked)),
            (b"ann", Some(Act::Check), Ok(Done::Checked)),
            (b"bob", Some(Act::Check), Ok(Done::Checked)),
            (b"cat", Some(Act::Check), Ok(Done::Checked)),
            (b"ann", Some(Act::Check), Ok(Done::Checked)),
            (b"bob", Some(Act::Check), Ok(Done::Checked)),
            (b"cat", Some(Act::Check), Ok(Done::Checked)),
            (b"ann", Some(Act::Check), Ok(Done::Checked)),
        ],
        is_over: true,
        is_won_by_folds: false,
        stacks: &[1200, 800, 1000],
    },
    // 300 are a blind of 200 and an ante of 100: of the 700 of all cat has 400, for she is the first after the button
    HandScript {
        dealt: Dealt::Staked(ANTE, 1000, 1000, 300),
        game: Game::Holdem,
        deck: SORTED,
        acts: &[
            (b"ann", Some(Act::Raise(600)), Ok(Done::RaisedTo(600))),
            (b"bob", Some(Act::Call), Ok(Done::Called(500))),
            (b"cat", Some(Act::Check), Err(Refusal::NotTurn)),
            (b"bob", Some(Act::Check), Ok(Done::Checked)),
            (b"ann", Some(Act::Check), Ok(Done::Checked)),
            (b"bob", Some(Act::Check), Ok(Done::Checked)),
            (b"ann", Some(Act::Check), Ok(Done::Checked)),
            (b"bob", Some(Act::Check), Ok(Done::Checked)),
            (b"ann", Some(Act::Check), Ok(Done::Checked)),
        ],
        is_over: true,
        is_won_by_folds: false,
        stacks: &[1500, 400, 400],
    },
    // 200 are the blind alone: of the 600 of all cat has 300
    HandScript {
        dealt: Dealt::Staked(ANTE, 1000, 1000, 200),
        game: Game::Holdem,
        deck: SORTED,
        acts: &[
            (b"ann", Some(Act::Raise(600)), Ok(Done::RaisedTo(600))),
            (b"bob", Some(Act::Call), Ok(Done::Called(500))),
            (b"bob", Some(Act::Bet(400)), Ok(Done::BetTo(400))),
            (b"ann", Some(Act::AllIn), Ok(Done::Called(400))),
        ],
        is_over: true,
        is_won_by_folds: false,
        stacks: &[1900, 0, 300],
    },
    // who is all-in by the ante is not due: the hand is over once bob has called
    HandScript {
        dealt: Dealt::Staked(ANTE, 1000, 1000, 300),
        game: Game::Holdem,
        deck: SORTED,
        acts: &[
            (b"ann", Some(Act::Fold), Ok(Done::Folded)),
            (b"bob", Some(Act::Call), Ok(Done::Called(100))),
            (b"bob", Some(Act::Check), Err(Refusal::HandOver)),
        ],
        is_over: true,
        is_won_by_folds: false,
        stacks: &[1000, 800, 500],
    },
    // the pot bounds a raise without the ante, and a bet on the flop with it
    HandScript {
        dealt: Dealt::Staked(ANTE, 5000, 5000, 5000),
        game: Game::Omaha,
        deck: SORTED,
        acts: &[
            (b"ann", Some(Act::Raise(800)), Err(Refusal::PastPot)),
            (b"ann", Some(Act::Raise(700)), Ok(Done::RaisedTo(700))),
            (b"bob", Some(Act::Fold), Ok(Done::Folded)),
            (b"cat", Some(Act::Call), Ok(Done::Called(500))),
            (b"cat", Some(Act::Bet(1800)), Err(Refusal::PastPot)),
            (b"cat", Some(Act::Bet(1700)), Ok(Done::BetTo(1700))),
        ],
        is_over: false,
        is_won_by_folds: false,
        stacks: &[],
    },
];

/// Four wagers a street at a unit of 100.
pub const FOUR_WAGERS: Stakes = Stakes {
    unit: 100,
    ante: 0,
    cap: 4,
};

/// Four wagers a street at a unit of 10.
const SMALL_UNIT: Stakes = Stakes {
    unit: 10,
    ante: 0,
    cap: 4,
};

/// One wager a street at a unit of 100, and an ante.
const ONE_WAGER: Stakes = Stakes {
    unit: 100,
    ante: 100,
    cap: 1,
};

/// Hands by fixed limit.
static BY_FIXED_LIMIT: [HandScript; 7] = [
    // the big blind is a wager: three raises before the flop, and bets twice as great from the turn on
    HandScript {
        dealt: Dealt::Staked(FOUR_WAGERS, 5000, 5000, 5000),
        game: Game::Holdem,
        deck: SORTED,
        acts: &[
            (b"ann", Some(Act::Raise(300)), Err(Refusal::TooSmall)),
            (b"ann", Some(Act::Raise(500)), Err(Refusal::PastPot)),
            (b"ann", Some(Act::AllIn), Err(Refusal::PastPot)),
            (b"ann", Some(Act::Raise(400)), Ok(Done::RaisedTo(400))),
            (b"bob", Some(Act::Raise(600)), Ok(Done::RaisedTo(600))),
            (b"cat", Some(Act::Raise(800)), Ok(Done::RaisedTo(800))),
            (b"ann", Some(Act::Raise(1000)), Err(Refusal::PastPot)),
            (b"ann", Some(Act::AllIn), Err(Refusal::PastPot)),
            (b"ann", Some(Act::Call), Ok(Done::Called(400))),
            (b"bob", Some(Act::Call), Ok(Done::Called(200))),
            // On the flop.
            (b"bob", Some(Act::Bet(400)), Err(Refusal::PastPot)),
            (b"bob", Some(Act::Check), Ok(Done::Checked)),
            (b"cat", Some(Act::Check), Ok(Done::Checked)),
            (b"ann", Some(Act::Check), Ok(Done::Checked)),
            // On the turn.
            (b"bob", Some(Act::Bet(200)), Err(Refusal::TooSmall)),
            (b"bob", Some(Act::Bet(500)), Err(Refusal::PastPot)),
            (b"bob", Some(Act::Bet(400)), Ok(Done::BetTo(400))),
            (b"cat", Some(Act::Raise(800)), Ok(Done::RaisedTo(800))),
            (b"ann", Some(Act::Raise(1200)), Ok(Done::RaisedTo(1200))),
            (b"bob", Some(Act::Raise(1600)), Ok(Done::RaisedTo(1600))),
            (b"cat", Some(Act::Raise(2000)), Err(Refusal::PastPot)),
        ],
        is_over: false,
        is_won_by_folds: false,
        stacks: &[],
    },
    // an all-in by less than half of a bet does not reopen
    HandScript {
        dealt: Dealt::Staked(SMALL_UNIT, 5000, 5000, 490),
        game: Game::Holdem,
        deck: SORTED,
        acts: &[
            (b"ann", Some(Act::Call), Ok(Done::Called(200))),
            (b"bob", Some(Act::Call), Ok(Done::Called(100))),
            (b"cat", Some(Act::Check), Ok(Done::Checked)),
            (b"bob", Some(Act::Bet(200)), Ok(Done::BetTo(200))),
            (b"cat", Some(Act::AllIn), Ok(Done::RaisedTo(290))),
            (b"ann", Some(Act::Call), Ok(Done::Called(290))),
            (b"bob", Some(Act::Raise(490)), Err(Refusal::NotReopened)),
            (b"bob", Some(Act::Call), Ok(Done::Called(90))),
        ],
        is_over: false,
        is_won_by_folds: false,
        stacks: &[],
    },
    // one by half of a bet does
    HandScript {
        dealt: Dealt::Staked(SMALL_UNIT, 5000, 5000, 500),
        game: Game::Holdem,
        deck: SORTED,
        acts: &[
            (b"ann", Some(Act::Call), Ok(Done::Called(200))),
            (b"bob", Some(Act::Call), Ok(Done::Called(100))),
            (b"cat", Some(Act::Check), Ok(Done::Checked)),
            (b"bob", Some(Act::Bet(200)), Ok(Done::BetTo(200))),
            (b"cat", Some(Act::AllIn), Ok(Done::RaisedTo(300))),
            (b"ann", Some(Act::Call), Ok(Done::Called(300))),
            (b"bob", Some(Act::Raise(490)), Err(Refusal::TooSmall)),
            (b"bob", Some(Act::Raise(500)), Ok(Done::RaisedTo(500))),
        ],
        is_over: false,
        is_won_by_folds: false,
        stacks: &[],
    },
    // an all-in by less than half of a bet is no wager
    HandScript {
        dealt: Dealt::Staked(SMALL_UNIT, 5000, 690, 5000),
        game: Game::Holdem,
        deck: SORTED,
        acts: &[
            (b"ann", Some(Act::Raise(400)), Ok(Done::RaisedTo(400))),
            (b"bob", Some(Act::Raise(600)), Ok(Done::RaisedTo(600))),
            (b"cat", Some(Act::Call), Ok(Done::Called(400))),
            (b"ann", Some(Act::Call), Ok(Done::Called(200))),
            (b"bob", Some(Act::AllIn), Ok(Done::BetTo(90))),
            (b"cat", Some(Act::Raise(290)), Ok(Done::RaisedTo(290))),
            (b"ann", Some(Act::Raise(490)), Ok(Done::RaisedTo(490))),
            (b"cat", Some(Act::Raise(690)), Ok(Done::RaisedTo(690))),
            (b"ann", Some(Act::Raise(890)), Ok(Done::RaisedTo(890))),
            (b"cat", Some(Act::Raise(1090)), Err(Refusal::PastPot)),
        ],
        is_over: false,
        is_won_by_folds: false,
        stacks: &[],
    },
    // one by half of a bet is a wager
    HandScript {
        dealt: Dealt::Staked(SMALL_UNIT, 5000, 700, 5000),
        game: Game::Holdem,
        deck: SORTED,
        acts: &[
            (b"ann", Some(Act::Raise(400)), Ok(Done::RaisedTo(400))),
            (b"bob", Some(Act::Raise(600)), Ok(Done::RaisedTo(600))),
            (b"cat", Some(Act::Call), Ok(Done::Called(400))),
            (b"ann", Some(Act::Call), Ok(Done::Called(200))),
            (b"bob", Some(Act::AllIn), Ok(Done::BetTo(100))),
            (b"cat", Some(Act::Raise(300)), Ok(Done::RaisedTo(300))),
            (b"ann", Some(Act::Raise(500)), Ok(Done::RaisedTo(500))),
            (b"cat", Some(Act::Raise(700)), Ok(Done::RaisedTo(700))),
            (b"ann", Some(Act::Raise(900)), Err(Refusal::PastPot)),
        ],
        is_over: false,
        is_won_by_folds: false,
        stacks: &[],
    },
    // with one wager nobody raises before the flop, and the ante is none
    HandScript {
        dealt: Dealt::Staked(ONE_WAGER, 5000, 5000, 5000),
        game: Game::Hilo,
        deck: SORTED,
        acts: &[
            (b"ann", Some(Act::Raise(400)), Err(Refusal::PastPot)),
            (b"ann", Some(Act::AllIn), Err(Refusal::PastPot)),
            (b"ann", Some(Act::Call), Ok(Done::Called(200))),
            (b"bob", Some(Act::Call), Ok(Done::Called(100))),
            (b"cat", Some(Act::Raise(400)), Err(Refusal::PastPot)),
            (b"cat", Some(Act::Check), Ok(Done::Checked)),
            (b"bob", Some(Act::Bet(200)), Ok(Done::BetTo(200))),
            (b"cat", Some(Act::Raise(400)), Err(Refusal::PastPot)),
            (b"cat", Some(Act::Call), Ok(Done::Called(200))),
        ],
        is_over: false,
        is_won_by_folds: false,
        stacks: &[],
    },
    // a big blind that was posted short is a wager too
    HandScript {
        dealt: Dealt::Staked(FOUR_WAGERS, 5000, 5000, 100),
        game: Game::Omaha,
        deck: SORTED,
        acts: &[
            (b"ann", Some(Act::Raise(500)), Err(Refusal::PastPot)),
            (b"ann", Some(Act::Raise(400)), Ok(Done::RaisedTo(400))),
            (b"bob", Some(Act::Raise(600)), Ok(Done::RaisedTo(600))),
            (b"ann", Some(Act::Raise(800)), Ok(Done::RaisedTo(800))),
            (b"bob", Some(Act::Raise(1000)), Err(Refusal::PastPot)),
            (b"bob", Some(Act::Call), Ok(Done::Called(200))),
        ],
        is_over: false,
        is_won_by_folds: false,
        stacks: &[],
    },
];

/// Acts for a player, or calls time, and gives what is answered.
fn answer(hand: &mut Hand, name: Name, act: Option<Act>) -> Result<Done, ActFault> {
    match act {
        Some(act) => hand.act(name, act),
        None => hand.time(),
    }
}

/// Tells whether acts are answered so one after another, and those that are refused change nothing of who is due.
fn are_answered(hand: &mut Hand, acts: &[Answered]) -> bool {
    for (name, act, wanted) in acts {
        let due = hand.due();
        let Some(name) = Name::read(name) else {
            return false;
        };
        if answer(hand, name, *act) != wanted.map_err(ActFault::No) {
            return false;
        }
        if wanted.is_err() && hand.due() != due {
            return false;
        }
    }
    true
}

/// Tells whether a hand, so far as it is over, ends with these stacks.
fn has_stacks(hand: Hand, stacks: &[u64]) -> bool {
    if stacks.is_empty() || !hand.is_over() {
        return stacks.is_empty();
    }
    let record = hand.finish();
    let same = record.stacks.items() == stacks;
    same && record.into_players().items().len() == stacks.len()
}

/// Tells whether a hand goes as its script says.
fn goes_so(alloc: Global, script: &HandScript) -> bool {
    let Some(deck) = deck_of(script.deck) else {
        return false;
    };
    let Some(mut hand) = deal(alloc, script.dealt, script.game, deck) else {
        return false;
    };
    let so = are_answered(&mut hand, script.acts)
        && hand.is_over() == script.is_over
        && hand.is_won_by_folds() == script.is_won_by_folds;
    let stacks = has_stacks(hand, script.stacks);
    so && stacks
}

#[test]
fn hands_go_so(rt: HostRuntime) {
    are_right_in(&rt, rt.alloc(), &HANDS, goes_so);
}

#[test]
fn hands_with_an_ante_go_so(rt: HostRuntime) {
    are_right_in(&rt, rt.alloc(), &WITH_ANTE, goes_so);
}

#[test]
fn hands_by_fixed_limit_go_so(rt: HostRuntime) {
    are_right_in(&rt, rt.alloc(), &BY_FIXED_LIMIT, goes_so);
}

/// Tells whether the start of a hand is copied with so many players.
fn is_copied(alloc: Global, hand: &Hand, players: usize) -> bool {
    match hand.start().copy(alloc) {
        Ok(copy) => copy.seats.items().len() == players,
        Err(_) => false,
    }
}

/// Tells whether nobody is due in a hand of two whose stacks are 100, and each has his stack again once it is void.
fn is_void(alloc: Global) -> bool {
    let Some(hand) = deal(alloc, Dealt::Two(100, 100), Game::Holdem, Deck::sorted()) else {
        return false;
    };
    let copied = is_copied(alloc, &hand, 2);
    let nobody = hand.due().is_none();
    let start = hand.void();
    copied && nobody && start.seats.items().iter().all(|player| player.stack == 100)
}

#[test]
fn who_is_all_in_is_not_due_and_a_void_hand_gives_all_back(rt: HostRuntime) {
    assert!(rt; is_void(rt.alloc()));
}
