//! The tests of the rules of a hand and of a tournament's seats, all of them tables of rows.
//!
//! | files | what they test |
//! |---|---|
//! | `cards`, `values`, `walks`, `lows` | cards and decks, and the best hands of card_set, hand_rank and low_rank |
//! | `layers`, `awards`, `deal` | pots, awards and the order of the deal |
//! | `blinds`, `street`, `limits` | the marks, a street, and fixed limit |
//! | `races`, `places` | the chip race, and places and prizes |
//! | `seats`, `entries`, `balance`, `breaks`, `rounds` | seats, entries, balances, breaks and rounds of hand-for-hand |
//! | `hands`, `director`, `views` | whole hands, orders and simulated acts, and what a player is told |
//! | `rows`, `seat_sets`, `puts`, `seating`, `dealt` | rows that are walked, and what the tests begin with |
#![tactic(auto)]

#[cfg(test)]
mod awards;
#[cfg(test)]
mod balance;
#[cfg(test)]
mod blinds;
#[cfg(test)]
mod breaks;
#[cfg(test)]
mod cards;
#[cfg(test)]
mod deal;
#[cfg(test)]
mod dealt;
#[cfg(test)]
mod director;
#[cfg(test)]
mod entries;
#[cfg(test)]
mod hands;
#[cfg(test)]
mod layers;
#[cfg(test)]
mod limits;
#[cfg(test)]
mod lows;
#[cfg(test)]
mod places;
#[cfg(test)]
mod puts;
#[cfg(test)]
mod races;
#[cfg(test)]
mod rounds;
#[cfg(test)]
mod rows;
#[cfg(test)]
mod seat_sets;
#[cfg(test)]
mod seating;
#[cfg(test)]
mod seats;
#[cfg(test)]
mod street;
#[cfg(test)]
mod values;
#[cfg(test)]
mod views;
#[cfg(test)]
mod walks;
