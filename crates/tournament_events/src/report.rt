//! The state of the tournament as it is reported.

use floor_text::{List, Name};
use seat_book::Place;

/// Where the chips and the players are. All amounts are chips.
#[derive(Drop)]
pub struct Report {
    /// The current level, from 1, or 0 before the plan is whole.
    pub level: u64,
    /// The chips sold.
    pub sold: u64,
    /// The chips that races removed.
    pub removed: u64,
    /// The chips that races added.
    pub added: u64,
    /// The sum of the stacks at rest.
    pub rest: u64,
    /// The sum of the stacks with which the players of started hands began.
    pub play: u64,
    /// The players who are in, by table and then by seat.
    pub seats: List<ReportSeat>,
    /// The players who are out, and the winner where the tournament is over, by place and then by entry.
    pub outs: List<ReportOut>,
}

/// A player who is in.
#[derive(Clone, Copy)]
pub struct ReportSeat {
    /// Where he sits.
    pub place: Place,
    /// His name.
    pub name: Name,
    /// His stack at rest, in chips, or `None` where he is in a started hand.
    pub stack: Option<u64>,
}

/// A player who is out, or the winner.
#[derive(Clone, Copy)]
pub struct ReportOut {
    /// His place, from 1.
    pub place: u32,
    /// His name.
    pub name: Name,
    /// His prize.
    pub prize: u64,
}
