//! The rule of the table.
use crate::grows::Grows;
use crate::view::View;
use atomic_table::{Seat, Shared, Table, TableRule};
use std::alloc::Global;
use std::marker::PhantomData;
use std::snapshot::Snapshot;

/// What is fixed when the lock is made: the number of passes, and the value that it is made with.
#[derive(Drop)]
pub struct Terms<V> {
    pub passes: u32,
    pub opening: Snapshot<V>,
}

/// The rule that holds between any two steps.
pub struct Law<V> {
    of: PhantomData<V>,
}

impl<V: Grows> TableRule<Option<V>, View<V::Entry>, Terms<V>> for Law<V> {
    ghost use Rattle.history_lock.specs.Views.{opening_view};
    ghost use Rattle.history_lock.specs.Rule.{IsKept};

    ghost holds = { λ terms. IsKept V.history V.caller_of terms.passes (V.history terms.opening.value) };

    ghost first = { λ terms. opening_view terms.passes (V.history terms.opening.value) };
}

/// The next ticket.
pub(crate) const TICKET: usize = 0;

/// The ticket that is served.
pub(crate) const SERVING: usize = 1;

/// How many entries the history has.
pub(crate) const COUNT: usize = 2;

/// The bell of those who await news: how often it was rung.
pub(crate) const NEWS_BELL: usize = 3;

/// The first of the bells of those who wait for their tickets.
pub(crate) const FIRST_BELL: usize = 4;

/// How many bells those who wait for their tickets share.
pub(crate) const BELLS: u64 = 16;

/// How many words a lock has.
pub(crate) const WORDS: usize = 20;

/// The slot that has the value.
pub(crate) const SLOT: usize = 0;

pub(crate) type Board<V> = Table<Option<V>, View<<V as Grows>::Entry>, Terms<V>, Law<V>, Global>;

pub(crate) type Steps<V> = Shared<Option<V>, View<<V as Grows>::Entry>, Terms<V>, Law<V>>;

pub(crate) type LockSeat<V> = Seat<Option<V>, View<<V as Grows>::Entry>>;
