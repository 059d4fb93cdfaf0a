//! What each kind of step tells.
use crate::grows::Grows;
use crate::view::View;
use atomic_table::{Join, Play, Split};
use std::marker::{Brand, PhantomData};

/// A pass is split off, with the first share.
pub(crate) struct Deal;

impl<E> Split<View<E>> for Deal {
    ghost use Rattle.history_lock.specs.Views.{further_shares, only_first, view_of};

    ghost left = { λ v. record v { shares = further_shares v.shares } };

    ghost right = { λ v. view_of (only_first v.shares) };
}

/// A pass is taken in, with its share.
pub(crate) struct TakeIn;

impl<E> Join<View<E>> for TakeIn {
    ghost use Rattle.std.specs.Prelude.{◌++◌};
    ghost use Rattle.history_lock.specs.Views.{spent_view};

    ghost both = { λ v w. record v { shares = w.shares ++ v.shares } };

    ghost spent = { spent_view };
}

/// Draws a ticket.
pub(crate) struct Draw;

impl<V: Grows> Play<Option<V>, View<V::Entry>> for Draw {
    ghost use Rattle.history_lock.specs.Steps.{drew};

    ghost then = { drew };
}

/// Loads the ticket that is served.
pub(crate) struct Look;

impl<V: Grows> Play<Option<V>, View<V::Entry>> for Look {
    ghost use Rattle.history_lock.specs.Steps.{looked};

    ghost then = { looked V.history V.caller_of };
}

/// The history that a caller leaves. Each call picks it.
pub(crate) trait Leaving<E> {
    ghost use Rattle.std.specs.Prelude.{List};

    ghost left: { List E };
}

impl<E> Leaving<E> for Brand {
    ghost use Rattle.std.specs.Prelude.{[]};

    ghost left = { [] };
}

/// Publishes the count of the history that is left.
pub(crate) struct Publish<J> {
    of: PhantomData<J>,
}

impl<V: Grows, J: Leaving<V::Entry>> Play<Option<V>, View<V::Entry>> for Publish<J> {
    ghost use Rattle.history_lock.specs.Steps.{published};

    ghost then = { published J.left };
}

/// Passes the lock on to the next ticket.
pub(crate) struct PassOn;

impl<V: Grows> Play<Option<V>, View<V::Entry>> for PassOn {
    ghost use Rattle.history_lock.specs.Steps.{passed_on};

    ghost then = { passed_on };
}

/// Loads the count of entries.
pub(crate) struct Count;

impl<V: Grows> Play<Option<V>, View<V::Entry>> for Count {
    ghost use Rattle.history_lock.specs.Steps.{counted};

    ghost then = { counted };
}

/// Takes a new seat, which has no share.
pub(crate) struct Arrive;

impl<V: Grows> Play<Option<V>, View<V::Entry>> for Arrive {
    ghost use Rattle.history_lock.specs.Steps.{arrived};

    ghost then = { arrived };
}

/// Rings a bell, which changes nothing of the view.
pub(crate) struct Ring;

impl<V: Grows> Play<Option<V>, View<V::Entry>> for Ring {
    ghost use Rattle.history_lock.specs.Steps.{rang};

    ghost then = { rang };
}
