//! Scenes: what is done in a hall, by its workers, at a desk and in a session at another.

ghost use Rattle.std.specs.Prelude.{◌≡◌, IfSome, slice_get};
ghost use Rattle.history_lock.specs.Passes.{lock_of};
ghost use Rattle.book_dock.specs.Docks.{book_id};
ghost use Rattle.table_dock.specs.Docks.{dock_id};
ghost use Rattle.table_worker.specs.Workers.{IsWorkerOf};
ghost use Rattle.session_desk.specs.Desks.{AreInOrder, IsDeskOf};

use super::attending::{Knocks, attend};
use super::hall::{Hall, Shape, Staff, make_hall};
use super::left::{is_left, lists};
use super::talks::{Held, ask_each, go_on, hold, serve, turn};
use crate::client::{FINE, Fault};
use book_dock::BookPass;
use session_desk::{Desk, SessionEnd, Step};
use std::alloc::Global;
use std::process::Abort;
use std::sync::Wait;
use table_dock::TablePass;
use table_worker::{Turn, Worker};

/// What is done, and what it comes to.
#[derive(Clone, Copy)]
pub enum Deed<'a> {
    /// The worker of table 1 makes a turn, which answers so.
    First(Turn),
    /// The worker of table 2 makes one.
    Second(Turn),
    /// A whole session at the desk, by its transcript: where this fails, it is over so.
    Session(SessionEnd, Fault, &'a str),
    /// One after another asks by a line, in a session of his own at the desk. Each is told these news.
    Asks(&'a str, &'a str),
    /// The desk works at a door.
    Door(Knocks<'a>),
    /// A client's session begins at the other desk, where there was one before.
    Comes(&'a str),
    /// A turn of it comes to this, and puts what is in the transcript.
    Goes(Step, &'a str),
    /// Turns of it are made until one comes to this, and is idle or the end.
    Until(Step),
    /// The desks change places. The session at the other ends, and nothing is said yet in the one that begins.
    Change,
    /// The desk's sessions have asked for just these acts.
    Lists(&'a str),
}

/// A hall, what is done there one after another, and what is left then.
#[derive(Clone, Copy)]
pub struct Scene<'a> {
    /// What it shows.
    pub shows: &'a str,
    pub shape: Shape,
    pub deeds: &'a [Deed<'a>],
    /// What is left of a hall of one table where it is closed then, and nothing where it is not.
    pub left: &'a str,
}

/// Who does the deeds.
struct Cast {
    first: Worker,
    second: Option<Worker>,
    desk: Desk,
    other: Held,
}

/// Lets the worker of the table at this place make a turn. Tells whether it answers so.
fn work<R: Wait + Abort>(
    rt: &R,
    hall: &Hall,
    place: usize,
    worker: Worker,
    wanted: Turn,
) -> (Worker, bool)
    requires { IfSome (slice_get hall.now.docks.items place) (λ dock. IsWorkerOf hall.now.book dock worker) }
    ensures { IfSome (slice_get hall.now.docks.items place) (λ dock. IsWorkerOf hall.now.book dock result.0) }
{
    let dock = hall.docks.get(place).expect(rt, "a dock");
    let (worker, answer) = worker.turn(rt, &hall.book, dock);
    (worker, answer == wanted)
}

/// Lets the worker of the table at this place make his last turn, and gives his passes.
fn retire<R: Wait + Abort>(
    rt: &R,
    hall: &Hall,
    place: usize,
    worker: Worker,
) -> (BookPass, TablePass)
    requires { IfSome (slice_get hall.now.docks.items place) (λ dock. IsWorkerOf hall.now.book dock worker) }
    ensures { IfSome (slice_get hall.now.docks.items place) (λ dock.
        (lock_of result.0 ≡ book_id hall.now.book) × (lock_of result.1 ≡ dock_id dock)) }
{
    let dock = hall.docks.get(place).expect(rt, "a dock");
    let (worker, turn) = worker.turn(rt, &hall.book, dock);
    assert!(rt; turn == Turn::Ended);
    worker.parts()
}

/// Does one thing. Tells whether it comes to what is told.
fn act<R: Wait + Abort>(rt: &R, hall: &Hall, cast: Cast, deed: Deed<'_>) -> (Cast, bool)
    requires order { AreInOrder hall.now.docks.items }
    requires first { IfSome (slice_get hall.now.docks.items 0) (λ dock. IsWorkerOf hall.now.book dock cast.first) }
    requires second { IfSome cast.second (λ worker. IfSome (slice_get hall.now.docks.items 1)
        (λ dock. IsWorkerOf hall.now.book dock worker)) }
    requires desk { IsDeskOf hall.now.book hall.now.docks.items cast.desk }
    requires other { IsDeskOf hall.now.book hall.now.docks.items cast.other.session.desk }
    ensures first { IfSome (slice_get hall.now.docks.items 0)
        (λ dock. IsWorkerOf hall.now.book dock result.0.first) }
    ensures second { IfSome result.0.second (λ worker. IfSome (slice_get hall.now.docks.items 1)
        (λ dock. IsWorkerOf hall.now.book dock worker)) }
    ensures desk { IsDeskOf hall.now.book hall.now.docks.items result.0.desk }
    ensures other { IsDeskOf hall.now.book hall.now.docks.items result.0.other.session.desk }
{
    let Cast {
        first,
        second,
        desk,
        other,
    } = cast;
    match deed {
        Deed::First(turn) => {
            let (first, fine) = work(rt, hall, 0, first, turn);
            (
                Cast {
                    first,
                    second,
                    desk,
                    other,
                },
                fine,
            )
        }
        Deed::Second(turn) => {
            let (worker, fine) = work(rt, hall, 1, second.expect(rt, "a worker"), turn);
            let second = Some(worker);
            (
                Cast {
                    first,
                    second,
                    desk,
                    other,
                },
                fine,
            )
        }
        Deed::Session(end, fault, text) => {
            let (desk, fine) = serve(rt, hall, desk, end, fault, text);
            (
                Cast {
                    first,
                    second,
                    desk,
                    other,
                },
                fine,
            )
        }
        Deed::Asks(news, rows) => {
            let (desk, fine) = ask_each(rt, hall, desk, news, rows);
            (
                Cast {
                    first,
                    second,
                    desk,
                    other,
                },
                fine,
            )
        }
        Deed::Door(knocks) => {
            let (desk, fine) = attend(rt, hall, desk, knocks);
            (
                Cast {
                    first,
                    second,
                    desk,
                    other,
                },
                fine,
            )
        }
        Deed::Comes(text) => {
            let other = hold(rt, hall, other.desk(), text);
            (
                Cast {
                    first,
                    second,
                    desk,
                    other,
                },
                true,
            )
        }
        Deed::Goes(step, text) => {
            let (other, fine) = turn(rt, hall, other, step, text);
            (
                Cast {
                    first,
                    second,
                    desk,
                    other,
                },
                fine,
            )
        }
        Deed::Until(step) => {
            let (other, fine) = go_on(rt, hall, other, step);
            (
                Cast {
                    first,
                    second,
                    desk,
                    other,
                },
                fine,
            )
        }
        Deed::Change => {
            let next = hold(rt, hall, desk, "");
            let desk = other.desk();
            (
                Cast {
                    first,
                    second,
                    desk,
                    other: next,
                },
                true,
            )
        }
        Deed::Lists(acts) => {
            let fine = lists(rt, hall.alloc, desk.asked(), acts);
            (
                Cast {
                    first,
                    second,
                    desk,
                    other,
                },
                fine,
            )
        }
    }
}

/// Does one thing after another. Tells whether each comes to what is told, up to the first that does not.
fn act_all<R: Wait + Abort>(rt: &R, hall: &Hall, cast: Cast, deeds: &[Deed<'_>]) -> (Cast, bool)
    requires order { AreInOrder hall.now.docks.items }
    requires first { IfSome (slice_get hall.now.docks.items 0) (λ dock. IsWorkerOf hall.now.book dock cast.first) }
    requires second { IfSome cast.second (λ worker. IfSome (slice_get hall.now.docks.items 1)
        (λ dock. IsWorkerOf hall.now.book dock worker)) }
    requires desk { IsDeskOf hall.now.book hall.now.docks.items cast.desk }
    requires other { IsDeskOf hall.now.book hall.now.docks.items cast.other.session.desk }
    ensures first { IfSome (slice_get hall.now.docks.items 0)
        (λ dock. IsWorkerOf hall.now.book dock result.0.first) }
    ensures second { IfSome result.0.second (λ worker. IfSome (slice_get hall.now.docks.items 1)
        (λ dock. IsWorkerOf hall.now.book dock worker)) }
    ensures desk { IsDeskOf hall.now.book hall.now.docks.items result.0.desk }
    ensures other { IsDeskOf hall.now.book hall.now.docks.items result.0.other.session.desk }
{
    let mut cast = cast;
    for deed in deeds {
        let (next, fine) = act(rt, hall, cast, *deed);
        cast = next;
        if !fine {
            return (cast, false);
        }
    }
    (cast, true)
}

/// Opens the hall of a scene.
fn open(rt: &impl Abort, alloc: Global, scene: &Scene<'_>) -> (Hall, Cast)
    ensures order { AreInOrder result.0.docks.items }
    ensures first { IfSome (slice_get result.0.docks.items 0)
        (λ dock. IsWorkerOf result.0.book dock result.1.first) }
    ensures second { IfSome result.1.second (λ worker. IfSome (slice_get result.0.docks.items 1)
        (λ dock. IsWorkerOf result.0.book dock worker)) }
    ensures desk { IsDeskOf result.0.book result.0.docks.items result.1.desk }
    ensures other { IsDeskOf result.0.book result.0.docks.items result.1.other.session.desk }
{
    let (hall, staff) = make_hall(rt, alloc, &scene.shape);
    let Staff {
        first,
        second,
        desk,
        other,
    } = staff;
    let other = hold(rt, &hall, other, "");
    let cast = Cast {
        first,
        second,
        desk,
        other,
    };
    (hall, cast)
}

/// The floor stops the tournament, if it has not done so.
const STOP: &str = "> hello floor f\n> stop\n.\n";

/// Plays a scene, and stops the tournament then. Tells whether all is as it is told.
pub fn is_so<R: Wait + Abort>(rt: &R, alloc: Global, scene: &Scene<'_>) -> bool {
    let (hall, cast) = open(rt, alloc, scene);
    let (cast, fine) = act_all(rt, &hall, cast, scene.deeds);
    let Cast {
        first,
        second,
        desk,
        other,
    } = cast;
    let (other, _) = serve(rt, &hall, other.desk(), SessionEnd::Ended, FINE, STOP);
    let passes = retire(rt, &hall, 0, first);
    if let Some(worker) = second {
        retire(rt, &hall, 1, worker);
    }
    fine && (scene.left.is_empty() || is_left(rt, hall, passes, desk, other, scene.left))
}

/// Finds a scene in which something is not as it is told, and gives what it shows.
pub fn wrong_one<'a, R: Wait + Abort>(
    rt: &R,
    alloc: Global,
    scenes: &[Scene<'a>],
) -> Option<&'a str> {
    for scene in scenes {
        if !is_so(rt, alloc, scene) {
            return Some(scene.shows);
        }
    }
    None
}
