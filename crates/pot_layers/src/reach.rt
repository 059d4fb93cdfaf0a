//! How far each player's chips reach.

ghost use Rattle.std.specs.Prelude.{◌≡◌, ◌+◌, ◌<◌, ◌≤◌, ◌^◌, map, fold, None};
ghost use Rattle.pot_layers.specs.Layers.{is_eligible, live_payers};
ghost use Rattle.pot_layers.specs.Tallies.{total_put, total_to, put_in_at, folded_at};
ghost use Rattle.pot_layers.specs.Reaches.{puts_of, grown, nearer, AreRight};

use crate::Put;
use button_blinds::SeatSet;

/// How far a player's chips reach: his put, and what all players have put in up to its height.
#[derive(Clone, Copy, PartialEq, Eq)]
pub(crate) struct Reach {
    pub(crate) put: Put,
    pub(crate) total: u64,
}

impl Reach {
    /// Tells whether he is live and has put in at least this height.
    fn is_eligible(&self, height: u64) -> bool
        ensures { result ≡ is_eligible height self.now.put }
    {
        self.put.live && height <= self.put.amount
    }

    /// Adds to the total what lies within his height of the chips between two heights.
    fn grown(self, before: u64, after: u64) -> Reach
        requires more { before ≤ after }
        requires fits { self.total + after < 2 ^ 64 }
        ensures { result ≡ grown before after self }
    {
        let height = self.put.amount;
        Reach {
            put: self.put,
            total: self.total + (after.min(height) - before.min(height)),
        }
    }
}

/// Tells what all players have put in up to a height: of each no more than the height.
pub(crate) fn total_to(reaches: &[Reach; 10], height: u64) -> u64
    requires { total_put (puts_of reaches.now) < 2 ^ 53 }
    ensures { result ≡ total_to (puts_of reaches.now) height }
{
    let mut total = 0;
    for reach in reaches {
        total += reach.put.amount.min(height);
    }
    total
}

/// Gives the live players who have put in at least this height.
pub(crate) fn live_payers(reaches: &[Reach; 10], height: u64) -> SeatSet
    ensures { result ≡ live_payers (puts_of reaches.now) height }
{
    let mut payers = SeatSet::empty();
    for (index, reach) in reaches.iter().enumerate() {
        if reach.is_eligible(height) {
            payers = payers.with(index as u8 + 1);
        }
    }
    payers
}

/// Gives the one of two live players above a height who is nearer to it.
fn nearer(below: u64, nearest: Option<Reach>, reach: Reach) -> Option<Reach>
    ensures { result ≡ nearer below nearest reach }
{
    let is_above = reach.put.live && below < reach.put.amount;
    match nearest {
        Some(best) if !is_above || best.put.amount <= reach.put.amount => nearest,
        None if !is_above => None,
        _ => Some(reach),
    }
}

/// Gives the live player above a height who is nearest to it, if there is one.
pub(crate) fn nearest_above(reaches: &[Reach; 10], below: u64) -> Option<Reach>
    ensures { result ≡ fold (nearer below) None reaches.now }
{
    let mut nearest = None;
    for reach in reaches {
        nearest = nearer(below, nearest, *reach);
    }
    nearest
}

/// Adds to each player's total what lies within his height of the chips between two heights.
fn grow(reaches: &mut [Reach; 10], before: u64, after: u64)
    requires more { before ≤ after }
    requires right { AreRight reaches.old }
    requires fits { total_put (puts_of reaches.old) + after < 2 ^ 54 }
    ensures { reaches.new ≡ map (grown before after) reaches.old }
{
    for index in 0..reaches.len() {
        reaches[index] = reaches[index].grown(before, after);
    }
}

/// Adds chips that the player at this index puts in.
pub(crate) fn put_in(reaches: &mut [Reach; 10], index: usize, amount: u64)
    requires within { index < 10 }
    requires right { AreRight reaches.old }
    requires fits { total_put (puts_of reaches.old) + amount < 2 ^ 53 }
    ensures puts { puts_of reaches.new ≡ put_in_at (puts_of reaches.old) index amount }
    ensures right { AreRight reaches.new }
{
    let put = reaches[index].put;
    let after = put.amount + amount;
    let total = total_to(reaches, after) + amount;
    grow(reaches, put.amount, after);
    reaches[index] = Reach {
        put: Put {
            amount: after,
            live: put.live,
        },
        total,
    };
}

/// Takes the player at this index as folded.
pub(crate) fn fold(reaches: &mut [Reach; 10], index: usize)
    requires within { index < 10 }
    requires right { AreRight reaches.old }
    ensures puts { puts_of reaches.new ≡ folded_at (puts_of reaches.old) index }
    ensures right { AreRight reaches.new }
{
    reaches[index].put.live = false;
}
