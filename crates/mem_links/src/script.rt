//! A script of a link in memory, and where it is.
ghost use Rattle.std.specs.Prelude.{◌≡◌, ◌++◌, IfSome, false, length, take};
ghost use Rattle.std.specs.List.{slice_get};
ghost use Rattle.links.specs.Links.{FitsBuffer};
ghost use Rattle.mem_links.specs.Scripts.{is_over, come_to, play, place_of, given_by, IsSearchedFor, IsSearchedBy};

use crate::lines::find_line;
use crate::say::Say;
use links::Taken;

/// All that a link says, and where it is in that.
#[derive(Drop)]
pub(crate) struct Script {
    says: Vec<Say>,
    /// The index of what it says next.
    at: usize,
    /// How many bytes of that were given.
    given: usize,
    /// How often it answered Idle there.
    waited: u64,
    /// How many of the bytes that were put were searched for the line that it waits for.
    searched: usize,
}

impl Script {
    /// Begins with the first of these.
    pub(crate) fn new(says: Vec<Say>) -> Script
        ensures { result ≡ record { says = says; at = 0; given = 0; waited = 0; searched = 0 } }
    {
        Script {
            says,
            at: 0,
            given: 0,
            waited: 0,
            searched: 0,
        }
    }

    /// Plays what comes next, where these bytes were put.
    pub(crate) fn play(&mut self, put: &[u8], buffer: &mut [u8]) -> Taken
        requires { IsSearchedBy self.old put.now }
        ensures fits { FitsBuffer result (length buffer.new) }
        ensures taken { result ≡ (play (length buffer.old) put.now (place_of self.old)).taken }
        ensures bytes { let step = play (length buffer.old) put.now (place_of self.old) in
            take (length step.bytes) buffer.new ≡ step.bytes }
        ensures place { place_of self.new ≡ (play (length buffer.old) put.now (place_of self.old)).place }
        ensures given { let step = play (length buffer.old) put.now (place_of self.old) in
            given_by self.new ≡ given_by self.old ++ step.bytes }
        ensures searched { IsSearchedBy self.new put.now }
    {
        self.pass_over(put);
        match self.says.get(self.at) {
            Some(Say::Give(bytes)) => {
                let left = &bytes[self.given..];
                let n = left.len().min(buffer.len());
                buffer[..n].copy_from_slice(&left[..n]);
                self.given += n;
                Taken::Bytes(n)
            }
            Some(Say::WaitFor { .. }) => {
                self.waited = self.waited.saturating_add(1);
                Taken::Idle
            }
            Some(Say::Finish) => Taken::End,
            None => Taken::Idle,
        }
    }

    /// Passes over what is over.
    fn pass_over(&mut self, put: &[u8])
        requires { IsSearchedBy self.old put.now }
        ensures place { place_of self.new ≡ come_to put.now (place_of self.old).says self.old.given self.old.waited }
        ensures given { given_by self.new ≡ given_by self.old }
        ensures rests { IfSome (slice_get self.new.says.items self.new.at)
            (λ say. is_over put.now say self.new.given self.new.waited ≡ false) }
        ensures searched { IsSearchedBy self.new put.now }
    {
        'pass: while let Some(say) = self.says.get(self.at) {
            if !is_over(say, self.given, self.waited, put, &mut self.searched) {
                return;
            }
            self.at += 1;
            self.given = 0;
            self.waited = 0;
            self.searched = 0;
        }
    }
}

/// Answers whether nothing is left to do of what is said, of which so many bytes were given and which has waited so
/// often. Searches behind what was searched.
fn is_over(say: &Say, given: usize, waited: u64, put: &[u8], searched: &mut usize) -> bool
    requires { IsSearchedFor say.now put.now searched.old }
    ensures over { result ≡ is_over put.now say.now given waited }
    ensures searched { result ≡ false → IsSearchedFor say.now put.now searched.new }
{
    match say {
        Say::Give(bytes) => bytes.len() <= given,
        Say::WaitFor { front, turns } => *turns <= waited || find_line(put, searched, front),
        Say::Finish => false,
    }
}
