//! Names of players.

ghost use Rattle.std.specs.Prelude.{◌≡◌, ◌↔◌, IsTrue, IsSome, IfSome};
ghost use Rattle.std.specs.Str.{bytes_eq};
ghost use Rattle.std.proofs.Common.{rules};
ghost use Rattle.std.specs.Hash as fed;
ghost use Rattle.std.specs.Cmp.Rules.{comparing, hashing};
ghost use Rattle.floor_text.specs.Names.{is_name, is_name_byte};

use crate::limits::LONGEST_NAME;
use std::hash::{Hash, Hasher};
use std::marker::Model;

/// A player's name: a letter, then letters, digits or `_`, 1 to 16 characters, and not `floor`.
/// Case counts. Contracts see it as its bytes.
#[derive(Clone, Copy)]
pub struct Name {
    bytes: [u8; LONGEST_NAME],
    len: usize,
}

impl Model for Name {
    ghost use Rattle.std.specs.Prelude.{◌-◌, ◌++◌, ℕ, List, length, take, replicate};
    ghost use Rattle.floor_text.specs.Limits.{longest_name};
    ghost use Rattle.floor_text.specs.Names.{IsKept, length_kept, padded_again};

    ghost Value = { List ℕ };

    ghost view = { λ n. take n.len n.bytes };

    ghost invariant = { λ n. IsKept n.bytes n.len };

    ghost inverse = { λ name. record { bytes = name ++ replicate (longest_name - length name) 0; len = length name } };

    ghost inverse_ok = { λ n kept i. record { bytes = padded_again kept i; len = length_kept kept i } };
}

fn is_name_byte(byte: u8) -> bool
    ensures { result ≡ is_name_byte byte }
{
    byte.is_ascii_alphanumeric() || byte == b'_'
}

impl Name {
    /// Reads a name. `None` exactly where the bytes are no name.
    pub fn read(bytes: &[u8]) -> Option<Name>
        ensures some { IsSome result ↔ IsTrue (is_name bytes.now) }
        ensures same { IfSome result (λ name. name ≡ bytes.now) }
    {
        if bytes.len() > LONGEST_NAME {
            return None;
        }
        let [first, ..] = bytes else {
            return None;
        };
        if !first.is_ascii_alphabetic() {
            return None;
        }
        let mut padded = [0; LONGEST_NAME];
        for index in 0..bytes.len() {
            if !is_name_byte(bytes[index]) {
                return None;
            }
            padded[index] = bytes[index];
        }
        if bytes == b"floor".as_slice() {
            return None;
        }
        Some(Name {
            bytes: padded,
            len: bytes.len(),
        })
    }

    /// Gives the name's bytes.
    pub fn bytes(&self) -> &[u8]
        ensures same { result.now ≡ self.now }
        ensures name { IsTrue (is_name self.now) }
    {
        &self.bytes[..self.len]
    }
}

impl PartialEq for Name {
    ghost eq = { bytes_eq };

    ghost laws = { Prim.search (comparing, rules) };

    #[tactic(auto, using(crate::proofs::KeptNames::same_kept))]
    fn eq(&self, other: &Name) -> bool {
        self.len == other.len && self.bytes == other.bytes
    }
}

impl Eq for Name {
    ghost laws = { Prim.search (comparing, rules) };
}

impl Hash for Name {
    ghost hash_input = { λ name. fed.slice fed.u8 name };

    ghost respects_eq = { Prim.search (hashing, rules) };

    fn hash<H: Hasher>(&self, state: &mut H) {
        self.bytes().hash(state);
    }
}
