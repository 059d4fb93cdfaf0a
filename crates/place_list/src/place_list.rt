//! The list of the players who are out.

ghost use Rattle.std.specs.Prelude.{◌≡◌, ◌<◌, ◌≤◌, ◌+◌, ◌==◌, ◌^◌, [], ◌∷◌, ◌++◌, true, false, IfOk, OnOk, length, map, sum};
ghost use Rattle.std.specs.List.{list_any};
ghost use Rattle.std.specs.Vec.{vec_capacity, vec_len};
ghost use Rattle.rulebook.specs.Limits.{most_entries};
ghost use Rattle.place_list.specs.Places.{is_bust_of, taken_back};
ghost use Rattle.place_list.specs.Prizes.{pool_of};
ghost use Rattle.place_list.specs.Standings.{standings_of, standing_of, winner_of};
ghost use Rattle.place_list.specs.Orders.{Placed};

use crate::order::in_order;
use crate::prizes::{equal_share, prizes_of, prizes_together};
use crate::tie::Tie;
use crate::{Bust, Standing};
use rulebook::MOST_ENTRIES;
use std::alloc::{AllocError, Global};
use std::marker::Model;

/// The players who are out, in the order in which they went out. Contracts see the list of them.
#[derive(Drop)]
pub struct PlaceList {
    busts: Vec<Bust>,
}

impl Model for PlaceList {
    ghost use Rattle.std.specs.Prelude.{◌≡◌, ◌==◌, ◌≤◌, true, List, length, map};
    ghost use Rattle.std.specs.Vec.{vec_capacity};
    ghost use Rattle.rulebook.specs.Pairs.{are_distinct};
    ghost use Rattle.rulebook.specs.Limits.{most_entries};
    ghost use Rattle.place_list.specs.declared.bust.Bust.{Bust};

    ghost Value = { List Bust };

    ghost view = { λ list. list.busts.items };

    ghost invariant = { λ list. (most_entries ≤ vec_capacity list.busts) × (length list.busts.items ≤ most_entries)
        × (are_distinct (λ one other. one == other) (map (λ bust. bust.player) list.busts.items) ≡ true) };
}

/// Takes the row of a player out of a list.
fn take_out(busts: &mut Vec<Bust>, player: u32)
    ensures rows { busts.new.items ≡ taken_back player busts.old.items }
    ensures fewer { vec_len busts.new ≤ vec_len busts.old }
    ensures room { vec_capacity busts.new ≡ vec_capacity busts.old }
{
    busts.retain(|bust| bust.player != player);
}

impl PlaceList {
    /// Makes a list on which nobody is, with room for all players there can be. Want of memory is the only error.
    pub fn new(alloc: Global) -> Result<PlaceList, AllocError>
        ensures { IfOk result (λ list. list ≡ []) }
    {
        Ok(PlaceList {
            busts: Vec::with_capacity(alloc, MOST_ENTRIES)?,
        })
    }

    /// Puts a player on the list: his stack in chips at the start of his last hand, and the group that he goes out in.
    /// It takes no memory.
    pub fn bust(&mut self, player: u32, stack: u64, group: u64)
        requires room { length self.old < most_entries }
        requires once { list_any (is_bust_of player) self.old ≡ false }
        ensures { self.new ≡ self.old ++ record { player = player; stack = stack; group = group } ∷ [] }
    {
        let _ = self.busts.push(Bust {
            player,
            stack,
            group,
        });
    }

    /// Takes a player back from the list who is on it: his row leaves it, and the others stay as they are. It takes no
    /// memory.
    pub fn take_back(&mut self, player: u32)
        requires out { list_any (is_bust_of player) self.old ≡ true }
        ensures { self.new ≡ taken_back player self.old }
    {
        take_out(&mut self.busts, player);
    }

    /// Tells whether this player is bust: he is on the list.
    pub fn is_bust(&self, player: u32) -> bool
        ensures { result ≡ list_any (is_bust_of player) self.now }
    {
        self.busts.iter().any(|bust| bust.player == player)
    }

    /// Tells how many players are out.
    pub fn len(&self) -> u32
        ensures len { result ≡ length self.now }
        ensures most { result ≤ most_entries }
    {
        self.busts.len() as u32
    }

    /// Tells whether nobody is out.
    pub fn is_empty(&self) -> bool
        ensures { result ≡ (length self.now == 0) }
    {
        self.busts.is_empty()
    }

    /// Tells where each player stands who is out, and `last`, the winner, where the tournament is over: by place, and
    /// of the same place by entry. There were so many entries and so many re-entries, `buyin` is in chips of money and
    /// `shares` in thousandths of the pool. Want of memory is the only error.
    pub fn standings(
        &self,
        alloc: Global,
        entries: u32,
        reentries: u32,
        last: Option<u32>,
        buyin: u64,
        shares: &[u64],
    ) -> Result<Vec<Standing>, AllocError>
        requires entries { entries + reentries ≤ most_entries }
        requires buyin { buyin ≤ 1000000000 }
        requires shares { sum shares.now ≤ 1000 }
        ensures { IfOk result (λ standings. standings.items
            ≡ standings_of entries last (pool_of entries reentries buyin) shares.now self.now) }
    {
        let pool = u64::from(entries + reentries) * buyin;
        let busts = in_order(alloc, &self.busts)?;
        let prizes = prizes_of(alloc, entries, pool, shares)?;
        let mut standings = Vec::with_capacity(alloc, busts.len() + 1)?;
        add_winner(&mut standings, last, &prizes)?;
        add_standings(&mut standings, entries, &busts, &prizes)?;
        Ok(standings)
    }
}

/// Adds where the winner stands, where there is one.
fn add_winner(
    standings: &mut Vec<Standing>,
    last: Option<u32>,
    prizes: &[u64],
) -> Result<(), AllocError>
    requires { sum prizes.now < 2 ^ 63 }
    ensures { OnOk result (standings.new.items ≡ standings.old.items ++ winner_of prizes.now last) }
{
    if let Some(player) = last {
        standings.push(Standing {
            player,
            place: 1,
            prize: prizes_together(prizes, 0, 1),
        })?;
    }
    Ok(())
}

/// Adds where players stand who are in the order of their places.
fn add_standings(
    standings: &mut Vec<Standing>,
    entries: u32,
    busts: &[Bust],
    prizes: &[u64],
) -> Result<(), AllocError>
    requires placed { Placed busts.now }
    requires most { length busts.now ≤ most_entries }
    requires entries { entries ≤ most_entries }
    requires fits { sum prizes.now < 2 ^ 63 }
    ensures { OnOk result (standings.new.items
        ≡ standings.old.items ++ map (standing_of entries prizes.now busts.now) busts.now) }
{
    let still_in = (entries as usize).saturating_sub(busts.len());
    let mut tie = Tie {
        first: 0,
        players: 0,
    };
    for index in 0..busts.len() {
        tie = tie.next(busts, index);
        let before = still_in + tie.first;
        let together = prizes_together(prizes, before, tie.players);
        standings.push(Standing {
            player: busts[index].player,
            place: before as u32 + 1,
            prize: equal_share(together, tie.players, index - tie.first),
        })?;
    }
    Ok(())
}
