//! Laws of a street, at each moment.

ghost use Rattle.std.specs.Prelude.{◌≡◌, ◌≤◌, ◌∷◌, ℕ, None, Some, IfSome, true, List};
ghost use Rattle.betting_round.specs.declared.act.Act.{Act};
ghost use Rattle.betting_round.specs.declared.act.Act.TheVariants as acts;
ghost use Rattle.betting_round.specs.declared.street.Street.{Street};
ghost use Rattle.betting_round.specs.Limits.{Limits};
ghost use Rattle.betting_round.specs.StreetActs.{StreetStart, SeatAct, IsStreetStart, level, street_after, chips_on};
ghost use Rattle.betting_round.specs.WhoIsDue.{player_at, is_there, can_act, due_seat};
ghost use Rattle.betting_round.specs.ActChecks.{act_refusal};
ghost use Rattle.betting_round.specs.Running.{amount_of};

/// Says that the player who is due is live and has chips behind, and he may fold.
pub fn who_is_due_can_act()
    ensures behind { (street : Street) (seat : ℕ) → due_seat street ≡ Some seat
        → is_there can_act (player_at street.players seat) ≡ true }
    ensures fold { (limits : Limits) (street : Street) (seat : ℕ) → due_seat street ≡ Some seat
        → act_refusal limits street seat acts.Fold ≡ None }
{}

/// Says that whatever bounds the betting, an act that is not refused is of the player who is due, and he has the chips
/// for it.
pub fn an_act_is_in_turn_and_covered()
    ensures turn { (limits : Limits) (street : Street) (seat : ℕ) (act : Act)
        → act_refusal limits street seat act ≡ None → due_seat street ≡ Some seat }
    ensures covered { (limits : Limits) (street : Street) (seat : ℕ) (act : Act)
        → act_refusal limits street seat act ≡ None
        → IfSome (player_at street.players seat) (λ player. amount_of street.level player act ≤ player.bettor.behind) }
{}

/// Says that the chips of a street are kept by each act that is not refused: what its players have put in and have
/// behind sums to the same.
pub fn an_act_keeps_the_chips()
    ensures { (limits : Limits) (start : StreetStart) (acts : List SeatAct) (entry : SeatAct) → IsStreetStart start
        → act_refusal limits (street_after start acts) entry.seat entry.act ≡ None
        → chips_on (street_after start (entry ∷ acts)) ≡ chips_on (street_after start acts) }
{}

/// Says that the bet level of a street never falls, whatever acts are made.
pub fn the_level_never_falls()
    ensures { (start : StreetStart) (entry : SeatAct) (acts : List SeatAct)
        → level start acts ≤ level start (entry ∷ acts) }
{}
