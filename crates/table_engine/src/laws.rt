//! Laws of a hand: over every lawful start and every lawful play of it.

ghost use Rattle.std.specs.Prelude.{◌≡◌, ◌+◌, ◌*◌, ◌%◌, ◌==◌, ◌<◌, ◌≤◌, ℕ, List, [], ◌∷◌, ◌++◌, Some, None, IsSome, false, true, map, nat_le, length, slice_index_or, sum, sum_by};
ghost use Rattle.std.specs.List.{AllByRecursion, list_all};
ghost use Rattle.betting_round.specs.declared.act.Act.TheVariants as acts;
ghost use Rattle.betting_round.specs.declared.act.Act.{Act};
ghost use Rattle.card_choices.specs.Choices.{AreDistinct};
ghost use Rattle.card_set.specs.declared.card.Card.{Card};
ghost use Rattle.card_set.specs.Decks.{IsDeck};
ghost use Rattle.pot_layers.specs.Layers.{is_contested};
ghost use Rattle.pot_layers.specs.PotTests.{are_others_within, total_of};
ghost use Rattle.table_engine.specs.declared.record.ActOf.{ActOf};
ghost use Rattle.table_engine.specs.declared.start.StartSeat.{StartSeat};
ghost use Rattle.table_engine.specs.Starts.{IsLawfulStart, chips_of, have_playable_stacks};
ghost use Rattle.table_engine.specs.Covers.{is_big_next, is_covered};
ghost use Rattle.table_engine.specs.Deals.{dealt_cards};
ghost use Rattle.table_engine.specs.Hands.{HandTerms, ante_posted, behind, dead_chips, due_in_hand, due_name, is_live, is_over, player_of, players_by_seat, posted, put_from, put_in_hand, street_of, streets_of};
ghost use Rattle.floor_text.specs.Refusals.{refusal_number};
ghost use Rattle.limit_betting.specs.Wagers.{raises, wagers};
ghost use Rattle.rulebook.specs.Pairs.{are_rising};
ghost use Rattle.table_engine.specs.Acts.{act_checks, done_of_act, hand_after_time, refusal_of_act, refusal_of_time, time_act};
ghost use Rattle.table_engine.specs.Results.{award, is_won_by_folds, players_after, pot, pots_in_hand, puts_in_hand, stacks_after_hand, starting_stacks};
ghost use Rattle.table_engine.specs.Plays.{IsLawfulPlay, are_lawful_after};
ghost use Rattle.table_engine.specs.declared.start.HandStart.{HandStart};

/// Says that the chips of a hand are kept. At each moment, all that the players have behind, all that they have put in
/// and the antes sum to their starting stacks, and nobody has put in more than his stack. The pots of a hand that is
/// over sum to all that was put in and the antes, what its players get sums to the same, and the stacks after it sum to
/// the starting stacks.
pub fn chips_of_a_hand()
    ensures in_play { (hand : HandTerms) → IsLawfulStart hand.start → IsLawfulPlay hand
        → sum_by (behind hand) hand.start.seats + sum_by (put_in_hand hand) hand.start.seats + dead_chips hand.start
        ≡ sum (starting_stacks hand) }
    ensures within { (hand : HandTerms) → IsLawfulStart hand.start → IsLawfulPlay hand
        → list_all (λ player. nat_le (put_in_hand hand player + ante_posted hand.start player) player.stack)
        hand.start.seats ≡ true }
    ensures pots { (hand : HandTerms) → IsLawfulStart hand.start → IsLawfulPlay hand
        → total_of (pots_in_hand hand) ≡ pot hand }
    ensures awards { (hand : HandTerms) → IsLawfulStart hand.start → IsLawfulPlay hand → is_over hand ≡ true
        → sum_by (award hand) hand.start.seats ≡ pot hand }
    ensures after { (hand : HandTerms) → IsLawfulStart hand.start → IsLawfulPlay hand → is_over hand ≡ true
        → sum (stacks_after_hand hand) ≡ sum (starting_stacks hand) }
    ensures players { (hand : HandTerms) → IsLawfulStart hand.start → IsLawfulPlay hand → is_over hand ≡ true
        → chips_of (players_after hand) ≡ chips_of hand.start.seats }
{}

/// Says that each act of a lawful play is refused by no check on the acts before it. Where it came by a called time, to
/// call time there is not refused and makes the hand with that act: what wrote the act back as a called time would play
/// the same hand.
pub fn acts_of_a_hand()
    ensures free { (hand : HandTerms) (front : List ActOf) (act : ActOf) (back : List ActOf) → IsLawfulPlay hand
        → hand.acts ≡ front ++ act ∷ back → refusal_of_act (record hand { acts = front }) act.name act.act ≡ None }
    ensures called { (hand : HandTerms) (front : List ActOf) (act : ActOf) (back : List ActOf) → IsLawfulPlay hand
        → hand.acts ≡ front ++ act ∷ back → act.by_time ≡ true
        → refusal_of_time (record hand { acts = front }) ≡ None }
    ensures timed { (hand : HandTerms) (front : List ActOf) (act : ActOf) (back : List ActOf) → IsLawfulPlay hand
        → hand.acts ≡ front ++ act ∷ back → act.by_time ≡ true
        → hand_after_time (record hand { acts = front }) ≡ record hand { acts = front ++ act ∷ [] } }
{}

/// Says that as long as a hand is not over somebody is due. He has chips behind, and he may fold, so there is always an
/// act of his that is not refused.
pub fn turns_of_a_hand()
    ensures somebody { (hand : HandTerms) → IsLawfulStart hand.start → IsLawfulPlay hand → is_over hand ≡ false
        → IsSome (due_name hand) }
    ensures behind { (hand : HandTerms) (seat : ℕ) (player : StartSeat) → IsLawfulStart hand.start → IsLawfulPlay hand
        → due_in_hand hand ≡ Some seat → player_of hand.start seat ≡ Some player → 0 < behind hand player }
    ensures free { (hand : HandTerms) (name : List ℕ) → IsLawfulStart hand.start → due_name hand ≡ Some name
        → refusal_of_act hand name acts.Fold ≡ None }
{}

/// Says that the bet level of a street never falls: where an act that is not refused leaves the hand on the same
/// street, with as many streets to come, the level is no lower after it.
pub fn levels_of_a_hand()
    ensures { (hand : HandTerms) (act : ActOf) → refusal_of_act hand act.name act.act ≡ None
        → (streets_of (record hand { acts = hand.acts ++ act ∷ [] })).left ≡ (streets_of hand).left
        → (street_of hand).level ≤ (street_of (record hand { acts = hand.acts ++ act ∷ [] })).level }
{}

/// Says that a hand cannot go on for ever: it has at most as many acts as its players have chips, and fifty more. Each
/// act puts a chip in, or is one of at most ten folds, or one of at most ten checks on each of four streets.
pub fn length_of_a_hand()
    ensures { (hand : HandTerms) → IsLawfulStart hand.start → IsLawfulPlay hand
        → length hand.acts ≤ chips_of hand.start.seats + 50 }
{}

/// Says that the players after a hand are those who were dealt in: they have their numbers, names and seats. Each of
/// them has a stack that is a multiple of the unit. After a hand that is won by folds it is above 0, as before the
/// hand: a player who folds was due, so he has chips behind.
pub fn players_of_a_hand()
    ensures numbers { (hand : HandTerms)
        → map (λ player. player.player) (players_after hand) ≡ map (λ player. player.player) hand.start.seats }
    ensures names { (hand : HandTerms)
        → map (λ player. player.name) (players_after hand) ≡ map (λ player. player.name) hand.start.seats }
    ensures seats { (hand : HandTerms)
        → map (λ player. player.seat) (players_after hand) ≡ map (λ player. player.seat) hand.start.seats }
    ensures stacks { (hand : HandTerms) → map (λ player. player.stack) (players_after hand) ≡ stacks_after_hand hand }
    ensures whole { (hand : HandTerms) → IsLawfulStart hand.start → IsLawfulPlay hand
        → list_all (λ player. player.stack % hand.start.blind.unit == 0) (players_after hand) ≡ true }
    ensures playable { (hand : HandTerms) → IsLawfulStart hand.start → IsLawfulPlay hand → is_won_by_folds hand ≡ true
        → have_playable_stacks hand.start.blind.unit (players_after hand) ≡ true }
{}

/// Says that a hand that is over and not won by folds comes to a showdown: a live player has put in chips, so that each
/// of its pots can be won.
pub fn showdown_of_a_hand()
    ensures { (hand : HandTerms) → IsLawfulStart hand.start → IsLawfulPlay hand → is_over hand ≡ true
        → is_won_by_folds hand ≡ false → is_contested (puts_in_hand hand) ≡ true }
{}

/// Says that a hand has a deck, and that no card is dealt twice: all hole cards of all players, the board and the
/// burned cards are different cards, so no two players hold the same card, and none holds one of the board.
pub fn cards_of_a_hand()
    ensures deck { (start : HandStart) → IsLawfulStart start → IsDeck start.deck }
    ensures apart { (start : HandStart) → IsLawfulStart start → AreDistinct (dealt_cards start) }
{}

/// Says that an uncalled bet comes back to its player. What a live player has put in above the height that any other
/// player reached is among what he gets, where one player alone is live and at a showdown.
pub fn an_uncalled_bet_comes_back()
    ensures { (hand : HandTerms) (index height : ℕ) (player : StartSeat) → IsLawfulStart hand.start → IsLawfulPlay hand
        → is_over hand ≡ true → slice_index_or (players_by_seat hand.start) index None ≡ Some player
        → is_live hand player ≡ true → are_others_within (puts_in_hand hand) index height ≡ true
        → put_in_hand hand player ≤ height + award hand player }
{}

/// Says that who folds is covered: of each player, some live player has put in during the hand at least as much as he.
/// That is so where nobody is dealt in between the small mark and the big one. Wherever the marks are, who is not
/// covered sits in the small mark's seat and has put in no more than he posted, and who sits in the big mark's seat
/// posted less.
pub fn who_folds_is_covered()
    ensures covered { (hand : HandTerms) (seat : ℕ) (player : StartSeat) → IsLawfulStart hand.start
        → IsLawfulPlay hand → is_big_next hand.start ≡ true → player_of hand.start seat ≡ Some player
        → is_covered hand player ≡ true }
    ensures anywhere { (hand : HandTerms) (seat : ℕ) (player big : StartSeat) → IsLawfulStart hand.start
        → IsLawfulPlay hand → player_of hand.start seat ≡ Some player
        → player_of hand.start hand.start.marks.big ≡ Some big → is_covered hand player ≡ false
        → (seat ≡ hand.start.marks.small) × (put_in_hand hand player ≤ posted hand.start player)
        × (posted hand.start big < posted hand.start player) }
{}

/// Says that by fixed limit nobody puts in more on a street than so many bets as the cap says and five more, on no
/// street of a lawful play, that no street has more wagers than the cap says, and that nobody raises more often than
/// that on a street but by an all-in.
pub fn bets_of_a_hand()
    ensures put { (hand : HandTerms) (seat : ℕ) → IsLawfulStart hand.start → IsLawfulPlay hand → 1 ≤ hand.start.cap
        → AllByRecursion (λ played. put_from seat played ≤ (hand.start.cap + 5) * played.start.big)
        ((streets_of hand).last ∷ (streets_of hand).before) }
    ensures wagers { (hand : HandTerms) → IsLawfulStart hand.start → IsLawfulPlay hand → 1 ≤ hand.start.cap
        → AllByRecursion (λ played. wagers played.start played.acts ≤ hand.start.cap)
        ((streets_of hand).last ∷ (streets_of hand).before) }
    ensures raises { (hand : HandTerms) → IsLawfulStart hand.start → IsLawfulPlay hand → 1 ≤ hand.start.cap
        → AllByRecursion (λ played. raises played.start played.acts ≤ hand.start.cap)
        ((streets_of hand).last ∷ (streets_of hand).before) }
{}

/// Says that betting does not depend on cards.
pub fn cards_do_not_bet()
    ensures due { (hand : HandTerms) (deck : List Card)
        → due_name (record hand { start = record hand.start { deck = deck } }) ≡ due_name hand }
    ensures play { (start : HandStart) (deck : List Card) (acts : List ActOf)
        → are_lawful_after (record start { deck = deck }) [] acts ≡ are_lawful_after start [] acts }
    ensures done { (hand : HandTerms) (deck : List Card) (name : List ℕ) (act : Act)
        → done_of_act (record hand { start = record hand.start { deck = deck } }) name act ≡ done_of_act hand name act }
    ensures time { (hand : HandTerms) (deck : List Card)
        → time_act (record hand { start = record hand.start { deck = deck } }) ≡ time_act hand }
    ensures refusal { (hand : HandTerms) (deck : List Card) (name : List ℕ) (act : Act)
        → refusal_of_act (record hand { start = record hand.start { deck = deck } }) name act
        ≡ refusal_of_act hand name act }
    ensures start { (start : HandStart) (deck : List Card) → IsLawfulStart start → IsDeck deck
        → IsLawfulStart (record start { deck = deck }) }
    ensures lawful { (hand : HandTerms) (deck : List Card) → IsLawfulPlay hand
        → IsLawfulPlay (record hand { start = record hand.start { deck = deck } }) }
{}

/// Says that the checks of an act stand in rising number, so that the first that holds is the lowest.
pub fn checks_of_an_act_rise()
    ensures { (hand : HandTerms) (name : List ℕ) (act : Act)
        → are_rising (map (λ check. refusal_number check.0) (act_checks hand name act)) ≡ true }
{}

/// Says that a hand that is over and not won by folds has come to its last street: none is left to begin.
pub fn a_showdown_has_the_whole_board()
    ensures { (hand : HandTerms) → is_over hand ≡ true → is_won_by_folds hand ≡ false → (streets_of hand).left ≡ 0 }
{}
