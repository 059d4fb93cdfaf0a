//! What holds of all lines and events.

ghost use Rattle.std.specs.Prelude.{◌≡◌, ◌∷◌, ◌++◌, ℕ, List, Some, None};
ghost use Rattle.floor_text.specs.Lines.{lines_of_bytes};
ghost use Rattle.tournament_events.specs.declared.event.Event.{Event};
ghost use Rattle.tournament_events.specs.declared.event.Item.{Item};
ghost use Rattle.tournament_events.specs.declared.event.Item.TheVariants as items;
ghost use Rattle.floor_events.specs.Grammar.{item_of_bytes};
ghost use Rattle.floor_events.specs.Spelling.{event_text, IsWritable, IsLineOf};

/// Says that each line is a note, the text of one writable event, or not in the grammar, and never two of these: a line
/// holds at most one item, and it is read as none exactly where it holds none.
pub fn a_line_holds_one_item_at_most()
    ensures one { (line : List ℕ) (one other : Item) → IsLineOf one line → IsLineOf other line → one ≡ other }
    ensures read { (line : List ℕ) (item : Item) → item_of_bytes line ≡ Some item → IsLineOf item line }
    ensures none { (line : List ℕ) (item : Item) → item_of_bytes line ≡ None → IsLineOf item line → ⊥ }
{}

/// Says that no two writable events have one text.
pub fn no_two_events_have_one_text()
    ensures { (one other : Event) → IsWritable one → IsWritable other → event_text one ≡ event_text other
        → one ≡ other }
{}

/// Says that the text of a writable event, a line feed and anything behind it are cut and read as that event first, and
/// then as what stands behind.
pub fn what_is_written_is_read_first()
    ensures cut { (event : Event) (behind : List ℕ) → IsWritable event
        → lines_of_bytes (event_text event ++ 10 ∷ behind) ≡ Some (event_text event) ∷ lines_of_bytes behind }
    ensures read { (event : Event) → IsWritable event
        → item_of_bytes (event_text event) ≡ Some (items.Event event) }
{}
