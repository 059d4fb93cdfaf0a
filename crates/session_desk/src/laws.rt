//! Laws of what a client is told.

ghost use Rattle.std.specs.Prelude.{ℕ, List};
ghost use mathlib.Core.List.{IsPrefix};
ghost use Rattle.plan_files.specs.Words.{WordTerms};
ghost use Rattle.session_desk.specs.Desks.{Numbers, Sights};
ghost use Rattle.session_desk.specs.Exchanges.{Exchange};
ghost use Rattle.session_desk.specs.Standings.{standing_through};
ghost use Rattle.session_desk.specs.Talks.{AreFirstLines, AreMoments, floor_in, lines_of_table, sights_through};
ghost use Rattle.session_desk.specs.Telling.{first_teller, viewer_of};

/// Says that whatever a client asked for, the floor's lines that it was told are those of the first entries of the
/// journal, and the lines of each table those of the first entries of its history, as that client may see them: in the
/// order of the entries, and none is skipped.
pub fn a_client_is_told_in_order()
    ensures floor { (words : WordTerms) (count : ℕ) (numbers : Numbers) (start : Sights) (log : List Exchange)
        → AreMoments words count numbers start log → IsPrefix (floor_in log) (sights_through start log).journal }
    ensures tables { (words : WordTerms) (count : ℕ) (numbers : Numbers) (start : Sights) (log : List Exchange)
        (table : ℕ) → AreMoments words count numbers start log
        → AreFirstLines (first_teller (viewer_of (standing_through words count log).speaker) table)
        ((sights_through start log).tables table) (lines_of_table table log) }
{}
