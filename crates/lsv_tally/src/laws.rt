//! Laws of the definitions that the contracts of this crate cite. They do nothing when they run.
ghost use Rattle.std.specs.Prelude.{◌≡◌, ◌≤◌, ◌++◌, ◌∷◌, [], ℕ, List, length, true};
ghost use Rattle.lsv_event.specs.SudoLine.{sudo_line};
ghost use Rattle.lsv_event.specs.declared.event.Event.{Event};
ghost use Rattle.lsv_tally.specs.Events.{reads};

use lsv_event::one_event_is_one_line;

/// A line that the server writes in sudo's style is an event, if it has at most 2^24 bytes before its line feed.
pub fn a_written_line_is_an_event()
    ensures { (event : Event) (line : List ℕ) → sudo_line event ≡ line ++ 10 ∷ [] → length line ≤ 16777216 → reads line ≡ true }
{
    one_event_is_one_line();
}
