//! Laws of the definitions that the contracts of this crate cite. They do nothing when they run.

ghost use Rattle.std.specs.Prelude.{◌≡◌, ◌≤◌, ◌++◌, ◌∷◌, [], ℕ, true};
ghost use Rattle.lsv_event.specs.Controls.{is_uncontrolled};
ghost use Rattle.lsv_event.specs.Events.{IsOneLine, IsVisible};
ghost use Rattle.lsv_event.specs.JsonLine.{json_line};
ghost use Rattle.lsv_event.specs.SudoLine.{sudo_line};
ghost use Rattle.lsv_event.specs.declared.event.Event.{Event};

/// A line ends with a line feed, and before it stands no control byte, so no other line feed. A line in sudo's style
/// has visible bytes and spaces alone. In a line of JSON there is neither DEL nor a C1 control (U+0080 to U+009F).
pub fn one_event_is_one_line()
    ensures sudo { (event : Event) → IsOneLine (sudo_line event) }
    ensures json { (event : Event) → IsOneLine (json_line event) }
    ensures visible { (event : Event) → IsVisible (sudo_line event) }
    ensures controls { (event : Event) → is_uncontrolled 0 (json_line event) ≡ true }
{}
