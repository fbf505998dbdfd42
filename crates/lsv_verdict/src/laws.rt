//! Laws of the definitions that the contracts of this crate cite. They do nothing when they run.
ghost use Rattle.std.specs.Prelude.{◌≡◌, ◌≤◌, ◌⊎◌, ℕ, List, true};
ghost use Rattle.lsv_event.specs.Controls.{is_uncontrolled};
ghost use Rattle.lsv_event.specs.Events.{IsOneLine, IsVisible};
ghost use Rattle.lsv_disk.specs.View.{Image};
ghost use Rattle.lsv_verdict.specs.Json.{json_of};
ghost use Rattle.lsv_verdict.specs.Lines.{AreBytes};
ghost use Rattle.lsv_verdict.specs.Sealed.{Collide, HaveSameBytes, IsDigest, sealed_bytes};
ghost use Rattle.lsv_verdict.specs.Text.{text_of};
ghost use Rattle.lsv_verdict.specs.declared.verdict.Verdict.{Verdict};

use lsv_event::one_event_is_one_line;

/// Two logs with one digest have the same number and the same committed bytes, or two different texts have one SHA-256.
pub fn a_digest_fixes_the_bytes()
    ensures { (image other : Image) (n m : ℕ) (digest : List ℕ) → n ≤ 2176782335 → m ≤ 2176782335 → (a : IsDigest image n digest) → (b : IsDigest other m digest)
        → HaveSameBytes image n a.body other m b.body ⊎ Collide (sealed_bytes image n a.body) (sealed_bytes other m b.body) }
{}

/// The line of a verdict ends with a line feed. As text it has visible bytes and spaces before it; as JSON neither a control
/// byte nor DEL nor a C1 control (U+0080 to U+009F).
pub fn one_verdict_is_one_line()
    ensures text { (v : Verdict) → AreBytes v.digest → IsVisible (text_of v) }
    ensures json { (v : Verdict) → IsOneLine (json_of v) }
    ensures controls { (v : Verdict) → is_uncontrolled 0 (json_of v) ≡ true }
{
    one_event_is_one_line();
}
