//! Laws of the definitions that the contracts of this crate cite. They do nothing when they run.

ghost use Rattle.std.specs.Prelude.{◌≡◌, ℕ, List, Ok, false, map, option_map};
ghost use Rattle.serde_json.specs.Find.{get_member};
ghost use Rattle.serde_json.specs.Written.{has_float, members_have_float};
ghost use Rattle.lsv_base.specs.declared.time.TimeSpec.{TimeSpec};
ghost use Rattle.lsv_info.specs.Info.{counting};
ghost use Rattle.lsv_info.specs.declared.info.Entry.{Entry};
ghost use Rattle.lsv_info.specs.declared.times.Exit.{Exit};
ghost use Rattle.lsv_info.specs.declared.times.Head.{Head};
ghost use Rattle.lsv_info.specs.Layout.{shown_value, info_members, time_value, exit_members, head_text, exit_text};
ghost use Rattle.lsv_info.specs.Reading.{head_of, exit_of};
ghost use Rattle.lsv_info.specs.Shown.{seen_entry, seen_entries, seen_head, seen_exit, keyed_as_shown, InByteOrder, keys_in, IsTimedHead, IsTimedExit};

/// The text of a head or an exit with a valid time is read as that head or exit, its bytes as text shows them, its
/// entries in byte order of their keys with each key once, and an empty list of numbers as one of texts.
pub fn a_written_text_is_read_back()
    ensures head { (head : Head) → IsTimedHead head → head_of (head_text head) ≡ Ok (seen_head head) }
    ensures exit { (exit : Exit) → IsTimedExit exit → exit_of (exit_text exit) ≡ Ok (seen_exit exit) }
{}

/// `info` has one member for each key as text shows it, in byte order of these keys, and so has what is read of it: of
/// several entries with one such key the last counts.
pub fn of_a_shown_key_the_last_entry_counts()
    ensures order { (entries : List Entry) → InByteOrder (keys_in (info_members entries)) }
    ensures members { (entries : List Entry) (key : List ℕ) → get_member key (info_members entries)
        ≡ option_map (λ e. shown_value e.value) (counting (map keyed_as_shown entries) key) }
    ensures order_read { (entries : List Entry) → InByteOrder (map (λ e. e.key) (seen_entries entries)) }
    ensures read { (entries : List Entry) (key : List ℕ) → counting (seen_entries entries) key ≡ counting (map seen_entry entries) key }
{}

/// The JSON of what is told of a command has no float, so that it has a text.
pub fn what_is_shown_has_no_float()
    ensures info { (entries : List Entry) → members_have_float (info_members entries) ≡ false }
    ensures time { (time : TimeSpec) → has_float (time_value time) ≡ false }
    ensures exit { (exit : Exit) → members_have_float (exit_members exit) ≡ false }
{}
