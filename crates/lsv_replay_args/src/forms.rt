//! A law of the words that are shown. It does nothing when it runs.

ghost use Rattle.std.specs.Prelude.{◌≡◌, ℕ, List, [], ◌∷◌, Some, None, true, false};
ghost use Rattle.clap.specs.Words.{fault_of};
ghost use Rattle.lsv_replay_args.specs.Forms.{Given, IsForm, dir_told, further_in, has_following, has_listing, manner_told, told, words_in};
ghost use Rattle.lsv_replay_args.specs.Program.{program};
ghost use Rattle.lsv_replay_args.specs.Request.{Follow, IsRefused, Manner, Play, Search, asked};

/// Options, each at most once and in any order, and words before, after and between them, are taken, and ask for what
/// they say and the defaults: with `-l` for a listing, with `-F` to follow the one log that a word names, else to play
/// it. They are refused exactly if a value is out of its form, or `-l` stands with `-F`, or a log is to be shown and
/// there isn't one such word.
pub fn options_stand_in_any_order()
    ensures taken { (given : List Given) → IsForm given → fault_of program (words_in given) ≡ [] }
    ensures asked { (given : List Given) → IsForm given → asked (words_in given) ≡ told given }
    ensures plays { (given : List Given) (manner : Manner) (id : List ℕ) → IsForm given → manner_told given ≡ Some manner → has_listing given ≡ false → has_following given ≡ false → further_in given ≡ id ∷ []
        → asked (words_in given) ≡ Some (Play (dir_told given) manner id) }
    ensures follows { (given : List Given) (manner : Manner) (id : List ℕ) → IsForm given → manner_told given ≡ Some manner → has_listing given ≡ false → has_following given ≡ true → further_in given ≡ id ∷ []
        → asked (words_in given) ≡ Some (Follow (dir_told given) manner id) }
    ensures lists { (given : List Given) (manner : Manner) → IsForm given → manner_told given ≡ Some manner → has_listing given ≡ true → has_following given ≡ false
        → asked (words_in given) ≡ Some (Search (dir_told given) (further_in given)) }
    ensures refused { (given : List Given) → IsForm given → told given ≡ None → IsRefused (words_in given) }
    ensures only { (given : List Given) → IsForm given → IsRefused (words_in given) → told given ≡ None }
{}
