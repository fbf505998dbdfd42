//! A law of the words that are shown. It does nothing when it runs.

ghost use Rattle.std.specs.Prelude.{◌≡◌, ◌++◌, ℕ, List, [], ◌∷◌, Option, Some, true, codes, option_map};
ghost use Rattle.std.specs.List.{list_all};
ghost use Rattle.clap.specs.Words.{fault_of};
ghost use Rattle.lsv_args.specs.Commands.{commands};
ghost use Rattle.lsv_args.specs.Forms.{Given, file_words, is_count, is_file, is_good, is_once, told, told_file, words_in};
ghost use Rattle.lsv_args.specs.Reading.{Check, Load, Once, Relay, Serve, asked, number_in};

/// Each command with its options, each at most once and in any order, is taken, and asks for what they say and the defaults:
/// `serve`, `once`, `relay`, `check`, and `load` with its number before the option or after it.
pub fn options_stand_in_any_order()
    ensures taken { (given : List Given) → list_all is_good given ≡ true → is_once given ≡ true → fault_of commands (codes "serve" ∷ words_in given) ≡ [] }
    ensures asked { (given : List Given) → list_all is_good given ≡ true → is_once given ≡ true → asked (codes "serve" ∷ words_in given) ≡ Some (Serve (told given)) }
    ensures once_taken { (file : Option (List ℕ)) → is_file file ≡ true → fault_of commands (codes "once" ∷ file_words file) ≡ [] }
    ensures once_asked { (file : Option (List ℕ)) → is_file file ≡ true → asked (codes "once" ∷ file_words file) ≡ Some (Once (told_file file)) }
    ensures relay_taken { (file : Option (List ℕ)) → is_file file ≡ true → fault_of commands (codes "relay" ∷ file_words file) ≡ [] }
    ensures relay_asked { (file : Option (List ℕ)) → is_file file ≡ true → asked (codes "relay" ∷ file_words file) ≡ Some (Relay (told_file file)) }
    ensures check_taken { (file : Option (List ℕ)) → is_file file ≡ true → fault_of commands (codes "check" ∷ file_words file) ≡ [] }
    ensures check_asked { (file : Option (List ℕ)) → is_file file ≡ true → asked (codes "check" ∷ file_words file) ≡ Some (Check (told_file file)) }
    ensures load_taken { (file : Option (List ℕ)) (n : List ℕ) → is_file file ≡ true → is_count n ≡ true
        → (fault_of commands (codes "load" ∷ file_words file ++ n ∷ []) ≡ []) × (fault_of commands (codes "load" ∷ n ∷ file_words file) ≡ []) }
    ensures load_asked { (file : Option (List ℕ)) (n : List ℕ) → is_file file ≡ true → is_count n ≡ true
        → (asked (codes "load" ∷ file_words file ++ n ∷ []) ≡ option_map (Load (told_file file)) (number_in n)) × (asked (codes "load" ∷ n ∷ file_words file) ≡ option_map (Load (told_file file)) (number_in n)) }
{}
