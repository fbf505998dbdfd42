//! Laws of masking over whole lists of records. They do nothing when they run.

ghost use Rattle.std.specs.Prelude.{◌≡◌, ◌≢◌, ◌↔◌, ℕ, List, [], ◌∷◌, ◌++◌, take, map, All, Contains, false, IsTrue};
ghost use Rattle.lsv_mask.specs.Masking.{covered, hot, hot_with, mask, prompted, tail};
ghost use Rattle.lsv_record.specs.Records.{IsValid, delay_of, shape_of, stream_of};
ghost use Rattle.lsv_record.specs.declared.records.Record.{Record};
ghost use Rattle.lsv_record.specs.declared.records.Stream.{Stream};
ghost use Rattle.lsv_record.specs.declared.records.Stream.TheVariants.{Ttyin};

/// No password is awaited before the first record, and after one more it is awaited as `hot_with` says. Prompted is
/// what has one of the texts somewhere in it.
pub fn a_password_is_awaited_behind_a_prompt()
    ensures none { (texts : List (List ℕ)) → hot texts [] ≡ false }
    ensures more { (texts : List (List ℕ)) (records : List Record) (r : Record) → hot texts (records ++ r ∷ []) ≡ hot_with texts records (hot texts records) r }
    ensures prompted { (texts : List (List ℕ)) (bytes : List ℕ) →
        IsTrue (prompted texts bytes) ↔ ((text : List ℕ) × Contains texts text × ((before behind : List ℕ) × (bytes ≡ before ++ text ++ behind))) }
{}

/// The masked records are as good for masking what follows as the records themselves.
pub fn masking_keeps_what_it_is_judged_by()
    ensures hot { (texts : List (List ℕ)) (records : List Record) → hot texts (mask texts records) ≡ hot texts records }
    ensures tail { (texts : List (List ℕ)) (records : List Record) → tail (mask texts records) ≡ tail records }
    ensures covered { (texts : List (List ℕ)) (records : List Record) (r : Record) → covered texts (mask texts records) r ≡ covered texts records r }
{}

/// A prefix of the records is masked as it is among them all: each record by those before it alone.
pub fn a_prefix_is_masked_by_itself()
    ensures prefix { (texts : List (List ℕ)) (records : List Record) (n : ℕ) → mask texts (take n records) ≡ take n (mask texts records) }
    ensures more { (texts : List (List ℕ)) (records : List Record) (r : Record) → mask texts (records ++ r ∷ []) ≡ mask texts records ++ covered texts records r ∷ [] }
{}

/// What is masked already stays as it is.
pub fn a_second_mask_changes_nothing()
    ensures { (texts : List (List ℕ)) (records : List Record) → mask texts (mask texts records) ≡ mask texts records }
{}

/// Masking changes no line of timing, so no delay and no length, and no data but of `Ttyin`. With no texts it changes
/// nothing.
pub fn masking_keeps_all_but_what_is_typed()
    ensures delays { (texts : List (List ℕ)) (records : List Record) → map delay_of (mask texts records) ≡ map delay_of records }
    ensures shapes { (texts : List (List ℕ)) (records : List Record) → map shape_of (mask texts records) ≡ map shape_of records }
    ensures streams { (texts : List (List ℕ)) (records : List Record) (s : Stream) → s ≢ Ttyin → stream_of s (mask texts records) ≡ stream_of s records }
    ensures valid { (texts : List (List ℕ)) (records : List Record) → All IsValid records → All IsValid (mask texts records) }
    ensures no_texts { (records : List Record) → mask [] records ≡ records }
{}
