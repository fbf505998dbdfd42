//! Laws of the definitions that the contracts of this crate cite. They do nothing when they run.

ghost use Rattle.std.specs.Prelude.{◌≡◌, ◌≢◌, ◌↔◌, ℕ, ◌+◌, ◌^◌, ◌<◌, ◌≤◌, ◌⊎◌, List, [], ◌∷◌, ◌++◌, length, take, drop, map, Bool, All, Some, None, IsTrue};
ghost use Rattle.lsv_defs.specs.Pieces.{IsPrefix};
ghost use Rattle.lsv_record.specs.Layout.{Begins, stream_in, IsLayout, layout_of, IsRead, Fails};
ghost use Rattle.lsv_record.specs.Lines.{IsLineAt, IsBadAt, IsWindow, OneBegins};
ghost use Rattle.lsv_record.specs.Points.{IsFirst, first, kept, cut};
ghost use Rattle.lsv_record.specs.Records.{shaped_line, line_of, shape_of, delay_of, data_in, timing_of, stream_of, elapsed, IsGood, IsValid, IsSignal, is_signal, is_valid};
ghost use Rattle.lsv_record.specs.Tally.{lines_of, told_data, told_elapsed, totals_of, with_line};
ghost use Rattle.lsv_record.specs.declared.laid.Laid.{Laid};
ghost use Rattle.lsv_record.specs.declared.log.LayFault.{LayFault};
ghost use Rattle.lsv_record.specs.declared.records.Record.{Record};
ghost use Rattle.lsv_record.specs.declared.records.Shaped.{Shaped};
ghost use Rattle.lsv_record.specs.declared.records.Stream.{Stream};

/// Reading inverts laying: valid records whose delays stay below 2^63 nanoseconds together are what their layout is
/// read as, and a layout is read as one list of records or has one fault, and not both.
pub fn what_is_laid_is_read_back()
    ensures read { (l : Laid) (records : List Record) → All IsValid records → elapsed records < 2 ^ 63 → IsLayout l records → IsRead l records }
    ensures once { (l : Laid) (records others : List Record) → IsRead l records → IsRead l others → records ≡ others }
    ensures no_fault { (l : Laid) (records : List Record) (fault : LayFault) → IsRead l records → Fails l fault → ⊥ }
    ensures one_fault { (l : Laid) (fault other : LayFault) → Fails l fault → Fails l other → fault ≡ other }
{}

/// At an offset of a text one line stands at most.
pub fn one_line_stands_at_an_offset()
    ensures { (text : List ℕ) (at next other_next : ℕ) (told other : Shaped) →
        IsLineAt text at told next → IsLineAt text at other other_next → (told ≡ other) × (next ≡ other_next) }
{}

/// The layout of records is their texts one by one.
pub fn a_layout_is_its_texts()
    ensures { (l : Laid) (records : List Record) → IsLayout l records ↔ (l ≡ layout_of records) }
{}

/// The first record at a point is the least, a cut there is a prefix that ends there, and none of it changes with
/// the records that follow. It hangs on delays alone. Where there are records, one ends at their elapsed time.
pub fn a_cut_ends_at_the_first_record_of_its_point()
    ensures first { (records : List Record) (point n : ℕ) → (first records point ≡ Some n) ↔ IsFirst records point n }
    ensures none { (records : List Record) (point : ℕ) → first records point ≡ None → (n : ℕ) → 1 ≤ n → n ≤ length records → elapsed (take n records) ≢ point }
    ensures ends { (records : List Record) (point n : ℕ) → first records point ≡ Some n → elapsed (cut records point) ≡ point }
    ensures prefix { (records : List Record) (point : ℕ) → (dropped : List Record) × (records ≡ cut records point ++ dropped) × (length (cut records point) ≡ kept records point) }
    ensures longer { (records more : List Record) (point n : ℕ) → first records point ≡ Some n →
        (first (records ++ more) point ≡ Some n) × (cut (records ++ more) point ≡ cut records point) }
    ensures delays { (records others : List Record) (point : ℕ) → map delay_of records ≡ map delay_of others → first records point ≡ first others point }
    ensures end { (r : Record) (records : List Record) → (n : ℕ) × (first (r ∷ records) (elapsed (r ∷ records)) ≡ Some n) }
{}

/// The tests of a signal's name and of a record tell what is a signal's name and a valid record.
pub fn the_tests_tell_what_is_valid()
    ensures signal { (text : List ℕ) → IsTrue (is_signal text) ↔ IsSignal text }
    ensures valid { (r : Record) → IsTrue (is_valid r) ↔ IsValid r }
{}

/// The layout of a prefix of the records is a prefix of the layout, with the layout of the others after it.
pub fn a_prefix_of_the_records_is_laid_first()
    ensures timing { (records others : List Record) → timing_of (records ++ others) ≡ timing_of records ++ timing_of others }
    ensures streams { (s : Stream) (records others : List Record) → stream_of s (records ++ others) ≡ stream_of s records ++ stream_of s others }
    ensures time { (records others : List Record) → elapsed (records ++ others) ≡ elapsed records + elapsed others }
{}

/// No line of a valid record is longer than 56 bytes, its line feed among them.
pub fn a_line_has_at_most_56_bytes()
    ensures told { (told : Shaped) → IsGood told → length (shaped_line told) ≤ 56 }
    ensures valid { (r : Record) → IsValid r → length (line_of r) ≤ 56 }
{}

/// A layout begins in one way: of two beginnings one begins with the other, and after a beginning stand the line and
/// the data of the next record.
pub fn a_layout_begins_in_one_way()
    ensures once { (l : Laid) (records others : List Record) → Begins l records → Begins l others → OneBegins records others }
    ensures line { (l : Laid) (records : List Record) (r : Record) (more : List Record) → Begins l (records ++ r ∷ more) →
        IsLineAt l.timing (length (timing_of records)) (shape_of r) (length (timing_of records) + length (line_of r)) }
    ensures data_bytes { (l : Laid) (records : List Record) (r : Record) (more : List Record) → Begins l (records ++ r ∷ more) →
        (s : Stream) → take (length (data_in s r)) (drop (length (stream_of s records)) (stream_in s l)) ≡ data_in s r }
{}

/// The same of lines alone: a text begins with lines in one way, after which the next one stands, and where one
/// stands the text begins with it too.
pub fn a_text_begins_with_lines_in_one_way()
    ensures once { (text : List ℕ) (lines others : List Shaped) → All IsGood lines → All IsGood others →
        IsPrefix (lines_of lines) text → IsPrefix (lines_of others) text → OneBegins lines others }
    ensures next { (text : List ℕ) (lines : List Shaped) (told : Shaped) (more : List Shaped) → IsGood told →
        IsPrefix (lines_of (lines ++ told ∷ more)) text → IsLineAt text (length (lines_of lines)) told (length (lines_of (lines ++ told ∷ []))) }
    ensures grows { (text : List ℕ) (lines : List Shaped) (told : Shaped) (next : ℕ) → IsPrefix (lines_of lines) text →
        IsLineAt text (length (lines_of lines)) told next → IsPrefix (lines_of (lines ++ told ∷ [])) text }
{}

/// A line at the start of a window of a text stands in the text. Where none stands there, in a window of at least
/// 56 bytes or the last one, none stands in the text.
pub fn a_line_of_a_window_stands_in_its_text()
    ensures line { (text window : List ℕ) (offset : ℕ) (is_last : Bool) (told : Shaped) (next : ℕ) → IsWindow text offset window is_last →
        IsLineAt window 0 told next → IsLineAt text offset told (offset + next) }
    ensures bad { (text window : List ℕ) (offset : ℕ) (is_last : Bool) → IsWindow text offset window is_last →
        (56 ≤ length window) ⊎ IsTrue is_last → IsBadAt window 0 → IsBadAt text offset }
{}

/// Each line adds to the totals what it tells, and the lines of records come to what the records do.
pub fn totals_add_up()
    ensures more { (lines : List Shaped) (told : Shaped) → totals_of (lines ++ told ∷ []) ≡ with_line (totals_of lines) told }
    ensures timing { (records : List Record) → lines_of (map shape_of records) ≡ timing_of records }
    ensures time { (records : List Record) → told_elapsed (map shape_of records) ≡ elapsed records }
    ensures data_bytes { (s : Stream) (records : List Record) → told_data s (map shape_of records) ≡ length (stream_of s records) }
{}

/// Good lines, and streams as long as they tell, are the layout of one list of valid records.
pub fn lines_and_lengths_tell_one_list_of_records()
    ensures some { (l : Laid) (lines : List Shaped) → All IsGood lines → l.timing ≡ lines_of lines → ((s : Stream) → length (stream_in s l) ≡ told_data s lines) →
        (records : List Record) × IsLayout l records × All IsValid records × (map shape_of records ≡ lines) }
    ensures once { (l : Laid) (records others : List Record) → All IsValid records → All IsValid others → IsLayout l records → IsLayout l others → records ≡ others }
{}
