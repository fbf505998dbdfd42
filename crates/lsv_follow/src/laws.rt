//! Laws of the definitions that the contracts of this crate cite. They do nothing when they run.
ghost use Rattle.std.specs.Prelude.{◌≡◌, ◌≢◌, ◌++◌, ◌∷◌, [], ℕ, List, Some, None, Result, Ok, Err, map};
ghost use Rattle.lsv_bundle.specs.declared.body.Body.{Body};
ghost use Rattle.lsv_disk.specs.declared.file.Part.{Part};
ghost use Rattle.lsv_disk.specs.View.{Image};
ghost use Rattle.lsv_iolog.specs.Later.{IsLater};
ghost use Rattle.lsv_iolog.specs.Reading.{HasCuts};
ghost use Rattle.lsv_iolog.specs.Recovered.{Replays};
ghost use Rattle.lsv_play.specs.Beside.{IsLookedAt, IsWritten};
ghost use Rattle.lsv_play.specs.declared.options.Options.{Options};
ghost use Rattle.lsv_play.specs.declared.screen.Item.{Item};
ghost use Rattle.lsv_play.specs.Items.{IsPart};
ghost use Rattle.lsv_play.specs.Playing.{AreGiven, Plays, laid_at};
ghost use Rattle.lsv_play.specs.Schedule.{play};
ghost use Rattle.lsv_play.specs.declared.fault.PlayFault.TheVariants as plays;
ghost use Rattle.lsv_record.specs.declared.records.Record.{Record};
ghost use Rattle.lsv_record.specs.Points.{Stored};
ghost use Rattle.lsv_follow.specs.declared.follow.Seen.{Seen};
ghost use Rattle.lsv_follow.specs.declared.follow.Seen.TheVariants as seen;
ghost use Rattle.lsv_follow.specs.declared.end.FollowEnd.{FollowEnd};
ghost use Rattle.lsv_follow.specs.declared.end.FollowEnd.TheVariants as ends;
ghost use Rattle.lsv_follow.specs.Ending.{Follows, FollowsLooks, checked_at, most_quiet, pauses, read_at};
ghost use Rattle.lsv_follow.specs.Followed.{bytes_put, followed, records_of};
ghost use Rattle.lsv_follow.specs.Following.{Finds, HasGiven, given_by};
ghost use Rattle.lsv_follow.specs.Others.{MayBecome, Stands};

use lsv_play::a_log_that_was_not_cut_reads_the_same;

/// The states of a log are in order: each is later than or equal to itself, and a state later than a later one is later.
pub fn later_states_are_ordered()
    ensures same { (log : Stored) → IsLater log log }
    ensures further { (a b c : Stored) → IsLater a b → IsLater b c → IsLater a c }
{}

/// Records that were given of a log are the first of the stored log, and each first part of it may be given. If a look
/// finds no further one, they are all, and the log is complete exactly if the look says so.
pub fn what_was_given_is_the_logs()
    ensures first { (n cuts : ℕ) (image : Image) (records : List Record) (log : Stored) → Replays image n (Some log) → HasGiven n cuts image records → (log.cuts ≡ cuts) × ((more : List Record) × (log.records ≡ records ++ more)) }
    ensures given { (n : ℕ) (image : Image) (records more : List Record) (log : Stored) → Replays image n (Some log) → log.records ≡ records ++ more → HasGiven n log.cuts image records }
    ensures all { (n cuts : ℕ) (image : Image) (records : List Record) (log : Stored) → Replays image n (Some log) → Finds n cuts image records seen.Nothing → (log.records ≡ records) × (log.exit ≡ None) }
    ensures over { (n cuts : ℕ) (image : Image) (records : List Record) (log : Stored) → Replays image n (Some log) → Finds n cuts image records seen.End → (log.records ≡ records) × (log.exit ≢ None) }
{}

/// What others do to a log leaves the records that were given of it, or it was cut, or it is gone. So does what they do
/// while a reader reads: if it finds at a look as many cuts as when it took the last entry, the records that it was
/// given meanwhile are the first of what the log holds at the look. This is said of one look, so it holds of each look
/// of a player, a follower and a sender, also of those that end with a cut.
pub fn what_was_given_stays()
    ensures stands { (n cuts : ℕ) (was now : Image) (records : List Record) → HasGiven n cuts was records → MayBecome n was now → Stands n cuts now records }
    ensures beside { (n : ℕ) (images : ℕ → Image) (logs : ℕ → Stored) (body : Body) (opened looked : ℕ) (records : List Record) → IsWritten n images logs → IsLookedAt n images body opened looked
        → AreGiven (laid_at n body (images opened)) body records → (more : List Record) × ((logs looked).records ≡ records ++ more) }
{
    a_log_that_was_not_cut_reads_the_same();
}

/// What is put for looks is, but for the waits, what is put of the records that they gave in play. If each look gives a
/// record, and the last one the end, it is the playback schedule of these records.
pub fn what_is_put_is_played()
    ensures bytes { (o : Options) (looks : List Seen) → bytes_put (followed o looks) ≡ bytes_put (play o (records_of looks)) }
    ensures played { (o : Options) (records : List Record) → followed o (map (λ r. seen.Record r) records ++ seen.End ∷ []) ≡ play o records }
{}

/// What looks at a log gave is, at the moment of each, a first part of what the log then holds. The last look of a
/// following that ends well finds the log complete, and then all its records were put.
pub fn a_log_that_goes_on_is_followed()
    ensures first { (o : Options) (n : ℕ) (images : ℕ → Image) (saw : List (List Item)) (r : Result (Unit {0}) FollowEnd) (put : List Item) (is : FollowsLooks o n images saw r put) (before after : List Seen) (look : Seen) (log : Stored) → is.looks ≡ before ++ look ∷ after
        → Replays (images (read_at before)) n (Some log) → (log.cuts ≡ is.cuts) × ((more : List Record) × (log.records ≡ (records_of before ++ given_by look) ++ more)) }
    ensures whole { (o : Options) (n : ℕ) (images : ℕ → Image) (saw : List (List Item)) (end : Unit {0}) (put : List Item) (is : FollowsLooks o n images saw (Ok end) put) (log : Stored) → Replays (images (read_at is.ends.0)) n (Some log)
        → (log.exit ≢ None) × (log.records ≡ records_of is.looks) × (bytes_put put ≡ bytes_put (play o log.records)) }
{}

/// A look that finds another count of cuts ends the following so: a log that was cut is reported neither as removed nor
/// as damaged. Each look that was shown read and was checked while the log had as many cuts as at the opening.
pub fn a_look_that_finds_a_cut_ends_it()
    ensures uncut { (o : Options) (n : ℕ) (images : ℕ → Image) (saw : List (List Item)) (r : Result (Unit {0}) FollowEnd) (put : List Item) (is : FollowsLooks o n images saw r put) (before after : List Seen) (look : Seen) → is.looks ≡ before ++ look ∷ after → HasCuts n is.cuts (images (read_at before)) × HasCuts n is.cuts (images (checked_at before)) }
    ensures not_removed { (o : Options) (n cuts now : ℕ) (images : ℕ → Image) (saw : List (List Item)) (put : List Item) (is : FollowsLooks {T = Unit {0}} o n images saw (Err ends.Removed) put) → HasCuts n cuts (images (read_at is.looks)) → HasCuts n now (images (checked_at is.looks)) → ⊥ }
    ensures not_damaged { (o : Options) (n cuts : ℕ) (images : ℕ → Image) (saw : List (List Item)) (put : List Item) (part : Part) (is : FollowsLooks {T = Unit {0}} o n images saw (Err (ends.Fault (plays.Damaged part))) put) → HasCuts n cuts (images (read_at is.looks)) → cuts ≡ is.cuts }
{}

/// If the log stays as it is while it is followed, what is put is a first part of the playback schedule of its records
/// and 36,000 pauses. At the end it is the schedule, and the log is complete; at `Quiet` it is the schedule and the
/// pauses, and the log isn't complete. Such a log is never said to be absent, removed, damaged or cut.
pub fn a_stored_log_is_followed()
    ensures part { (o : Options) (n : ℕ) (images : ℕ → Image) (saw : List (List Item)) (r : Result (Unit {0}) FollowEnd) (put : List Item) (log : Stored) → ((k : ℕ) → Replays (images k) n (Some log)) → Follows o n images saw r put → IsPart put (play o log.records ++ pauses most_quiet) }
    ensures whole { (o : Options) (n : ℕ) (images : ℕ → Image) (saw : List (List Item)) (end : Unit {0}) (put : List Item) (log : Stored) → ((k : ℕ) → Replays (images k) n (Some log)) → Follows o n images saw (Ok end) put → (put ≡ play o log.records) × (log.exit ≢ None) }
    ensures quiet { (o : Options) (n : ℕ) (images : ℕ → Image) (saw : List (List Item)) (put : List Item) (log : Stored) → ((k : ℕ) → Replays (images k) n (Some log)) → Follows {T = Unit {0}} o n images saw (Err ends.Quiet) put
        → (put ≡ play o log.records ++ pauses most_quiet) × (log.exit ≡ None) }
    ensures there { (o : Options) (n : ℕ) (images : ℕ → Image) (saw : List (List Item)) (put : List Item) (log : Stored) → ((k : ℕ) → Replays (images k) n (Some log)) → Follows {T = Unit {0}} o n images saw (Err (ends.Fault plays.Absent)) put → ⊥ }
    ensures not_removed { (o : Options) (n : ℕ) (images : ℕ → Image) (saw : List (List Item)) (put : List Item) (log : Stored) → ((k : ℕ) → Replays (images k) n (Some log)) → Follows {T = Unit {0}} o n images saw (Err ends.Removed) put → ⊥ }
    ensures undamaged { (o : Options) (n : ℕ) (images : ℕ → Image) (saw : List (List Item)) (put : List Item) (log : Stored) (part : Part) → ((k : ℕ) → Replays (images k) n (Some log)) → Follows {T = Unit {0}} o n images saw (Err (ends.Fault (plays.Damaged part))) put → ⊥ }
    ensures uncut { (o : Options) (n seen now : ℕ) (images : ℕ → Image) (saw : List (List Item)) (put : List Item) (log : Stored) → ((k : ℕ) → Replays (images k) n (Some log)) → Follows {T = Unit {0}} o n images saw (Err (ends.Resumed seen now)) put → ⊥ }
{}

/// If a log that stays as it is is reported as damaged, what is put of it is what is played of it, with the same part at
/// fault.
pub fn a_damaged_log_is_followed_as_it_is_played()
    ensures played { (o : Options) (n : ℕ) (image : Image) (saw : List (List Item)) (put : List Item) (part : Part) → Follows {T = Unit {0}} o n (λ k. image) saw (Err (ends.Fault (plays.Damaged part))) put → Plays {T = Unit {0}} o n image (Err (plays.Damaged part)) put }
{}
