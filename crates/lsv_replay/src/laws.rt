//! Laws of the definitions that the contracts of this crate cite. They do nothing when they run.
ghost use Rattle.std.specs.Prelude.{◌≡◌, ◌≢◌, ◌⊎◌, ◌++◌, ℕ, List, [], Option, Some, None, Ok, length};
ghost use Rattle.lsv_disk.specs.declared.file.Part.{Part};
ghost use Rattle.lsv_disk.specs.View.{Image};
ghost use Rattle.lsv_follow.specs.Ending.{most_quiet, pauses};
ghost use Rattle.lsv_info.specs.declared.times.Head.{Head};
ghost use Rattle.lsv_info.specs.Reading.{head_of};
ghost use Rattle.lsv_iolog.specs.Recovered.{Replays};
ghost use Rattle.lsv_play.specs.declared.options.Options.{Options};
ghost use Rattle.lsv_play.specs.declared.screen.Item.{Item};
ghost use Rattle.lsv_play.specs.Items.{IsPart};
ghost use Rattle.lsv_play.specs.Schedule.{play};
ghost use Rattle.lsv_record.specs.Points.{Stored};
ghost use Rattle.lsv_replay_args.specs.Asked.{manner_in};
ghost use Rattle.lsv_replay_args.specs.Request.{Manner};
ghost use Rattle.lsv_search.specs.Grammar.{Expression};
ghost use Rattle.lsv_replay.specs.Held.{AreHeld, listing_held};
ghost use Rattle.lsv_replay.specs.Listing.{Found, IsFound, ListsAll, ListsSome, Nowhere, There};
ghost use Rattle.lsv_replay.specs.Numbers.{last_number};
ghost use Rattle.lsv_replay.specs.Replay.{Answers, AsksForLog, AsksToFollowLog};
ghost use Rattle.lsv_replay.specs.declared.status.ReplayStatus.{ReplayStatus};
ghost use Rattle.lsv_replay.specs.declared.status.ReplayStatus.TheVariants as statuses;

/// If the words ask for a log that the disk holds, nothing or a first part of the playback schedule of its records is
/// shown, and at `Shown` all of it. Such a log is never reported absent or damaged, nor resumed while nobody writes it.
pub fn a_stored_log_is_shown()
    ensures part { (words : List (List ℕ)) (n : ℕ) (manner : Manner) (images : ℕ → Image) (saw : List (List Item)) (status : ReplayStatus) (put : List Item) (log : Stored) → AsksForLog words n manner → Replays (images 0) n (Some log) → Answers words images saw status put
        → (put ≡ []) ⊎ ((o : Options) × (manner_in o ≡ manner) × IsPart put (play o log.records)) }
    ensures whole { (words : List (List ℕ)) (n : ℕ) (manner : Manner) (images : ℕ → Image) (saw : List (List Item)) (put : List Item) (log : Stored) → AsksForLog words n manner → Replays (images 0) n (Some log) → Answers words images saw statuses.Shown put
        → (o : Options) × (manner_in o ≡ manner) × (put ≡ play o log.records) }
    ensures there { (words : List (List ℕ)) (n : ℕ) (manner : Manner) (images : ℕ → Image) (saw : List (List Item)) (put : List Item) (log : Stored) → AsksForLog words n manner → Replays (images 0) n (Some log) → Answers words images saw statuses.Absent put → ⊥ }
    ensures undamaged { (words : List (List ℕ)) (n : ℕ) (manner : Manner) (images : ℕ → Image) (saw : List (List Item)) (put : List Item) (log : Stored) (part : Part) → AsksForLog words n manner → Replays (images 0) n (Some log)
        → Answers words images saw (statuses.Damaged part) put → ⊥ }
    ensures uncut { (words : List (List ℕ)) (n : ℕ) (manner : Manner) (images : ℕ → Image) (saw : List (List Item)) (put : List Item) → AsksForLog words n manner → Answers words images saw statuses.Resumed put → ⊥ }
{}

/// If the words ask to follow a log that the disk holds and nobody writes, nothing is shown, or a first part of the
/// playback schedule of its records and 36,000 pauses of 100 ms. At `Shown` the schedule is shown, and the log is
/// complete. At `Quiet` the schedule and the pauses are shown, and the log isn't complete. Such a log is never reported
/// absent, removed, damaged or resumed.
pub fn a_followed_log_is_shown()
    ensures part { (words : List (List ℕ)) (n : ℕ) (manner : Manner) (images : ℕ → Image) (saw : List (List Item)) (status : ReplayStatus) (put : List Item) (log : Stored) → AsksToFollowLog words n manner → ((k : ℕ) → Replays (images k) n (Some log)) → Answers words images saw status put
        → (put ≡ []) ⊎ ((o : Options) × (manner_in o ≡ manner) × IsPart put (play o log.records ++ pauses most_quiet)) }
    ensures whole { (words : List (List ℕ)) (n : ℕ) (manner : Manner) (images : ℕ → Image) (saw : List (List Item)) (put : List Item) (log : Stored) → AsksToFollowLog words n manner → ((k : ℕ) → Replays (images k) n (Some log)) → Answers words images saw statuses.Shown put
        → (o : Options) × (manner_in o ≡ manner) × (put ≡ play o log.records) × (log.exit ≢ None) }
    ensures quiet { (words : List (List ℕ)) (n : ℕ) (manner : Manner) (images : ℕ → Image) (saw : List (List Item)) (put : List Item) (log : Stored) → AsksToFollowLog words n manner → ((k : ℕ) → Replays (images k) n (Some log)) → Answers words images saw statuses.Quiet put
        → (o : Options) × (manner_in o ≡ manner) × (put ≡ play o log.records ++ pauses most_quiet) × (log.exit ≡ None) }
    ensures there { (words : List (List ℕ)) (n : ℕ) (manner : Manner) (images : ℕ → Image) (saw : List (List Item)) (put : List Item) (log : Stored) → AsksToFollowLog words n manner → ((k : ℕ) → Replays (images k) n (Some log)) → Answers words images saw statuses.Absent put → ⊥ }
    ensures undamaged { (words : List (List ℕ)) (n : ℕ) (manner : Manner) (images : ℕ → Image) (saw : List (List Item)) (put : List Item) (log : Stored) (part : Part) → AsksToFollowLog words n manner → ((k : ℕ) → Replays (images k) n (Some log))
        → Answers words images saw (statuses.Damaged part) put → ⊥ }
    ensures kept { (words : List (List ℕ)) (n : ℕ) (manner : Manner) (images : ℕ → Image) (saw : List (List Item)) (put : List Item) (log : Stored) → AsksToFollowLog words n manner → ((k : ℕ) → Replays (images k) n (Some log)) → Answers words images saw statuses.Removed put → ⊥ }
    ensures uncut { (words : List (List ℕ)) (n : ℕ) (manner : Manner) (images : ℕ → Image) (saw : List (List Item)) (put : List Item) (log : Stored) → AsksToFollowLog words n manner → ((k : ℕ) → Replays (images k) n (Some log)) → Answers words images saw statuses.Resumed put → ⊥ }
{}

/// If the disk holds a log, exactly its head is found. If the log is absent, nothing is found.
pub fn a_stored_log_is_found()
    ensures stored { (image : Image) (n : ℕ) (log : Stored) (found : Found) → Replays image n (Some log) → IsFound image n found → (head : Head) × (head_of log.head ≡ Ok head) × (found ≡ There head) }
    ensures absent { (image : Image) (n : ℕ) (found : Found) → Replays image n None → IsFound image n found → found ≡ Nowhere }
{}

/// If no log is damaged, the listing of the logs that the disk holds is shown, or at a fault a first part of it.
pub fn stored_logs_are_listed()
    ensures whole { (searched : Option Expression) (image : Image) (logs : List (Option Stored)) (put : List Item) (damage : Option Part) → AreHeld image logs → last_number image ≡ Some (length logs)
        → ListsAll searched image put damage → (put ≡ listing_held searched logs) × (damage ≡ None) }
    ensures part { (searched : Option Expression) (image : Image) (logs : List (Option Stored)) (put : List Item) → AreHeld image logs → last_number image ≡ Some (length logs)
        → ListsSome searched image put → IsPart put (listing_held searched logs) }
{}
