//! What is known of a store before its first run, and of the words. These functions do nothing when they run.

ghost use Rattle.std.specs.Prelude.{◌≡◌, ◌≤◌, ℕ, List, None};
ghost use Rattle.lsv_args.specs.Commands.{most_lanes, most_workers};
ghost use Rattle.lsv_args.specs.Reading.{Serve};
ghost use Rattle.lsv_args.specs.Reading as told;
ghost use Rattle.lsv_disk.specs.View.{Image, IsCrashImage};
ghost use Rattle.lsv_disk.specs.declared.file.FileId.{FileId};
ghost use Rattle.lsv_lane.specs.Store.{IsFresh};
ghost use Rattle.lsv_serve.specs.Program.{Asks};

use lsv_base::{Bytes, List};
use lsv_disk::Disk;

/// A disk on which a crash leaves no file, as that of an empty store, is one that a run of any lane may begin with.
pub fn an_empty_store_may_be_served<D: Disk>()
    ensures { (d : D) → ((image : Image) → IsCrashImage (D.view d) image → (file : FileId) → image file ≡ None) → (lane lanes : ℕ) → IsFresh lane lanes (D.view d) }
{}

/// Words that ask for `serve` ask for 1 worker at least, and for the most workers that may be asked for at most.
pub fn words_ask_for_few_workers(words: &List<Bytes>)
    ensures { (o : told.Options) → Asks words.now (Serve o) → (1 ≤ o.workers) × (o.workers ≤ most_workers) }
{}

/// Words that ask for `serve` ask for 1 lane at least, and for the most lanes that may be asked for at most.
pub fn words_ask_for_few_lanes(words: &List<Bytes>)
    ensures { (o : told.Options) → Asks words.now (Serve o) → (1 ≤ o.lanes) × (o.lanes ≤ most_lanes) }
{}
