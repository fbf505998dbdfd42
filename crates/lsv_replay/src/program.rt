//! The program after its name.
ghost use Rattle.std.specs.Prelude.{◌≡◌, ◌⊎◌, ◌++◌, List, Some, None, [], IsTrue, IfOk, Err};
ghost use Rattle.std.specs.List.{list_all};
ghost use Rattle.std.specs.Str.{is_utf8};
ghost use Rattle.lsv_args.specs.declared.command.ArgFault.TheVariants as faults;
ghost use Rattle.lsv_base.specs.LogNo.{log_no_in};
ghost use Rattle.lsv_base.specs.Outside.{HasCause};
ghost use Rattle.lsv_disk.specs.Throughout.{OnlyReads};
ghost use Rattle.lsv_disk.specs.View.{HasOwnCause};
ghost use Rattle.lsv_replay.specs.Numbers.{IsListed};
ghost use Rattle.lsv_play.specs.declared.screen.Item.{Item};
ghost use Rattle.lsv_replay_args.specs.Asked.{IsTextual, asked_in, manner_in, task_in};
ghost use Rattle.lsv_replay_args.specs.Request.{Asked, Follow, Play, Search, dir_asked};
ghost use Rattle.lsv_follow.specs.Followed.{seen_from};
ghost use Rattle.lsv_follow.specs.Others.{IsReadBeside};
ghost use Rattle.lsv_replay.specs.Replay.{Answers, Asks, AsksToFollow, Does, FollowsNumber, HasWords, IsOnlyRead, IsOnlyReadBeside, IsUsage, ListsWords, PlaysNumber};
ghost use Rattle.lsv_replay.specs.Tasks.{IsOfTask, IsToFollow};
ghost use Rattle.lsv_replay.specs.declared.status.ReplayStatus.TheVariants as statuses;

use crate::{Gaps, ReplayStatus, list_logs};
use lsv_base::{Bytes, List, LogNo};
use lsv_disk::Disk;
use lsv_follow::{Others, follow_log};
use lsv_play::{Options, Screen, play_log};
use lsv_replay_args::{ArgFault, Request, Task, read_request};
use lsv_search::{ExprFault, read_expr};
use std::alloc::Global;
use std::str;

/// `sudoreplay`, with the words after its name: it plays a log, with `-F` follows it while it is written, or with `-l`
/// lists the logs that are searched for. Nothing is written to the store. What others do to a log that is followed, and
/// which numbers have no log, is known by two objects of the outside.
pub fn sudoreplay<D: Disk, S: Screen, O: Others<D>, G: Gaps<D>>(
    alloc: Global,
    words: &List<Bytes>,
    disk: &mut D,
    screen: &mut S,
    others: &mut O,
    gaps: &mut G,
) -> ReplayStatus
    ensures runs { D.tells → (put : List Item) × (saw : List (List Item)) × (S.tells → S.shown screen.new ≡ S.shown screen.old ++ put)
        × (O.notes → S.tells → O.noted others.new ≡ O.noted others.old ++ seen_from (S.shown screen.old) saw) × Answers words.now (O.later others.old (D.view disk.old).reads) saw result put }
    ensures words { HasWords words.now result }
    ensures reads { D.tells → (AsksToFollow words.now → ⊥) → IsOnlyRead (D.view disk.old) (D.view disk.new) }
    ensures beside { D.tells → IsOnlyReadBeside (O.later others.old (D.view disk.old).reads) (D.view disk.old) (D.view disk.new) }
    ensures disk { HasOwnCause IsListed (result ≡ statuses.ReadFault) (D.view disk.old) (D.view disk.new) }
    ensures screen { HasCause (result ≡ statuses.WriteFault) (S.faults screen.old) (S.faults screen.new) }
    ensures places { D.tells → (asked : Asked) → Asks words.now asked → (result ≡ statuses.NoMem)
        ⊎ ((D.view disk.new).places ≡ Some (record { logs = dir_asked asked; events = [] })) ⊎ ((D.view disk.new).places ≡ None) }
{
    let request = match request_of(alloc, words) {
        Ok(request) => request,
        Err(ArgFault::Usage) => return ReplayStatus::Usage,
        Err(ArgFault::NoMem) => return ReplayStatus::NoMem,
    };
    disk.root(request.dir.as_str(), "");
    do_task(alloc, &request.task, disk, screen, others, gaps)
}

/// What the words ask for. A word that isn't UTF-8 is no word of the program's.
pub fn request_of(alloc: Global, words: &List<Bytes>) -> Result<Request, ArgFault>
    ensures ok { IfOk result (λ r. Asks words.now (asked_in r)) }
    ensures text { IfOk result (λ r. IsTextual r.task) }
    ensures usage { result ≡ Err faults.Usage → IsUsage words.now }
{
    if !are_text(words.as_slice()) {
        return Err(ArgFault::Usage);
    }
    read_request(alloc, words)
}

/// Whether each word is UTF-8.
pub fn are_text(words: &[Bytes]) -> bool
    ensures { result ≡ list_all is_utf8 words.now }
{
    words.iter().all(|word| is_text(word.as_slice()))
}

fn is_text(word: &[u8]) -> bool
    ensures { result ≡ is_utf8 word.now }
{
    let Ok(_) = str::from_utf8(word) else {
        return false;
    };
    true
}

/// Plays or follows the log, or lists the logs.
fn do_task<D: Disk, S: Screen, O: Others<D>, G: Gaps<D>>(
    alloc: Global,
    task: &Task,
    disk: &mut D,
    screen: &mut S,
    others: &mut O,
    gaps: &mut G,
) -> ReplayStatus
    requires text { IsTextual task.now }
    ensures status { IsOfTask (task_in [] task.now) result }
    ensures does { D.tells → (put : List Item) × (saw : List (List Item)) × (S.tells → S.shown screen.new ≡ S.shown screen.old ++ put)
        × (O.notes → S.tells → O.noted others.new ≡ O.noted others.old ++ seen_from (S.shown screen.old) saw) × Does (task_in [] task.now) (O.later others.old (D.view disk.old).reads) saw result put }
    ensures reads { D.tells → (IsToFollow (task_in [] task.now) → ⊥) → OnlyReads (D.view disk.old) (D.view disk.new) }
    ensures beside { D.tells → IsReadBeside (O.later others.old (D.view disk.old).reads) (D.view disk.old) (D.view disk.new) }
    ensures disk { HasOwnCause IsListed (result ≡ statuses.ReadFault) (D.view disk.old) (D.view disk.new) }
    ensures screen { HasCause (result ≡ statuses.WriteFault) (S.faults screen.old) (S.faults screen.new) }
{
    match task {
        Task::Play(options, id) => play_id(alloc, options, id, disk, screen),
        Task::Follow(options, id) => follow_id(alloc, options, id, disk, screen, others),
        Task::List(words) => list_searched(alloc, words, disk, screen, gaps),
    }
}

/// Plays the log with this identifier.
fn play_id<D: Disk, S: Screen>(
    alloc: Global,
    options: &Options,
    id: &Bytes,
    disk: &mut D,
    screen: &mut S,
) -> ReplayStatus
    ensures status { IsOfTask (Play [] (manner_in options.now) id.now) result }
    ensures plays { D.tells → (put : List Item) × (S.tells → S.shown screen.new ≡ S.shown screen.old ++ put) × PlaysNumber (manner_in options.now) (log_no_in id.now) (D.view disk.old).reads result put }
    ensures reads { D.tells → OnlyReads (D.view disk.old) (D.view disk.new) }
    ensures disk { HasOwnCause IsListed (result ≡ statuses.ReadFault) (D.view disk.old) (D.view disk.new) }
    ensures screen { HasCause (result ≡ statuses.WriteFault) (S.faults screen.old) (S.faults screen.new) }
{
    let Some(number) = LogNo::read(id.as_slice()) else {
        return ReplayStatus::Absent;
    };
    ReplayStatus::of_playing(play_log(alloc, disk, number, options, screen))
}

/// Follows the log with this identifier.
fn follow_id<D: Disk, S: Screen, O: Others<D>>(
    alloc: Global,
    options: &Options,
    id: &Bytes,
    disk: &mut D,
    screen: &mut S,
    others: &mut O,
) -> ReplayStatus
    ensures status { IsOfTask (Follow [] (manner_in options.now) id.now) result }
    ensures follows { D.tells → (put : List Item) × (saw : List (List Item)) × (S.tells → S.shown screen.new ≡ S.shown screen.old ++ put)
        × (O.notes → S.tells → O.noted others.new ≡ O.noted others.old ++ seen_from (S.shown screen.old) saw) × FollowsNumber (manner_in options.now) (log_no_in id.now) (O.later others.old (D.view disk.old).reads) saw result put }
    ensures beside { D.tells → IsReadBeside (O.later others.old (D.view disk.old).reads) (D.view disk.old) (D.view disk.new) }
    ensures disk { HasOwnCause IsListed (result ≡ statuses.ReadFault) (D.view disk.old) (D.view disk.new) }
    ensures screen { HasCause (result ≡ statuses.WriteFault) (S.faults screen.old) (S.faults screen.new) }
{
    match LogNo::read(id.as_slice()) {
        Some(number) => {
            let answer = follow_log(alloc, disk, number, options, screen, others);
            ReplayStatus::of_following(answer)
        }
        None => ReplayStatus::Absent,
    }
}

/// Lists the logs that these words search for.
fn list_searched<D: Disk, S: Screen, G: Gaps<D>>(
    alloc: Global,
    words: &List<Bytes>,
    disk: &mut D,
    screen: &mut S,
    gaps: &mut G,
) -> ReplayStatus
    requires text { IsTrue (list_all is_utf8 words.now) }
    ensures status { IsOfTask (Search [] words.now) result }
    ensures lists { D.tells → (put : List Item) × (S.tells → S.shown screen.new ≡ S.shown screen.old ++ put) × ListsWords words.now (D.view disk.old).reads result put }
    ensures reads { D.tells → OnlyReads (D.view disk.old) (D.view disk.new) }
    ensures disk { HasOwnCause IsListed (result ≡ statuses.ReadFault) (D.view disk.old) (D.view disk.new) }
    ensures screen { HasCause (result ≡ statuses.WriteFault) (S.faults screen.old) (S.faults screen.new) }
{
    let e = match read_expr(alloc, words) {
        Ok(e) => e,
        Err(ExprFault::BadExpression(at)) => return ReplayStatus::BadExpression(at),
        Err(ExprFault::NoMem) => return ReplayStatus::NoMem,
    };
    ReplayStatus::of_listing(list_logs(alloc, disk, &e, screen, gaps))
}
