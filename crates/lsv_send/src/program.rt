//! The program after its name.
ghost use Rattle.std.specs.Prelude.{◌≡◌, ◌⊎◌, ◌++◌, ℕ, List, [], Some, None, Err, IfOk};
ghost use Rattle.std.specs.List.{list_all};
ghost use Rattle.std.specs.Str.{is_utf8};
ghost use Rattle.lsv_base.specs.LogNo.{log_no_in};
ghost use Rattle.lsv_base.specs.Outside.{HasCause};
ghost use Rattle.lsv_dialogue.specs.declared.ends.TalkFault.TheVariants as talks;
ghost use Rattle.lsv_disk.specs.Throughout.{OnlyReads};
ghost use Rattle.lsv_disk.specs.View.{HasOwnCause};
ghost use Rattle.lsv_iolog.specs.declared.fault.LogFault.TheVariants as logs;
ghost use Rattle.lsv_iolog.specs.declared.fault.ViewFault.TheVariants as views;
ghost use Rattle.lsv_send_args.specs.Asked.{asked_in};
ghost use Rattle.lsv_send_args.specs.Request.{Asked};
ghost use Rattle.lsv_send_args.specs.declared.fault.Unfit.{Unfit};
ghost use Rattle.lsv_send_args.specs.declared.fault.WordsFault.TheVariants as faults;
ghost use Rattle.lsv_send.specs.Disk.{IsOfSomeLog, IsOnlyRead};
ghost use Rattle.lsv_send.specs.Handing.{Source};
ghost use Rattle.lsv_send.specs.Ready.{IsReady, IsReadyOver};
ghost use Rattle.lsv_send.specs.Sending.{Runs, SendsNumber, Talked};
ghost use Rattle.lsv_send.specs.Status.{HasLinkCause, of_talk};
ghost use Rattle.lsv_send.specs.Words.{Asks, IsUsage};
ghost use Rattle.lsv_send.specs.declared.fault.SendFault.TheVariants as stops;
ghost use Rattle.lsv_send.specs.declared.status.SendStatus.TheVariants as statuses;

use crate::SendStatus;
use crate::fault::SendFault;
use crate::open::open;
use crate::sender::Sender;
use crate::world::World;
use lsv_base::{Bytes, List, LogNo, Sink};
use lsv_dialogue::{End, TalkFault, run};
use lsv_disk::Disk;
use lsv_iolog::LogFault;
use lsv_link::Link;
use lsv_send_args::{Request, WordsFault, read_request};
use std::alloc::Global;
use std::str;

/// `sudo_sendlog`, after its name: it sends a stored log to a server, and prints a line for each identifier and commit
/// point that the server sends. The link is asked for `HOST:PORT`, and the disk for the folder of `-d`. Nothing is
/// written to the store. `SendStatus` says when each status comes, and sudo_sendlog(8) what each word asks for.
pub fn sudo_sendlog<D: Disk, L: Link, K: Sink>(
    alloc: Global,
    words: &List<Bytes>,
    disk: &mut D,
    link: &mut L,
    sink: &mut K,
) -> SendStatus
    ensures runs { D.tells → L.tells → K.tells → (printed : List ℕ) × (K.put sink.new ≡ K.put sink.old ++ printed)
        × Runs L.tells words.now (D.view disk.old).reads result (record { old = L.state link.old; new = L.state link.new; before = L.counts link.old; after = L.counts link.new; printed = printed }) }
    ensures usage { result ≡ statuses.Usage → IsUsage words.now }
    ensures reads { D.tells → IsOnlyRead (D.view disk.old) (D.view disk.new) }
    ensures disk { HasOwnCause IsOfSomeLog (result ≡ statuses.Log logs.Disk) (D.view disk.old) (D.view disk.new) }
    ensures sink { HasCause (result ≡ statuses.WriteFault) (K.faults sink.old) (K.faults sink.new) }
    ensures link { HasLinkCause result (L.counts link.old) (L.counts link.new) }
    ensures places { D.tells → (asked : Asked) → Asks words.now asked → (result ≡ statuses.NoMem)
        ⊎ ((D.view disk.new).places ≡ Some (record { logs = asked.dir; events = [] })) ⊎ ((D.view disk.new).places ≡ None) }
{
    let request = match request_of(alloc, words) {
        Ok(request) => request,
        Err(WordsFault::Refused) => return SendStatus::Usage,
        Err(WordsFault::Unfit(_)) => return SendStatus::Usage,
        Err(WordsFault::NoMem) => return SendStatus::NoMem,
    };
    disk.root(request.dir.as_str(), "");
    send_log(alloc, &request, disk, link, sink)
}

/// What the words ask for. A word that isn't UTF-8 is no word of the program's.
pub fn request_of(alloc: Global, words: &List<Bytes>) -> Result<Request, WordsFault>
    ensures ok { IfOk result (λ r. Asks words.now (asked_in r)) }
    ensures usage { (result ≡ Err faults.Refused) ⊎ ((unfit : Unfit) × (result ≡ Err (faults.Unfit unfit))) → IsUsage words.now }
{
    if !are_text(words.as_slice()) {
        return Err(WordsFault::Refused);
    }
    read_request(alloc, words)
}

/// Whether each word is UTF-8.
fn are_text(words: &[Bytes]) -> bool
    ensures { result ≡ list_all is_utf8 words.now }
{
    words.iter().all(|word| is_text(word.as_slice()))
}

fn is_text(word: &[u8]) -> bool
    ensures { result ≡ is_utf8 word.now }
{
    let Ok(_) = str::from_utf8(word) else {
        return false;
    };
    true
}

/// Opens the log that is asked for, and sends it.
fn send_log<D: Disk, L: Link, K: Sink>(
    alloc: Global,
    request: &Request,
    disk: &mut D,
    link: &mut L,
    sink: &mut K,
) -> SendStatus
    ensures sends { D.tells → L.tells → K.tells → (printed : List ℕ) × (K.put sink.new ≡ K.put sink.old ++ printed)
        × SendsNumber L.tells (log_no_in request.now.number) (asked_in request.now) (D.view disk.old).reads result (record { old = L.state link.old; new = L.state link.new; before = L.counts link.old; after = L.counts link.new; printed = printed }) }
    ensures usage { result ≡ statuses.Usage → ⊥ }
    ensures reads { D.tells → OnlyReads (D.view disk.old) (D.view disk.new) }
    ensures disk { HasOwnCause IsOfSomeLog (result ≡ statuses.Log logs.Disk) (D.view disk.old) (D.view disk.new) }
    ensures sink { HasCause (result ≡ statuses.WriteFault) (K.faults sink.old) (K.faults sink.new) }
    ensures link { HasLinkCause result (L.counts link.old) (L.counts link.new) }
{
    let Some(number) = LogNo::read(request.number.as_slice()) else {
        return SendStatus::Log(LogFault::Absent);
    };
    let mut sender = match open(alloc, disk, number, &request.what) {
        Ok(sender) => sender,
        Err(fault) => return SendStatus::of_log(fault),
    };
    SendStatus::of_talk(talk(
        alloc,
        &mut sender,
        disk,
        link,
        sink,
        request.server.as_str(),
    ))
}

/// Connects to the server, and hands the log out.
fn talk<D: Disk, L: Link, K: Sink>(
    alloc: Global,
    sender: &mut Sender,
    disk: &mut D,
    link: &mut L,
    sink: &mut K,
    server: &str,
) -> Result<End, TalkFault<SendFault>>
    requires begun { IsReady D.tells sender.old (D.view disk.old) }
    ensures talked { D.tells → L.tells → K.tells → (source : Source) → IsReadyOver source sender.old (D.view disk.old) → (printed : List ℕ) × (K.put sink.new ≡ K.put sink.old ++ printed)
        × Talked L.tells source (D.view disk.old).reads server.now result (record { old = L.state link.old; new = L.state link.new; before = L.counts link.old; after = L.counts link.new; printed = printed }) }
    ensures reads { D.tells → OnlyReads (D.view disk.old) (D.view disk.new) }
    ensures disk { HasOwnCause IsOfSomeLog (result ≡ Err (talks.Speaker (stops.Log views.Disk))) (D.view disk.old) (D.view disk.new) }
    ensures sink { HasCause (result ≡ Err (talks.Speaker stops.Sink)) (K.faults sink.old) (K.faults sink.new) }
    ensures link { HasLinkCause (of_talk result) (L.counts link.old) (L.counts link.new) }
{
    let mut world = World { disk, sink };
    let ended = talk_in(alloc, sender, &mut world, link, server);
    let World { disk: _, sink: _ } = world;
    ended
}

/// Does so with a world of the disk and the sink, which stay those of the world.
fn talk_in<'a, D: Disk, L: Link, K: Sink>(
    alloc: Global,
    sender: &mut Sender,
    world: &mut World<'a, D, K>,
    link: &mut L,
    server: &str,
) -> Result<End, TalkFault<SendFault>>
    requires begun { IsReady D.tells sender.old (D.view world.old.disk.now) }
    ensures talked { D.tells → L.tells → K.tells → (source : Source) → IsReadyOver source sender.old (D.view world.old.disk.now) → (printed : List ℕ) × (K.put world.new.sink.now ≡ K.put world.old.sink.now ++ printed)
        × Talked L.tells source (D.view world.old.disk.now).reads server.now result (record { old = L.state link.old; new = L.state link.new; before = L.counts link.old; after = L.counts link.new; printed = printed }) }
    ensures same { (world.new.disk.ghost_name ≡ world.old.disk.ghost_name) × (world.new.sink.ghost_name ≡ world.old.sink.ghost_name) }
    ensures reads { D.tells → OnlyReads (D.view world.old.disk.now) (D.view world.new.disk.now) }
    ensures disk { HasOwnCause IsOfSomeLog (result ≡ Err (talks.Speaker (stops.Log views.Disk))) (D.view world.old.disk.now) (D.view world.new.disk.now) }
    ensures sink { HasCause (result ≡ Err (talks.Speaker stops.Sink)) (K.faults world.old.sink.now) (K.faults world.new.sink.now) }
    ensures link { HasLinkCause (of_talk result) (L.counts link.old) (L.counts link.new) }
{
    run(alloc, sender, world, link, server)
}
