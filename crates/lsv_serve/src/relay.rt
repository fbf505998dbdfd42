//! The command `relay`: the complete logs of the store, to another server.

ghost use Rattle.std.specs.Prelude.{◌≡◌, ℕ, Some};
ghost use Rattle.lsv_forward.specs.Run.{TouchesRelays};
ghost use Rattle.lsv_serve.specs.Causes.{HasPlacesAt};
ghost use Rattle.lsv_serve.specs.Relay.{RestsStore, RunsRelay, relay_of, store_fault};

use crate::outside::{Options, Outside, give_places};
use crate::status::Status;
use crate::text::text_of;
use lsv_disk::{Disk, FileId, Owner, Part};
use lsv_forward::{ForwardFault, Gaps, NumbersFault, RelayNotices, forward_logs};
use lsv_keeper::StoreFault;
use lsv_link::Link;
use std::alloc::Global;

/// Sends each complete log of the store that isn't marked as relayed to the server that the settings name, by rising number, each
/// on a connection of its own. Files of relaying alone are changed.
pub fn run_relay<S, K, P, D: Disk, C, G, T, L: Link, N: RelayNotices + Gaps<D>, B>(
    alloc: Global,
    options: &Options,
    out: &mut Outside<S, K, P, D, C, G, T, L, N, B>,
) -> Status
    ensures runs { RunsRelay D.view options.now.upstream (relay_of ⟦<D as Disk>⟧ ⟦<L as Link>⟧ out.old.disk out.old.link) (relay_of ⟦<D as Disk>⟧ ⟦<L as Link>⟧ out.new.disk out.new.link) result }
    ensures rests { D.tells → RestsStore (D.view out.old.disk) (D.view out.new.disk) }
    ensures places { D.tells → HasPlacesAt options.now.logs options.now.events (D.view out.old.disk) (D.view out.new.disk) result }
    ensures read { (line : ℕ) → result ≡ Status.Conf line → ⊥ }
    ensures others { (out.new.source ≡ out.old.source) × (out.new.sink ≡ out.old.sink) × (out.new.ports ≡ out.old.ports) × (out.new.clock ≡ out.old.clock) × (out.new.tape ≡ out.old.tape) × (out.new.texts ≡ out.old.texts) × (out.new.others ≡ out.old.others) × (out.new.bells ≡ out.old.bells) }
{
    let Some(host) = &options.upstream else {
        return Status::NoUpstream;
    };
    give_places(&mut out.disk, options);
    relay_to(
        alloc,
        &mut out.disk,
        &mut out.link,
        text_of(host),
        &mut out.notices,
    )
}

/// Sends the logs of the store, whose places the disk was given, to this host.
fn relay_to<D: Disk, L: Link, N: RelayNotices + Gaps<D>>(
    alloc: Global,
    disk: &mut D,
    link: &mut L,
    host: &str,
    notices: &mut N,
) -> Status
    ensures runs { RunsRelay D.view (Some host.now) (relay_of ⟦<D as Disk>⟧ ⟦<L as Link>⟧ disk.old link.old) (relay_of ⟦<D as Disk>⟧ ⟦<L as Link>⟧ disk.new link.new) result }
    ensures touches { D.tells → TouchesRelays (D.view disk.old) (D.view disk.new) }
    ensures read { (line : ℕ) → result ≡ Status.Conf line → ⊥ }
{
    match forward_logs(alloc, disk, link, host, notices) {
        Ok(0) => Status::Served,
        Ok(left) => Status::Pending(left),
        Err(ForwardFault::Numbers(fault)) => Status::Store(store_fault(fault)),
        Err(ForwardFault::NoMem) => Status::NoMem,
    }
}

/// A fault of the numbers, as one of the store.
fn store_fault(fault: NumbersFault) -> StoreFault
    ensures { result ≡ store_fault fault }
{
    match fault {
        NumbersFault::Disk(lane) => StoreFault::Device(Owner::Numbers(lane)),
        NumbersFault::Damaged(lane) => {
            StoreFault::Damaged(FileId::new(Owner::Numbers(lane), Part::Slots))
        }
    }
}
