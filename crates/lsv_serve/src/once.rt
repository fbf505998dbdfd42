//! The command `once`: one connection, from a source to a sink.

ghost use Rattle.std.specs.Prelude.{◌≡◌};
ghost use Rattle.lsv_event.specs.declared.event.Kind.TheVariants as kinds;
ghost use Rattle.lsv_lane.specs.Store.{IsFresh};
ghost use Rattle.lsv_once.specs.World.{world_of};
ghost use Rattle.lsv_serve.specs.Causes.{HasPlaces, MayServeAgain};
ghost use Rattle.lsv_serve.specs.Once.{OnceBy, status_of};

use crate::outside::{Kept, Options, Outside, store_of};
use crate::status::Status;
use lsv_base::{Clock, Sink, Source};
use lsv_disk::Disk;
use lsv_event::Kind;
use lsv_hook::{Formatter, LineWriter};
use lsv_lane::Bay;
use lsv_mask::{Prompt, Search};
use lsv_once::{OnceEnd, serve_once};
use lsv_turn::Tape;
use std::alloc::Global;

/// The status by which the program tells the end of a connection's run.
fn status_of(end: OnceEnd) -> Status
    ensures { result ≡ status_of end }
{
    match end {
        OnceEnd::Served => Status::Served,
        OnceEnd::ReadFault => Status::ReadFault,
        OnceEnd::WriteFault => Status::WriteFault,
        OnceEnd::Store(fault) => Status::Store(fault),
        OnceEnd::NoMem => Status::NoMem,
    }
}

/// Gives the disk the places of the store, and serves the connection with event lines of this formatter.
fn serve_by<
    S: Source,
    K: Sink,
    P,
    D: Disk,
    C: Clock,
    G: Tape,
    T,
    L,
    N,
    B,
    F: LineWriter + Drop,
    H: Search + Drop,
>(
    alloc: Global,
    options: Options,
    out: Outside<S, K, P, D, C, G, T, L, N, B>,
    formatter: Formatter<F>,
    prompt: Prompt<H>,
) -> (Outside<S, K, P, D, C, G, T, L, N, B>, Status)
    requires fresh { D.tells → IsFresh 0 1 (D.view out.disk) }
    ensures runs { OnceBy formatter.kind options.log_exit options.prompts
        (world_of ⟦<S as Source>⟧ ⟦<K as Sink>⟧ ⟦<D as Disk>⟧ ⟦<G as Tape>⟧ out.source out.sink out.disk out.tape)
        (world_of ⟦<S as Source>⟧ ⟦<K as Sink>⟧ ⟦<D as Disk>⟧ ⟦<G as Tape>⟧ result.0.source result.0.sink result.0.disk result.0.tape) result.1 }
    ensures places { D.tells → HasPlaces options.logs options.events (D.view result.0.disk) }
    ensures again { D.tells → MayServeAgain (D.view out.disk) (D.view result.0.disk) }
    ensures beside { (result.0.ports ≡ out.ports) × (result.0.texts ≡ out.texts) × (result.0.link ≡ out.link) × (result.0.others ≡ out.others) × (result.0.bells ≡ out.bells) }
{
    let Outside {
        mut source,
        mut sink,
        ports,
        bells,
        disk,
        clock,
        tape,
        others,
        texts,
        link,
        notices,
    } = out;
    let (bay, policy) = store_of(options, Bay { disk, clock, tape }, formatter, prompt);
    let (bay, end) = serve_once(alloc, &mut source, &mut sink, bay, policy);
    let Bay { disk, clock, tape } = bay;
    let out = Outside {
        source,
        sink,
        ports,
        bells,
        disk,
        clock,
        tape,
        others,
        texts,
        link,
        notices,
    };
    (out, status_of(end))
}

/// Serves one connection, from the source to the sink, over the store of lane 0. Its turns are kept on the tape. Nothing else
/// changes the store while it runs.
pub fn run_once<
    S: Source,
    K: Sink,
    P,
    D: Disk,
    C: Clock,
    G: Tape,
    T,
    L,
    N,
    B,
    F: LineWriter + Drop,
    J: LineWriter + Drop,
    H: Search + Drop,
>(
    alloc: Global,
    options: Options,
    out: Outside<S, K, P, D, C, G, T, L, N, B>,
    kept: Kept<F, J, H>,
) -> (Outside<S, K, P, D, C, G, T, L, N, B>, Status)
    requires sudo { kept.sudo.kind ≡ kinds.Sudo }
    requires json { kept.json.kind ≡ kinds.Json }
    requires fresh { D.tells → IsFresh 0 1 (D.view out.disk) }
    ensures runs { OnceBy options.form options.log_exit options.prompts
        (world_of ⟦<S as Source>⟧ ⟦<K as Sink>⟧ ⟦<D as Disk>⟧ ⟦<G as Tape>⟧ out.source out.sink out.disk out.tape)
        (world_of ⟦<S as Source>⟧ ⟦<K as Sink>⟧ ⟦<D as Disk>⟧ ⟦<G as Tape>⟧ result.0.source result.0.sink result.0.disk result.0.tape) result.1 }
    ensures places { D.tells → HasPlaces options.logs options.events (D.view result.0.disk) }
    ensures again { D.tells → MayServeAgain (D.view out.disk) (D.view result.0.disk) }
    ensures beside { (result.0.ports ≡ out.ports) × (result.0.texts ≡ out.texts) × (result.0.link ≡ out.link) × (result.0.others ≡ out.others) × (result.0.bells ≡ out.bells) }
{
    match options.form {
        Kind::Sudo => serve_by(alloc, options, out, kept.sudo, kept.prompt),
        Kind::Json => serve_by(alloc, options, out, kept.json, kept.prompt),
    }
}
