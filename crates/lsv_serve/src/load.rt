//! The command `load`: the generated conversations, over the store of one lane.

ghost use Rattle.std.specs.Prelude.{◌≡◌, ◌≤◌, ℕ};
ghost use Rattle.lsv_event.specs.declared.event.Kind.TheVariants as kinds;
ghost use Rattle.lsv_lane.specs.Store.{IsFresh};
ghost use Rattle.lsv_serve.specs.Causes.{HasPlaces, MayServeAgain};
ghost use Rattle.lsv_serve.specs.Load.{LoadsBy, TellsLoad};
ghost use Rattle.lsv_once.specs.Once.{once_settings};
ghost use Rattle.lsv_once.specs.World.{world_of};

use crate::outside::{Kept, Options, Outside, store_of};
use crate::status::Status;
use lsv_base::{Clock, Sink, Source};
use lsv_disk::Disk;
use lsv_event::Kind;
use lsv_hook::{Formatter, LineWriter};
use lsv_lane::Bay;
use lsv_load::{LoadEnd, a_load_sums_up_all_its_conversations, run_load};
use lsv_mask::{Prompt, Search};
use lsv_turn::Tape;
use std::alloc::Global;

/// Puts the summary of a load, and says how the run ended.
fn tell_load<K: Sink>(sink: &mut K, end: LoadEnd) -> Status
    ensures { TellsLoad K.tells (K.put sink.old) (K.put sink.new) (K.faults sink.old) (K.faults sink.new) end result }
{
    match end {
        LoadEnd::Served(text) => match sink.write(text.as_slice()) {
            Ok(()) => Status::Served,
            Err(_) => Status::WriteFault,
        },
        LoadEnd::Store(fault) => Status::Store(fault),
        LoadEnd::NoMem => Status::NoMem,
    }
}

/// Gives the disk the places of the store, and runs the load with event lines of this formatter.
fn load_by<
    S: Source,
    K: Sink,
    P,
    D: Disk,
    C: Clock,
    G: Tape,
    T,
    L,
    N,
    B,
    F: LineWriter + Drop,
    H: Search + Drop,
>(
    alloc: Global,
    options: Options,
    count: u32,
    out: Outside<S, K, P, D, C, G, T, L, N, B>,
    formatter: Formatter<F>,
    prompt: Prompt<H>,
) -> (Outside<S, K, P, D, C, G, T, L, N, B>, Status)
    requires first { 1 ≤ count }
    requires last { count ≤ 10000 }
    requires fresh { D.tells → IsFresh 0 1 (D.view out.disk) }
    ensures runs { LoadsBy G.tells D.view (once_settings formatter.kind options.log_exit) options.prompts count
        (world_of ⟦<S as Source>⟧ ⟦<K as Sink>⟧ ⟦<D as Disk>⟧ ⟦<G as Tape>⟧ out.source out.sink out.disk out.tape)
        (world_of ⟦<S as Source>⟧ ⟦<K as Sink>⟧ ⟦<D as Disk>⟧ ⟦<G as Tape>⟧ result.0.source result.0.sink result.0.disk result.0.tape)
        out.disk result.0.disk (G.turns out.tape) (G.turns result.0.tape) result.1 }
    ensures places { D.tells → HasPlaces options.logs options.events (D.view result.0.disk) }
    ensures again { D.tells → MayServeAgain (D.view out.disk) (D.view result.0.disk) }
    ensures beside { (result.0.source ≡ out.source) × (result.0.ports ≡ out.ports) × (result.0.texts ≡ out.texts) × (result.0.link ≡ out.link) × (result.0.others ≡ out.others) × (result.0.bells ≡ out.bells) }
{
    a_load_sums_up_all_its_conversations::<D, G>();
    let Outside {
        source,
        mut sink,
        ports,
        bells,
        disk,
        clock,
        tape,
        others,
        texts,
        link,
        notices,
    } = out;
    let (bay, policy) = store_of(options, Bay { disk, clock, tape }, formatter, prompt);
    let (bay, end) = run_load(alloc, count, bay, policy);
    let Bay { disk, clock, tape } = bay;
    let status = tell_load(&mut sink, end);
    let out = Outside {
        source,
        sink,
        ports,
        bells,
        disk,
        clock,
        tape,
        others,
        texts,
        link,
        notices,
    };
    (out, status)
}

/// Serves this many generated conversations over the store of lane 0, and puts the summary of the logs that they leave. Nothing
/// else changes the store while it runs.
pub fn serve_load<
    S: Source,
    K: Sink,
    P,
    D: Disk,
    C: Clock,
    G: Tape,
    T,
    L,
    N,
    B,
    F: LineWriter + Drop,
    J: LineWriter + Drop,
    H: Search + Drop,
>(
    alloc: Global,
    options: Options,
    count: u32,
    out: Outside<S, K, P, D, C, G, T, L, N, B>,
    kept: Kept<F, J, H>,
) -> (Outside<S, K, P, D, C, G, T, L, N, B>, Status)
    requires sudo { kept.sudo.kind ≡ kinds.Sudo }
    requires json { kept.json.kind ≡ kinds.Json }
    requires first { 1 ≤ count }
    requires last { count ≤ 10000 }
    requires fresh { D.tells → IsFresh 0 1 (D.view out.disk) }
    ensures runs { LoadsBy G.tells D.view (once_settings options.form options.log_exit) options.prompts count
        (world_of ⟦<S as Source>⟧ ⟦<K as Sink>⟧ ⟦<D as Disk>⟧ ⟦<G as Tape>⟧ out.source out.sink out.disk out.tape)
        (world_of ⟦<S as Source>⟧ ⟦<K as Sink>⟧ ⟦<D as Disk>⟧ ⟦<G as Tape>⟧ result.0.source result.0.sink result.0.disk result.0.tape)
        out.disk result.0.disk (G.turns out.tape) (G.turns result.0.tape) result.1 }
    ensures places { D.tells → HasPlaces options.logs options.events (D.view result.0.disk) }
    ensures again { D.tells → MayServeAgain (D.view out.disk) (D.view result.0.disk) }
    ensures beside { (result.0.source ≡ out.source) × (result.0.ports ≡ out.ports) × (result.0.texts ≡ out.texts) × (result.0.link ≡ out.link) × (result.0.others ≡ out.others) × (result.0.bells ≡ out.bells) }
{
    match options.form {
        Kind::Sudo => load_by(alloc, options, count, out, kept.sudo, kept.prompt),
        Kind::Json => load_by(alloc, options, count, out, kept.json, kept.prompt),
    }
}
