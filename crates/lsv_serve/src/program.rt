//! The program: its words and its settings file, and the command that they ask for.

ghost use Rattle.std.specs.Prelude.{◌≡◌, ◌≤◌, ◌+◌, ◌⊎◌, ℕ, List, [], Option, Some, None, length, slice_get, Err, IfOk, IfErr, OnOk, unwrap_or};
ghost use Rattle.lsv_args.specs.Reading as told;
ghost use Rattle.lsv_args.specs.Reading.{Asked, Check, IsInRange, Load, Once, Relay, Serve, asked_in};
ghost use Rattle.lsv_conf.specs.Lines.{first_refused};
ghost use Rattle.lsv_conf.specs.Settings.{settings_in};
ghost use Rattle.lsv_defs.specs.Causes.{HasRisen};
ghost use Rattle.lsv_event.specs.declared.event.Kind.TheVariants as kinds;
ghost use Rattle.lsv_lane.specs.Store.{IsFresh};
ghost use Rattle.lsv_endpoint.specs.Ports.{IsUnopened};
ghost use Rattle.lsv_serve.specs.Causes.{HasConfCause};
ghost use Rattle.lsv_serve.specs.Check.{ChecksAs};
ghost use Rattle.lsv_serve.specs.Load.{LoadsAs};
ghost use Rattle.lsv_serve.specs.Once.{OnceAs};
ghost use Rattle.lsv_serve.specs.Program.{AsFound, Asks, lanes_by, lines_in, prompts_of, set_by, upstream_of};
ghost use Rattle.lsv_serve.specs.Relay.{RelaysAs, relay_of};
ghost use Rattle.lsv_service.specs.Lanes.{AreFreshBays, bay_by};
ghost use Rattle.lsv_serve.specs.Serve.{ServesAs, bays_of, server_of};
ghost use Rattle.lsv_once.specs.World.{world_of};

use crate::load::serve_load;
use crate::once::run_once;
use crate::outside::{Kept, Options, Outside};
use crate::relay::run_relay;
use crate::serve::run_serve;
use crate::status::Status;
use crate::text::{are_texts, text_of};
use lsv_args::{ArgFault, Command, Opts, read_words};
use lsv_base::{Bytes, Clock, List, Sink, Source, TextFault, Texts};
use lsv_conf::{Conf, ConfFault, read_conf};
use lsv_disk::Disk;
use lsv_forward::{Gaps, RelayNotices};
use lsv_hook::LineWriter;
use lsv_link::Link;
use lsv_mask::Search;
use lsv_port::{Bell, Port};
use lsv_service::Notices;
use lsv_turn::Tape;
use std::alloc::Global;
use std::sync::Wait;
use std::thread::Threads;

/// What the words ask for. `Usage` if they ask for nothing, and `NoMem` if memory runs out.
pub fn command_of(alloc: Global, words: &List<Bytes>) -> Result<Command, ArgFault>
    ensures ok { IfOk result (λ command. Asks words.now (asked_in command)) }
    ensures in_range { IfOk result (λ command. IsInRange (asked_in command)) }
    ensures usage { result ≡ Err ArgFault.Usage → (a : Asked) → Asks words.now a → ⊥ }
{
    if !are_texts(words.as_slice()) {
        return Err(ArgFault::Usage);
    }
    match read_words(alloc, words) {
        Ok(command) => Ok(command),
        Err(fault) => Err(fault),
    }
}

/// The text that was found, or none.
fn text_in(found: &Option<Bytes>) -> &[u8]
    ensures { result.now ≡ unwrap_or found.now [] }
{
    match found {
        Some(text) => text.as_slice(),
        None => &[],
    }
}

/// The settings of a text that was found, or how a run ends whose settings aren't read.
fn conf_in(alloc: Global, found: &Option<Bytes>) -> Result<Conf, Status>
    ensures ok { IfOk result (λ conf. settings_in conf ≡ set_by found.now) }
    ensures none_refused { OnOk result (first_refused (lines_in found.now) ≡ None) }
    ensures err { IfErr result (λ status. (status ≡ Status.NoMem) ⊎ ((line : ℕ) × (status ≡ Status.Conf line) × ((faults faults' : ℕ) → HasConfCause (lines_in found.now) faults faults' line))) }
{
    match read_conf(alloc, text_in(found)) {
        Ok(conf) => Ok(conf),
        Err(ConfFault::Refused(refused)) => Err(Status::Conf(refused.first.line)),
        Err(ConfFault::NoMem) => Err(Status::NoMem),
    }
}

/// The text of the settings file, or how a run ends that can't read it.
fn found_file<T: Texts>(alloc: Global, texts: &mut T, opts: &Opts) -> Result<Option<Bytes>, Status>
    ensures ok { T.tells → IfOk result (λ found. found ≡ T.texts texts.old opts.now.conf) }
    ensures err { IfErr result (λ status. (status ≡ Status.NoMem) ⊎ ((status ≡ Status.Conf 0) × HasRisen (T.faults texts.old) (T.faults texts.new))) }
{
    match texts.text(alloc, text_of(&opts.conf)) {
        Ok(found) => Ok(found),
        Err(TextFault::Failed) => Err(Status::Conf(0)),
        Err(TextFault::NoMem) => Err(Status::NoMem),
    }
}

/// What the settings ask of a run. Nothing is masked where passwords are stored as they are typed.
fn options_of(alloc: Global, conf: Conf) -> Options
    ensures form { result.form ≡ conf.format }
    ensures log_exit { result.log_exit ≡ conf.log_exit }
    ensures prompts { result.prompts ≡ prompts_of (settings_in conf) }
    ensures logs { result.logs ≡ conf.iolog_dir }
    ensures events { result.events ≡ conf.path }
    ensures listen { result.listen ≡ conf.listen }
    ensures upstream { result.upstream ≡ upstream_of (settings_in conf) }
{
    let Conf {
        listen,
        relay_host,
        store_first,
        iolog_dir,
        log_passwords,
        format,
        log_exit,
        path,
        prompts,
        ..
    } = conf;
    Options {
        form: format,
        log_exit,
        prompts: if log_passwords {
            List::new(alloc)
        } else {
            prompts
        },
        logs: iolog_dir,
        events: path,
        listen,
        upstream: if store_first { relay_host } else { None },
    }
}

/// The command `once`, by the settings of its file.
fn once<
    S: Source,
    K: Sink,
    P,
    D: Disk,
    C: Clock,
    G: Tape,
    T: Texts,
    L,
    N,
    B,
    F: LineWriter + Drop,
    J: LineWriter + Drop,
    H: Search + Drop,
>(
    alloc: Global,
    opts: &Opts,
    out: Outside<S, K, P, D, C, G, T, L, N, B>,
    kept: Kept<F, J, H>,
) -> (Outside<S, K, P, D, C, G, T, L, N, B>, Status)
    requires sudo { kept.sudo.kind ≡ kinds.Sudo }
    requires json { kept.json.kind ≡ kinds.Json }
    requires fresh { D.tells → IsFresh 0 1 (D.view out.disk) }
    ensures once { AsFound T.tells opts.now.conf (T.texts out.texts) (λ found. OnceAs found (T.faults out.texts) (T.faults result.0.texts)
        (world_of ⟦<S as Source>⟧ ⟦<K as Sink>⟧ ⟦<D as Disk>⟧ ⟦<G as Tape>⟧ out.source out.sink out.disk out.tape)
        (world_of ⟦<S as Source>⟧ ⟦<K as Sink>⟧ ⟦<D as Disk>⟧ ⟦<G as Tape>⟧ result.0.source result.0.sink result.0.disk result.0.tape) result.1) }
    ensures unserved { (line : ℕ) → result.1 ≡ Status.Conf line → (result.0.source ≡ out.source) × (result.0.sink ≡ out.sink) × (result.0.disk ≡ out.disk) × (result.0.clock ≡ out.clock) × (result.0.tape ≡ out.tape) × (result.0.others ≡ out.others) × (result.0.bells ≡ out.bells) }
    ensures not_usage { result.1 ≡ Status.Usage → ⊥ }
    ensures beside { (result.0.ports ≡ out.ports) × (result.0.link ≡ out.link) × (result.0.others ≡ out.others) × (result.0.bells ≡ out.bells) }
{
    let mut out = out;
    let found = match found_file(alloc, &mut out.texts, opts) {
        Ok(found) => found,
        Err(status) => return (out, status),
    };
    match conf_in(alloc, &found) {
        Ok(conf) => run_once(alloc, options_of(alloc, conf), out, kept),
        Err(status) => (out, status),
    }
}

/// The command `serve`, by the settings of its file.
fn serve<
    S,
    K,
    P: Port + Send + Drop,
    D: Disk + Send + Drop,
    C: Clock + Send + Drop,
    G: Tape + Send + Drop,
    T: Texts,
    L,
    N: Notices,
    B: Bell + Sync + Drop,
    F: LineWriter + Sync + Drop,
    J: LineWriter + Sync + Drop,
    H: Search + Sync + Drop,
    R: Threads + Wait + Sync,
>(
    rt: &R,
    alloc: Global,
    opts: &Opts,
    out: Outside<S, K, P, D, C, G, T, L, N, B>,
    kept: Kept<F, J, H>,
) -> (Outside<S, K, P, D, C, G, T, L, N, B>, Status)
    requires sudo { kept.sudo.kind ≡ kinds.Sudo }
    requires json { kept.json.kind ≡ kinds.Json }
    requires lanes { (1 ≤ opts.now.lanes) × (opts.now.lanes ≤ 8) }
    requires bays { opts.now.lanes ≤ 1 + length out.others.items }
    requires fresh { D.tells → AreFreshBays (bay_by ⟦<D as Disk>⟧ ⟦<G as Tape>⟧) opts.now.lanes (bays_of out.disk out.clock out.tape out.others.items) }
    requires ports { (1 ≤ length out.ports.items) × (length out.ports.items ≤ 64) }
    requires idle { P.tells → (i : ℕ) (port : P) → slice_get out.ports.items i ≡ Some port → IsUnopened (P.state port) }
    ensures serves { AsFound T.tells opts.now.conf (T.texts out.texts) (λ found. ServesAs opts.now.lanes opts.now.stop_after found (T.faults out.texts) (T.faults result.0.texts)
        (server_of ⟦<P as Port>⟧ ⟦<D as Disk>⟧ ⟦<G as Tape>⟧ out.ports.items (bays_of out.disk out.clock out.tape out.others.items))
        (server_of ⟦<P as Port>⟧ ⟦<D as Disk>⟧ ⟦<G as Tape>⟧ result.0.ports.items (bays_of result.0.disk result.0.clock result.0.tape result.0.others.items)) result.1) }
    ensures unserved { (line : ℕ) → result.1 ≡ Status.Conf line → (result.0.source ≡ out.source) × (result.0.sink ≡ out.sink) × (result.0.disk ≡ out.disk) × (result.0.clock ≡ out.clock) × (result.0.tape ≡ out.tape) × (result.0.others ≡ out.others) × (result.0.bells ≡ out.bells) }
    ensures not_usage { result.1 ≡ Status.Usage → ⊥ }
    ensures beside { (result.0.source ≡ out.source) × (result.0.sink ≡ out.sink) × (result.0.link ≡ out.link) }
{
    let mut out = out;
    let found = match found_file(alloc, &mut out.texts, opts) {
        Ok(found) => found,
        Err(status) => return (out, status),
    };
    match conf_in(alloc, &found) {
        Ok(conf) => run_serve(
            rt,
            alloc,
            options_of(alloc, conf),
            opts.lanes,
            opts.stop_after,
            out,
            kept,
        ),
        Err(status) => (out, status),
    }
}

/// The command `load`, by the settings of its file.
fn load<
    S: Source,
    K: Sink,
    P,
    D: Disk,
    C: Clock,
    G: Tape,
    T: Texts,
    L,
    N,
    B,
    F: LineWriter + Drop,
    J: LineWriter + Drop,
    H: Search + Drop,
>(
    alloc: Global,
    opts: &Opts,
    count: u32,
    out: Outside<S, K, P, D, C, G, T, L, N, B>,
    kept: Kept<F, J, H>,
) -> (Outside<S, K, P, D, C, G, T, L, N, B>, Status)
    requires sudo { kept.sudo.kind ≡ kinds.Sudo }
    requires json { kept.json.kind ≡ kinds.Json }
    requires first { 1 ≤ count }
    requires last { count ≤ 10000 }
    requires fresh { D.tells → IsFresh 0 1 (D.view out.disk) }
    ensures loads { AsFound T.tells opts.now.conf (T.texts out.texts) (λ found. LoadsAs G.tells D.view found (T.faults out.texts) (T.faults result.0.texts) count
        (world_of ⟦<S as Source>⟧ ⟦<K as Sink>⟧ ⟦<D as Disk>⟧ ⟦<G as Tape>⟧ out.source out.sink out.disk out.tape)
        (world_of ⟦<S as Source>⟧ ⟦<K as Sink>⟧ ⟦<D as Disk>⟧ ⟦<G as Tape>⟧ result.0.source result.0.sink result.0.disk result.0.tape)
        out.disk result.0.disk (G.turns out.tape) (G.turns result.0.tape) result.1) }
    ensures unserved { (line : ℕ) → result.1 ≡ Status.Conf line → (result.0.source ≡ out.source) × (result.0.sink ≡ out.sink) × (result.0.disk ≡ out.disk) × (result.0.clock ≡ out.clock) × (result.0.tape ≡ out.tape) × (result.0.others ≡ out.others) × (result.0.bells ≡ out.bells) }
    ensures not_usage { result.1 ≡ Status.Usage → ⊥ }
    ensures beside { (result.0.source ≡ out.source) × (result.0.ports ≡ out.ports) × (result.0.link ≡ out.link) × (result.0.others ≡ out.others) × (result.0.bells ≡ out.bells) }
{
    let mut out = out;
    let found = match found_file(alloc, &mut out.texts, opts) {
        Ok(found) => found,
        Err(status) => return (out, status),
    };
    match conf_in(alloc, &found) {
        Ok(conf) => serve_load(alloc, options_of(alloc, conf), count, out, kept),
        Err(status) => (out, status),
    }
}

/// The command `relay`, by the settings of its file.
fn relay<S, K, P, D: Disk, C, G, T: Texts, L: Link, N: RelayNotices + Gaps<D>, B>(
    alloc: Global,
    opts: &Opts,
    out: &mut Outside<S, K, P, D, C, G, T, L, N, B>,
) -> Status
    ensures relays { AsFound T.tells opts.now.conf (T.texts out.old.texts) (λ found. RelaysAs D.view found (T.faults out.old.texts) (T.faults out.new.texts)
        (relay_of ⟦<D as Disk>⟧ ⟦<L as Link>⟧ out.old.disk out.old.link) (relay_of ⟦<D as Disk>⟧ ⟦<L as Link>⟧ out.new.disk out.new.link) result) }
    ensures unserved { (line : ℕ) → result ≡ Status.Conf line → (out.new.source ≡ out.old.source) × (out.new.sink ≡ out.old.sink) × (out.new.disk ≡ out.old.disk) × (out.new.clock ≡ out.old.clock) × (out.new.tape ≡ out.old.tape) × (out.new.others ≡ out.old.others) × (out.new.bells ≡ out.old.bells) }
    ensures not_usage { result ≡ Status.Usage → ⊥ }
    ensures beside { (out.new.source ≡ out.old.source) × (out.new.sink ≡ out.old.sink) × (out.new.ports ≡ out.old.ports) × (out.new.clock ≡ out.old.clock) × (out.new.tape ≡ out.old.tape) × (out.new.others ≡ out.old.others) × (out.new.bells ≡ out.old.bells) }
{
    let found = match found_file(alloc, &mut out.texts, opts) {
        Ok(found) => found,
        Err(status) => return status,
    };
    match conf_in(alloc, &found) {
        Ok(conf) => run_relay(alloc, &options_of(alloc, conf), out),
        Err(status) => status,
    }
}

/// The command `check`, by the settings of its file: it reads them, and no more.
fn check<T: Texts>(alloc: Global, opts: &Opts, texts: &mut T) -> Status
    ensures checks { AsFound T.tells opts.now.conf (T.texts texts.old) (λ found. ChecksAs found (T.faults texts.old) (T.faults texts.new) result) }
    ensures not_usage { result ≡ Status.Usage → ⊥ }
{
    let found = match found_file(alloc, texts, opts) {
        Ok(found) => found,
        Err(status) => return status,
    };
    match conf_in(alloc, &found) {
        Ok(_) => Status::Served,
        Err(status) => status,
    }
}

/// `sudo_logsrvd`, after its name. The command `once` serves one connection, from the source to the sink; `serve` those that come
/// at the ports; `load` generated ones, whose summary goes to the sink. The command `relay` sends complete logs to another server,
/// and `check` only reads the settings. They go by the settings of their file; if it doesn't exist these are the defaults. Keys that
/// the settings pass over are not reported by this call.
pub fn logsrvd<
    S: Source,
    K: Sink,
    P: Port + Send + Drop,
    D: Disk + Send + Drop,
    C: Clock + Send + Drop,
    G: Tape + Send + Drop,
    T: Texts,
    L: Link,
    N: Notices + RelayNotices + Gaps<D>,
    B: Bell + Sync + Drop,
    F: LineWriter + Sync + Drop,
    J: LineWriter + Sync + Drop,
    H: Search + Sync + Drop,
    R: Threads + Wait + Sync,
>(
    rt: &R,
    alloc: Global,
    words: &List<Bytes>,
    out: Outside<S, K, P, D, C, G, T, L, N, B>,
    kept: Kept<F, J, H>,
) -> (Outside<S, K, P, D, C, G, T, L, N, B>, Status)
    requires sudo { kept.sudo.kind ≡ kinds.Sudo }
    requires json { kept.json.kind ≡ kinds.Json }
    requires fresh { D.tells → (a : Asked) → Asks words.now a → AreFreshBays (bay_by ⟦<D as Disk>⟧ ⟦<G as Tape>⟧) (lanes_by a) (bays_of out.disk out.clock out.tape out.others.items) }
    requires bays { (o : told.Options) → Asks words.now (Serve o) → o.lanes ≤ 1 + length out.others.items }
    requires ports { (1 ≤ length out.ports.items) × (length out.ports.items ≤ 64) }
    requires idle { P.tells → (i : ℕ) (port : P) → slice_get out.ports.items i ≡ Some port → IsUnopened (P.state port) }
    ensures usage { result.1 ≡ Status.Usage → (a : Asked) → Asks words.now a → ⊥ }
    ensures other_words { ((a : Asked) → Asks words.now a → ⊥) → (result.1 ≡ Status.Usage) ⊎ (result.1 ≡ Status.NoMem) }
    ensures unchanged { ((a : Asked) → Asks words.now a → ⊥) → result.0 ≡ out }
    ensures unserved { (line : ℕ) → result.1 ≡ Status.Conf line → (result.0.source ≡ out.source) × (result.0.sink ≡ out.sink) × (result.0.disk ≡ out.disk) × (result.0.clock ≡ out.clock) × (result.0.tape ≡ out.tape) × (result.0.others ≡ out.others) × (result.0.bells ≡ out.bells) }
    ensures once { (o : told.Options) → Asks words.now (Once o) → AsFound T.tells o.conf (T.texts out.texts) (λ found. OnceAs found (T.faults out.texts) (T.faults result.0.texts)
        (world_of ⟦<S as Source>⟧ ⟦<K as Sink>⟧ ⟦<D as Disk>⟧ ⟦<G as Tape>⟧ out.source out.sink out.disk out.tape)
        (world_of ⟦<S as Source>⟧ ⟦<K as Sink>⟧ ⟦<D as Disk>⟧ ⟦<G as Tape>⟧ result.0.source result.0.sink result.0.disk result.0.tape) result.1) }
    ensures serves { (o : told.Options) → Asks words.now (Serve o) → AsFound T.tells o.conf (T.texts out.texts) (λ found. ServesAs o.lanes o.stop_after found (T.faults out.texts) (T.faults result.0.texts)
        (server_of ⟦<P as Port>⟧ ⟦<D as Disk>⟧ ⟦<G as Tape>⟧ out.ports.items (bays_of out.disk out.clock out.tape out.others.items))
        (server_of ⟦<P as Port>⟧ ⟦<D as Disk>⟧ ⟦<G as Tape>⟧ result.0.ports.items (bays_of result.0.disk result.0.clock result.0.tape result.0.others.items)) result.1) }
    ensures loads { (o : told.Options) (count : ℕ) → Asks words.now (Load o count) → AsFound T.tells o.conf (T.texts out.texts) (λ found. LoadsAs G.tells D.view found (T.faults out.texts) (T.faults result.0.texts) count
        (world_of ⟦<S as Source>⟧ ⟦<K as Sink>⟧ ⟦<D as Disk>⟧ ⟦<G as Tape>⟧ out.source out.sink out.disk out.tape)
        (world_of ⟦<S as Source>⟧ ⟦<K as Sink>⟧ ⟦<D as Disk>⟧ ⟦<G as Tape>⟧ result.0.source result.0.sink result.0.disk result.0.tape)
        out.disk result.0.disk (G.turns out.tape) (G.turns result.0.tape) result.1) }
    ensures relays { (o : told.Options) → Asks words.now (Relay o) → AsFound T.tells o.conf (T.texts out.texts) (λ found. RelaysAs D.view found (T.faults out.texts) (T.faults result.0.texts)
        (relay_of ⟦<D as Disk>⟧ ⟦<L as Link>⟧ out.disk out.link) (relay_of ⟦<D as Disk>⟧ ⟦<L as Link>⟧ result.0.disk result.0.link) result.1) }
    ensures checks { (o : told.Options) → Asks words.now (Check o) → AsFound T.tells o.conf (T.texts out.texts) (λ found. ChecksAs found (T.faults out.texts) (T.faults result.0.texts) result.1) }
    ensures beside_check { (o : told.Options) → Asks words.now (Check o) → result.0 ≡ record out { texts = result.0.texts } }
    ensures beside_once { (o : told.Options) → Asks words.now (Once o) → (result.0.ports ≡ out.ports) × (result.0.link ≡ out.link) × (result.0.others ≡ out.others) × (result.0.bells ≡ out.bells) }
    ensures beside_serve { (o : told.Options) → Asks words.now (Serve o) → (result.0.source ≡ out.source) × (result.0.sink ≡ out.sink) × (result.0.link ≡ out.link) }
    ensures beside_load { (o : told.Options) (count : ℕ) → Asks words.now (Load o count) → (result.0.source ≡ out.source) × (result.0.ports ≡ out.ports) × (result.0.link ≡ out.link) × (result.0.others ≡ out.others) × (result.0.bells ≡ out.bells) }
    ensures beside_relay { (o : told.Options) → Asks words.now (Relay o) → (result.0.source ≡ out.source) × (result.0.sink ≡ out.sink) × (result.0.ports ≡ out.ports) × (result.0.clock ≡ out.clock) × (result.0.tape ≡ out.tape) × (result.0.others ≡ out.others) × (result.0.bells ≡ out.bells) }
{
    let command = match command_of(alloc, words) {
        Ok(command) => command,
        Err(ArgFault::Usage) => return (out, Status::Usage),
        Err(ArgFault::NoMem) => return (out, Status::NoMem),
    };
    match command {
        Command::Once(opts) => once(alloc, &opts, out, kept),
        Command::Serve(opts) => serve(rt, alloc, &opts, out, kept),
        Command::Load(opts, count) => load(alloc, &opts, count, out, kept),
        Command::Relay(opts) => {
            let mut out = out;
            let status = relay(alloc, &opts, &mut out);
            (out, status)
        }
        Command::Check(opts) => {
            let mut out = out;
            let status = check(alloc, &opts, &mut out.texts);
            (out, status)
        }
    }
}
