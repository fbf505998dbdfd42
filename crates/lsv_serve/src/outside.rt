//! The outside of the program, what is asked of a run, and the store that a run is given.

ghost use Rattle.std.specs.Prelude.{◌≡◌, IsTrue, true};
ghost use Rattle.std.specs.Option.{option_map_or};
ghost use Rattle.std.specs.Str.{is_utf8};
ghost use Rattle.lsv_disk.specs.View.{IsLeftAlone};
ghost use Rattle.lsv_service.specs.Lanes.{bay_by};
ghost use Rattle.lsv_serve.specs.Causes.{HasPlaces, HavePlaces};
ghost use Rattle.lsv_serve.specs.Serve.{ArePlaced};

use crate::text::text_of;
use lsv_base::{Bytes, List};
use lsv_disk::Disk;
use lsv_event::Kind;
use lsv_hook::{Formatter, LineWriter};
use lsv_keeper::Policy;
use lsv_lane::Bay;
use lsv_mask::{Prompt, Search};
use lsv_turn::Tape;

/// The outside of the program.
#[derive(Drop)]
pub struct Outside<S, K, P, D, C, G, T, L, N, B> {
    /// The input of `once`.
    pub source: S,
    /// The output of `once` and of `load`.
    pub sink: K,
    /// The ports of `serve`.
    pub ports: Vec<P>,
    /// What ends the waits of these ports from another thread, in their order. There may be fewer. `serve` takes them.
    pub bells: Vec<B>,
    /// The disk of lane 0.
    pub disk: D,
    /// The clock of lane 0.
    pub clock: C,
    /// The tape of lane 0: it keeps the turns of `once` and of `load`, and of lane 0 of `serve`.
    pub tape: G,
    /// What the lanes of `serve` after lane 0 work with, in their order.
    pub others: Vec<Bay<D, C, G>>,
    /// The settings file is read of these.
    pub texts: T,
    /// The link of `relay` to the other server.
    pub link: L,
    /// Reports of how `serve` and `relay` go.
    pub notices: N,
}

/// What the program hands in: the writers of event lines in both forms, and the search for prompts.
#[derive(Drop)]
pub struct Kept<F: LineWriter, J: LineWriter, H: Search> {
    pub sudo: Formatter<F>,
    pub json: Formatter<J>,
    pub prompt: Prompt<H>,
}

/// What is asked of a run. Its type keeps that its places and its address are UTF-8.
#[derive(Debug, Drop)]
pub struct Options {
    /// The form of event lines.
    pub form: Kind,
    /// Whether exits have event lines.
    pub log_exit: bool,
    /// The prompts after which what is typed is masked.
    pub prompts: List<Bytes>,
    /// The folder of the logs.
    pub logs: Bytes,
    /// The path of the event log.
    pub events: Bytes,
    /// The address at which a server listens.
    pub listen: Bytes,
    /// The host to which logs are relayed, if any is.
    pub upstream: Option<Bytes>,
    pub ghost logs_is_text: { IsTrue (is_utf8 logs) },
    pub ghost events_is_text: { IsTrue (is_utf8 events) },
    pub ghost listen_is_text: { IsTrue (is_utf8 listen) },
    pub ghost upstream_is_text: { IsTrue (option_map_or is_utf8 upstream true) },
}

/// Gives the disk the places of the store.
pub(crate) fn give_places<D: Disk>(disk: &mut D, options: &Options)
    ensures places { D.tells → HasPlaces options.now.logs options.now.events (D.view disk.new) }
    ensures frame { IsLeftAlone D.tells (D.view disk.old) (D.view disk.new) }
{
    disk.root(text_of(&options.logs), text_of(&options.events));
}

/// Gives the disk of a bay the places of the store.
fn place_bay<D: Disk, C, G>(bay: &mut Bay<D, C, G>, options: &Options)
    ensures places { D.tells → HasPlaces options.now.logs options.now.events (D.view bay.new.disk) }
    ensures frame { IsLeftAlone D.tells (D.view bay.old.disk) (D.view bay.new.disk) }
    ensures tape { bay.new.tape ≡ bay.old.tape }
{
    give_places(&mut bay.disk, options);
}

/// Gives the disk of each bay the places of the store.
pub(crate) fn give_all_places<D: Disk, C, G: Tape>(bays: &mut [Bay<D, C, G>], options: &Options)
    ensures placed { ArePlaced (bay_by ⟦<D as Disk>⟧ ⟦<G as Tape>⟧) D.tells bays.old bays.new }
    ensures places { D.tells → HavePlaces (bay_by ⟦<D as Disk>⟧ ⟦<G as Tape>⟧) options.now.logs options.now.events bays.new }
{
    'bays: for place in 0..bays.len() {
        place_bay(&mut bays[place], options);
    }
}

/// What a lane works with, its disk with the places of the store, and what its store is opened with, for event lines of this
/// formatter.
pub(crate) fn store_of<D: Disk, C, G, F: LineWriter + Drop, H: Search + Drop>(
    options: Options,
    bay: Bay<D, C, G>,
    formatter: Formatter<F>,
    prompt: Prompt<H>,
) -> (Bay<D, C, G>, Policy<F, H>)
    ensures places { D.tells → HasPlaces options.logs options.events (D.view result.0.disk) }
    ensures frame { IsLeftAlone D.tells (D.view bay.disk) (D.view result.0.disk) }
    ensures beside { (result.0.clock ≡ bay.clock) × (result.0.tape ≡ bay.tape) }
    ensures formatter { result.1.formatter ≡ formatter }
    ensures log_exit { result.1.log_exit ≡ options.log_exit }
    ensures texts { result.1.texts ≡ options.prompts }
{
    let mut bay = bay;
    give_places(&mut bay.disk, &options);
    let Options {
        log_exit,
        prompts,
        ..
    } = options;
    let policy = Policy {
        formatter,
        log_exit,
        texts: prompts,
        prompt,
    };
    (bay, policy)
}
