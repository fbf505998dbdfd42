//! A lane over its store.

ghost use Rattle.std.specs.Prelude.{◌≡◌, ◌≢◌, ◌<◌, ◌≤◌, ◌++◌, [], List, None, IfOk, IfErr};
ghost use Rattle.lsv_disk.specs.declared.file.Owner.{Owner};
ghost use Rattle.lsv_keeper.specs.Opening.{IsStoreFault, KeepsEntry};
ghost use Rattle.lsv_keeper.specs.Views.{view_of};
ghost use Rattle.lsv_seq.specs.Drawn.{entry_at};
ghost use Rattle.lsv_seq.specs.Value.{last_of};
ghost use Rattle.lsv_turn.specs.Turns.{LaneTurn, all_taped};
ghost use Rattle.lsv_lane.specs.InnerLane.{Begun, IsMade};
ghost use Rattle.lsv_lane.specs.Store.{AreAnswered, AreTimed, IsFresh, KeepsStore, OwnerFailed, lane_settings};
ghost use Rattle.lsv_keeper.specs.declared.fault.StoreFault.TheVariants as faults;

use crate::Bay;
use lsv_base::{Clock, NoMem, TimeSpec};
use lsv_disk::Disk;
use lsv_hook::LineWriter;
use lsv_keeper::{Keeper, LaneId, Policy, StoreFault};
use lsv_mask::Search;
use lsv_queue::Gap;
use lsv_session::{Job, Reply};
use lsv_turn::{Lane, Tape};
use std::alloc::Global;

/// The lane of a store: its keeper, and what it works with. Nothing else changes the lane's files meanwhile.
#[derive(Drop)]
pub struct StoreLane<D, C, G, F: LineWriter, H: Search> {
    keeper: Keeper<F, H>,
    bay: Bay<D, C, G>,
}

impl<D: Disk, C: Clock, G: Tape, F: LineWriter, H: Search> Lane for StoreLane<D, C, G, F, H> {
    ghost tells = { D.tells };

    ghost Start = { Begun D G };

    ghost made_by = { λ start lane turns. IsMade D.tells G.tells start.set start.texts (D.view start.disk) (D.view lane.bay.disk) (view_of lane.keeper) (G.turns start.tape) (G.turns lane.bay.tape) turns };

    fn turn(
        &mut self,
        jobs: Vec<Job>,
        gap: Option<Gap<Job>>,
        replies: &mut Vec<Reply>,
    ) -> Result<TimeSpec, NoMem> {
        replies.clear();
        let Ok(()) = self.keeper.ready(jobs.len(), replies) else {
            return Err(NoMem);
        };
        let Ok(()) = self.bay.tape.room(&jobs) else {
            return Err(NoMem);
        };
        let now = self.bay.clock.now();
        self.bay.tape.keep(&jobs, now, gap);
        self.keeper.turn(&mut self.bay.disk, now, jobs, replies);
        Ok(now)
    }
}

/// A store that wasn't opened: what it was to work with, and why.
#[derive(Drop)]
pub struct Unopened<D, C, G> {
    pub bay: Bay<D, C, G>,
    pub fault: StoreFault,
}

impl<D: Disk, C: Clock, G: Tape, F: LineWriter + Drop, H: Search + Drop> StoreLane<D, C, G, F, H> {
    /// Opens the store of a lane, one of at most eight. If it can't be opened the bay is given back, with the fault of
    /// `Keeper::open`; the next run may begin with its disk. An entry of the number file that was there is there still.
    pub fn open(
        alloc: Global,
        bay: Bay<D, C, G>,
        lane: LaneId,
        policy: Policy<F, H>,
    ) -> Result<Self, Unopened<D, C, G>>
        requires lane { lane.number < lane.of }
        requires lanes { lane.of ≤ 8 }
        requires fresh { D.tells → IsFresh lane.number lane.of (D.view bay.disk) }
        ensures made { IfOk result (λ l. ⟦<StoreLane<D, C, G, F, H> as Lane>⟧.made_by (record { set = lane_settings lane.number lane.of policy.formatter.kind policy.log_exit; texts = policy.texts; disk = bay.disk; tape = bay.tape }) l []) }
        ensures fault { D.tells → IfErr result (λ e. IsStoreFault lane.number lane.of (D.view bay.disk).reads e.fault) }
        ensures cause { (o : Owner) → IfErr result (λ e. e.fault ≡ faults.Device o → OwnerFailed o (D.view bay.disk) (D.view e.bay.disk)) }
        ensures store { D.tells → IfErr result (λ e. KeepsStore ⊥ (lane_settings lane.number lane.of policy.formatter.kind policy.log_exit) policy.texts (record { found = D.view bay.disk; left = D.view e.bay.disk }) []) }
        ensures fresh { D.tells → IfErr result (λ e. IsFresh lane.number lane.of (D.view e.bay.disk)) }
        ensures entry { D.tells → entry_at lane.number (D.view bay.disk).reads ≢ None → IfErr result (λ e. KeepsEntry lane.number (D.view bay.disk) (D.view e.bay.disk)) }
        ensures places { D.tells → IfErr result (λ e. (D.view e.bay.disk).places ≡ (D.view bay.disk).places) }
        ensures clock { IfErr result (λ e. e.bay.clock ≡ bay.clock) }
        ensures tape { IfErr result (λ e. e.bay.tape ≡ bay.tape) }
    {
        let mut bay = bay;
        match Keeper::open(alloc, &mut bay.disk, lane, policy) {
            Ok(keeper) => Ok(StoreLane { keeper, bay }),
            Err(fault) => Err(Unopened { bay, fault }),
        }
    }

    /// The last log number that was drawn, 0 where none was.
    pub fn last_number(&self) -> u32
        ensures { result ≡ last_of (view_of self.now.keeper).numbers }
    {
        self.keeper.last_number()
    }

    /// Gives back what the lane worked with, after its turns. The next run may begin with its disk.
    pub fn into_bay(self) -> Bay<D, C, G>
        ensures kept { D.tells → (start : Begun D G) (turns : List LaneTurn) → ⟦<StoreLane<D, C, G, F, H> as Lane>⟧.made_by start self turns →
            KeepsStore (Unit {0}) start.set start.texts (record { found = D.view start.disk; left = D.view result.disk }) turns }
        ensures places { D.tells → (start : Begun D G) (turns : List LaneTurn) → ⟦<StoreLane<D, C, G, F, H> as Lane>⟧.made_by start self turns → (D.view result.disk).places ≡ (D.view start.disk).places }
        ensures fresh { D.tells → (start : Begun D G) (turns : List LaneTurn) → ⟦<StoreLane<D, C, G, F, H> as Lane>⟧.made_by start self turns → IsFresh start.set.lane start.set.lanes (D.view result.disk) }
        ensures taped { G.tells → (start : Begun D G) (turns : List LaneTurn) → ⟦<StoreLane<D, C, G, F, H> as Lane>⟧.made_by start self turns → G.turns result.tape ≡ G.turns start.tape ++ all_taped turns }
        ensures answered { (start : Begun D G) (turns : List LaneTurn) → ⟦<StoreLane<D, C, G, F, H> as Lane>⟧.made_by start self turns → AreAnswered start.set.log_exit (D.view start.disk).faults (D.view result.disk).faults turns }
        ensures timed { (start : Begun D G) (turns : List LaneTurn) → ⟦<StoreLane<D, C, G, F, H> as Lane>⟧.made_by start self turns → AreTimed turns }
    {
        self.bay
    }
}
