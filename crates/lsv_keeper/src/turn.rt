//! A turn: its jobs, one after another, then its event lines, and then its commit points.

ghost use Rattle.std.specs.Prelude.{◌≡◌, ◌≤◌, ◌*◌, ℕ, length, Some, IsSome, OnOk};
ghost use Rattle.lsv_base.specs.Time.{nanos_of};
ghost use Rattle.lsv_session.specs.declared.connection.ConnId.{ConnId};
ghost use Rattle.lsv_machine.specs.Machine.{Machine};
ghost use Rattle.lsv_keeper.specs.Calls.{AnswersJobs};
ghost use Rattle.lsv_keeper.specs.Replies.{room_in};
ghost use Rattle.lsv_keeper.specs.Represents.{Represents};
ghost use Rattle.lsv_keeper.specs.Room.{HasRoom, IsRoomier};
ghost use Rattle.lsv_keeper.specs.Tails.{TurnGives};
ghost use Rattle.lsv_keeper.specs.Value.{IsResting, SameSet, room, AreWhole};
ghost use Rattle.lsv_keeper.specs.Views.{view_of};
ghost use Rattle.lsv_keeper.specs.Syncs.{AnyRestarts, SparesDamaged, SyncedOnce};
ghost use Rattle.lsv_keeper.specs.Causes.{AnyIsOf, Does, HasFailed, MayAnswerTo, MayFail, Says};
ghost use Rattle.lsv_disk.specs.declared.file.FileId.{FileId};

use crate::Keeper;
use lsv_base::{NoMem, TimeSpec};
use lsv_disk::Disk;
use lsv_hook::LineWriter;
use lsv_mask::Search;
use lsv_session::{Job, Reply};

impl<F: LineWriter, H: Search> Keeper<F, H> {
    /// Makes room for a turn of this many jobs: for two connections and four replies a job. It changes nothing else,
    /// nor what the keeper stands for.
    pub fn ready(&mut self, jobs: usize, out: &mut Vec<Reply>) -> Result<(), NoMem>
        ensures same { IsRoomier (view_of self.old) (view_of self.new) }
        ensures replies { out.new.items ≡ out.old.items }
        ensures ok { OnOk result (HasRoom jobs (view_of self.new) out.new) }
    {
        let Some(places) = jobs.checked_mul(2) else {
            return Err(NoMem);
        };
        let Some(replies) = jobs.checked_mul(4) else {
            return Err(NoMem);
        };
        self.table.reserve(places)?;
        out.reserve(replies)?;
        Ok(())
    }

    /// Does one turn of these jobs at this moment, and puts its replies at the end. Its answers for want of memory are the
    /// machine's; the turn itself can't be refused. Of a log that is damaged no file is written, but perhaps its journal.
    pub fn turn<D: Disk>(
        &mut self,
        disk: &mut D,
        now: TimeSpec,
        jobs: Vec<Job>,
        out: &mut Vec<Reply>,
    )
        requires timed { IsSome (nanos_of now) }
        requires stands { D.tells → (m : Machine) × Represents (view_of self.old) (D.view disk.old) m }
        requires rests { IsResting (view_of self.old) }
        requires room { HasRoom (length jobs.items) (view_of self.old) out.old }
        ensures set { SameSet (view_of self.old) (view_of self.new) }
        ensures rests { IsResting (view_of self.new) }
        ensures turned { D.tells → (m : Machine) → Represents (view_of self.old) (D.view disk.old) m
            → TurnGives (view_of self.old) now jobs.items m out.old.items out.new.items (view_of self.new) (D.view disk.old) (D.view disk.new) }
        ensures syncs { D.tells → (m : Machine) (n : ℕ) (k : ConnId) → Represents (view_of self.old) (D.view disk.old) m → m.owner n ≡ Some k → (AnyRestarts jobs.items n → ⊥) → SyncedOnce n (D.view disk.old) (D.view disk.new) }
        ensures spared { D.tells → (m : Machine) → Represents (view_of self.old) (D.view disk.old) m → SparesDamaged m (D.view disk.old) (D.view disk.new) }
        ensures says { Says (AnyIsOf jobs.items) (MayAnswerTo (view_of self.old) jobs.items (D.view disk.old) (D.view disk.new)) out.old.items out.new.items }
        ensures failed { HasFailed (view_of self.new) → MayFail (view_of self.old) (D.view disk.old) (D.view disk.new) }
        ensures monotone { (file : FileId) → (D.view disk.old).faults file ≤ (D.view disk.new).faults file }
    {
        self.answer_jobs(disk, now, jobs, out);
        self.flush_lines(disk, out);
        self.flush_logs(disk, out);
    }

    /// The jobs of a turn are done, one after another.
    fn answer_jobs<D: Disk>(
        &mut self,
        disk: &mut D,
        now: TimeSpec,
        jobs: Vec<Job>,
        out: &mut Vec<Reply>,
    )
        requires timed { IsSome (nanos_of now) }
        requires stands { D.tells → (m : Machine) × Represents (view_of self.old) (D.view disk.old) m }
        requires places { length jobs.items ≤ room (view_of self.old) }
        requires replies { 2 * length jobs.items ≤ room_in out.old }
        ensures done { AnswersJobs D.tells now jobs.items (view_of self.old) (view_of self.new) out.old out.new (D.view disk.old) (D.view disk.new) }
        ensures says { AreWhole (view_of self.old).logs → Says (AnyIsOf jobs.items) (MayAnswerTo (view_of self.old) jobs.items (D.view disk.old) (D.view disk.new)) out.old.items out.new.items }
    {
        for job in jobs {
            self.answer_job(disk, now, job, out);
        }
    }
}
