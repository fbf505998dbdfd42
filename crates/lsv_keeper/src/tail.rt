//! The end of a turn: its event lines, and its commit points.

ghost use Rattle.std.specs.Prelude.{◌≡◌, ◌≤◌, ◌*◌, Bool, [], ◌∷◌, length, Some};
ghost use Rattle.lsv_session.specs.declared.connection.ConnId.{ConnId};
ghost use Rattle.lsv_machine.specs.Machine.{Machine};
ghost use Rattle.lsv_keeper.specs.Frames.{LogKeeps, LogsKeep, TailKeeps};
ghost use Rattle.lsv_keeper.specs.Replies.{room_in};
ghost use Rattle.lsv_keeper.specs.Represents.{Represents};
ghost use Rattle.lsv_keeper.specs.Tails.{LinesGive, LogGives, LogsGive, RefusedGive, none_waits};
ghost use Rattle.lsv_keeper.specs.Value.{room, un_noted, AreWhole};
ghost use Rattle.lsv_keeper.specs.Views.{view_of};
ghost use Rattle.lsv_keeper.specs.Causes.{IsAmong, IsSteady, Says, StoreRose, Waits};
ghost use Rattle.std.specs.List.{AllByRecursion};

use crate::Keeper;
use crate::outcome::{Outcome, put_point, put_replies};
use lsv_base::LogNo;
use lsv_bundle::BundleFault;
use lsv_disk::Disk;
use lsv_hook::LineWriter;
use lsv_mask::Search;
use lsv_request::Refusal;
use lsv_session::{ConnId, ConnState, Reply};
use std::mem;

impl<F: LineWriter, H: Search> Keeper<F, H> {
    /// The event lines of the turn become lines of the event log. Where it fails, each connection that had one and isn't
    /// shut is refused, in the order of their first ones.
    pub(crate) fn flush_lines<D: Disk>(&mut self, disk: &mut D, out: &mut Vec<Reply>)
        requires stands { D.tells → (m : Machine) × Represents (view_of self.old) (D.view disk.old) m }
        requires places { length (view_of self.old).noting ≤ room (view_of self.old) }
        requires replies { 2 * length (view_of self.old).noting ≤ room_in out.old }
        ensures frame { TailKeeps D.tells (length (view_of self.old).noting) [] (view_of self.old) (view_of self.new) out.old out.new (D.view disk.old) (D.view disk.new) }
        ensures lines { D.tells → (m : Machine) → Represents (view_of self.old) (D.view disk.old) m
            → LinesGive (view_of self.old) m out.old.items out.new.items (view_of self.new) (D.view disk.old) (D.view disk.new) }
        ensures says { (p : ConnId → Bool) → IsSteady p (view_of self.old) → Says (IsAmong p) (λ k. StoreRose (D.view disk.old) (D.view disk.new)) out.old.items out.new.items }
    {
        let Err(fault) = self.events.flush(disk) else {
            self.noting.clear();
            return;
        };
        match fault {
            BundleFault::Broken => self.noting.clear(),
            _ => self.lose_lines(disk, out),
        }
    }

    /// Each connection that had an event line and isn't shut is refused.
    fn lose_lines<D: Disk>(&mut self, disk: &mut D, out: &mut Vec<Reply>)
        requires stands { D.tells → (m : Machine) × Represents (un_noted (view_of self.old)) (D.view disk.old) m }
        requires places { length (view_of self.old).noting ≤ room (view_of self.old) }
        requires replies { 2 * length (view_of self.old).noting ≤ room_in out.old }
        ensures frame { TailKeeps D.tells (length (view_of self.old).noting) [] (un_noted (view_of self.old)) (view_of self.new) out.old out.new (D.view disk.old) (D.view disk.new) }
        ensures refused { D.tells → (m : Machine) → Represents (un_noted (view_of self.old)) (D.view disk.old) m
            → RefusedGive (view_of self.old).noting (view_of self.old) m out.old.items out.new.items (view_of self.new) (D.view disk.old) (D.view disk.new) }
        ensures says { (p : ConnId → Bool) → AllByRecursion (IsAmong p) (view_of self.old).noting → Says (IsAmong p) (λ k. Unit {0}) out.old.items out.new.items }
    {
        let noting = mem::replace(&mut self.noting, Vec::new(self.alloc));
        for conn in noting.iter() {
            self.lose_line(disk, *conn, out);
        }
    }

    /// A connection whose line was lost is refused, where it isn't shut.
    fn lose_line<D: Disk>(&mut self, disk: &mut D, conn: ConnId, out: &mut Vec<Reply>)
        requires stands { D.tells → (m : Machine) × Represents (view_of self.old) (D.view disk.old) m }
        requires places { 1 ≤ room (view_of self.old) }
        requires replies { 2 ≤ room_in out.old }
        ensures frame { TailKeeps D.tells 1 (view_of self.old).noting (view_of self.old) (view_of self.new) out.old out.new (D.view disk.old) (D.view disk.new) }
        ensures refused { D.tells → (m : Machine) → Represents (view_of self.old) (D.view disk.old) m
            → RefusedGive (conn ∷ []) (view_of self.old) m out.old.items out.new.items (view_of self.new) (D.view disk.old) (D.view disk.new) }
        ensures says { Says (λ k. k ≡ conn) (λ k. Unit {0}) out.old.items out.new.items }
    {
        if let ConnState::Dead = self.table.state(conn) {
            return;
        }
        self.enter_state(disk, conn, ConnState::Dead);
        put_replies(
            self.alloc,
            out,
            conn,
            Outcome::Refused(Refusal::DeviceFault),
        );
    }

    /// The logs that took a record in this turn have their commit points, by rising number.
    pub(crate) fn flush_logs<D: Disk>(&mut self, disk: &mut D, out: &mut Vec<Reply>)
        requires stands { D.tells → (m : Machine) × Represents (view_of self.old) (D.view disk.old) m }
        requires places { length (view_of self.old).waiting ≤ room (view_of self.old) }
        requires replies { 2 * length (view_of self.old).waiting ≤ room_in out.old }
        ensures frame { LogsKeep D.tells (view_of self.old) (view_of self.new) (D.view disk.old) (D.view disk.new) }
        ensures logs { D.tells → (m : Machine) → Represents (view_of self.old) (D.view disk.old) m
            → LogsGive m.waiting (view_of self.old) m out.old.items out.new.items (view_of self.new) (D.view disk.old) (D.view disk.new) }
        ensures says { (p : ConnId → Bool) → IsSteady p (view_of self.old) → AreWhole (view_of self.old).logs → Says (IsAmong p) (λ k. StoreRose (D.view disk.old) (D.view disk.new)) out.old.items out.new.items }
    {
        let waiting = mem::replace(&mut self.waiting, Vec::new(self.alloc));
        for number in waiting.iter() {
            self.flush_log(disk, *number, out);
        }
    }

    /// The writer of a log has its commit point; or it is refused, where the log failed, which then is let go.
    fn flush_log<D: Disk>(&mut self, disk: &mut D, number: LogNo, out: &mut Vec<Reply>)
        requires stands { D.tells → (m : Machine) × Represents (view_of self.old) (D.view disk.old) m }
        requires none_waits { (view_of self.old).waiting ≡ [] }
        requires places { 1 ≤ room (view_of self.old) }
        requires replies { 2 ≤ room_in out.old }
        ensures frame { LogKeeps D.tells number (view_of self.old) (view_of self.new) out.old out.new (D.view disk.old) (D.view disk.new) }
        ensures log { D.tells → (m : Machine) (k : ConnId) → Represents (view_of self.old) (D.view disk.old) (none_waits m) → m.owner number ≡ Some k
            → LogGives number (view_of self.old) m out.old.items out.new.items (view_of self.new) (D.view disk.old) (D.view disk.new) }
        ensures says { (p : ConnId → Bool) → Waits p (view_of self.old) number → AreWhole (view_of self.old).logs → Says (IsAmong p) (λ k. StoreRose (D.view disk.old) (D.view disk.new)) out.old.items out.new.items }
    {
        let Some(conn) = self.table.owner(number) else {
            return;
        };
        match self.logs.flush(disk, number) {
            Some(point) => put_point(out, conn, point),
            None => {
                self.release(conn, ConnState::Dead, number);
                put_replies(
                    self.alloc,
                    out,
                    conn,
                    Outcome::Refused(Refusal::DeviceFault),
                );
            }
        }
    }
}
