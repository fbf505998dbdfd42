//! Hellos, rejects and alerts; and events that leave a line and change no log.

ghost use Rattle.std.specs.Prelude.{◌≡◌, ◌≤◌, Ok, IsSome, [], ◌∷◌};
ghost use Rattle.lsv_base.specs.Time.{nanos_of};
ghost use Rattle.lsv_base.specs.declared.time.TimeSpec.{TimeSpec};
ghost use Rattle.lsv_event.specs.Events.{IsTimed};
ghost use Rattle.lsv_event.specs.Lines.{line_of};
ghost use Rattle.lsv_request.specs.declared.request.Request.{Request};
ghost use Rattle.lsv_request.specs.declared.request.Request.TheVariants as requests;
ghost use Rattle.lsv_msg.specs.declared.messages.ClientMessage.{ClientMessage};
ghost use Rattle.lsv_machine.specs.Failures.{AsksFor};
ghost use Rattle.lsv_machine.specs.Judgement.{judged};
ghost use Rattle.lsv_machine.specs.Machine.{Machine};
ghost use Rattle.lsv_keeper.specs.Accepting.{EntersNoLog, IsEventOf, unless_running};
ghost use Rattle.lsv_keeper.specs.Calls.{DoesCall};
ghost use Rattle.lsv_keeper.specs.Jobs.{DoesRequest};
ghost use Rattle.lsv_keeper.specs.Represents.{Represents};
ghost use Rattle.lsv_keeper.specs.Value.{peer_of, room, sessions_of, settings_of};
ghost use Rattle.lsv_keeper.specs.Views.{view_of};
ghost use Rattle.lsv_keeper.specs.Causes.{IsFaultRefusal};

use crate::Keeper;
use crate::outcome::Outcome;
use lsv_base::TimeSpec;
use lsv_disk::Disk;
use lsv_event::{Event, Peer};
use lsv_hook::LineWriter;
use lsv_info::Head;
use lsv_machine::is_running;
use lsv_mask::Search;
use lsv_request::Report;
use lsv_session::{ConnId, ConnState};

/// What a connection does whose event line is added.
#[derive(Clone, Copy, Debug, PartialEq, Eq)]
pub(crate) enum Next {
    /// It goes on as it was.
    Stays,
    /// It comes into this state, and writes no log, nor did it.
    Enters(ConnState),
    /// It is shut.
    Ends,
}

/// A connection, as events name it.
pub(crate) fn peer_of(conn: ConnId) -> Peer
    ensures { result ≡ peer_of conn }
{
    Peer {
        worker: conn.worker,
        seq: conn.seq,
    }
}

/// In a session a request with an event line is an event alone.
pub(crate) fn unless_running(state: ConnState, next: Next) -> Next
    ensures { result ≡ unless_running state next }
{
    if is_running(state) { Next::Stays } else { next }
}

impl<F: LineWriter, H: Search> Keeper<F, H> {
    /// A conversation begins.
    pub(crate) fn greet<D: Disk>(&mut self, disk: &mut D, conn: ConnId) -> Outcome
        requires stands { D.tells → (m : Machine) × Represents (view_of self.old) (D.view disk.old) m }
        requires room { 1 ≤ room (view_of self.old) }
        ensures done { (now : TimeSpec) → DoesRequest D.tells now conn requests.Hello result (view_of self.old) (view_of self.new) (D.view disk.old) (D.view disk.new) }
    {
        self.enter_state(disk, conn, ConnState::Greeted);
        Outcome::Nothing
    }

    /// A command was rejected: in a session that is an event alone, else the connection ends.
    pub(crate) fn reject<D: Disk>(
        &mut self,
        disk: &mut D,
        now: TimeSpec,
        conn: ConnId,
        state: ConnState,
        report: Report,
    ) -> Outcome
        requires timed { IsSome (nanos_of now) }
        requires state { state ≡ (sessions_of (view_of self.old)).states conn }
        requires asked { (message : ClientMessage) × (judged state message ≡ Ok (requests.Reject report)) }
        requires stands { D.tells → (m : Machine) × Represents (view_of self.old) (D.view disk.old) m }
        requires room { 1 ≤ room (view_of self.old) }
        ensures done { DoesRequest D.tells now conn (requests.Reject report) result (view_of self.old) (view_of self.new) (D.view disk.old) (D.view disk.new) }
    {
        let event = Event::Reject {
            at: now,
            peer: peer_of(conn),
            reason: report.reason,
            head: Head {
                submit: report.time,
                info: report.info,
            },
        };
        self.add_event(disk, conn, &event, unless_running(state, Next::Ends))
    }

    /// Something is amiss: in a session that is an event alone, else the connection is one that gave an alert.
    pub(crate) fn alert<D: Disk>(
        &mut self,
        disk: &mut D,
        now: TimeSpec,
        conn: ConnId,
        state: ConnState,
        report: Report,
    ) -> Outcome
        requires timed { IsSome (nanos_of now) }
        requires state { state ≡ (sessions_of (view_of self.old)).states conn }
        requires asked { (message : ClientMessage) × (judged state message ≡ Ok (requests.Alert report)) }
        requires stands { D.tells → (m : Machine) × Represents (view_of self.old) (D.view disk.old) m }
        requires room { 1 ≤ room (view_of self.old) }
        ensures done { DoesRequest D.tells now conn (requests.Alert report) result (view_of self.old) (view_of self.new) (D.view disk.old) (D.view disk.new) }
    {
        let event = Event::Alert {
            at: now,
            peer: peer_of(conn),
            reason: report.reason,
            head: Head {
                submit: report.time,
                info: report.info,
            },
        };
        self.add_event(
            disk,
            conn,
            &event,
            unless_running(state, Next::Enters(ConnState::Alerted)),
        )
    }

    /// Adds the line of an event, and then does this; where the line can't be added, the connection is refused.
    pub(crate) fn add_event<D: Disk>(
        &mut self,
        disk: &mut D,
        conn: ConnId,
        event: &Event,
        next: Next,
    ) -> Outcome
        requires timed { IsTimed event.now }
        requires writes_none { EntersNoLog next }
        requires stands { D.tells → (m : Machine) × Represents (view_of self.old) (D.view disk.old) m }
        requires room { 1 ≤ room (view_of self.old) }
        ensures { (now : TimeSpec) (asked : Request) → DoesCall D.tells now conn (λ m job. AsksFor (m.states conn) job.body asked × IsEventOf (settings_of (view_of self.old)) now conn (m.states conn) asked (line_of (view_of self.old).kind event.now) next m)
            (conn ∷ []) (Unit {0}) (IsFaultRefusal result) result (view_of self.old) (view_of self.new) (D.view disk.old) (D.view disk.new) }
    {
        if let Err(why) = self.add_line(disk, conn, event) {
            self.enter_state(disk, conn, ConnState::Dead);
            return Outcome::Refused(why);
        }
        match next {
            Next::Stays => Outcome::Nothing,
            Next::Enters(state) => {
                self.enter_state(disk, conn, state);
                Outcome::Nothing
            }
            Next::Ends => {
                self.enter_state(disk, conn, ConnState::Dead);
                Outcome::Shut
            }
        }
    }
}
