//! Accepts: an event alone, or a log that is opened.

ghost use Rattle.std.specs.Prelude.{◌≡◌, ◌≤◌, false, [], None, Ok, IfErr, IfOk, IsSome, OnErr, vec_capacity, ◌∷◌, IsErrOf};
ghost use Rattle.lsv_base.specs.LogNo.{digits_of};
ghost use Rattle.lsv_base.specs.Time.{nanos_of};
ghost use Rattle.lsv_mask.specs.Masking.{seen};
ghost use Rattle.lsv_msg.specs.declared.messages.ClientMessage.{ClientMessage};
ghost use Rattle.lsv_request.specs.declared.request.Request.TheVariants as requests;
ghost use Rattle.lsv_machine.specs.Failures.{MayDraw};
ghost use Rattle.lsv_machine.specs.Judgement.{judged};
ghost use Rattle.lsv_machine.specs.Machine.{Machine, is_running};
ghost use Rattle.lsv_machine.specs.Work.{draws, last_number};
ghost use Rattle.lsv_keeper.specs.Accepting.{Begun, DrawsNone, Stopped, accept_of, create_refusal, draw_refusal};
ghost use Rattle.lsv_keeper.specs.Calls.{ReservesLog};
ghost use Rattle.lsv_keeper.specs.Frames.{CallKeeps, DrawKeeps};
ghost use Rattle.lsv_keeper.specs.Jobs.{DoesRequest};
ghost use Rattle.lsv_keeper.specs.Represents.{Represents};
ghost use Rattle.lsv_keeper.specs.Value.{room, sessions_of, settings_of};
ghost use Rattle.lsv_keeper.specs.Views.{view_of};
ghost use Rattle.lsv_keeper.specs.Syncing.{IsPast};

use crate::Keeper;
use crate::logs::OpenLog;
use crate::outcome::Outcome;
use crate::report::{Next, peer_of, unless_running};
use lsv_base::{Bytes, LogNo, NoMem, TimeSpec};
use lsv_disk::Disk;
use lsv_event::Event;
use lsv_hook::LineWriter;
use lsv_info::Head;
use lsv_iolog::{IoLog, LogFault};
use lsv_machine::{is_running, log_of};
use lsv_mask::{Mask, Search};
use lsv_request::{Accept, Refusal};
use lsv_seq::DrawFault;
use lsv_session::{ConnId, ConnState};

/// What is made for a log before its number is drawn.
#[derive(Drop)]
struct Prepared {
    mask: Mask,
    /// Room for the text of its identifier.
    id: Vec<u8>,
}

/// A log that was opened, with the text of its identifier.
#[derive(Drop)]
struct Opened {
    number: LogNo,
    id: Bytes,
}

/// Why no number was drawn, as the connection is answered.
fn draw_refusal(fault: DrawFault) -> Refusal
    ensures { result ≡ draw_refusal fault }
{
    match fault {
        DrawFault::Spent(_) => Refusal::NumbersSpent,
        DrawFault::Disk | DrawFault::Changed { .. } => Refusal::DeviceFault,
    }
}

/// Why a log wasn't made, as the connection is answered.
fn create_refusal(fault: LogFault) -> Refusal
    ensures { result ≡ create_refusal fault }
{
    match fault {
        LogFault::Full(_) => Refusal::LogFull,
        LogFault::NoMem => Refusal::OutOfMemory,
        _ => Refusal::DeviceFault,
    }
}

/// The text of an identifier, for which there is room.
fn id_text(room: Vec<u8>, number: LogNo) -> Bytes
    requires empty { room.items ≡ [] }
    requires enough { 6 ≤ vec_capacity room }
    ensures { result ≡ digits_of number }
{
    let mut text = room;
    let _ = text.extend_from_slice(&number.digits());
    Bytes::from_vec(text)
}

impl<F: LineWriter, H: Search> Keeper<F, H> {
    /// A command was accepted: in a session, and where no records will follow, that is an event alone; else a log is opened,
    /// which the connection writes from now on.
    pub(crate) fn accept<D: Disk>(
        &mut self,
        disk: &mut D,
        now: TimeSpec,
        conn: ConnId,
        state: ConnState,
        accept: Accept,
    ) -> Outcome
        requires timed { IsSome (nanos_of now) }
        requires state { state ≡ (sessions_of (view_of self.old)).states conn }
        requires asked { (message : ClientMessage) × (judged state message ≡ Ok (requests.Accept accept)) }
        requires stands { D.tells → (m : Machine) × Represents (view_of self.old) (D.view disk.old) m }
        requires room { 1 ≤ room (view_of self.old) }
        ensures done { DoesRequest D.tells now conn (requests.Accept accept) result (view_of self.old) (view_of self.new) (D.view disk.old) (D.view disk.new) }
    {
        let Accept {
            head,
            expect_iobufs,
        } = accept;
        // The table says what `state` is, which the borrow checker lets be handed on once.
        if !is_running(self.table.state(conn)) && expect_iobufs {
            return self.accept_log(disk, now, conn, head);
        }
        let event = Event::Accept {
            at: now,
            peer: peer_of(conn),
            log: log_of(state),
            head,
        };
        let next = Next::Enters(ConnState::Running(None));
        let next = unless_running(self.table.state(conn), next);
        self.add_event(disk, conn, &event, next)
    }

    /// A log is opened, and the connection gets its identifier; or the connection is refused.
    fn accept_log<D: Disk>(
        &mut self,
        disk: &mut D,
        now: TimeSpec,
        conn: ConnId,
        head: Head,
    ) -> Outcome
        requires timed { IsSome (nanos_of now) }
        requires submit { IsSome (nanos_of head.submit) }
        requires free { is_running ((sessions_of (view_of self.old)).states conn) ≡ false }
        requires stands { D.tells → (m : Machine) × Represents (view_of self.old) (D.view disk.old) m }
        requires room { 1 ≤ room (view_of self.old) }
        ensures done { DoesRequest D.tells now conn (requests.Accept (accept_of head)) result (view_of self.old) (view_of self.new) (D.view disk.old) (D.view disk.new) }
    {
        match self.open_log(disk, now, conn, head) {
            Ok(opened) => Outcome::Log(opened.number, opened.id),
            Err(why) => {
                self.enter_state(disk, conn, ConnState::Dead);
                Outcome::Refused(why)
            }
        }
    }

    /// A log of this head is made, with a number drawn for it, its event line is added, and the connection, which writes no
    /// log, writes it. A log whose line isn't added stays, and nobody writes it.
    fn open_log<D: Disk>(
        &mut self,
        disk: &mut D,
        now: TimeSpec,
        conn: ConnId,
        head: Head,
    ) -> Result<Opened, Refusal>
        requires timed { IsSome (nanos_of now) }
        requires submit { IsSome (nanos_of head.submit) }
        requires free { is_running ((sessions_of (view_of self.old)).states conn) ≡ false }
        requires stands { D.tells → (m : Machine) × Represents (view_of self.old) (D.view disk.old) m }
        requires room { 1 ≤ room (view_of self.old) }
        ensures frame { CallKeeps D.tells (conn ∷ []) (Unit {0}) (IsErrOf result Refusal.DeviceFault) (view_of self.old) (view_of self.new) (D.view disk.old) (D.view disk.new) }
        ensures room { OnErr result (room (view_of self.new) ≡ room (view_of self.old)) }
        ensures id { IfOk result (λ opened. opened.id ≡ digits_of opened.number) }
        ensures begun { D.tells → IfOk result (λ opened. (m : Machine) → Represents (view_of self.old) (D.view disk.old) m
            → Begun (view_of self.old) now conn opened.number head m (view_of self.new) (D.view disk.old) (D.view disk.new)) }
        ensures stopped { D.tells → IfErr result (λ why. (m : Machine) → Represents (view_of self.old) (D.view disk.old) m
            → Stopped (view_of self.old) now conn (m.states conn) head m why (view_of self.new) (D.view disk.old) (D.view disk.new)) }
    {
        let Ok(prepared) = self.prepare() else {
            return Err(Refusal::OutOfMemory);
        };
        let number = self.draw(disk)?;
        // If the disk tells its files, nobody writes this log: a number is drawn once. A disk that tells nothing may have lost
        // its numbers, and a log that is being written isn't made again.
        if self.table.owner(number).is_some() {
            return Err(Refusal::LogInUse);
        }
        let log = match IoLog::create(self.alloc, disk, number, &head) {
            Ok(log) => log,
            Err(fault) => return Err(create_refusal(fault)),
        };
        let event = Event::Accept {
            at: now,
            peer: peer_of(conn),
            log: Some(number),
            head,
        };
        self.add_line(disk, conn, &event)?;
        let Prepared { mask, id } = prepared;
        self.own(conn, number, OpenLog { log, mask });
        Ok(Opened {
            number,
            id: id_text(id, number),
        })
    }

    /// Makes what can be made of a log before its number is drawn, so that no number is wasted for want of that memory.
    fn prepare(&mut self) -> Result<Prepared, NoMem>
        ensures reserved { ReservesLog result (view_of self.old) (view_of self.new) }
        ensures mask { IfOk result (λ prepared. prepared.mask ≡ seen (view_of self.old).texts []) }
        ensures id { IfOk result (λ prepared. (prepared.id.items ≡ []) × (6 ≤ vec_capacity prepared.id)) }
    {
        self.reserve_log()?;
        let mask = Mask::new(self.alloc, &self.texts)?;
        let id = Vec::with_capacity(self.alloc, 6)?;
        Ok(Prepared { mask, id })
    }

    /// Draws the next number. Nothing but the numbers is otherwise.
    fn draw<D: Disk>(&mut self, disk: &mut D) -> Result<LogNo, Refusal>
        requires stands { D.tells → (m : Machine) × Represents (view_of self.old) (D.view disk.old) m }
        ensures frame { DrawKeeps D.tells (IsErrOf result Refusal.DeviceFault) (view_of self.old) (view_of self.new) (D.view disk.old) (D.view disk.new) }
        ensures within { IfOk result (λ n. n ≤ last_number) }
        ensures drawn { D.tells → IfOk result (λ n. (m : Machine) → Represents (view_of self.old) (D.view disk.old) m
            → MayDraw (settings_of (view_of self.old)) m n × Represents (view_of self.new) (D.view disk.new) (draws n m)) }
        ensures none { D.tells → IfErr result (λ why. (m : Machine) → Represents (view_of self.old) (D.view disk.old) m
            → DrawsNone (view_of self.old) m why (view_of self.new) (D.view disk.old) (D.view disk.new)) }
        ensures fresh { D.tells → IfOk result (λ n. (m : Machine) → Represents (view_of self.old) (D.view disk.old) m → IsPast (view_of self.old).numbers n → ⊥) }
    {
        match self.numbers.draw(disk) {
            Ok(number) => Ok(number),
            Err(fault) => Err(draw_refusal(fault)),
        }
    }
}
