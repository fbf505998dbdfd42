//! What is handed out of a log, and what the server's messages change.
ghost use Rattle.std.specs.Prelude.{◌≡◌, ◌≢◌, ◌≤◌, ◌<◌, ◌↔◌, ◌++◌, [], length, false, Err, None, IfOk, IfErr, OnOk, OnErr, IsTrue, List};
ghost use Rattle.lsv_base.specs.Outside.{HasCause};
ghost use Rattle.lsv_disk.specs.Throughout.{OnlyReads};
ghost use Rattle.lsv_disk.specs.View.{HasOwnCause};
ghost use Rattle.lsv_disk.specs.declared.file.Part.{Part};
ghost use Rattle.lsv_disk.specs.declared.file.Part.TheVariants as parts;
ghost use Rattle.lsv_iolog.specs.Faults.{IsNextFault};
ghost use Rattle.lsv_iolog.specs.Recovered.{IsOfLog};
ghost use Rattle.lsv_iolog.specs.declared.fault.ViewFault.TheVariants as views;
ghost use Rattle.lsv_dialogue.specs.Events.{Event, all_said};
ghost use Rattle.lsv_dialogue.specs.Judging.{judged_at};
ghost use Rattle.lsv_send.specs.Judging.{hears, hears_late, is_done};
ghost use Rattle.lsv_send.specs.Lines.{line_of};
ghost use Rattle.lsv_transcript.specs.Transcript.{is_id};
ghost use Rattle.lsv_send.specs.Print.{IsPrintFault, PrintsSome};
ghost use Rattle.lsv_send.specs.Faults.{IsStuck, LacksExit};
ghost use Rattle.lsv_send.specs.Handing.{CanRecord, IsExitBy, IsPast, IsQuiet, Source, wants_at};
ghost use Rattle.lsv_send.specs.Reached.{commits, is_point};
ghost use Rattle.lsv_send.specs.Talks.{Ends, IsOf, KeepsStart, Told, ended_by, far_of, most_of, start_at};
ghost use Rattle.lsv_send.specs.declared.fault.SendFault.TheVariants as faults;

use crate::fault::SendFault;
use crate::look::check_uncut;
use crate::messages::ending;
use crate::print::print;
use lsv_base::{List, Point, Sink};
use lsv_dialogue::{Judged, Wants, judge};
use lsv_disk::Disk;
use lsv_info::Exit;
use lsv_iolog::{LogView, ViewFault};
use lsv_msg::{ClientMessage, ServerMessage};
use lsv_transcript::next_messages;
use std::alloc::Global;
use std::mem;

/// How far a log was handed out.
#[derive(Clone, Copy, Debug, PartialEq, Eq)]
pub enum Place {
    /// Nothing was.
    Opening,
    /// The opening was, and an identifier of the server is waited for.
    Waiting,
    /// The opening was, and the records so far.
    Records,
    /// All was, by the last answer.
    Closing,
    /// All was, by an earlier answer.
    Over,
}

/// Hands out a log. It holds one batch of messages at most.
#[derive(Drop)]
pub struct Sender {
    pub alloc: Global,
    pub log: LogView,
    /// What is handed out first.
    pub opening: List<ClientMessage>,
    /// The place after the opening.
    pub begins: Place,
    /// The elapsed time up to which records are handed out, if there is one; then no exit is.
    pub stop: Option<Point>,
    pub place: Place,
    /// The elapsed time of the records that were handed out or passed over, in nanoseconds.
    pub sent: u64,
    /// Whether an identifier of the server came.
    pub known: bool,
    /// Whether a record or the exit was handed out.
    pub more: bool,
    /// Whether the exit was.
    pub exited: bool,
    /// Whether a commit point at `sent` came after the last message that was handed out.
    pub reached: bool,
}

impl Sender {
    /// What it makes of a message: an identifier may be too long, and a commit point above what was sent.
    pub fn judge(&self, message: &ServerMessage) -> Judged
        ensures { result ≡ judged_at self.now.sent message.now }
    {
        judge(self.sent, message)
    }

    /// What it wants: to go on, until all that is waited for came. That is the last commit point, or, if neither a record
    /// nor an exit was sent, the identifier. Then it wants the connection's end if it sent an exit, since a server ends
    /// the connection once it took that; and else nothing.
    pub fn wants(&self) -> Wants
        ensures { result ≡ wants_at (far_of self.now) }
    {
        if self.place != Place::Over || (self.more && !self.reached) {
            Wants::More
        } else if self.exited {
            Wants::End
        } else {
            Wants::Nothing
        }
    }

    /// Prints the line of a message, and takes it.
    pub fn hear<K: Sink>(&mut self, sink: &mut K, m: &ServerMessage) -> Result<(), SendFault>
        ensures ok { OnOk result (self.new ≡ hears m.now self.old) }
        ensures put { K.tells → OnOk result (K.put sink.new ≡ K.put sink.old ++ line_of m.now) }
        ensures some { K.tells → OnErr result (PrintsSome (line_of m.now) (K.put sink.old) (K.put sink.new)) }
        ensures fault { IfErr result IsPrintFault }
        ensures cause { HasCause (result ≡ Err faults.Sink) (K.faults sink.old) (K.faults sink.new) }
    {
        print(self.alloc, sink, m)?;
        self.known = self.known || is_id(m);
        self.reached = self.reached || commits(self.sent, m);
        Ok(())
    }

    /// Does so with a message that came when not all that was said had been put: a commit point isn't the one that is
    /// waited for then.
    pub fn hear_late<K: Sink>(&mut self, sink: &mut K, m: &ServerMessage) -> Result<(), SendFault>
        ensures ok { OnOk result (self.new ≡ hears_late m.now self.old) }
        ensures put { K.tells → OnOk result (K.put sink.new ≡ K.put sink.old ++ line_of m.now) }
        ensures some { K.tells → OnErr result (PrintsSome (line_of m.now) (K.put sink.old) (K.put sink.new)) }
        ensures fault { IfErr result IsPrintFault }
        ensures cause { HasCause (result ≡ Err faults.Sink) (K.faults sink.old) (K.faults sink.new) }
    {
        print(self.alloc, sink, m)?;
        self.known = self.known || is_id(m);
        Ok(())
    }

    /// Hands out what may be said next after the opening: at most `most` messages.
    pub fn say<D: Disk>(
        &mut self,
        disk: &mut D,
        most: usize,
    ) -> Result<List<ClientMessage>, ViewFault>
        requires some { 0 < most }
        ensures told { D.tells → IfOk result (λ ms. (source : Source) (begun : D) (events : List Event) → IsOf source self.old → Told (start_at source (D.view begun)) self.old (D.view disk.old) events → Told (start_at source (D.view begun)) self.new (D.view disk.new) (events ++ all_said ms)) }
        ensures start { IfOk result (λ _. KeepsStart self.old self.new) }
        ensures few { IfOk result (λ ms. length ms ≤ most) }
        ensures quiet { IfOk result (λ ms. ms ≡ [] → self.old.place ≢ Place.Opening → IsQuiet (far_of self.new)) }
        ensures busy { IfOk result (λ ms. ms ≢ [] → is_done self.new.place ≡ false) }
        ensures opened { OnOk result (self.old.place ≢ Place.Opening → self.new.place ≢ Place.Opening) }
        ensures reads { D.tells → OnlyReads (D.view disk.old) (D.view disk.new) }
        ensures going { IfErr result (λ _. CanRecord self.old.place self.old.known) }
        ensures stuck { D.tells → IfErr result (λ fault. (source : Source) (begun : D) (events : List Event) → IsOf source self.old → (t : Told (start_at source (D.view begun)) self.old (D.view disk.old) events) → IsStuck source (D.view begun).reads (source.skipped ++ t.hands.more) fault) }
        ensures fault { IfErr result IsNextFault }
        ensures cause { HasOwnCause (IsOfLog self.old.log.number) (result ≡ Err views.Disk) (D.view disk.old) (D.view disk.new) }
    {
        match self.place {
            Place::Opening => Ok(List::new(self.alloc)),
            Place::Waiting if !self.known => Ok(List::new(self.alloc)),
            Place::Waiting | Place::Records => self.say_records(disk, most),
            Place::Closing | Place::Over => {
                self.place = Place::Over;
                Ok(List::new(self.alloc))
            }
        }
    }

    /// Hands out the opening.
    pub fn say_opening(&mut self) -> List<ClientMessage>
        ensures { (result ≡ self.old.opening) × (self.new ≡ record self.old { opening = []; place = self.old.begins; reached = false }) }
    {
        self.place = self.begins;
        self.reached = false;
        mem::replace(&mut self.opening, List::new(self.alloc))
    }

    /// Hands out the next records, or after the last one the ending. They are read, then the log is looked at again, and
    /// only then are they said: the law `a_log_that_was_not_cut_reads_the_same` of lsv_play says why.
    fn say_records<D: Disk>(
        &mut self,
        disk: &mut D,
        most: usize,
    ) -> Result<List<ClientMessage>, ViewFault>
        requires place { CanRecord self.old.place self.old.known }
        requires some { 0 < most }
        ensures told { D.tells → IfOk result (λ ms. (source : Source) (begun : D) (events : List Event) → IsOf source self.old → Told (start_at source (D.view begun)) self.old (D.view disk.old) events → Told (start_at source (D.view begun)) self.new (D.view disk.new) (events ++ all_said ms)) }
        ensures start { IfOk result (λ _. KeepsStart self.old self.new) }
        ensures few { IfOk result (λ ms. length ms ≤ most) }
        ensures quiet { IfOk result (λ ms. ms ≡ [] → self.new.place ≡ Place.Over) }
        ensures busy { IfOk result (λ ms. ms ≢ [] → is_done self.new.place ≡ false) }
        ensures opened { OnOk result (self.new.place ≢ Place.Opening) }
        ensures reads { D.tells → OnlyReads (D.view disk.old) (D.view disk.new) }
        ensures stuck { D.tells → IfErr result (λ fault. (source : Source) (begun : D) (events : List Event) → IsOf source self.old → (t : Told (start_at source (D.view begun)) self.old (D.view disk.old) events) → IsStuck source (D.view begun).reads (source.skipped ++ t.hands.more) fault) }
        ensures fault { IfErr result IsNextFault }
        ensures cause { HasOwnCause (IsOfLog self.old.log.number) (result ≡ Err views.Disk) (D.view disk.old) (D.view disk.new) }
    {
        let said = self.hand_records(disk, most);
        check_uncut(disk, &self.log)?;
        said
    }

    /// Hands out the next records, or after the last one the ending.
    fn hand_records<D: Disk>(
        &mut self,
        disk: &mut D,
        most: usize,
    ) -> Result<List<ClientMessage>, ViewFault>
        requires place { CanRecord self.old.place self.old.known }
        requires some { 0 < most }
        ensures told { D.tells → IfOk result (λ ms. (source : Source) (begun : D) (events : List Event) → IsOf source self.old → Told (start_at source (D.view begun)) self.old (D.view disk.old) events → Told (start_at source (D.view begun)) self.new (D.view disk.new) (events ++ all_said ms)) }
        ensures same { (self.new.log.number ≡ self.old.log.number) × (self.new.log.body ≡ self.old.log.body) }
        ensures start { IfOk result (λ _. KeepsStart self.old self.new) }
        ensures few { IfOk result (λ ms. length ms ≤ most) }
        ensures quiet { IfOk result (λ ms. ms ≡ [] → self.new.place ≡ Place.Over) }
        ensures busy { IfOk result (λ ms. ms ≢ [] → is_done self.new.place ≡ false) }
        ensures opened { OnOk result (self.new.place ≢ Place.Opening) }
        ensures reads { D.tells → OnlyReads (D.view disk.old) (D.view disk.new) }
        ensures stuck { D.tells → IfErr result (λ fault. (source : Source) (begun : D) (events : List Event) → IsOf source self.old → (t : Told (start_at source (D.view begun)) self.old (D.view disk.old) events) → IsStuck source (D.view begun).reads (source.skipped ++ t.hands.more) fault) }
        ensures fault { IfErr result IsNextFault }
        ensures cause { HasOwnCause (IsOfLog self.old.log.number) (result ≡ Err views.Disk) (D.view disk.old) (D.view disk.new) }
    {
        let most = self.most(most);
        let batch = next_messages(self.alloc, disk, &mut self.log, most)?;
        if batch.messages.as_slice().is_empty() {
            return self.say_ending(disk);
        }
        let through = self.sent.saturating_add(batch.elapsed);
        if self.is_past(through) {
            return self.say_ending(disk);
        }
        self.sent = through;
        self.place = Place::Records;
        self.more = true;
        self.reached = false;
        Ok(batch.messages)
    }

    /// The most records that are handed out at once, of this number: with a stop one, since the next may end after it.
    fn most(&self, most: usize) -> usize
        ensures { result ≡ most_of self.now.stop most }
    {
        match self.stop {
            Some(_) => 1,
            None => most,
        }
    }

    /// Whether an elapsed time is after the stop.
    fn is_past(&self, through: u64) -> bool
        ensures { IsTrue result ↔ IsPast self.now.stop through }
    {
        match self.stop {
            Some(stop) => stop.nanos() < through,
            None => false,
        }
    }

    /// Hands out the exit, if one is to be sent.
    fn say_ending<D: Disk>(&mut self, disk: &mut D) -> Result<List<ClientMessage>, ViewFault>
        ensures ends { D.tells → IfOk result (λ ms. Ends self.old self.new (D.view disk.old).reads ms) }
        ensures same { (self.new.log.number ≡ self.old.log.number) × (self.new.log.body ≡ self.old.log.body) }
        ensures start { IfOk result (λ _. KeepsStart self.old self.new) }
        ensures few { IfOk result (λ ms. length ms ≤ 1) }
        ensures quiet { IfOk result (λ ms. ms ≡ [] → self.new.place ≡ Place.Over) }
        ensures busy { IfOk result (λ ms. ms ≢ [] → is_done self.new.place ≡ false) }
        ensures opened { OnOk result (self.new.place ≢ Place.Opening) }
        ensures reads { D.tells → OnlyReads (D.view disk.old) (D.view disk.new) }
        ensures damaged { D.tells → (part : Part) → result ≡ Err (views.Damaged part) → (part ≡ parts.Exit) × (self.old.stop ≡ None) × LacksExit self.old.log.number self.old.log.body (D.view disk.old).reads }
        ensures fault { IfErr result IsNextFault }
        ensures cause { HasOwnCause (IsOfLog self.old.log.number) (result ≡ Err views.Disk) (D.view disk.old) (D.view disk.new) }
    {
        let last = self.last_exit(disk)?;
        let is_last = last.is_some();
        let messages = ending(self.alloc, last)?;
        self.end(is_last);
        Ok(messages)
    }

    /// The exit that is to be sent, if there is one.
    fn last_exit<D: Disk>(&mut self, disk: &mut D) -> Result<Option<Exit>, ViewFault>
        ensures last { D.tells → IfOk result (IsExitBy self.old.stop self.old.log.number self.old.log.body (D.view disk.old).reads) }
        ensures same { self.new ≡ self.old }
        ensures reads { D.tells → OnlyReads (D.view disk.old) (D.view disk.new) }
        ensures damaged { D.tells → (part : Part) → result ≡ Err (views.Damaged part) → (part ≡ parts.Exit) × (self.old.stop ≡ None) × LacksExit self.old.log.number self.old.log.body (D.view disk.old).reads }
        ensures fault { IfErr result IsNextFault }
        ensures cause { HasOwnCause (IsOfLog self.old.log.number) (result ≡ Err views.Disk) (D.view disk.old) (D.view disk.new) }
    {
        match self.stop {
            Some(_) => Ok(None),
            None => self.log.exit(disk),
        }
    }

    /// All was handed out, and an exit or not.
    fn end(&mut self, is_last: bool)
        ensures { self.new ≡ ended_by is_last self.old }
    {
        if is_last {
            self.place = Place::Closing;
            self.more = true;
            self.exited = true;
            self.reached = false;
        } else {
            self.place = Place::Over;
        }
    }
}

/// Whether a message brings an identifier.
fn is_id(m: &ServerMessage) -> bool
    ensures { result ≡ is_id m.now }
{
    match m {
        ServerMessage::LogId(_) => true,
        ServerMessage::Hello(_)
        | ServerMessage::CommitPoint(_)
        | ServerMessage::Error(_)
        | ServerMessage::Abort(_) => false,
    }
}

/// Whether a message is a commit point at this elapsed time.
fn commits(sent: u64, m: &ServerMessage) -> bool
    ensures { result ≡ commits sent m.now }
{
    match m {
        ServerMessage::CommitPoint(time) => is_point(sent, time.point()),
        ServerMessage::Hello(_)
        | ServerMessage::LogId(_)
        | ServerMessage::Error(_)
        | ServerMessage::Abort(_) => false,
    }
}

/// Whether a commit point is this elapsed time.
fn is_point(sent: u64, point: Option<Point>) -> bool
    ensures { result ≡ is_point sent point }
{
    match point {
        Some(point) => point.nanos() == sent,
        None => false,
    }
}
