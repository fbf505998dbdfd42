//! A run whose store is open.

ghost use Rattle.std.specs.Prelude.{◌≡◌, ◌≤◌, ◌<◌, ◌^◌, ◌++◌, ℕ, List, [], ◌∷◌, false, length, IfErr, OnOk, OnErr};
ghost use Rattle.lsv_wire.specs.Frame.{frame_of};
ghost use Rattle.lsv_msg.specs.Messages.{server_bytes};
ghost use Rattle.lsv_session.specs.Connections.{server_hello};
ghost use Rattle.lsv_session.specs.Transcript.{frames_of, said_to};
ghost use Rattle.lsv_session.specs.declared.job.Body.TheVariants as bodies;
ghost use Rattle.lsv_turn.specs.Turns.{LaneTurn};
ghost use Rattle.lsv_once.specs.InnerRun.{AnswerEnds, Ended, HelloEnds, Serves, TurnMade, UnderWay, unput};
ghost use Rattle.lsv_once.specs.Course.{jobs_of, once_conn, shuts};
ghost use Rattle.lsv_once.specs.World.{wires_of};

use crate::answers::{put_hello, put_replies, shuts, write_answers};
use crate::once::OnceEnd;
use crate::reader::{JobReader, put_job};
use lsv_base::{Bytes, NoMem, Sink, Source};
use lsv_session::{Body, ConnId, Job, Reply};
use lsv_turn::Lane;
use std::alloc::Global;

/// The one connection.
pub(crate) const CONN: ConnId = ConnId { worker: 0, seq: 1 };

/// At most this many bytes are read at a time.
const PIECE: usize = 65_536;

/// How the reading of a run ended.
#[derive(Clone, Copy, Debug)]
pub(crate) enum ReadsEnd {
    /// The connection has still to go.
    Open(OnceEnd),
    /// It was shut, or memory is out: there is no further turn.
    Last(OnceEnd),
}

/// A run whose store is open: its lane, the reader of its pieces, and the replies of a turn with their bytes.
#[derive(Drop)]
pub(crate) struct OnceRun<L> {
    pub alloc: Global,
    pub lane: L,
    pub reader: JobReader,
    pub replies: Vec<Reply>,
    pub answers: Bytes,
}

impl<L: Lane> OnceRun<L> {
    pub fn new(alloc: Global, lane: L) -> Self
        ensures lane { result.lane ≡ lane }
        ensures unread { result.reader.kept ≡ [] }
        ensures over { result.reader.is_over ≡ false }
        ensures answers { result.answers ≡ [] }
    {
        OnceRun {
            alloc,
            lane,
            reader: JobReader::new(alloc),
            replies: Vec::new(alloc),
            answers: Bytes::new(alloc),
        }
    }

    /// Gives back its lane.
    pub fn into_lane(self) -> L
        ensures { result ≡ self.lane }
    {
        self.lane
    }

    /// Serves the connection until it ends, and releases it.
    pub fn serve<S: Source, K: Sink>(&mut self, source: &mut S, sink: &mut K) -> OnceEnd
        requires unread { self.old.reader.kept ≡ [] }
        requires not_over { self.old.reader.is_over ≡ false }
        requires answers { self.old.answers ≡ [] }
        requires begun { (start : L.Start) × L.made_by start self.old.lane [] }
        ensures { (start : L.Start) → L.made_by start self.old.lane [] →
            Serves (L.made_by start self.new.lane) (wires_of ⟦<S as Source>⟧ ⟦<K as Sink>⟧ source.old sink.old) (wires_of ⟦<S as Source>⟧ ⟦<K as Sink>⟧ source.new sink.new) result }
    {
        match self.take_in(source, sink) {
            ReadsEnd::Last(end) => end,
            ReadsEnd::Open(end) => match self.release() {
                Ok(()) => end,
                Err(_) => OnceEnd::NoMem,
            },
        }
    }

    /// Puts the server's hello, and serves the connection until its reads end.
    fn take_in<S: Source, K: Sink>(&mut self, source: &mut S, sink: &mut K) -> ReadsEnd
        requires unread { self.old.reader.kept ≡ [] }
        requires not_over { self.old.reader.is_over ≡ false }
        requires answers { self.old.answers ≡ [] }
        requires begun { (start : L.Start) × L.made_by start self.old.lane [] }
        ensures { (start : L.Start) → L.made_by start self.old.lane [] →
            Ended (L.made_by start self.new.lane) (wires_of ⟦<S as Source>⟧ ⟦<K as Sink>⟧ source.old sink.old) (wires_of ⟦<S as Source>⟧ ⟦<K as Sink>⟧ source.new sink.new) result }
    {
        match self.greet(sink) {
            Ok(()) => self.read(source, sink),
            Err(end) => end,
        }
    }

    /// Puts the server's hello.
    fn greet<K: Sink>(&mut self, sink: &mut K) -> Result<(), ReadsEnd>
        requires { self.old.answers ≡ [] }
        ensures put { K.tells → OnOk result (K.put sink.new ≡ K.put sink.old ++ frame_of (server_bytes server_hello)) }
        ensures ends { IfErr result (HelloEnds K.tells (K.put sink.old) (K.put sink.new) (K.faults sink.old) (K.faults sink.new)) }
        ensures faults { K.faults sink.old ≤ K.faults sink.new }
        ensures lane { self.new.lane ≡ self.old.lane }
        ensures reader { self.new.reader ≡ self.old.reader }
    {
        let Ok(()) = put_hello(self.alloc, &mut self.answers) else {
            return Err(ReadsEnd::Last(OnceEnd::NoMem));
        };
        let Ok(()) = sink.write(self.answers.as_slice()) else {
            return Err(ReadsEnd::Open(OnceEnd::WriteFault));
        };
        Ok(())
    }

    /// Reads piece after piece, and does a turn of each, until the connection ends.
    fn read<S: Source, K: Sink>(&mut self, source: &mut S, sink: &mut K) -> ReadsEnd
        requires known { (start : L.Start) × (s : S) × (k : K) × UnderWay (L.made_by start self.old.lane) (wires_of ⟦<S as Source>⟧ ⟦<K as Sink>⟧ s k) (wires_of ⟦<S as Source>⟧ ⟦<K as Sink>⟧ source.old sink.old) self.old.reader.is_over self.old.reader.kept }
        ensures { (start : L.Start) (s : S) (k : K) → UnderWay (L.made_by start self.old.lane) (wires_of ⟦<S as Source>⟧ ⟦<K as Sink>⟧ s k) (wires_of ⟦<S as Source>⟧ ⟦<K as Sink>⟧ source.old sink.old) self.old.reader.is_over self.old.reader.kept →
            Ended (L.made_by start self.new.lane) (wires_of ⟦<S as Source>⟧ ⟦<K as Sink>⟧ s k) (wires_of ⟦<S as Source>⟧ ⟦<K as Sink>⟧ source.new sink.new) result }
    {
        let Ok(mut buf) = vec![in self.alloc; 0u8; PIECE] else {
            return ReadsEnd::Last(OnceEnd::NoMem);
        };
        self.read_into(source, sink, &mut buf)
    }

    /// Reads each piece into this buffer, and does a turn of it, until the connection ends.
    fn read_into<S: Source, K: Sink>(
        &mut self,
        source: &mut S,
        sink: &mut K,
        buf: &mut [u8],
    ) -> ReadsEnd
        requires room { 0 < length buf.old }
        requires small { length buf.old ≤ 65536 }
        requires known { (start : L.Start) × (s : S) × (k : K) × UnderWay (L.made_by start self.old.lane) (wires_of ⟦<S as Source>⟧ ⟦<K as Sink>⟧ s k) (wires_of ⟦<S as Source>⟧ ⟦<K as Sink>⟧ source.old sink.old) self.old.reader.is_over self.old.reader.kept }
        ensures { (start : L.Start) (s : S) (k : K) → UnderWay (L.made_by start self.old.lane) (wires_of ⟦<S as Source>⟧ ⟦<K as Sink>⟧ s k) (wires_of ⟦<S as Source>⟧ ⟦<K as Sink>⟧ source.old sink.old) self.old.reader.is_over self.old.reader.kept →
            Ended (L.made_by start self.new.lane) (wires_of ⟦<S as Source>⟧ ⟦<K as Sink>⟧ s k) (wires_of ⟦<S as Source>⟧ ⟦<K as Sink>⟧ source.new sink.new) result }
    {
        loop {
            if let Err(end) = self.read_piece(source, sink, buf) {
                return end;
            }
        }
    }

    /// Reads a piece, does a turn of the jobs that it completes, and puts the answers. If the reads end, it says how.
    fn read_piece<S: Source, K: Sink>(
        &mut self,
        source: &mut S,
        sink: &mut K,
        buf: &mut [u8],
    ) -> Result<(), ReadsEnd>
        requires room { 0 < length buf.old }
        requires small { length buf.old ≤ 65536 }
        requires known { (start : L.Start) × (s : S) × (k : K) × UnderWay (L.made_by start self.old.lane) (wires_of ⟦<S as Source>⟧ ⟦<K as Sink>⟧ s k) (wires_of ⟦<S as Source>⟧ ⟦<K as Sink>⟧ source.old sink.old) self.old.reader.is_over self.old.reader.kept }
        ensures on { OnOk result ((start : L.Start) (s : S) (k : K) →
            UnderWay (L.made_by start self.old.lane) (wires_of ⟦<S as Source>⟧ ⟦<K as Sink>⟧ s k) (wires_of ⟦<S as Source>⟧ ⟦<K as Sink>⟧ source.old sink.old) self.old.reader.is_over self.old.reader.kept →
            UnderWay (L.made_by start self.new.lane) (wires_of ⟦<S as Source>⟧ ⟦<K as Sink>⟧ s k) (wires_of ⟦<S as Source>⟧ ⟦<K as Sink>⟧ source.new sink.new) self.new.reader.is_over self.new.reader.kept) }
        ensures ends { IfErr result (λ end. (start : L.Start) (s : S) (k : K) →
            UnderWay (L.made_by start self.old.lane) (wires_of ⟦<S as Source>⟧ ⟦<K as Sink>⟧ s k) (wires_of ⟦<S as Source>⟧ ⟦<K as Sink>⟧ source.old sink.old) self.old.reader.is_over self.old.reader.kept →
            Ended (L.made_by start self.new.lane) (wires_of ⟦<S as Source>⟧ ⟦<K as Sink>⟧ s k) (wires_of ⟦<S as Source>⟧ ⟦<K as Sink>⟧ source.new sink.new) end) }
        ensures progress { OnOk result (S.count source.old < S.count source.new) }
        ensures limit { S.count source.new < 2 ^ 63 }
    {
        let Ok(count) = source.read(buf) else {
            return Err(ReadsEnd::Open(OnceEnd::ReadFault));
        };
        if count == 0 {
            return Err(ReadsEnd::Open(OnceEnd::Served));
        }
        let Ok(jobs) = self.reader.take(&buf[..count]) else {
            return Err(ReadsEnd::Last(OnceEnd::NoMem));
        };
        let Ok(()) = self.turn(jobs) else {
            return Err(ReadsEnd::Last(OnceEnd::NoMem));
        };
        if let Err(end) = self.answer(sink) {
            return Err(end);
        }
        Ok(())
    }

    /// Does a turn of these jobs. Its replies are kept.
    fn turn(&mut self, jobs: Vec<Job>) -> Result<(), NoMem>
        requires begun { (start : L.Start) × (turns : List LaneTurn) × L.made_by start self.old.lane turns }
        ensures made { OnOk result (TurnMade (λ start turns. L.made_by start self.old.lane turns) (λ start turns. L.made_by start self.new.lane turns) jobs.items self.new.replies.items) }
        ensures lost { OnErr result ((start : L.Start) (turns : List LaneTurn) → L.made_by start self.old.lane turns → L.made_by start self.new.lane turns) }
        ensures reader { self.new.reader ≡ self.old.reader }
    {
        match self.lane.turn(jobs, None, &mut self.replies) {
            Ok(_) => Ok(()),
            Err(NoMem) => Err(NoMem),
        }
    }

    /// Puts the answers of a turn. If the reads end, it says how.
    fn answer<K: Sink>(&mut self, sink: &mut K) -> Result<(), ReadsEnd>
        ensures on { OnOk result (shuts self.old.replies.items ≡ false) }
        ensures put { K.tells → OnOk result (K.put sink.new ≡ K.put sink.old ++ frames_of (said_to once_conn self.old.replies.items)) }
        ensures ends { IfErr result (AnswerEnds K.tells (shuts self.old.replies.items) (frames_of (said_to once_conn self.old.replies.items)) (K.put sink.old) (K.put sink.new) (K.faults sink.old) (K.faults sink.new)) }
        ensures faults { K.faults sink.old ≤ K.faults sink.new }
        ensures lane { self.new.lane ≡ self.old.lane }
        ensures reader { self.new.reader ≡ self.old.reader }
    {
        self.answers.truncate(0);
        let Ok(()) = put_replies(self.alloc, &mut self.answers, &self.replies) else {
            return Err(ReadsEnd::Last(OnceEnd::NoMem));
        };
        let is_shut = shuts(&self.replies);
        let Ok(()) = write_answers(sink, self.answers.as_slice()) else {
            return Err(unput(is_shut));
        };
        if is_shut {
            return Err(ReadsEnd::Last(OnceEnd::Served));
        }
        Ok(())
    }

    /// A turn with the end of the connection alone.
    fn release(&mut self) -> Result<(), NoMem>
        requires begun { (start : L.Start) × (turns : List LaneTurn) × L.made_by start self.old.lane turns }
        ensures made { OnOk result (TurnMade (λ start turns. L.made_by start self.old.lane turns) (λ start turns. L.made_by start self.new.lane turns) (jobs_of (bodies.Gone ∷ [])) self.new.replies.items) }
        ensures lost { OnErr result ((start : L.Start) (turns : List LaneTurn) → L.made_by start self.old.lane turns → L.made_by start self.new.lane turns) }
    {
        let mut jobs = Vec::new(self.alloc);
        put_job(&mut jobs, Body::Gone)?;
        self.turn(jobs)?;
        Ok(())
    }
}

/// How the reads end if answers couldn't be put.
fn unput(is_shut: bool) -> ReadsEnd
    ensures { result ≡ unput is_shut }
{
    if is_shut {
        ReadsEnd::Last(OnceEnd::WriteFault)
    } else {
        ReadsEnd::Open(OnceEnd::WriteFault)
    }
}
