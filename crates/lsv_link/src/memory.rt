ghost use Rattle.std.specs.Prelude.{◌≡◌, ◌<◌, ◌≤◌, ◌++◌, [], ◌∷◌, ℕ, length, take, drop, false, IsErr, IfOk, OnOk, OnErr, None, Some, List, unwrap_or, vec_len, vec_capacity, slice_get, option_map};
ghost use Rattle.std.specs.Option.{option_copied};
ghost use Rattle.lsv_base.specs.Script.{one_more, script_of};
ghost use Rattle.lsv_port.specs.Port.{TakesWithin, GivesWithin};
ghost use Rattle.lsv_link.specs.Link.{HasConnectCause, HasReadCause, HasWriteCause, Connects, IsConnected, all_of, looks_after, read_on, unused, after_read, after_write, after_renew, after_close};
ghost use Rattle.lsv_link.specs.Memory.{Answers, IsSameScript, Tries, counts_of, due, full_after, gave_of, most, none_of, noted, output_of, took_at, took_of, unread, waits_after};

use crate::{Connection, Link, LinkFault, Look};
use lsv_base::{Bytes, List, NoMem, Script};
use lsv_port::{Gave, Took};
use std::alloc::Global;
use std::marker::Model;

/// What the server of a script sends at a time. A read gives bytes of one answer alone.
#[derive(Debug, Drop)]
pub struct Answer {
    /// It sends it once this many bytes were written on the connection.
    pub hold: u64,
    pub bytes: Bytes,
}

impl Answer {
    /// The answers of a connection that sends these bytes at once.
    pub fn at_once(alloc: Global, bytes: Bytes) -> Result<List<Answer>, NoMem>
        ensures { IfOk result (λ answers. answers ≡ record { hold = 0; bytes = bytes } ∷ []) }
    {
        let mut answers = Vec::new(alloc);
        answers.push(Answer { hold: 0, bytes })?;
        Ok(List::from_vec(answers))
    }
}

/// How the input of a connection is cut.
#[derive(Clone, Copy, Debug, PartialEq, Eq)]
pub enum Cut {
    /// It ends after this many bytes, or after all answers if these are shorter.
    End(u64),
    /// After as many nothing comes any more.
    Silent(u64),
}

/// A link in memory. The connections have the answers and cuts of their places. The calls with the listed numbers
/// fail, counted from 1 over connects, reads and writes; and so does a connect for which there is no answer or no cut.
#[derive(Debug, Drop)]
pub struct MemLink {
    alloc: Global,
    answers: Vec<List<Answer>>,
    cuts: Vec<Cut>,
    /// How many bytes each connection takes in all. One without a number takes all.
    room: Vec<u64>,
    past: Vec<Connection>,
    current: Option<Connection>,
    /// How many failed connections are missing among the past ones, since memory ran out.
    missed: u64,
    script: Script,
    full: u64,
    waits: u64,
}

impl Model for MemLink {
    ghost use Rattle.std.specs.Prelude.{◌<◌, IsSome, vec_len, vec_capacity};
    ghost use Rattle.lsv_link.specs.Memory.{LinkValue, IsPlaced};

    ghost Value = { LinkValue };

    ghost view = { λ l. record { answers = l.answers.items; cuts = l.cuts.items; room = l.room.items; state = record { past = l.past.items; now = l.current; missed = l.missed }; script = l.script; full = l.full; waits = l.waits } };

    ghost invariant = { λ l. IsSome l.current → IsPlaced (vec_len l.past) l.answers.items l.cuts.items × (vec_len l.past < vec_capacity l.past) };
}

impl MemLink {
    /// No connection was made. What is read and written is recorded in memory of `alloc`.
    pub fn new(alloc: Global, answers: Vec<List<Answer>>, cuts: Vec<Cut>, fail: Vec<u64>) -> Self
        ensures answers { result.answers ≡ answers.items }
        ensures cuts { result.cuts ≡ cuts.items }
        ensures room { result.room ≡ [] }
        ensures state { result.state ≡ record { past = []; now = None; missed = 0 } }
        ensures script { result.script ≡ script_of fail.items }
        ensures counts { (result.full ≡ 0) × (result.waits ≡ 0) }
    {
        MemLink {
            alloc,
            answers,
            cuts,
            room: Vec::new(alloc),
            past: Vec::new(alloc),
            current: None,
            missed: 0,
            script: Script::new(fail),
            full: 0,
            waits: 0,
        }
    }

    /// The same, with this much room: each connection takes that many bytes in all, and then a write answers NotYet.
    pub fn with_room(self, room: Vec<u64>) -> Self
        ensures { result ≡ record self { room = room.items } }
    {
        let mut link = self;
        link.room = room;
        link
    }

    /// How many calls failed because memory ran out.
    pub fn refused(&self) -> u64
        ensures { result ≡ self.now.script.refused }
    {
        self.script.refused
    }

    /// How many connections there are: those that were closed or failed, and the open one.
    pub fn connections(&self) -> usize
        ensures { result ≡ length (all_of self.now.state) }
    {
        match self.current {
            Some(_) => self.past.len() + 1,
            None => self.past.len(),
        }
    }

    /// The bytes that were written on a connection, by its place from 0 on.
    pub fn sent(&self, place: usize) -> &[u8]
        requires { place < length (all_of self.now.state) }
        ensures { option_map output_of (slice_get (all_of self.now.state) place) ≡ Some result.now }
    {
        match self.connection(place) {
            Some(conn) => conn.output.as_slice(),
            None => unreachable!(),
        }
    }

    /// A connection by its place, from 0 on: those that were closed or failed, and the open one.
    pub fn connection(&self, place: usize) -> Option<&Connection>
        ensures { option_copied result ≡ slice_get (all_of self.now.state) place }
    {
        if place == self.past.len() {
            return self.current.as_ref();
        }
        self.past.get(place)
    }

    /// Notes whether the last call on the open connection was a read that gave nothing.
    fn note(&mut self, dry: bool)
        ensures { self.new ≡ record self.old { state = record self.old.state { now = option_map (noted dry) self.old.state.now } } }
    {
        if let Some(mut conn) = self.current.take() {
            conn.dry = dry;
            self.current = Some(conn);
        }
    }

    /// Counts a connection that is missing, since memory ran out.
    fn miss(&mut self)
        ensures { self.new ≡ record self.old { state = record self.old.state { missed = one_more self.old.state.missed } } }
    {
        self.missed = self.missed.saturating_add(1);
    }
}

/// An unused connection to this host, and room for one more among these.
fn prepare(alloc: Global, past: &mut Vec<Connection>, host: &str) -> Result<Connection, NoMem>
    ensures unused { IfOk result (λ conn. conn ≡ unused host.now false) }
    ensures room { OnOk result (vec_len past.new < vec_capacity past.new) }
    ensures same { past.new.items ≡ past.old.items }
{
    past.reserve(1)?;
    Ok(Connection {
        host: Bytes::of(alloc, host.as_bytes())?,
        connected: false,
        input: Bytes::new(alloc),
        output: Bytes::new(alloc),
        ended: false,
        dry: false,
        looks: List::new(alloc),
        renewed: 0,
    })
}

/// What may be read next, when this many bytes of the answers were read, and this many were written: what is left of the
/// first answer that wasn't read whole, or nothing, if too little was written for it. None if all was read.
fn due_of(answers: &[Answer], read: usize, put: usize) -> Option<&[u8]>
    ensures { option_copied result ≡ due answers.now read put }
{
    let mut left = read;
    'answers: for answer in answers {
        let bytes = answer.bytes.as_slice();
        if left < bytes.len() {
            if answer.hold <= put as u64 {
                return Some(&bytes[left..]);
            }
            return Some(&[]);
        }
        left -= bytes.len();
    }
    None
}

/// How many bytes a cut lets through.
fn most_of(cut: Cut) -> u64
    ensures { result ≡ most cut }
{
    match cut {
        Cut::End(most) => most,
        Cut::Silent(most) => most,
    }
}

/// The first bytes, as many as there are of that number.
fn first(bytes: &[u8], count: u64) -> &[u8]
    ensures { result.now ≡ take count bytes.now }
{
    &bytes[..bytes.len().min(count as usize)]
}

impl Connection {
    /// Notes a read that gave this many bytes.
    fn note_look(&mut self, wait: bool, came: usize) -> Result<(), NoMem>
        ensures ok { OnOk result (self.new ≡ record self.old { looks = looks_after wait came self.old; renewed = 0 }) }
        ensures none { OnErr result (self.new ≡ self.old) }
    {
        let look = Look {
            put: self.output.as_slice().len(),
            came,
            waited: wait,
            renewed: self.renewed,
        };
        if self.looks.push(look).is_err() {
            return Err(NoMem);
        }
        self.renewed = 0;
        Ok(())
    }

    /// Says that nothing is there, or that the input ended.
    fn give_none(&mut self, wait: bool, ends: bool) -> Result<Took, NoMem>
        ensures answer { IfOk result (λ took. took ≡ none_of ends) }
        ensures read { IfOk result (λ took. (buf : List ℕ) → self.new ≡ read_on took wait buf self.old) }
        ensures none { OnErr result (self.new ≡ self.old) }
    {
        self.note_look(wait, 0)?;
        self.dry = true;
        if !ends {
            return Ok(Took::NotYet);
        }
        self.ended = true;
        Ok(Took::End)
    }

    /// Gives these bytes.
    fn give_some(&mut self, wait: bool, front: &[u8], buf: &mut [u8]) -> Result<Took, NoMem>
        requires fits { length front.now ≤ length buf.old }
        ensures answer { IfOk result (λ took. took ≡ Took.Bytes (length front.now)) }
        ensures read { IfOk result (λ took. self.new ≡ read_on took wait buf.new self.old) }
        ensures given { OnOk result (take (length front.now) buf.new ≡ front.now) }
        ensures none { OnErr result (self.new ≡ self.old) }
    {
        let read = self.input.as_slice().len();
        self.input.add(front)?;
        if let Err(e) = self.note_look(wait, front.len()) {
            self.input.truncate(read);
            return Err(e);
        }
        self.dry = false;
        buf[..front.len()].copy_from_slice(front);
        Ok(Took::Bytes(front.len()))
    }

    /// Gives what fits of the bytes that may be read, up to the cut, or says that there are none. None: all was read.
    fn give(
        &mut self,
        due: Option<&[u8]>,
        cut: Cut,
        wait: bool,
        buf: &mut [u8],
    ) -> Result<Took, NoMem>
        requires room { 0 < length buf.old }
        ensures answer { IfOk result (λ took. took ≡ took_at cut (length self.old.input) (length buf.old) (option_copied due.entry)) }
        ensures read { IfOk result (λ took. self.new ≡ read_on took wait buf.new self.old) }
        ensures given { IfOk result (λ took. (n : ℕ) → took ≡ Took.Bytes n → take n buf.new ≡ take n (unwrap_or (option_copied due.entry) [])) }
        ensures within { IfOk result (λ took. TakesWithin took (length buf.old)) }
        ensures none { OnErr result (self.new ≡ self.old) }
    {
        let most = most_of(cut);
        let read = self.input.as_slice().len() as u64;
        let Some(bytes) = due else {
            return self.give_none(wait, matches!(cut, Cut::End(_)));
        };
        if read >= most {
            return self.give_none(wait, matches!(cut, Cut::End(_)));
        }
        let left = first(bytes, most - read);
        if left.is_empty() {
            return self.give_none(wait, false);
        }
        self.give_some(wait, first(left, buf.len() as u64), buf)
    }
}

impl Link for MemLink {
    ghost tells = { Unit {0} };

    ghost state = { λ l. l.state };

    ghost counts = { counts_of };

    /// It fails as its script says, or if memory runs out.
    fn connect(&mut self, host: &str) -> Result<(), LinkFault>
        ensures change { Connects result host.now self.old.state self.new.state }
        ensures cause { HasConnectCause (IsErr result) (counts_of self.old) (counts_of self.new) }
        ensures tries { Tries (IsErr result) host.now self.old self.new }
        ensures same { IsSameScript self.old self.new }
    {
        self.close();
        let made = prepare(self.alloc, &mut self.past, host);
        if self.script.fails() {
            match made {
                Ok(conn) => self.past.push_reserved(conn),
                Err(NoMem) => {
                    self.script.refused = self.script.refused.saturating_add(1);
                    self.miss();
                }
            }
            return Err(LinkFault);
        }
        let Ok(mut conn) = made else {
            self.script.refuse();
            self.miss();
            return Err(LinkFault);
        };
        if self.past.len() < self.answers.len() && self.past.len() < self.cuts.len() {
            conn.connected = true;
            self.current = Some(conn);
            return Ok(());
        }
        self.script.faults = self.script.faults.saturating_add(1);
        self.past.push_reserved(conn);
        Err(LinkFault)
    }

    /// Gives what is left of an answer up to the cut. It fails as its script says, or if memory runs out.
    fn read(&mut self, buf: &mut [u8], wait: bool) -> Took
        requires connected { IsConnected self.old.state }
        requires room { 0 < length buf.old }
        ensures within { TakesWithin result (length buf.old) }
        ensures change { self.new.state ≡ after_read result wait buf.new self.old.state }
        ensures cause { HasReadCause result wait (counts_of self.old) (counts_of self.new) }
        ensures answer { Answers Took Took.Failed (took_of self.old (length buf.old)) result self.old.script self.new.script }
        ensures given { (n : ℕ) → result ≡ Took.Bytes n → take n buf.new ≡ take n (unread self.old) }
        ensures waits { self.new.waits ≡ waits_after result wait self.old.waits }
        ensures same { IsSameScript self.old self.new }
    {
        if self.script.fails() {
            self.note(true);
            return Took::Failed;
        }
        let place = self.past.len();
        let cut = self.cuts[place];
        let Some(mut conn) = self.current.take() else {
            unreachable!();
        };
        let read = conn.input.as_slice().len();
        let put = conn.output.as_slice().len();
        let due = due_of(self.answers[place].as_slice(), read, put);
        let given = conn.give(due, cut, wait, buf);
        self.current = Some(conn);
        match given {
            Ok(took) => {
                if wait && took == Took::NotYet {
                    self.waits = self.waits.saturating_add(1);
                }
                took
            }
            Err(NoMem) => {
                self.note(true);
                self.script.refuse();
                Took::Failed
            }
        }
    }

    /// Takes what there is room for. It fails as its script says, or if memory runs out.
    fn write(&mut self, bytes: &[u8]) -> Gave
        requires connected { IsConnected self.old.state }
        requires some { 0 < length bytes.now }
        ensures within { GivesWithin result (length bytes.now) }
        ensures change { self.new.state ≡ after_write result bytes.now self.old.state }
        ensures cause { HasWriteCause result (counts_of self.old) (counts_of self.new) }
        ensures answer { Answers Gave Gave.Failed (gave_of self.old (length bytes.now)) result self.old.script self.new.script }
        ensures full { self.new.full ≡ full_after result self.old.full }
        ensures same { IsSameScript self.old self.new }
    {
        if self.script.fails() {
            self.note(false);
            return Gave::Failed;
        }
        let room = self.room.get(self.past.len()).copied().unwrap_or(u64::MAX);
        let Some(mut conn) = self.current.take() else {
            unreachable!();
        };
        let left = room.saturating_sub(conn.output.as_slice().len() as u64);
        let count = bytes.len().min(left as usize);
        conn.dry = false;
        if count == 0 {
            self.current = Some(conn);
            self.full = self.full.saturating_add(1);
            return Gave::NotYet;
        }
        let added = conn.output.add(&bytes[..count]);
        self.current = Some(conn);
        if added.is_err() {
            self.script.refuse();
            return Gave::Failed;
        }
        Gave::Bytes(count)
    }

    fn renew(&mut self)
        requires connected { IsConnected self.old.state }
        ensures change { self.new.state ≡ after_renew self.old.state }
        ensures same { counts_of self.new ≡ counts_of self.old }
        ensures rest { self.new ≡ record self.old { state = self.new.state } }
    {
        if let Some(mut conn) = self.current.take() {
            conn.renewed = conn.renewed.saturating_add(1);
            self.current = Some(conn);
        }
    }

    fn close(&mut self)
        ensures change { self.new.state ≡ after_close self.old.state }
        ensures same { counts_of self.new ≡ counts_of self.old }
        ensures rest { self.new ≡ record self.old { state = self.new.state } }
    {
        if let Some(conn) = self.current.take() {
            self.past.push_reserved(conn);
        }
    }
}
