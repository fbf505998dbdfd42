//! A pair: a client's link, and the link to the other server that was dialled for it.

ghost use Rattle.std.specs.Prelude.{◌≡◌, ◌≢◌, ◌⊎◌, ℕ, ◌+◌, ◌<◌, ◌≤◌, List, [], ◌++◌, length, drop, true, false, None, Some, Ok};
ghost use Rattle.lsv_live.specs.Meter.{answer, heard_by, judge};
ghost use Rattle.lsv_live.specs.Pairs.{AllTaken, AreSent, CauseOf, Has, IsCalm, IsFinished, IsHearing, IsNew, IsNoticed, IsSettled, IsWhole, MayLeave, PairAt, PairStands, SameLinks, Touches};
ghost use Rattle.lsv_live.specs.Relays.{RelaysAt};
ghost use Rattle.lsv_live.specs.Story.{bytes_of};
ghost use Rattle.lsv_live.specs.declared.live.Down.{Down};
ghost use Rattle.lsv_live.specs.declared.meter.Meter.{Meter};
ghost use Rattle.lsv_port.specs.Ledger.{Continues};
ghost use Rattle.lsv_port.specs.Port.{LinkState, PortState, TellsReadable, is_over};
ghost use Rattle.lsv_wire.specs.Frame.{frame_of, IsMessage, IsPartial};

use crate::end::{Came, End, PIECE};
use crate::{Down, Live, LiveFault, Meter, Trouble};
use lsv_port::Port;
use std::alloc::Global;

/// A link isn't read while this many bytes are unsent to its partner.
const LADEN: usize = 65_536;

/// How often a link is read in one pass.
const MOST_READS: u32 = 16;

/// A pair of links.
#[derive(Debug, Drop)]
pub struct Pair {
    pub(crate) client: End,
    pub(crate) upstream: End,
    pub(crate) live: Live,
    pub(crate) is_dialled: bool,
    /// Nothing more is passed on.
    pub(crate) is_leaving: bool,
    pub(crate) trouble: Option<Trouble>,
}

impl Pair {
    /// A client's link that was just opened, and the link that was dialled for it.
    pub fn new(alloc: Global, client: u32, upstream: u32) -> Self
        ensures stands { (c u : LinkState) → IsNew c → IsNew u → PairStands result c u }
        ensures hearing { IsHearing result }
        ensures taken { AllTaken result }
        ensures numbers { (result.client.number ≡ client) × (result.upstream.number ≡ upstream) × (result.is_dialled ≡ true) }
    {
        Pair {
            client: End::new(alloc, client),
            upstream: End::new(alloc, upstream),
            live: Live::new(alloc),
            is_dialled: true,
            is_leaving: false,
            trouble: None,
        }
    }

    /// A client's link that was just opened, if dialling for it failed: the client is told that the other server is lost.
    pub fn lost(alloc: Global, client: u32) -> Self
        ensures stands { (c u : LinkState) → IsNew c → PairStands result c u }
        ensures hearing { IsHearing result }
        ensures taken { AllTaken result }
        ensures numbers { (result.client.number ≡ client) × (result.upstream.number ≡ client) × (result.is_dialled ≡ false) }
    {
        let mut pair = Pair {
            client: End::new(alloc, client),
            upstream: End::none(alloc, client),
            live: Live::new(alloc),
            is_dialled: false,
            is_leaving: true,
            trouble: None,
        };
        pair.client.is_deaf = true;
        pair.tell(Trouble::RelayLost);
        pair
    }

    /// The client is told of a trouble, if memory suffices. Else that is the trouble.
    fn tell(&mut self, trouble: Trouble)
        requires leaving { self.old.is_leaving ≡ true }
        ensures goes { (c u : LinkState) → self.old.trouble ≡ None → PairStands self.old c u → CauseOf (Some trouble) self.old u → PairStands self.new c u }
        ensures same { SameLinks self.old self.new }
        ensures trouble { (self.new.trouble ≡ Some trouble) ⊎ (self.new.trouble ≡ Some Trouble.NoMem) }
        ensures kept { self.new.trouble ≢ Some Trouble.NoMem → self.new.client.is_cut ≡ true → self.new.client.is_open ≡ false }
        ensures stays { (self.new.is_leaving ≡ true) × (self.new.live ≡ self.old.live) × (self.new.upstream ≡ self.old.upstream) }
        ensures client { (self.new.client.rest ≡ self.old.client.rest) × (self.new.client.is_deaf ≡ self.old.client.is_deaf) }
    {
        if self.client.say_trouble(&trouble) {
            self.trouble = Some(trouble);
            return;
        }
        self.trouble = Some(Trouble::NoMem);
    }

    /// A trouble arose: the client is told, and nothing more is passed on.
    fn leave(&mut self, trouble: Trouble)
        requires may { MayLeave trouble self.old }
        ensures goes { (c u : LinkState) → PairStands self.old c u → CauseOf (Some trouble) self.old u → PairStands self.new c u }
        ensures same { SameLinks self.old self.new }
        ensures leaving { self.new.is_leaving ≡ true }
        ensures hearing { IsHearing self.new }
        ensures trouble { (self.new.trouble ≡ Some trouble) ⊎ (self.new.trouble ≡ Some Trouble.NoMem) }
        ensures rest { self.new.client.rest ≡ self.old.client.rest }
        ensures upstream { self.new.upstream ≡ self.old.upstream }
    {
        self.client.is_deaf = true;
        self.is_leaving = true;
        self.tell(trouble);
    }

    /// The client's next message, of this length, is passed on as it came. False if memory ran out.
    fn hand(&mut self, message_length: usize) -> bool
        requires within { 4 + message_length ≤ length self.old.client.rest }
        ensures goes { (c u : LinkState) (now : Meter) (body rest : List ℕ) → self.old.is_leaving ≡ false → PairStands self.old c u → IsMessage body → length body ≡ message_length → self.old.client.rest ≡ frame_of body ++ rest → judge self.old.live body ≡ Ok now → PairStands (record self.new { live = now }) c u }
        ensures same { SameLinks self.old self.new }
        ensures rest { self.new.client.rest ≡ drop (4 + message_length) self.old.client.rest }
        ensures upstream_rest { self.new.upstream.rest ≡ self.old.upstream.rest }
        ensures stays { (self.new.live ≡ self.old.live) × (self.new.is_leaving ≡ self.old.is_leaving) × (self.new.trouble ≡ self.old.trouble) }
        ensures deaf { (self.new.client.is_deaf ≡ self.old.client.is_deaf) × (self.new.upstream.is_deaf ≡ self.old.upstream.is_deaf) }
        ensures whole { result ≡ true → IsWhole self.old → IsWhole self.new }
    {
        let said = self
            .upstream
            .say(&self.client.rest.held()[..4 + message_length]);
        self.client.pass_over(message_length);
        said
    }

    /// Passes on the client's next message. False if there is none, or the pair leaves.
    fn hand_one(&mut self) -> bool
        requires going { self.old.is_leaving ≡ false }
        requires hearing { IsHearing self.old }
        requires noticed { IsNoticed self.old }
        ensures goes { (c u : LinkState) → PairStands self.old c u → PairStands self.new c u }
        ensures same { SameLinks self.old self.new }
        ensures hearing { IsHearing self.new }
        ensures less { result ≡ true → (length self.new.client.rest < length self.old.client.rest) × (self.new.is_leaving ≡ false) }
        ensures settled { result ≡ false → self.new.is_leaving ≡ false → IsPartial self.new.client.rest }
        ensures upstream_rest { self.new.upstream.rest ≡ self.old.upstream.rest }
    {
        match self.client.rest.peek() {
            Ok(None) => {
                return false;
            }
            Ok(Some(body)) => {
                let length = body.len();
                match self.live.judge(body) {
                    Ok(meter) => {
                        let said = self.hand(length);
                        self.live.advance(meter);
                        if said {
                            return true;
                        }
                        self.leave(Trouble::NoMem);
                        return false;
                    }
                    Err(LiveFault::NoMem) => {
                        self.leave(Trouble::NoMem);
                        return false;
                    }
                    Err(fault) => {
                        self.leave(Trouble::Refused(fault));
                        return false;
                    }
                }
            }
            Err(_) => {
                self.leave(Trouble::TooLarge);
                return false;
            }
        }
    }

    /// Passes on all whole messages of the client.
    fn hand_on(&mut self)
        requires going { self.old.is_leaving ≡ false }
        requires hearing { IsHearing self.old }
        requires noticed { IsNoticed self.old }
        ensures goes { (c u : LinkState) → PairStands self.old c u → PairStands self.new c u }
        ensures same { SameLinks self.old self.new }
        ensures hearing { IsHearing self.new }
        ensures settled { self.new.is_leaving ≡ false → IsPartial self.new.client.rest }
        ensures upstream_rest { self.new.upstream.rest ≡ self.old.upstream.rest }
    {
        'messages: while self.hand_one() {}
    }

    /// A message of the other server, of this length, is passed over, and these bytes are said to the client. False if
    /// memory ran out.
    fn hear(&mut self, message_length: usize, bytes: &[u8]) -> bool
        requires within { 4 + message_length ≤ length self.old.upstream.rest }
        ensures goes { (c u : LinkState) (down : Down) (body rest : List ℕ) → self.old.is_leaving ≡ false → PairStands self.old c u → IsMessage body → length body ≡ message_length → self.old.upstream.rest ≡ frame_of body ++ rest → answer self.old.live body ≡ Ok down → bytes.now ≡ bytes_of (Ok down) → PairStands (record self.new { live = heard_by self.old.live body }) c u }
        ensures same { SameLinks self.old self.new }
        ensures rest { self.new.upstream.rest ≡ drop (4 + message_length) self.old.upstream.rest }
        ensures client_rest { self.new.client.rest ≡ self.old.client.rest }
        ensures stays { (self.new.live ≡ self.old.live) × (self.new.is_leaving ≡ self.old.is_leaving) × (self.new.trouble ≡ self.old.trouble) }
        ensures deaf { (self.new.client.is_deaf ≡ self.old.client.is_deaf) × (self.new.upstream.is_deaf ≡ self.old.upstream.is_deaf) }
        ensures whole { result ≡ true → IsWhole self.old → IsWhole self.new }
    {
        let said = self.client.say(bytes);
        self.upstream.pass_over(message_length);
        said
    }
    /// The other server's next message, of this length, was answered so. False if the pair leaves.
    fn heard(&mut self, message_length: usize, down: &Down, meter: Meter) -> bool
        requires within { 4 + message_length ≤ length self.old.upstream.rest }
        requires going { self.old.is_leaving ≡ false }
        requires hearing { IsHearing self.old }
        requires noticed { IsNoticed self.old }
        ensures goes { (c u : LinkState) (body rest : List ℕ) → PairStands self.old c u → IsMessage body → length body ≡ message_length → self.old.upstream.rest ≡ frame_of body ++ rest → answer self.old.live body ≡ Ok down.now → meter ≡ heard_by self.old.live body → PairStands self.new c u }
        ensures same { SameLinks self.old self.new }
        ensures hearing { IsHearing self.new }
        ensures less { result ≡ true → (length self.new.upstream.rest < length self.old.upstream.rest) × (self.new.is_leaving ≡ false) }
        ensures settled { result ≡ false → IsSettled self.new }
        ensures client_rest { self.new.client.rest ≡ self.old.client.rest }
    {
        let said = self.hear(message_length, down.frame());
        self.live.advance(meter);
        if !said {
            self.leave(Trouble::NoMem);
            return false;
        }
        if down.is_last() {
            self.leave(Trouble::Told);
            return false;
        }
        true
    }

    /// Takes the other server's next message. False if there is none, or the pair leaves.
    fn hear_one(&mut self) -> bool
        requires going { self.old.is_leaving ≡ false }
        requires hearing { IsHearing self.old }
        requires noticed { IsNoticed self.old }
        ensures goes { (c u : LinkState) → PairStands self.old c u → PairStands self.new c u }
        ensures same { SameLinks self.old self.new }
        ensures hearing { IsHearing self.new }
        ensures less { result ≡ true → (length self.new.upstream.rest < length self.old.upstream.rest) × (self.new.is_leaving ≡ false) }
        ensures settled { result ≡ false → IsSettled self.new }
        ensures client_rest { self.new.client.rest ≡ self.old.client.rest }
    {
        match self.upstream.rest.peek() {
            Ok(None) => {
                return false;
            }
            Ok(Some(body)) => {
                let length = body.len();
                match self.live.answer(body) {
                    Ok((down, meter)) => {
                        return self.heard(length, &down, meter);
                    }
                    Err(LiveFault::NoMem) => {
                        self.leave(Trouble::NoMem);
                        return false;
                    }
                    Err(_) => {
                        self.leave(Trouble::BadUpstream);
                        return false;
                    }
                }
            }
            Err(_) => {
                self.leave(Trouble::BadUpstream);
                return false;
            }
        }
    }

    /// Takes all whole messages of the other server.
    fn hear_on(&mut self)
        requires going { self.old.is_leaving ≡ false }
        requires hearing { IsHearing self.old }
        requires noticed { IsNoticed self.old }
        ensures goes { (c u : LinkState) → PairStands self.old c u → PairStands self.new c u }
        ensures same { SameLinks self.old self.new }
        ensures hearing { IsHearing self.new }
        ensures settled { IsSettled self.new }
        ensures client_rest { self.new.client.rest ≡ self.old.client.rest }
    {
        'messages: while self.hear_one() {}
    }

    /// Nothing more is passed on, and the client is told no error.
    fn leave_quietly(&mut self)
        requires going { self.old.is_leaving ≡ false }
        requires hearing { IsHearing self.old }
        requires may { (self.old.upstream.is_over ≡ true → self.old.live.has_left ≡ true) × (self.old.upstream.is_over ≡ false → IsFinished self.old) }
        ensures goes { (c u : LinkState) → PairStands self.old c u → PairStands self.new c u }
        ensures same { SameLinks self.old self.new }
        ensures hearing { IsHearing self.new }
        ensures is { self.new ≡ record self.old { client = record self.old.client { is_deaf = true }; is_leaving = true } }
    {
        self.client.is_deaf = true;
        self.is_leaving = true;
    }

    /// If the other server is lost, nothing more is passed on. The client is told, unless an exit or a reject was passed on.
    fn notice<P: Port>(&mut self, port: &P)
        requires at { P.tells → PairAt self.old (P.state port.now) }
        requires hearing { IsHearing self.old }
        requires taken { AllTaken self.old }
        ensures at { P.tells → PairAt self.new (P.state port.now) }
        ensures same { SameLinks self.old self.new }
        ensures hearing { IsHearing self.new }
        ensures taken { AllTaken self.new }
        ensures upstream { self.new.upstream ≡ self.old.upstream }
        ensures noticed { IsNoticed self.new }
        ensures stays { self.new.is_leaving ≡ false → self.old.is_leaving ≡ false }
    {
        if self.is_leaving {
            return;
        }
        if !self.upstream.is_over {
            return;
        }
        if self.live.has_left() {
            self.leave_quietly();
            return;
        }
        self.leave(Trouble::RelayLost);
    }

    /// Sends what is unsent to the other server.
    fn send_up<P: Port>(&mut self, port: &mut P)
        requires at { P.tells → PairAt self.old (P.state port.old) }
        requires hearing { IsHearing self.old }
        requires taken { AllTaken self.old }
        ensures at { P.tells → PairAt self.new (P.state port.new) }
        ensures touches { P.tells → Touches self.old self.new (P.state port.old) (P.state port.new) }
        ensures hearing { IsHearing self.new }
        ensures taken { AllTaken self.new }
        ensures stays { (self.new.is_leaving ≡ self.old.is_leaving) × (self.new.client ≡ self.old.client) }
        ensures written { P.tells → self.new.is_leaving ≡ false → self.new.upstream.is_open ≡ true → ((P.state port.new).link self.old.upstream.number).full ≡ false → self.new.upstream.unsent ≡ [] }
        ensures continues { Continues (P.ledger port.old) (P.ledger port.new) }
    {
        if self.is_leaving {
            return;
        }
        self.upstream.send(port);
    }

    /// Sends what is unsent to the client.
    fn send_down<P: Port>(&mut self, port: &mut P)
        requires at { P.tells → PairAt self.old (P.state port.old) }
        requires hearing { IsHearing self.old }
        requires taken { AllTaken self.old }
        ensures at { P.tells → PairAt self.new (P.state port.new) }
        ensures touches { P.tells → Touches self.old self.new (P.state port.old) (P.state port.new) }
        ensures hearing { IsHearing self.new }
        ensures taken { AllTaken self.new }
        ensures stays { (self.new.is_leaving ≡ self.old.is_leaving) × (self.new.upstream ≡ self.old.upstream) }
        ensures kept { P.tells → self.old.is_dialled ≡ true → (P.state port.new).link self.old.upstream.number ≡ (P.state port.old).link self.old.upstream.number }
        ensures written { P.tells → self.new.client.is_open ≡ true → ((P.state port.new).link self.old.client.number).full ≡ false → self.new.client.unsent ≡ [] }
        ensures continues { Continues (P.ledger port.old) (P.ledger port.new) }
    {
        self.client.send(port);
    }

    /// The link to the other server is closed, once nothing more is passed on.
    fn close_up<P: Port>(&mut self, port: &mut P)
        requires at { P.tells → PairAt self.old (P.state port.old) }
        requires hearing { IsHearing self.old }
        requires taken { AllTaken self.old }
        requires leaving { self.old.is_leaving ≡ true }
        ensures at { P.tells → PairAt self.new (P.state port.new) }
        ensures touches { P.tells → Touches self.old self.new (P.state port.old) (P.state port.new) }
        ensures hearing { IsHearing self.new }
        ensures taken { AllTaken self.new }
        ensures stays { (self.new.is_leaving ≡ true) × (self.new.upstream.is_open ≡ false) × (self.new.client ≡ self.old.client) }
        ensures kept { P.tells → (P.state port.new).link self.old.client.number ≡ (P.state port.old).link self.old.client.number }
        ensures continues { Continues (P.ledger port.old) (P.ledger port.new) }
    {
        if self.upstream.is_open {
            self.upstream.close(port);
            return;
        }
    }

    /// The client's link is closed, once all was sent.
    fn close_down<P: Port>(&mut self, port: &mut P)
        requires at { P.tells → PairAt self.old (P.state port.old) }
        requires hearing { IsHearing self.old }
        requires taken { AllTaken self.old }
        requires leaving { (self.old.is_leaving ≡ true) × (self.old.upstream.is_open ≡ false) }
        requires written { P.tells → AreSent self.old (P.state port.old) }
        ensures at { P.tells → PairAt self.new (P.state port.new) }
        ensures touches { P.tells → Touches self.old self.new (P.state port.old) (P.state port.new) }
        ensures hearing { IsHearing self.new }
        ensures taken { AllTaken self.new }
        ensures leaving { self.new.is_leaving ≡ true }
        ensures written { P.tells → AreSent self.new (P.state port.new) }
        ensures continues { Continues (P.ledger port.old) (P.ledger port.new) }
    {
        if !self.client.is_open {
            return;
        }
        if self.client.unsent.as_slice().is_empty() {
            self.client.close(port);
            return;
        }
    }

    /// If all of a client that is over was sent, nothing more is passed on.
    fn rest_if_over(&mut self)
        requires hearing { IsHearing self.old }
        requires taken { AllTaken self.old }
        requires noticed { IsNoticed self.old }
        ensures goes { (c u : LinkState) → PairStands self.old c u → PairStands self.new c u }
        ensures same { SameLinks self.old self.new }
        ensures hearing { IsHearing self.new }
        ensures taken { AllTaken self.new }
        ensures unsent { (self.new.client.unsent ≡ self.old.client.unsent) × (self.new.upstream ≡ self.old.upstream) }
        ensures stays { self.new.is_leaving ≡ false → self.old.is_leaving ≡ false }
    {
        if self.is_leaving {
            return;
        }
        if self.client.is_over && self.upstream.unsent.as_slice().is_empty() {
            self.leave_quietly();
            return;
        }
    }

    /// If the pair leaves, its links are closed as far as all was sent.
    fn finish<P: Port>(&mut self, port: &mut P)
        requires at { P.tells → PairAt self.old (P.state port.old) }
        requires hearing { IsHearing self.old }
        requires taken { AllTaken self.old }
        requires noticed { IsNoticed self.old }
        requires client { P.tells → self.old.client.is_open ≡ true → ((P.state port.old).link self.old.client.number).full ≡ false → self.old.client.unsent ≡ [] }
        requires upstream { P.tells → self.old.is_leaving ≡ false → self.old.upstream.is_open ≡ true → ((P.state port.old).link self.old.upstream.number).full ≡ false → self.old.upstream.unsent ≡ [] }
        ensures at { P.tells → PairAt self.new (P.state port.new) }
        ensures touches { P.tells → Touches self.old self.new (P.state port.old) (P.state port.new) }
        ensures hearing { IsHearing self.new }
        ensures taken { AllTaken self.new × IsNoticed self.new }
        ensures written { P.tells → AreSent self.new (P.state port.new) }
        ensures continues { Continues (P.ledger port.old) (P.ledger port.new) }
    {
        self.rest_if_over();
        if !self.is_leaving {
            return;
        }
        self.close_up(port);
        self.close_down(port);
    }

    /// Sends what is unsent on both links, and closes them as far as they may be closed.
    fn send<P: Port>(&mut self, port: &mut P)
        requires at { P.tells → PairAt self.old (P.state port.old) }
        requires hearing { IsHearing self.old }
        requires taken { AllTaken self.old }
        ensures at { P.tells → PairAt self.new (P.state port.new) }
        ensures touches { P.tells → Touches self.old self.new (P.state port.old) (P.state port.new) }
        ensures hearing { IsHearing self.new }
        ensures taken { AllTaken self.new × IsNoticed self.new }
        ensures written { P.tells → AreSent self.new (P.state port.new) }
        ensures continues { Continues (P.ledger port.old) (P.ledger port.new) }
    {
        self.send_up(port);
        self.notice(port);
        self.send_down(port);
        self.finish(port);
    }

    /// Reads the client's link once, and passes on what came whole.
    fn read_client<P: Port>(&mut self, port: &mut P, buffer: &mut [u8; PIECE])
        requires at { P.tells → PairAt self.old (P.state port.old) }
        requires hearing { IsHearing self.old }
        requires taken { AllTaken self.old × IsNoticed self.old }
        ensures at { P.tells → PairAt self.new (P.state port.new) }
        ensures touches { P.tells → Touches self.old self.new (P.state port.old) (P.state port.new) }
        ensures hearing { IsHearing self.new }
        ensures taken { AllTaken self.new × IsNoticed self.new }
        ensures continues { Continues (P.ledger port.old) (P.ledger port.new) }
    {
        if !self.client.is_open {
            return;
        }
        if !self.client.is_owed {
            return;
        }
        if self.upstream.unsent.as_slice().len() >= LADEN {
            return;
        }
        match self.client.read(port, buffer) {
            Came::Bytes => {
                if self.is_leaving {
                    return;
                }
                self.hand_on();
                return;
            }
            Came::Nothing => {
                return;
            }
            Came::Over => {
                return;
            }
            Came::NoMem => {
                if self.is_leaving {
                    return;
                }
                self.leave(Trouble::NoMem);
                return;
            }
        }
    }

    /// Reads the link to the other server once, and takes what came whole.
    fn read_upstream<P: Port>(&mut self, port: &mut P, buffer: &mut [u8; PIECE])
        requires at { P.tells → PairAt self.old (P.state port.old) }
        requires hearing { IsHearing self.old }
        requires taken { AllTaken self.old × IsNoticed self.old }
        ensures at { P.tells → PairAt self.new (P.state port.new) }
        ensures touches { P.tells → Touches self.old self.new (P.state port.old) (P.state port.new) }
        ensures hearing { IsHearing self.new }
        ensures taken { AllTaken self.new }
        ensures continues { Continues (P.ledger port.old) (P.ledger port.new) }
    {
        if self.is_leaving {
            return;
        }
        if !self.upstream.is_open {
            return;
        }
        if !self.upstream.is_owed {
            return;
        }
        if self.client.unsent.as_slice().len() >= LADEN {
            return;
        }
        match self.upstream.read(port, buffer) {
            Came::Bytes => {
                self.hear_on();
                return;
            }
            Came::Nothing => {
                return;
            }
            Came::Over => {
                return;
            }
            Came::NoMem => {
                self.leave(Trouble::NoMem);
                return;
            }
        }
    }

    /// Whether no link is to be read now: each that is owed a read waits for its partner, to which 65,536 bytes are unsent.
    pub fn is_calm(&self) -> bool
        ensures { result ≡ true → IsCalm self.now }
    {
        if self.client.is_open
            && self.client.is_owed
            && self.upstream.unsent.as_slice().len() < LADEN
        {
            return false;
        }
        if self.upstream.is_open
            && self.upstream.is_owed
            && self.client.unsent.as_slice().len() < LADEN
        {
            return false;
        }
        true
    }

    /// The link of this number is owed a read from now on. False if it is none of the pair's.
    pub fn mark(&mut self, number: u32) -> bool
        requires hearing { IsHearing self.old }
        requires taken { AllTaken self.old × IsNoticed self.old }
        ensures hearing { IsHearing self.new }
        ensures taken { AllTaken self.new × IsNoticed self.new }
        ensures goes { (s t : PortState) → result ≡ true → TellsReadable number s t → PairAt self.old s → PairAt self.new t }
        ensures touches { (s t : PortState) → result ≡ true → TellsReadable number s t → Touches self.old self.new s t }
        ensures other { result ≡ false → self.new ≡ self.old }
        ensures none { result ≡ false → Has self.old number → ⊥ }
    {
        if self.client.number == number {
            self.mark_client();
            return true;
        }
        if self.is_dialled && self.upstream.number == number {
            self.upstream.is_owed = true;
            return true;
        }
        false
    }

    /// The client's link is owed a read from now on, unless no more comes.
    fn mark_client(&mut self)
        ensures is { self.new ≡ record self.old { client = record self.old.client { is_owed = self.new.client.is_owed } } }
        ensures owed { self.old.client.is_over ≡ false → self.new.client.is_owed ≡ true }
        ensures over { self.old.client.is_over ≡ true → self.new ≡ self.old }
    {
        if !self.client.is_over {
            self.client.is_owed = true;
        }
    }

    /// Sends and reads on both links, as far as it may.
    pub fn pass<P: Port>(&mut self, port: &mut P, buffer: &mut [u8; PIECE])
        requires at { P.tells → PairAt self.old (P.state port.old) }
        requires hearing { IsHearing self.old }
        requires taken { AllTaken self.old }
        ensures at { P.tells → PairAt self.new (P.state port.new) }
        ensures touches { P.tells → Touches self.old self.new (P.state port.old) (P.state port.new) }
        ensures hearing { IsHearing self.new }
        ensures taken { AllTaken self.new × IsNoticed self.new }
        ensures written { P.tells → AreSent self.new (P.state port.new) }
        ensures continues { Continues (P.ledger port.old) (P.ledger port.new) }
    {
        self.send(port);
        'reads: for _ in 0..MOST_READS {
            if self.is_calm() {
                return;
            }
            self.read_client(port, buffer);
            self.read_upstream(port, buffer);
            self.send(port);
        }
    }

    /// The port has told Stop, or has failed: the client's link is closed.
    fn shut_client<P: Port>(&mut self, port: &mut P)
        requires at { P.tells → PairAt self.old (P.state port.old) }
        requires over { P.tells → is_over (P.state port.old) ≡ true }
        requires relays { P.tells → RelaysAt self.old (P.state port.old) }
        ensures at { P.tells → PairAt self.new (P.state port.new) }
        ensures relays { P.tells → RelaysAt self.new (P.state port.new) }
        ensures touches { P.tells → Touches self.old self.new (P.state port.old) (P.state port.new) }
        ensures over { P.tells → is_over (P.state port.new) ≡ true }
        ensures closed { self.new.client.is_open ≡ false }
        ensures continues { Continues (P.ledger port.old) (P.ledger port.new) }
    {
        if self.client.is_open {
            self.client.close(port);
            return;
        }
    }

    /// The same of the link to the other server.
    fn shut_upstream<P: Port>(&mut self, port: &mut P)
        requires at { P.tells → PairAt self.old (P.state port.old) }
        requires over { P.tells → is_over (P.state port.old) ≡ true }
        requires relays { P.tells → RelaysAt self.old (P.state port.old) }
        ensures relays { P.tells → RelaysAt self.new (P.state port.new) }
        ensures touches { P.tells → Touches self.old self.new (P.state port.old) (P.state port.new) }
        ensures closed { self.new.upstream.is_open ≡ false }
        ensures client { self.new.client ≡ self.old.client }
        ensures continues { Continues (P.ledger port.old) (P.ledger port.new) }
    {
        if self.upstream.is_open {
            self.upstream.close(port);
            return;
        }
    }

    /// The port has told Stop, or has failed: both links are closed.
    pub fn close<P: Port>(&mut self, port: &mut P)
        requires at { P.tells → PairAt self.old (P.state port.old) }
        requires hearing { IsHearing self.old }
        requires taken { AllTaken self.old × IsNoticed self.old }
        requires written { P.tells → AreSent self.old (P.state port.old) }
        requires over { P.tells → is_over (P.state port.old) ≡ true }
        ensures relays { P.tells → RelaysAt self.new (P.state port.new) }
        ensures touches { P.tells → Touches self.old self.new (P.state port.old) (P.state port.new) }
        ensures closed { (self.new.client.is_open ≡ false) × (self.new.upstream.is_open ≡ false) }
        ensures continues { Continues (P.ledger port.old) (P.ledger port.new) }
    {
        self.note_relays(port);
        self.shut_client(port);
        self.shut_upstream(port);
    }

    /// What the pair relayed so far. It does nothing when it runs.
    fn note_relays<P: Port>(&self, port: &P)
        requires at { P.tells → PairAt self.now (P.state port.now) }
        requires hearing { IsHearing self.now }
        requires taken { AllTaken self.now × IsNoticed self.now }
        requires written { P.tells → AreSent self.now (P.state port.now) }
        ensures { P.tells → RelaysAt self.now (P.state port.now) }
    {
        let _ = self;
        let _ = port;
    }

    /// Whether no link of it is open.
    pub fn is_done(&self) -> bool
        ensures { result ≡ true → (self.now.client.is_open ≡ false) × (self.now.upstream.is_open ≡ false) }
    {
        !self.client.is_open && !self.upstream.is_open
    }

    /// How many bytes it holds: of what was read and not taken, and of what was said and isn't put.
    pub fn holds(&self) -> usize
        ensures count { result ≡ length self.now.client.rest + length self.now.client.unsent + length self.now.upstream.rest + length self.now.upstream.unsent }
        ensures most { result ≤ 9043976 }
    {
        self.client.rest.len()
            + self.client.unsent.len()
            + self.upstream.rest.len()
            + self.upstream.unsent.len()
    }
}
