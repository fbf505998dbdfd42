//! From the replies to a connection to the bytes on its link.

ghost use Rattle.std.specs.Prelude.{◌≡◌, ◌≢◌, ◌⊎◌, ℕ, ◌≤◌, ◌++◌, List, [], length, drop, true, false};
ghost use Rattle.lsv_port.specs.Ledger.{HasLinkCause};
ghost use Rattle.lsv_port.specs.Port.{IsOpen};
ghost use Rattle.lsv_msg.specs.Messages.{server_bytes};
ghost use Rattle.lsv_wire.specs.Frame.{frame_of};
ghost use Rattle.lsv_worker.specs.Outgoing.{Sends, Writes, kept_up};

use lsv_base::Bytes;
use lsv_msg::{ServerMessage, put_server};
use lsv_port::{Gave, Port};
use std::alloc::Global;

/// Whether replies are still sent, or why not.
#[derive(Clone, Copy, Debug, PartialEq, Eq)]
pub enum Sending {
    /// Replies are sent.
    Open,
    /// A read or a write of the link failed.
    Failed,
    /// Memory ran out for a reply.
    OutOfMemory,
    /// A reply came after a Shut, or the worker was stopped.
    Over,
}

/// The way from the replies to the bytes on the link. It holds the bytes that aren't sent yet.
#[derive(Debug, Drop)]
pub struct Outgoing {
    pub(crate) alloc: Global,
    pub(crate) unsent: Bytes,
    pub(crate) sending: Sending,
}

impl Outgoing {
    pub(crate) fn new(alloc: Global) -> Self
        ensures unsent { result.unsent ≡ [] }
        ensures sending { result.sending ≡ Sending.Open }
    {
        Outgoing {
            alloc,
            unsent: Bytes::new(alloc),
            sending: Sending::Open,
        }
    }

    /// Whether no reply was lost because memory ran out.
    pub(crate) fn has_kept_up(&self) -> bool
        ensures { result ≡ kept_up self.now.sending }
    {
        match self.sending {
            Sending::Open => true,
            Sending::Failed => true,
            Sending::OutOfMemory => false,
            Sending::Over => true,
        }
    }

    /// From now on nothing more is sent.
    pub(crate) fn stop_sending(&mut self, why: Sending)
        requires { why ≢ Sending.Open }
        ensures goes { (output answers : List ℕ) → Sends self.old output answers → Sends self.new output answers }
        ensures unsent { self.new.unsent ≡ [] }
        ensures was { self.old.sending ≢ Sending.Open → self.new.sending ≡ self.old.sending }
        ensures is { self.old.sending ≡ Sending.Open → self.new.sending ≡ why }
        ensures mute { self.new.sending ≢ Sending.Open }
        ensures over { self.new.sending ≡ Sending.Over → (why ≡ Sending.Over) ⊎ (self.old.sending ≡ Sending.Over) }
        ensures failed { self.new.sending ≡ Sending.Failed → (why ≡ Sending.Failed) ⊎ (self.old.sending ≡ Sending.Failed) }
        ensures out_of_memory { self.new.sending ≡ Sending.OutOfMemory → (why ≡ Sending.OutOfMemory) ⊎ (self.old.sending ≡ Sending.OutOfMemory) }
    {
        self.unsent = Bytes::new(self.alloc);
        match self.sending {
            Sending::Open => self.sending = why,
            Sending::Failed | Sending::OutOfMemory | Sending::Over => {}
        }
    }

    /// This many bytes were sent.
    fn drop_front(&mut self, count: usize)
        requires { count ≤ length self.old.unsent }
        ensures unsent { self.new.unsent ≡ drop count self.old.unsent }
        ensures sending { self.new.sending ≡ self.old.sending }
    {
        self.unsent.drop_front(count);
    }

    /// Takes a message to the peer. If memory runs out, nothing more is sent, and the result is false.
    pub(crate) fn say(&mut self, message: &ServerMessage) -> bool
        ensures goes { (output answers : List ℕ) → Sends self.old output answers → Sends self.new output (answers ++ frame_of (server_bytes message.now)) }
        ensures sending { result ≡ true → self.new.sending ≡ self.old.sending }
        ensures mute { self.old.sending ≢ Sending.Open → self.new.sending ≡ self.old.sending }
        ensures out_of_memory { (self.new.sending ≡ self.old.sending) ⊎ (self.new.sending ≡ Sending.OutOfMemory) }
    {
        match self.sending {
            Sending::Open => {
                return self.add_frame(message);
            }
            Sending::Failed | Sending::OutOfMemory | Sending::Over => {
                return true;
            }
        }
    }

    /// Adds the message's frame to the unsent bytes.
    fn add_frame(&mut self, message: &ServerMessage) -> bool
        requires { self.old.sending ≡ Sending.Open }
        ensures goes { (output answers : List ℕ) → Sends self.old output answers → Sends self.new output (answers ++ frame_of (server_bytes message.now)) }
        ensures sending { result ≡ true → self.new.sending ≡ self.old.sending }
        ensures out_of_memory { (self.new.sending ≡ self.old.sending) ⊎ (self.new.sending ≡ Sending.OutOfMemory) }
    {
        match put_server(self.alloc, &mut self.unsent, message) {
            Ok(()) => {
                return true;
            }
            Err(_) => {
                self.stop_sending(Sending::OutOfMemory);
                return false;
            }
        }
    }

    /// Writes what is unsent, until nothing is, the link is full or a write fails. True if a write failed.
    pub(crate) fn write<P: Port>(&mut self, link: u32, port: &mut P) -> bool
        requires is_open { P.tells → IsOpen (P.state port.old) link }
        ensures writes { P.tells → Writes link self.old self.new (P.state port.old) (P.state port.new) }
        ensures done { P.tells → ((P.state port.new).link link).full ≡ false → self.new.unsent ≡ [] }
        ensures failed { P.tells → result ≡ true → ((P.state port.new).link link).failed ≡ true }
        ensures well { P.tells → result ≡ false → ((P.state port.new).link link).failed ≡ ((P.state port.old).link link).failed }
        ensures sending { result ≡ false → self.new.sending ≡ self.old.sending }
        ensures silent { self.new.sending ≡ Sending.Failed → (result ≡ true) ⊎ (self.old.sending ≡ Sending.Failed) }
        ensures over { self.new.sending ≡ Sending.Over → self.old.sending ≡ Sending.Over }
        ensures out_of_memory { self.new.sending ≡ Sending.OutOfMemory → self.old.sending ≡ Sending.OutOfMemory }
        ensures mute { self.old.sending ≢ Sending.Open → self.new.sending ≡ self.old.sending }
        ensures empty { P.tells → self.old.unsent ≡ [] → ((P.state port.new).link link).output ≡ ((P.state port.old).link link).output }
        ensures cause { HasLinkCause link (result ≡ true) (P.ledger port.old) (P.ledger port.new) }
    {
        'writes: while !self.unsent.as_slice().is_empty() {
            match port.write(link, self.unsent.as_slice()) {
                Gave::Bytes(count) => self.drop_front(count),
                Gave::NotYet => {
                    return false;
                }
                Gave::Failed => {
                    self.stop_sending(Sending::Failed);
                    return true;
                }
            }
        }
        false
    }
}
