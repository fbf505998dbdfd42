//! What comes over the link is read, and cut into messages.

ghost use Rattle.std.specs.Prelude.{◌≡◌, ◌≢◌, length, true, IfOk, IsOk, Ok, OnErr};
ghost use Rattle.lsv_defs.specs.Causes.{HasRisen};
ghost use Rattle.lsv_link.specs.Link.{IsConnected, open_of};
ghost use Rattle.lsv_dialogue.specs.Stands.{HasLooked, HasRead, IsNext};

use crate::talk::{BUFFER, Talk};
use lsv_base::NoMem;
use lsv_link::Link;
use lsv_msg::{MsgFault, ServerMessage, decode_server};
use lsv_port::Took;

/// What stands next in what was read.
#[derive(Drop)]
pub(crate) enum Next {
    Message(ServerMessage),
    /// No whole message.
    Nothing,
    Malformed(MsgFault),
    /// A message of this length, above the limit of a frame.
    TooLarge(u32),
}

/// What came of a read.
#[derive(Clone, Copy, Debug, PartialEq, Eq)]
pub(crate) enum Came {
    More,
    Nothing,
    End,
    Failed,
}

impl Talk {
    /// Takes the next whole message that was read. The framer passes over it.
    pub(crate) fn next_message(&mut self) -> Result<Next, NoMem>
        ensures next { IfOk result (λ next. IsNext next self.old.framer self.new.framer) }
        ensures none { OnErr result (self.new ≡ self.old) }
        ensures rest { self.new ≡ record self.old { framer = self.new.framer } }
    {
        let message = match self.framer.peek() {
            Ok(Some(message)) => message,
            Ok(None) => return Ok(Next::Nothing),
            Err(stated) => return Ok(Next::TooLarge(stated)),
        };
        let length = message.len();
        match decode_server(self.alloc, message) {
            Ok(decoded) => {
                self.framer.consume(length);
                Ok(Next::Message(decoded))
            }
            Err(MsgFault::NoMem) => Err(NoMem),
            Err(fault) => Ok(Next::Malformed(fault)),
        }
    }

    /// Reads what has come, and waits a while for something if it may.
    pub(crate) fn read_more<L: Link>(&mut self, link: &mut L, wait: bool) -> Result<Came, NoMem>
        requires connected { L.tells → IsConnected (L.state link.old) }
        requires room { length self.old.buffer.items ≡ BUFFER }
        ensures read { HasRead L.tells (IsOk result) (result ≡ Ok Came.Failed) wait self.old.framer self.new.framer (L.state link.old) (L.state link.new) }
        ensures none { IfOk result (λ came. came ≢ Came.More → self.new.framer ≡ self.old.framer) }
        ensures dry { L.tells → IfOk result (λ came. came ≢ Came.More → (open_of (L.state link.new)).dry ≡ true) }
        ensures ended { L.tells → IfOk result (λ came. came ≡ Came.End → (open_of (L.state link.new)).ended ≡ true) }
        ensures waited { IfOk result (λ came. came ≡ Came.Nothing → wait ≡ true → HasRisen (L.counts link.old).waits (L.counts link.new).waits) }
        ensures failed { IfOk result (λ came. came ≡ Came.Failed → HasRisen (L.counts link.old).faults (L.counts link.new).faults) }
        ensures counts { HasLooked (result ≡ Ok Came.Failed) (result ≡ Ok Came.Nothing → wait ≡ true → ⊥) (L.counts link.old) (L.counts link.new) }
        ensures rest { self.new ≡ record self.old { framer = self.new.framer; buffer = self.new.buffer } }
        ensures refused { OnErr result (self.new.framer ≡ self.old.framer) }
        ensures room { length self.new.buffer.items ≡ BUFFER }
    {
        match link.read(&mut self.buffer, wait) {
            Took::Bytes(count) => {
                self.framer.feed(&self.buffer[..count])?;
                Ok(Came::More)
            }
            Took::NotYet => Ok(Came::Nothing),
            Took::End => Ok(Came::End),
            Took::Failed => Ok(Came::Failed),
        }
    }
}
