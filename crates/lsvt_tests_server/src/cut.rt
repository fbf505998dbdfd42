//! A generated conversation, cut in pieces of many sizes.

use lsv_cut::{Cut, PieceReader};
use lsv_gen::conversation;
use lsv_session::Fault;
use std::alloc::Global;
use std::process::Abort;
use std::test::Fail;

/// How many bytes a piece has.
const SIZES: [usize; 7] = [1, 2, 3, 5, 64, 300, 65_536];

/// A conversation of 52 messages: a hello, an accept, 49 outputs and an exit.
const CONVERSATION: u32 = 48;

/// How a conversation was cut: how many messages it had, how many bytes their frames, and what came after them.
#[derive(Clone, Copy, Debug, PartialEq, Eq)]
struct Tally {
    messages: usize,
    bytes: usize,
    fault: Option<Fault>,
}

impl Tally {
    /// Takes what was cut, and says whether there may be more.
    fn take(&mut self, cut: &Cut) -> bool {
        match cut {
            Cut::Nothing => false,
            Cut::Message(_, taken) => {
                self.messages = self.messages.saturating_add(1);
                self.bytes = self.bytes.saturating_add(*taken);
                true
            }
            Cut::NoMessage(fault) => {
                self.fault = Some(*fault);
                false
            }
        }
    }
}

/// What these bytes are, in pieces of this size. A full inbox is played every `pause` messages: the rest of the piece is
/// kept, and cut later.
fn cut_all(alloc: Global, bytes: &[u8], size: usize, pause: usize) -> Result<Tally, Fail> {
    let mut tally = Tally {
        messages: 0,
        bytes: 0,
        fault: None,
    };
    let mut reader = PieceReader::new(alloc);
    for piece in bytes.chunks(size.max(1)) {
        let mut at = 0;
        let mut since = 0usize;
        for _ in 0..1000u16 {
            if since >= pause {
                reader.keep(&piece[at.min(piece.len())..])?;
                at = piece.len();
                since = 0;
            }
            at = at.min(piece.len());
            if !tally.take(&reader.next(piece, &mut at)?) {
                break;
            }
            since = since.saturating_add(1);
        }
    }
    tally.take(&reader.next_kept()?);
    Ok(tally)
}

#[test]
fn a_conversation_is_cut_alike_in_all_pieces(rt: HostRuntime) -> Result<(), Fail> {
    let bytes = conversation(rt.alloc(), CONVERSATION)?;
    let bytes = bytes.as_slice();
    let whole = Tally {
        messages: 52,
        bytes: bytes.len(),
        fault: None,
    };
    for size in SIZES {
        for pause in [1usize, 2, 7, 1000] {
            let tally = cut_all(rt.alloc(), bytes, size, pause)?;
            assert_eq!(rt; tally, whole, "pieces of {size}, a pause every {pause}");
        }
    }
    Ok(())
}

#[test]
fn no_message_is_cut_after_a_length_above_the_limit(rt: HostRuntime) -> Result<(), Fail> {
    let mut bytes = conversation(rt.alloc(), CONVERSATION)?;
    let good = bytes.as_slice().len();
    bytes.add(&[0xff, 0xff, 0xff, 0xff, 0, 0])?;
    let whole = Tally {
        messages: 52,
        bytes: good,
        fault: Some(Fault::TooLarge(u32::MAX)),
    };
    for size in SIZES {
        let tally = cut_all(rt.alloc(), bytes.as_slice(), size, 1000)?;
        assert_eq!(rt; tally, whole, "pieces of {size}");
    }
    Ok(())
}
