//! The text of an error or an abort.

ghost use Rattle.std.specs.Prelude.{◌≡◌, is_some};
ghost use Rattle.lsv_dialogue.specs.Events.{text_of};

use lsv_base::Bytes;
use lsv_msg::ServerMessage;

/// Whether a message is an error or an abort.
pub(crate) fn has_text(message: &ServerMessage) -> bool
    ensures { result ≡ is_some (text_of message.now) }
{
    matches!(message, ServerMessage::Error(_) | ServerMessage::Abort(_))
}

/// The text of an error or an abort.
pub(crate) fn into_text(message: ServerMessage) -> Option<Bytes>
    ensures { result ≡ text_of message }
{
    match message {
        ServerMessage::Error(text) | ServerMessage::Abort(text) => Some(text),
        ServerMessage::Hello(_) | ServerMessage::CommitPoint(_) | ServerMessage::LogId(_) => None,
    }
}
