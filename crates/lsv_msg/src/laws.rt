//! Laws of the definitions that the contracts of this crate cite. They do nothing when they run.

ghost use Rattle.std.specs.Prelude.{◌≡◌, ℕ, List, ◌<◌, ◌^◌, length, Ok};
ghost use Rattle.lsv_msg.specs.declared.messages.ClientMessage.{ClientMessage};
ghost use Rattle.lsv_msg.specs.declared.messages.ServerMessage.{ServerMessage};
ghost use Rattle.lsv_msg.specs.Messages.{client_in, client_bytes, server_in, server_bytes};
ghost use Rattle.lsv_msg.specs.Fitting.{FitsClient, FitsServer, ClientWithin, ServerWithin};

/// What is written of a message is read as that message.
pub fn a_written_message_is_read_back()
    ensures client { (m : ClientMessage) → FitsClient m → length (client_bytes m) < 2 ^ 64 → client_in (client_bytes m) ≡ Ok m }
    ensures server { (m : ServerMessage) → FitsServer m → length (server_bytes m) < 2 ^ 64 → server_in (server_bytes m) ≡ Ok m }
{
    lsv_wire::what_is_written_is_read_back();
}

/// What is decoded fits its fields, so that it is read back where it is written, and no text in it, nor a record's data,
/// is longer than the message.
pub fn what_is_decoded_fits()
    ensures client { (bytes : List ℕ) (m : ClientMessage) → client_in bytes ≡ Ok m → FitsClient m }
    ensures client_within { (bytes : List ℕ) (m : ClientMessage) → client_in bytes ≡ Ok m → ClientWithin (length bytes) m }
    ensures server { (bytes : List ℕ) (m : ServerMessage) → server_in bytes ≡ Ok m → FitsServer m }
    ensures server_within { (bytes : List ℕ) (m : ServerMessage) → server_in bytes ≡ Ok m → ServerWithin (length bytes) m }
{}
