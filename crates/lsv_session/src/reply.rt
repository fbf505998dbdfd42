use crate::ConnId;
use lsv_msg::ServerMessage;

/// What the keeper answers to a connection.
#[derive(Debug, Drop)]
pub struct Reply {
    pub conn: ConnId,
    pub body: ReplyBody,
    /// Whether the end of the connection itself asked for this: true exactly in the `Shut` that a `Gone` gets.
    pub last: bool,
}

#[derive(Debug, Drop)]
pub enum ReplyBody {
    /// A message for the client.
    Say(ServerMessage),
    /// The connection is to be closed once all that was said is sent.
    Shut,
}
