//! An estimate of the memory that a job holds, in bytes. A larger number than the greatest `u64` is counted as that.

ghost use Rattle.std.specs.Prelude.{◌≡◌, length};
ghost use Rattle.lsv_worker.specs.Sizes.{counted, entry_bytes, info_bytes, job_bytes, message_bytes, texts_bytes, value_bytes};

use lsv_base::Bytes;
use lsv_info::{Entry, Info, Value};
use lsv_msg::ClientMessage;
use lsv_session::{Body, Job};

/// The bytes that an entry takes besides its texts: the structs of its key and value.
const ENTRY: u64 = 72;

/// The bytes that a text of a list takes besides its own.
const TEXT: u64 = 32;

/// The bytes that a number of a list takes.
const NUMBER: u64 = 8;

fn text_size(text: &Bytes) -> u64
    ensures { result ≡ length text.now }
{
    text.as_slice().len() as u64
}

#[tactic(auto, using(crate::proofs::Counting::texts_more))]
fn texts_size(texts: &[Bytes]) -> u64
    ensures { result ≡ counted (texts_bytes texts.now) }
{
    let mut size: u64 = 0;
    for text in texts {
        size = size.saturating_add(TEXT.saturating_add(text_size(text)));
    }
    size
}

fn value_size(value: &Value) -> u64
    ensures { result ≡ counted (value_bytes value.now) }
{
    match value {
        Value::Num(_) => 0,
        Value::Text(text) => text_size(text),
        Value::Texts(texts) => texts_size(texts.as_slice()),
        Value::Nums(numbers) => NUMBER.saturating_mul(numbers.as_slice().len() as u64),
    }
}

fn entry_size(entry: &Entry) -> u64
    ensures { result ≡ counted (entry_bytes entry.now) }
{
    ENTRY
        .saturating_add(text_size(&entry.key))
        .saturating_add(value_size(&entry.value))
}

#[tactic(auto, using(crate::proofs::Counting::info_more))]
fn info_size(info: &Info) -> u64
    ensures { result ≡ counted (info_bytes info.now) }
{
    let mut size: u64 = 0;
    for entry in info.entries.as_slice() {
        size = size.saturating_add(entry_size(entry));
    }
    size
}

fn message_size(message: &ClientMessage) -> u64
    ensures { result ≡ counted (message_bytes message.now) }
{
    match message {
        ClientMessage::Accept(m) => info_size(&m.get().info_msgs),
        ClientMessage::Reject(m) => {
            info_size(&m.get().info_msgs).saturating_add(text_size(&m.get().reason))
        }
        ClientMessage::Alert(m) => {
            info_size(&m.get().info_msgs).saturating_add(text_size(&m.get().reason))
        }
        ClientMessage::Exit(m) => {
            text_size(&m.get().signal).saturating_add(text_size(&m.get().error))
        }
        ClientMessage::Restart(m) => text_size(&m.log_id),
        ClientMessage::Ttyin(m) => text_size(&m.bytes),
        ClientMessage::Ttyout(m) => text_size(&m.bytes),
        ClientMessage::Stdin(m) => text_size(&m.bytes),
        ClientMessage::Stdout(m) => text_size(&m.bytes),
        ClientMessage::Stderr(m) => text_size(&m.bytes),
        ClientMessage::Winsize(_) => 0,
        ClientMessage::Suspend(m) => text_size(&m.signal),
        ClientMessage::Hello(m) => text_size(&m.client_id),
    }
}

/// An estimate of the memory that a job holds besides its own struct, in bytes: that of its message's texts and lists. A fault
/// or an end holds none.
pub fn job_size(job: &Job) -> u64
    ensures { result ≡ counted (job_bytes job.now) }
{
    match &job.body {
        Body::Msg(message) => message_size(message),
        Body::Bad(_) => 0,
        Body::Gone => 0,
    }
}
