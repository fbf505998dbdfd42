//! One judgement of the server's messages, for all who send a log.

ghost use Rattle.std.specs.Prelude.{◌≡◌, ◌-◌, ◌^◌};
ghost use Rattle.lsv_dialogue.specs.Judging.{judged_at, judged_point};

use crate::{Judged, LONGEST_ID};
use lsv_base::Point;
use lsv_msg::ServerMessage;

/// What a message is, if the records that were sent or passed over end at this time, in nanoseconds: an identifier may be
/// too long, and a commit point strange. All else is taken.
pub fn judge(sent: u64, message: &ServerMessage) -> Judged
    ensures { result ≡ judged_at sent message.now }
{
    match message {
        ServerMessage::LogId(id) if LONGEST_ID < id.as_slice().len() => {
            Judged::LongId(id.as_slice().len() as u64)
        }
        ServerMessage::CommitPoint(time) => judge_point(sent, time.point()),
        _ => Judged::Takes,
    }
}

/// What a commit point is: strange if it is no valid time, or above what was sent.
fn judge_point(sent: u64, point: Option<Point>) -> Judged
    ensures { result ≡ judged_point sent point }
{
    match point {
        None => Judged::Strange(greatest_point()),
        Some(point) if sent < point.nanos() => Judged::Strange(point),
        Some(_) => Judged::Takes,
    }
}

/// The greatest point of a log.
fn greatest_point() -> Point
    ensures { result ≡ 2 ^ 63 - 1 }
{
    match Point::new((1 << 63) - 1) {
        Some(point) => point,
        None => unreachable!(),
    }
}
