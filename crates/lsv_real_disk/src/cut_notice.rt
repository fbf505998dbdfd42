// Logs that clients resume, as the disk sees them: by the entry of a journal that cuts its log.
ghost use Rattle.std.specs.Prelude.{◌≡◌, IfSome};
ghost use Rattle.lsv_bundle.specs.Body.{encoded};

use lsv_bundle::Body;
use lsv_disk::{FileId, Owner, Part};

/// The bytes of a body of a log's journal.
const BODY: usize = 89;

/// The bytes of a journal: the gate, the selector, and two slots.
pub const JOURNAL: usize = 2 + 2 * BODY;

/// The kind of an entry that cuts a log.
const CUT: u8 = 2;

/// The entry by which a write to a file cuts a log. None if it is another write.
pub fn cut_in(f: FileId, bytes: &[u8]) -> Option<Body>
    ensures { IfSome result (λ body. (body.kind ≡ 2) × (encoded body ≡ bytes.now)) }
{
    let (Owner::Log(_), Part::Slots) = (f.owner, f.part) else {
        return None;
    };
    let body = body_in(bytes)?;
    if body.kind == CUT { Some(body) } else { None }
}

/// The last entry of a journal with these bytes.
pub fn last_entry(journal: &[u8]) -> Option<Body> {
    let slot = match journal {
        [_, 1, slots @ ..] => slots.get(BODY..)?,
        [_, _, slots @ ..] => slots.get(..BODY)?,
        _ => return None,
    };
    body_in(slot)
}

/// The body with these bytes, if there are as many as one has.
fn body_in(bytes: &[u8]) -> Option<Body>
    ensures { IfSome result (λ body. encoded body ≡ bytes.now) }
{
    match <[u8; 89]>::try_from(bytes) {
        Ok(bytes) => Some(Body::decode(bytes)),
        Err(_) => None,
    }
}
