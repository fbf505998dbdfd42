//! The digest of what is sealed of a log.
ghost use Rattle.std.specs.Prelude.{◌≡◌, ◌++◌, ℕ, List, Some, true, IfOk, IsErr};
ghost use Rattle.sha2.specs.Hashers.{Holds256};
ghost use Rattle.sha2.specs.Sha256.{sha256};
ghost use Rattle.lsv_bundle.specs.Body.{length_of};
ghost use Rattle.lsv_bundle.specs.Shape.{IsPart};
ghost use Rattle.lsv_bundle.specs.declared.shape.Shape.TheVariants as shapes;
ghost use Rattle.lsv_disk.specs.Files.{file_of};
ghost use Rattle.lsv_disk.specs.Throughout.{OnlyReads};
ghost use Rattle.lsv_disk.specs.View.{HasCause, HasOwnCause};
ghost use Rattle.lsv_iolog.specs.Reading.{AreThere};
ghost use Rattle.lsv_iolog.specs.Recovered.{IsOfLog, owner_of};
ghost use Rattle.lsv_play.specs.Playing.{text_at};
ghost use Rattle.lsv_verdict.specs.Sealed.{AreParts, sealed_bytes, sealed_part, sealed_parts};

use lsv_base::LogNo;
use lsv_bundle::{Body, Shape, View};
use lsv_disk::{Disk, DiskFault, Owner, Part};
use sha2::{Digest, Sha256};

/// How many bytes are read at once.
const BLOCK: usize = 16_384;

/// The digest of what is sealed of a log with this last entry. None if one of its files ended early, as if somebody removes
/// it. It holds one block of 16,384 bytes.
pub(crate) fn digest_of<D: Disk>(
    disk: &mut D,
    number: LogNo,
    body: &Body,
) -> Result<Option<[u8; 32]>, DiskFault>
    ensures digest { D.tells → AreThere (owner_of number) body.now (D.view disk.old).reads → IfOk result (λ o. o ≡ Some (sha256 (sealed_bytes (D.view disk.old).reads number body.now))) }
    ensures reads { D.tells → OnlyReads (D.view disk.old) (D.view disk.new) }
    ensures cause { HasOwnCause (IsOfLog number) (IsErr result) (D.view disk.old) (D.view disk.new) }
{
    let mut hasher = Sha256::new();
    hasher.update(&number.digits()[..]);
    if seal_parts(disk, number, body, Shape::Log.parts(), &mut hasher)? {
        Ok(Some(hasher.finalize()))
    } else {
        Ok(None)
    }
}

/// Feeds what is sealed of these files. False if one ended early.
fn seal_parts<D: Disk>(
    disk: &mut D,
    number: LogNo,
    body: &Body,
    parts: &[Part],
    hasher: &mut Sha256,
) -> Result<bool, DiskFault>
    requires parts { AreParts parts.now }
    ensures sealed { D.tells → AreThere (owner_of number) body.now (D.view disk.old).reads → IfOk result (λ all. (all ≡ true) × ((m : List ℕ) → Holds256 hasher.old m → Holds256 hasher.new (m ++ sealed_parts (D.view disk.old).reads number body.now parts.now))) }
    ensures reads { D.tells → OnlyReads (D.view disk.old) (D.view disk.new) }
    ensures cause { HasOwnCause (IsOfLog number) (IsErr result) (D.view disk.old) (D.view disk.new) }
{
    let [first, rest @ ..] = parts else {
        return Ok(true);
    };
    if seal_part(disk, number, body, *first, hasher)? {
        seal_parts(disk, number, body, rest, hasher)
    } else {
        Ok(false)
    }
}

/// Feeds what is sealed of a file. False if it ended early.
fn seal_part<D: Disk>(
    disk: &mut D,
    number: LogNo,
    body: &Body,
    part: Part,
    hasher: &mut Sha256,
) -> Result<bool, DiskFault>
    requires part { IsPart shapes.Log part }
    ensures sealed { D.tells → AreThere (owner_of number) body.now (D.view disk.old).reads → IfOk result (λ all. (all ≡ true) × ((m : List ℕ) → Holds256 hasher.old m → Holds256 hasher.new (m ++ sealed_part (D.view disk.old).reads number body.now part))) }
    ensures reads { D.tells → OnlyReads (D.view disk.old) (D.view disk.new) }
    ensures cause { HasOwnCause (IsOfLog number) (IsErr result) (D.view disk.old) (D.view disk.new) }
{
    let length = length_of(body, part);
    hasher.update(&length.to_be_bytes()[..]);
    seal_bytes(disk, number, body, part, length, hasher)
}

/// Feeds the committed bytes of a file, of which there are `length`. False if it ended early.
fn seal_bytes<D: Disk>(
    disk: &mut D,
    number: LogNo,
    body: &Body,
    part: Part,
    length: u64,
    hasher: &mut Sha256,
) -> Result<bool, DiskFault>
    requires part { IsPart shapes.Log part }
    requires length { length ≡ length_of body.now part }
    ensures sealed { D.tells → AreThere (owner_of number) body.now (D.view disk.old).reads → IfOk result (λ all. (all ≡ true) × ((m : List ℕ) → Holds256 hasher.old m → Holds256 hasher.new (m ++ text_at number body.now (D.view disk.old).reads part))) }
    ensures reads { D.tells → OnlyReads (D.view disk.old) (D.view disk.new) }
    ensures cause { HasOwnCause (IsOfLog number) (IsErr result) (D.view disk.old) (D.view disk.new) }
{
    let view = View {
        owner: Owner::Log(number.get()),
        shape: Shape::Log,
        body: *body,
    };
    let mut at = 0u64;
    'blocks: while at < length {
        let mut block = [0; BLOCK];
        let room = (length - at).min(BLOCK as u64) as usize;
        let count = match view.read(disk, part, at, &mut block[..room]) {
            Ok(count) => count,
            Err(_) => return Err(DiskFault),
        };
        if count == 0 {
            return Ok(false);
        }
        hasher.update(&block[..count]);
        at += count as u64;
    }
    Ok(true)
}

/// How many bytes of a data file of a log its last entry commits.
fn length_of(body: &Body, part: Part) -> u64
    requires { IsPart shapes.Log part }
    ensures { result ≡ length_of body.now part }
{
    let [head, exit, timing, stdin, stdout, stderr, ttyin, ttyout] = body.lens;
    match part {
        Part::Head => head,
        Part::Exit => exit,
        Part::Timing => timing,
        Part::Stdin => stdin,
        Part::Stdout => stdout,
        Part::Stderr => stderr,
        Part::Ttyin => ttyin,
        Part::Ttyout => ttyout,
        Part::Lines | Part::Id | Part::Commit | Part::Slots => unreachable!(),
    }
}
