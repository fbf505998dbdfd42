//! What is kept of a relaying is committed, over its bundle.
ghost use Rattle.std.specs.Prelude.{◌≡◌, ◌≢◌, ◌⊎◌, ◌++◌, false, Some, None, IsErrOf, IfOk, IfErr, OnOk};
ghost use Rattle.lsv_bundle.specs.Represents.{Represents};
ghost use Rattle.lsv_bundle.specs.Shape.{journal_of};
ghost use Rattle.lsv_bundle.specs.Value.{BundleView, NoneStaged, committed_length};
ghost use Rattle.lsv_bundle.specs.declared.shape.Shape.TheVariants as shapes;
ghost use Rattle.lsv_bundle.specs.declared.fault.BundleFault.{BundleFault};
ghost use Rattle.lsv_disk.specs.Throughout.{Throughout};
ghost use Rattle.lsv_disk.specs.View.{HasOwnCause, Image, IsCrashImage};
ghost use Rattle.lsv_disk.specs.declared.file.Part.{Part};
ghost use Rattle.lsv_journal.specs.Last.{LastAt, MayBeMade};
ghost use Rattle.lsv_kept.specs.Aim.{AimView, line_of};
ghost use Rattle.lsv_kept.specs.Inner.{EndsIn, IsBundleIn, IsBundleOf, IsChangedFrom, RepresentsIn, StandsUndone, next_state};
ghost use Rattle.lsv_kept.specs.Kept.{IsChanged, IsOfRelay, IsReplaced, owner_of, state_of};
ghost use Rattle.lsv_kept.specs.Value.{IsUnmade, StandsBy, state_on};
ghost use Rattle.lsv_kept.specs.declared.state.Kept.{Kept};
ghost use Rattle.lsv_kept.specs.declared.state.State.{State};
ghost use Rattle.lsv_kept.specs.declared.state.State.TheVariants as states;

use lsv_base::LogNo;
use lsv_bundle::{Bundle, BundleFault, Shape};
use lsv_disk::{Disk, Owner, Part};
use std::alloc::Global;

/// The kind of an entry that keeps an identifier.
pub(crate) const KEPT: u8 = 1;

/// The kind of an entry that says that the log is relayed.
pub(crate) const DONE: u8 = 3;

/// Makes the files of a relaying, of which no crash leaves an entry.
pub(crate) fn make<D: Disk>(
    alloc: Global,
    disk: &mut D,
    number: LogNo,
) -> Result<Bundle, BundleFault>
    requires unmade { D.tells → IsUnmade number (D.view disk.old) }
    ensures bundle { IfOk result (IsBundleOf number) }
    ensures empty { IfOk result (λ b. committed_length b Part.Id ≡ 0) }
    ensures last { IfOk result (λ b. b.last ≡ None) }
    ensures represents { D.tells → IfOk result (λ b. Represents b (D.view disk.new)) }
    ensures any_moment { D.tells → Throughout (IsOfRelay number) (λ image. LastAt 89 (journal_of (owner_of number)) image ≡ None) (D.view disk.old) (D.view disk.new) }
    ensures fault { IfErr result (λ e. (e ≡ BundleFault.Disk) ⊎ (e ≡ BundleFault.NoMem)) }
    ensures cause { HasOwnCause (IsOfRelay number) (IsErrOf result BundleFault.Disk) (D.view disk.old) (D.view disk.new) }
{
    Bundle::create(alloc, disk, Owner::Relay(number.get()), Shape::Relay)
}

/// Adds an entry of this kind, with what is staged. The count is that of the bytes before the identifier. At each moment a crash leaves what is kept before
/// or after it.
pub(crate) fn commit<D: Disk>(
    bundle: &mut Bundle,
    disk: &mut D,
    number: LogNo,
    kind: u8,
    count: u64,
    extra: u64,
) -> Result<(), BundleFault>
    requires owner { bundle.old.owner ≡ owner_of number }
    requires shape { bundle.old.shape ≡ shapes.Relay }
    requires whole { bundle.old.is_broken ≡ false }
    requires represents { D.tells → Represents bundle.old (D.view disk.old) }
    ensures bundle { OnOk result (IsBundleOf number bundle.new) }
    ensures state { D.tells → (aim : AimView) → OnOk result (state_on aim bundle.new (D.view disk.new) ≡ next_state aim bundle.old (D.view disk.old) kind count extra) }
    ensures represents { D.tells → OnOk result (Represents bundle.new (D.view disk.new)) }
    ensures any_moment { D.tells → (aim : AimView) → Throughout (IsOfRelay number) (IsChangedFrom number aim bundle.old (D.view disk.old) kind extra (next_state aim bundle.old (D.view disk.old) kind count extra)) (D.view disk.old) (D.view disk.new) }
    ensures last { OnOk result (EndsIn kind extra bundle.new) }
    ensures fault { IfErr result (λ e. e ≡ BundleFault.Disk) }
    ensures cause { HasOwnCause (IsOfRelay number) (IsErrOf result BundleFault.Disk) (D.view disk.old) (D.view disk.new) }
{
    bundle.flush(disk, kind, count, 0, extra)
}

/// Keeps nothing any more, by a cut to no bytes.
pub(crate) fn clear<D: Disk>(
    bundle: &mut Bundle,
    disk: &mut D,
    number: LogNo,
) -> Result<(), BundleFault>
    requires bundle { IsBundleOf number bundle.old }
    requires represents { D.tells → Represents bundle.old (D.view disk.old) }
    ensures bundle { OnOk result (IsBundleOf number bundle.new) }
    ensures empty { OnOk result (committed_length bundle.new Part.Id ≡ 0) }
    ensures state { D.tells → (aim : AimView) → OnOk result (state_on aim bundle.new (D.view disk.new) ≡ states.Nothing) }
    ensures represents { D.tells → OnOk result (Represents bundle.new (D.view disk.new)) }
    ensures any_moment { D.tells → (aim : AimView) → Throughout (IsOfRelay number) (IsChangedFrom number aim bundle.old (D.view disk.old) 2 0 states.Nothing) (D.view disk.old) (D.view disk.new) }
    ensures last { OnOk result (EndsIn 2 0 bundle.new) }
    ensures fault { IfErr result (λ e. e ≡ BundleFault.Disk) }
    ensures cause { HasOwnCause (IsOfRelay number) (IsErrOf result BundleFault.Disk) (D.view disk.old) (D.view disk.new) }
{
    bundle.cut(disk, [0; 8], 0, 0, 0)
}

/// Whether a bundle of which nothing is staged commits bytes of an identifier.
pub(crate) fn has_bytes(bundle: &Bundle) -> bool
    requires shape { bundle.now.shape ≡ shapes.Relay }
    requires none_staged { NoneStaged bundle.now }
    ensures { result ≡ false → committed_length bundle.now Part.Id ≡ 0 }
{
    bundle.next_body(KEPT, 0, 0, 0).lens[0] != 0
}

/// Keeps a host's line and an identifier, these bytes, in a bundle that commits none of another. The line has this many.
pub(crate) fn put_id<D: Disk>(
    bundle: &mut Bundle,
    disk: &mut D,
    number: LogNo,
    count: u64,
    bytes: &[u8],
) -> Result<(), BundleFault>
    requires bundle { IsBundleOf number bundle.old }
    requires empty { committed_length bundle.old Part.Id ≡ 0 }
    requires represents { D.tells → Represents bundle.old (D.view disk.old) }
    ensures bundle { OnOk result (IsBundleOf number bundle.new) }
    ensures state { D.tells → (aim : AimView) → OnOk result (state_on aim bundle.new (D.view disk.new) ≡ state_of aim 1 count 0 bytes.now) }
    ensures represents { D.tells → OnOk result (Represents bundle.new (D.view disk.new)) }
    ensures any_moment { D.tells → (aim : AimView) → Throughout (IsOfRelay number) (IsChangedFrom number aim bundle.old (D.view disk.old) 1 0 (state_of aim 1 count 0 bytes.now)) (D.view disk.old) (D.view disk.new) }
    ensures last { OnOk result (EndsIn 1 0 bundle.new) }
    ensures fault { IfErr result (λ e. (e ≡ BundleFault.Disk) ⊎ (e ≡ BundleFault.NoMem)) }
    ensures cause { HasOwnCause (IsOfRelay number) (IsErrOf result BundleFault.Disk) (D.view disk.old) (D.view disk.new) }
{
    // The bundle isn't broken and the bytes are few, so only memory can be missing.
    match bundle.stage(Part::Id, bytes) {
        Ok(()) => commit(bundle, disk, number, KEPT, count, 0),
        Err(_) => Err(BundleFault::NoMem),
    }
}

/// Keeps a host's line and an identifier in place of what is committed, which is cut first.
pub(crate) fn replace_id<D: Disk>(
    bundle: &mut Bundle,
    disk: &mut D,
    number: LogNo,
    count: u64,
    bytes: &[u8],
) -> Result<(), BundleFault>
    requires bundle { IsBundleOf number bundle.old }
    requires represents { D.tells → Represents bundle.old (D.view disk.old) }
    ensures bundle { OnOk result (IsBundleOf number bundle.new) }
    ensures state { D.tells → (aim : AimView) → OnOk result (state_on aim bundle.new (D.view disk.new) ≡ state_of aim 1 count 0 bytes.now) }
    ensures represents { D.tells → OnOk result (Represents bundle.new (D.view disk.new)) }
    ensures any_moment { D.tells → (aim : AimView) → Throughout (IsOfRelay number) (IsReplaced number aim (state_on aim bundle.old (D.view disk.old)) (state_of aim 1 count 0 bytes.now)) (D.view disk.old) (D.view disk.new) }
    ensures last { OnOk result (EndsIn 1 0 bundle.new) }
    ensures fault { IfErr result (λ e. (e ≡ BundleFault.Disk) ⊎ (e ≡ BundleFault.NoMem)) }
    ensures cause { HasOwnCause (IsOfRelay number) (IsErrOf result BundleFault.Disk) (D.view disk.old) (D.view disk.new) }
{
    clear(bundle, disk, number)?;
    put_id(bundle, disk, number, count, bytes)
}

/// The files of a relaying, made with a host's line and an identifier.
pub(crate) fn first_id<D: Disk>(
    alloc: Global,
    disk: &mut D,
    number: LogNo,
    count: u64,
    bytes: &[u8],
) -> Result<Bundle, BundleFault>
    requires unmade { D.tells → IsUnmade number (D.view disk.old) }
    ensures bundle { IfOk result (IsBundleOf number) }
    ensures state { D.tells → (aim : AimView) → IfOk result (λ b. state_on aim b (D.view disk.new) ≡ state_of aim 1 count 0 bytes.now) }
    ensures represents { D.tells → IfOk result (λ b. Represents b (D.view disk.new)) }
    ensures any_moment { D.tells → (aim : AimView) → Throughout (IsOfRelay number) (IsReplaced number aim states.Nothing (state_of aim 1 count 0 bytes.now)) (D.view disk.old) (D.view disk.new) }
    ensures last { IfOk result (EndsIn 1 0) }
    ensures fault { IfErr result (λ e. (e ≡ BundleFault.Disk) ⊎ (e ≡ BundleFault.NoMem)) }
    ensures cause { HasOwnCause (IsOfRelay number) (IsErrOf result BundleFault.Disk) (D.view disk.old) (D.view disk.new) }
{
    let mut bundle = make(alloc, disk, number)?;
    put_id(&mut bundle, disk, number, count, bytes)?;
    Ok(bundle)
}

/// The bundle with a host's line and an identifier. What it commits is cut first, also if that is of another host.
pub(crate) fn next_id<D: Disk>(
    disk: &mut D,
    bundle: Bundle,
    number: LogNo,
    count: u64,
    bytes: &[u8],
) -> Result<Bundle, BundleFault>
    requires bundle { IsBundleOf number bundle }
    requires represents { D.tells → Represents bundle (D.view disk.old) }
    ensures bundle { IfOk result (IsBundleOf number) }
    ensures state { D.tells → (aim : AimView) → IfOk result (λ b. state_on aim b (D.view disk.new) ≡ state_of aim 1 count 0 bytes.now) }
    ensures represents { D.tells → IfOk result (λ b. Represents b (D.view disk.new)) }
    ensures any_moment { D.tells → (aim : AimView) → Throughout (IsOfRelay number) (IsReplaced number aim (state_on aim bundle (D.view disk.old)) (state_of aim 1 count 0 bytes.now)) (D.view disk.old) (D.view disk.new) }
    ensures last { IfOk result (EndsIn 1 0) }
    ensures fault { IfErr result (λ e. (e ≡ BundleFault.Disk) ⊎ (e ≡ BundleFault.NoMem)) }
    ensures cause { HasOwnCause (IsOfRelay number) (IsErrOf result BundleFault.Disk) (D.view disk.old) (D.view disk.new) }
{
    let mut bundle = bundle;
    if has_bytes(&bundle) {
        replace_id(&mut bundle, disk, number, count, bytes)?;
        return Ok(bundle);
    }
    put_id(&mut bundle, disk, number, count, bytes)?;
    Ok(bundle)
}

/// The files with a host's line and an identifier. If bytes are committed, they are cut first.
pub(crate) fn with_id<D: Disk>(
    alloc: Global,
    disk: &mut D,
    number: LogNo,
    files: Option<Bundle>,
    count: u64,
    bytes: &[u8],
) -> Result<Bundle, BundleFault>
    requires files { (b : BundleView) → files ≡ Some b → IsBundleOf number b }
    requires stands { D.tells → StandsUndone number files (D.view disk.old) }
    ensures bundle { IfOk result (IsBundleOf number) }
    ensures state { D.tells → (aim : AimView) → IfOk result (λ b. state_on aim b (D.view disk.new) ≡ state_of aim 1 count 0 bytes.now) }
    ensures represents { D.tells → IfOk result (λ b. Represents b (D.view disk.new)) }
    ensures any_moment { D.tells → (aim : AimView) (state : State) → state ≢ states.Done → StandsBy number aim state files (D.view disk.old) → Throughout (IsOfRelay number) (IsReplaced number aim state (state_of aim 1 count 0 bytes.now)) (D.view disk.old) (D.view disk.new) }
    ensures last { IfOk result (EndsIn 1 0) }
    ensures fault { IfErr result (λ e. (e ≡ BundleFault.Disk) ⊎ (e ≡ BundleFault.NoMem)) }
    ensures cause { HasOwnCause (IsOfRelay number) (IsErrOf result BundleFault.Disk) (D.view disk.old) (D.view disk.new) }
{
    match files {
        Some(bundle) => next_id(disk, bundle, number, count, bytes),
        None => first_id(alloc, disk, number, count, bytes),
    }
}

/// The files with one more entry, for the same host and identifier.
pub(crate) fn add_entry<D: Disk>(
    disk: &mut D,
    files: Option<Bundle>,
    number: LogNo,
    kind: u8,
    count: u64,
    extra: u64,
) -> Result<Bundle, BundleFault>
    requires files { IsBundleIn number files }
    requires represents { D.tells → RepresentsIn files (D.view disk.old) }
    ensures bundle { IfOk result (IsBundleOf number) }
    ensures state { D.tells → (aim : AimView) (kept : Kept) → StandsBy number aim (states.Kept kept) files (D.view disk.old) → IfOk result (λ b. state_on aim b (D.view disk.new) ≡ state_of aim kind count extra (line_of aim.host ++ kept.id)) }
    ensures represents { D.tells → IfOk result (λ b. Represents b (D.view disk.new)) }
    ensures any_moment { D.tells → (aim : AimView) (kept : Kept) → StandsBy number aim (states.Kept kept) files (D.view disk.old) → Throughout (IsOfRelay number) (IsChanged number aim (states.Kept kept) kind extra (state_of aim kind count extra (line_of aim.host ++ kept.id))) (D.view disk.old) (D.view disk.new) }
    ensures last { IfOk result (EndsIn kind extra) }
    ensures fault { IfErr result (λ e. e ≡ BundleFault.Disk) }
    ensures cause { HasOwnCause (IsOfRelay number) (IsErrOf result BundleFault.Disk) (D.view disk.old) (D.view disk.new) }
{
    match files {
        Some(bundle) => with_entry(disk, bundle, number, kind, count, extra),
        None => unreachable!(),
    }
}

/// The files with nothing kept.
pub(crate) fn cleared<D: Disk>(
    disk: &mut D,
    files: Option<Bundle>,
    number: LogNo,
) -> Result<Bundle, BundleFault>
    requires files { IsBundleIn number files }
    requires represents { D.tells → RepresentsIn files (D.view disk.old) }
    ensures bundle { IfOk result (IsBundleOf number) }
    ensures state { D.tells → (aim : AimView) → IfOk result (λ n. state_on aim n (D.view disk.new) ≡ states.Nothing) }
    ensures represents { D.tells → IfOk result (λ n. Represents n (D.view disk.new)) }
    ensures any_moment { D.tells → (aim : AimView) (kept : Kept) → StandsBy number aim (states.Kept kept) files (D.view disk.old) → Throughout (IsOfRelay number) (IsChanged number aim (states.Kept kept) 2 0 states.Nothing) (D.view disk.old) (D.view disk.new) }
    ensures last { IfOk result (EndsIn 2 0) }
    ensures fault { IfErr result (λ e. e ≡ BundleFault.Disk) }
    ensures cause { HasOwnCause (IsOfRelay number) (IsErrOf result BundleFault.Disk) (D.view disk.old) (D.view disk.new) }
{
    match files {
        Some(bundle) => without_id(disk, bundle, number),
        None => unreachable!(),
    }
}

/// A bundle with one more entry.
fn with_entry<D: Disk>(
    disk: &mut D,
    bundle: Bundle,
    number: LogNo,
    kind: u8,
    count: u64,
    extra: u64,
) -> Result<Bundle, BundleFault>
    requires bundle { IsBundleOf number bundle }
    requires represents { D.tells → Represents bundle (D.view disk.old) }
    ensures bundle { IfOk result (IsBundleOf number) }
    ensures state { D.tells → (aim : AimView) → IfOk result (λ b. state_on aim b (D.view disk.new) ≡ next_state aim bundle (D.view disk.old) kind count extra) }
    ensures represents { D.tells → IfOk result (λ b. Represents b (D.view disk.new)) }
    ensures any_moment { D.tells → (aim : AimView) → Throughout (IsOfRelay number) (IsChangedFrom number aim bundle (D.view disk.old) kind extra (next_state aim bundle (D.view disk.old) kind count extra)) (D.view disk.old) (D.view disk.new) }
    ensures last { IfOk result (EndsIn kind extra) }
    ensures fault { IfErr result (λ e. e ≡ BundleFault.Disk) }
    ensures cause { HasOwnCause (IsOfRelay number) (IsErrOf result BundleFault.Disk) (D.view disk.old) (D.view disk.new) }
{
    let mut bundle = bundle;
    commit(&mut bundle, disk, number, kind, count, extra)?;
    Ok(bundle)
}

/// A bundle that keeps nothing any more.
fn without_id<D: Disk>(disk: &mut D, bundle: Bundle, number: LogNo) -> Result<Bundle, BundleFault>
    requires bundle { IsBundleOf number bundle }
    requires represents { D.tells → Represents bundle (D.view disk.old) }
    ensures bundle { IfOk result (IsBundleOf number) }
    ensures state { D.tells → (aim : AimView) → IfOk result (λ b. state_on aim b (D.view disk.new) ≡ states.Nothing) }
    ensures represents { D.tells → IfOk result (λ b. Represents b (D.view disk.new)) }
    ensures any_moment { D.tells → (aim : AimView) → Throughout (IsOfRelay number) (IsChangedFrom number aim bundle (D.view disk.old) 2 0 states.Nothing) (D.view disk.old) (D.view disk.new) }
    ensures last { IfOk result (EndsIn 2 0) }
    ensures fault { IfErr result (λ e. e ≡ BundleFault.Disk) }
    ensures cause { HasOwnCause (IsOfRelay number) (IsErrOf result BundleFault.Disk) (D.view disk.old) (D.view disk.new) }
{
    let mut bundle = bundle;
    clear(&mut bundle, disk, number)?;
    Ok(bundle)
}
