ghost use Rattle.std.specs.Prelude.{◌≡◌, ◌≢◌, ◌⊎◌, ◌≤◌, ◌<◌, ◌+◌, ◌^◌, ◌++◌, false, true, Some, None, length, IfOk, IfErr, IsOk, IsErr, OnOk, OnErr, IsErrOf};
ghost use Rattle.lsv_bundle.specs.Calls.{IsOpenFault};
ghost use Rattle.lsv_bundle.specs.declared.fault.BundleFault.{BundleFault};
ghost use Rattle.lsv_disk.specs.Throughout.{Throughout};
ghost use Rattle.lsv_disk.specs.View.{HasOwnCause, Image, IsCrashImage};
ghost use Rattle.lsv_disk.specs.declared.file.Part.{Part};
ghost use Rattle.lsv_kept.specs.Aim.{AimView, line_of};
ghost use Rattle.lsv_kept.specs.Faults.{IsCommitFault};
ghost use Rattle.lsv_kept.specs.Inner.{IsKeeping};
ghost use Rattle.lsv_kept.specs.Kept.{Changes, IsAsBefore, IsOfRelay, IsOneOf, IsStateDamage, Keeps, Replaces};
ghost use Rattle.lsv_kept.specs.Value.{Stands, is_done, keeps_id, with_point};
ghost use Rattle.lsv_kept.specs.declared.state.Kept.{Kept};
ghost use Rattle.lsv_kept.specs.declared.state.State.{State};
ghost use Rattle.lsv_kept.specs.declared.state.State.TheVariants as states;

use crate::commit::{DONE, KEPT, add_entry, cleared, with_id};
use crate::open::{open_files, read_state};
use crate::room::with_room;
use crate::{Aim, Kept, State};
use lsv_base::{Bytes, LogNo};
use lsv_bundle::{Bundle, BundleFault};
use lsv_disk::Disk;
use std::alloc::Global;
use std::marker::Model;

/// What is kept of the relaying of a log, in memory and on the disk. Its files are made when something is first kept.
/// After a fault of a call that keeps or forgets it answers `Broken`, until it is opened again.
#[derive(Drop)]
pub struct Keeping {
    alloc: Global,
    number: LogNo,
    aim: Aim,
    state: State,
    files: Option<Bundle>,
    pub(crate) broken: bool,
}

impl Model for Keeping {
    ghost use Rattle.lsv_kept.specs.Inner.{IsKeeping};
    ghost use Rattle.lsv_kept.specs.Value.{KeepingView};

    ghost Value = { KeepingView };

    ghost view = { λ k. record { number = k.number; aim = k.aim; state = k.state; files = k.files; broken = k.broken } };

    ghost invariant = { λ k. IsKeeping (record { number = k.number; aim = k.aim; state = k.state; files = k.files; broken = k.broken }) };
}

impl Keeping {
    /// Of a log that is marked as relayed. No file is opened, since nothing is kept any more.
    pub fn relayed(alloc: Global, number: LogNo, aim: Aim) -> Keeping
        ensures { result ≡ record { number = number; aim = aim; state = states.Done; files = None; broken = false } }
    {
        Keeping {
            alloc,
            number,
            aim,
            state: State::Done,
            files: None,
            broken: false,
        }
    }

    /// Reads what is kept of the relaying of this log with this aim, and syncs its files. What is kept of another host
    /// counts as nothing, and so does the mark of a log of another elapsed time.
    /// `Damaged(Id)` exactly if the identifier's file is absent or shorter than the last entry says, or the identifier
    /// has more than 4,096 bytes. `Disk` only if a device call on a file of the relaying failed. It changes nothing
    /// that is kept; the journal of an older store is taken over.
    pub fn open<D: Disk>(
        alloc: Global,
        disk: &mut D,
        number: LogNo,
        aim: Aim,
    ) -> Result<Keeping, BundleFault>
        ensures number { IfOk result (λ k. k.number ≡ number) }
        ensures aim { IfOk result (λ k. k.aim ≡ aim) }
        ensures whole { IfOk result (λ k. k.broken ≡ false) }
        ensures stands { D.tells → IfOk result (λ k. Stands k (D.view disk.new)) }
        ensures kept { D.tells → IfOk result (λ k. Keeps number aim (D.view disk.old).reads k.state) }
        ensures same { D.tells → (any : AimView) (state : State) → Keeps number any (D.view disk.old).reads state → Keeps number any (D.view disk.new).reads state }
        ensures any_moment { D.tells → Throughout (IsOfRelay number) (IsAsBefore number (D.view disk.old)) (D.view disk.old) (D.view disk.new) }
        ensures damaged { D.tells → (part : Part) → IsErrOf result (BundleFault.Damaged part) → IsStateDamage number part (D.view disk.old).reads }
        ensures fault { IfErr result IsOpenFault }
        ensures cause { HasOwnCause (IsOfRelay number) (IsErrOf result BundleFault.Disk) (D.view disk.old) (D.view disk.new) }
    {
        let state = read_state(alloc, disk, number, &aim)?;
        let Some(bundle) = open_files(alloc, disk, number)? else {
            return Ok(Keeping {
                alloc,
                number,
                aim,
                state: State::Nothing,
                files: None,
                broken: false,
            });
        };
        Ok(Keeping {
            alloc,
            number,
            aim,
            state,
            files: Some(bundle),
            broken: false,
        })
    }

    /// What the relaying aims at.
    pub fn aim(&self) -> &Aim
        ensures { result.now ≡ self.now.aim }
    {
        &self.aim
    }

    /// What is kept.
    pub fn state(&self) -> &State
        ensures { result.now ≡ self.now.state }
    {
        &self.state
    }

    /// Whether an identifier is kept.
    pub fn keeps_id(&self) -> bool
        ensures { result ≡ keeps_id self.now.state }
    {
        keeps_id(&self.state)
    }

    /// Whether the log is relayed.
    pub fn is_done(&self) -> bool
        ensures { result ≡ is_done self.now.state }
    {
        match self.state {
            State::Done => true,
            State::Nothing | State::Kept(_) => false,
        }
    }

    /// Whether a call failed, and it wasn't opened again.
    pub fn is_broken(&self) -> bool
        ensures { result ≡ self.now.broken }
    {
        self.broken
    }

    /// Makes the files if there are none, and room for an identifier in them, so that what is sent later can be kept.
    /// Nothing is kept by it: each image has the last entry that a crash could leave before.
    pub fn ready<D: Disk>(&mut self, disk: &mut D) -> Result<(), BundleFault>
        requires undone { self.old.state ≢ states.Done }
        requires stands { D.tells → self.old.broken ≡ false → Stands self.old (D.view disk.old) }
        ensures same { (self.new.number ≡ self.old.number) × (self.new.aim ≡ self.old.aim) × (self.new.state ≡ self.old.state) }
        ensures reads { D.tells → self.old.broken ≡ false → (any : AimView) (state : State) → Keeps self.old.number any (D.view disk.old).reads state → Keeps self.old.number any (D.view disk.new).reads state }
        ensures any_moment { D.tells → self.old.broken ≡ false → Throughout (IsOfRelay self.old.number) (IsAsBefore self.old.number (D.view disk.old)) (D.view disk.old) (D.view disk.new) }
        ensures stands { D.tells → OnOk result (Stands self.new (D.view disk.new)) }
        ensures whole { OnOk result (self.new.broken ≡ false) }
        ensures broken { IsErrOf result BundleFault.Broken → (self.old.broken ≡ true) × (self.new ≡ self.old) × (disk.new ≡ disk.old) }
        ensures fails { OnErr result (self.new.broken ≡ true) }
        ensures fault { IfErr result IsCommitFault }
        ensures cause { HasOwnCause (IsOfRelay self.old.number) (IsErrOf result BundleFault.Disk) (D.view disk.old) (D.view disk.new) }
    {
        self.check_whole()?;
        self.broken = true;
        let bundle = with_room(self.alloc, disk, self.number, self.files.take())?;
        self.files = Some(bundle);
        self.broken = false;
        Ok(())
    }

    /// Keeps this identifier, without a commit point, in place of what is kept, for the host of its aim. What is committed is cut
    /// first, by an entry of kind 2 with no extra number. The entry of the new one has kind 1 and none.
    pub fn keep_id<D: Disk>(&mut self, disk: &mut D, id: &Bytes) -> Result<(), BundleFault>
        requires undone { self.old.state ≢ states.Done }
        requires short { length id.now ≤ 4096 }
        requires stands { D.tells → self.old.broken ≡ false → Stands self.old (D.view disk.old) }
        ensures state { OnOk result (self.new.state ≡ states.Kept (record { id = id.now; point = None })) }
        ensures any_moment { D.tells → self.old.broken ≡ false → Throughout (IsOfRelay self.old.number) (IsOneOf self.old.number self.old.aim self.old.state (states.Kept (record { id = id.now; point = None }))) (D.view disk.old) (D.view disk.new) }
        ensures changes { D.tells → self.old.broken ≡ false → Replaces (IsOk result) self.old.number self.old.aim self.old.state (states.Kept (record { id = id.now; point = None })) (D.view disk.old) (D.view disk.new) }
        ensures acknowledged { D.tells → OnOk result ((image : Image) → IsCrashImage (D.view disk.new) image → Keeps self.old.number self.old.aim image self.new.state) }
        ensures stands { D.tells → OnOk result (Stands self.new (D.view disk.new)) }
        ensures whole { OnOk result (self.new.broken ≡ false) }
        ensures same { (self.new.number ≡ self.old.number) × (self.new.aim ≡ self.old.aim) }
        ensures broken { IsErrOf result BundleFault.Broken → (self.old.broken ≡ true) × (self.new ≡ self.old) × (disk.new ≡ disk.old) }
        ensures fails { OnErr result (self.new.broken ≡ true) }
        ensures fault { IfErr result IsCommitFault }
        ensures cause { HasOwnCause (IsOfRelay self.old.number) (IsErrOf result BundleFault.Disk) (D.view disk.old) (D.view disk.new) }
    {
        self.check_whole()?;
        self.broken = true;
        let Ok(copy) = id.copy(self.alloc) else {
            return Err(BundleFault::NoMem);
        };
        let count = self.line_length()?;
        let bytes = self.lined(id)?;
        let files = self.files.take();
        let bundle = with_id(
            self.alloc,
            disk,
            self.number,
            files,
            count,
            bytes.as_slice(),
        )?;
        self.files = Some(bundle);
        self.state = State::Kept(Kept {
            id: copy,
            point: None,
        });
        self.broken = false;
        Ok(())
    }

    /// Keeps this commit point of the identifier that is kept, in nanoseconds, by one entry of kind 1, whose extra number
    /// is the point plus 1.
    pub fn keep_point<D: Disk>(&mut self, disk: &mut D, point: u64) -> Result<(), BundleFault>
        requires kept { keeps_id self.old.state ≡ true }
        requires small { point < 2 ^ 63 }
        requires stands { D.tells → self.old.broken ≡ false → Stands self.old (D.view disk.old) }
        ensures state { OnOk result (self.new.state ≡ with_point point self.old.state) }
        ensures any_moment { D.tells → self.old.broken ≡ false → Throughout (IsOfRelay self.old.number) (IsOneOf self.old.number self.old.aim self.old.state (with_point point self.old.state)) (D.view disk.old) (D.view disk.new) }
        ensures changes { D.tells → self.old.broken ≡ false → Changes (IsOk result) self.old.number self.old.aim self.old.state 1 (point + 1) (with_point point self.old.state) (D.view disk.old) (D.view disk.new) }
        ensures acknowledged { D.tells → OnOk result ((image : Image) → IsCrashImage (D.view disk.new) image → Keeps self.old.number self.old.aim image self.new.state) }
        ensures stands { D.tells → OnOk result (Stands self.new (D.view disk.new)) }
        ensures whole { OnOk result (self.new.broken ≡ false) }
        ensures same { (self.new.number ≡ self.old.number) × (self.new.aim ≡ self.old.aim) }
        ensures broken { IsErrOf result BundleFault.Broken → (self.old.broken ≡ true) × (self.new ≡ self.old) × (disk.new ≡ disk.old) }
        ensures fails { OnErr result (self.new.broken ≡ true) }
        ensures fault { IfErr result IsCommitFault }
        ensures cause { HasOwnCause (IsOfRelay self.old.number) (IsErrOf result BundleFault.Disk) (D.view disk.old) (D.view disk.new) }
    {
        self.check_whole()?;
        self.broken = true;
        let count = self.line_length()?;
        let bundle = add_entry(disk, self.files.take(), self.number, KEPT, count, point + 1)?;
        self.files = Some(bundle);
        self.state.set_point(point);
        self.broken = false;
        Ok(())
    }

    /// Marks the log as relayed, by one entry of kind 3, whose extra number is the elapsed time of its aim plus 1.
    pub fn mark<D: Disk>(&mut self, disk: &mut D) -> Result<(), BundleFault>
        requires kept { keeps_id self.old.state ≡ true }
        requires small { self.old.aim.total < 2 ^ 63 }
        requires stands { D.tells → self.old.broken ≡ false → Stands self.old (D.view disk.old) }
        ensures state { OnOk result (self.new.state ≡ states.Done) }
        ensures any_moment { D.tells → self.old.broken ≡ false → Throughout (IsOfRelay self.old.number) (IsOneOf self.old.number self.old.aim self.old.state states.Done) (D.view disk.old) (D.view disk.new) }
        ensures changes { D.tells → self.old.broken ≡ false → Changes (IsOk result) self.old.number self.old.aim self.old.state 3 (self.old.aim.total + 1) states.Done (D.view disk.old) (D.view disk.new) }
        ensures acknowledged { D.tells → OnOk result ((image : Image) → IsCrashImage (D.view disk.new) image → Keeps self.old.number self.old.aim image self.new.state) }
        ensures stands { D.tells → OnOk result (Stands self.new (D.view disk.new)) }
        ensures whole { OnOk result (self.new.broken ≡ false) }
        ensures same { (self.new.number ≡ self.old.number) × (self.new.aim ≡ self.old.aim) }
        ensures broken { IsErrOf result BundleFault.Broken → (self.old.broken ≡ true) × (self.new ≡ self.old) × (disk.new ≡ disk.old) }
        ensures fails { OnErr result (self.new.broken ≡ true) }
        ensures fault { IfErr result IsCommitFault }
        ensures cause { HasOwnCause (IsOfRelay self.old.number) (IsErrOf result BundleFault.Disk) (D.view disk.old) (D.view disk.new) }
    {
        self.check_whole()?;
        self.broken = true;
        let count = self.line_length()?;
        let extra = self.aim.total() + 1;
        let bundle = add_entry(disk, self.files.take(), self.number, DONE, count, extra)?;
        self.files = Some(bundle);
        self.state = State::Done;
        self.broken = false;
        Ok(())
    }

    /// Keeps the identifier no longer, by an entry of kind 2 with no extra number.
    pub fn forget<D: Disk>(&mut self, disk: &mut D) -> Result<(), BundleFault>
        requires kept { keeps_id self.old.state ≡ true }
        requires stands { D.tells → self.old.broken ≡ false → Stands self.old (D.view disk.old) }
        ensures state { OnOk result (self.new.state ≡ states.Nothing) }
        ensures any_moment { D.tells → self.old.broken ≡ false → Throughout (IsOfRelay self.old.number) (IsOneOf self.old.number self.old.aim self.old.state states.Nothing) (D.view disk.old) (D.view disk.new) }
        ensures changes { D.tells → self.old.broken ≡ false → Changes (IsOk result) self.old.number self.old.aim self.old.state 2 0 states.Nothing (D.view disk.old) (D.view disk.new) }
        ensures acknowledged { D.tells → OnOk result ((image : Image) → IsCrashImage (D.view disk.new) image → Keeps self.old.number self.old.aim image self.new.state) }
        ensures stands { D.tells → OnOk result (Stands self.new (D.view disk.new)) }
        ensures whole { OnOk result (self.new.broken ≡ false) }
        ensures same { (self.new.number ≡ self.old.number) × (self.new.aim ≡ self.old.aim) }
        ensures broken { IsErrOf result BundleFault.Broken → (self.old.broken ≡ true) × (self.new ≡ self.old) × (disk.new ≡ disk.old) }
        ensures fails { OnErr result (self.new.broken ≡ true) }
        ensures fault { IfErr result IsCommitFault }
        ensures cause { HasOwnCause (IsOfRelay self.old.number) (IsErrOf result BundleFault.Disk) (D.view disk.old) (D.view disk.new) }
    {
        self.check_whole()?;
        self.broken = true;
        let bundle = cleared(disk, self.files.take(), self.number)?;
        self.files = Some(bundle);
        self.state = State::Nothing;
        self.broken = false;
        Ok(())
    }

    /// The line that names the host, with an identifier after it.
    fn lined(&self, id: &Bytes) -> Result<Bytes, BundleFault>
        ensures lined { IfOk result (λ bytes. bytes ≡ line_of self.now.aim.host ++ id.now) }
        ensures fault { IfErr result (λ e. e ≡ BundleFault.NoMem) }
    {
        let Ok(mut bytes) = self.aim.line(self.alloc) else {
            return Err(BundleFault::NoMem);
        };
        if bytes.add(id.as_slice()).is_err() {
            return Err(BundleFault::NoMem);
        }
        Ok(bytes)
    }

    /// The length of the line that names the host. It takes no memory; no host is so long that it fails.
    fn line_length(&self) -> Result<u64, BundleFault>
        ensures length { IfOk result (λ count. count ≡ length (line_of self.now.aim.host)) }
        ensures fault { IfErr result (λ e. e ≡ BundleFault.NoMem) }
    {
        let length = self.aim.host().len() as u64;
        length.checked_add(1).ok_or(BundleFault::NoMem)
    }

    /// Fails exactly if it is broken.
    fn check_whole(&self) -> Result<(), BundleFault>
        ensures whole { OnOk result (self.now.broken ≡ false) }
        ensures broken { OnErr result (self.now.broken ≡ true) }
        ensures fault { IfErr result (λ e. e ≡ BundleFault.Broken) }
    {
        if self.broken {
            return Err(BundleFault::Broken);
        }
        Ok(())
    }
}

/// Whether an identifier is kept.
fn keeps_id(state: &State) -> bool
    ensures { result ≡ keeps_id state.now }
{
    match state {
        State::Kept(_) => true,
        State::Nothing | State::Done => false,
    }
}
