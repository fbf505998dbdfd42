//! The lines of a log's timing, read through a window.
ghost use Rattle.std.specs.Prelude.{◌≡◌, ◌≢◌, ◌↔◌, ◌⊎◌, ℕ, List, None, ◌+◌, ◌<◌, ◌≤◌, ◌^◌, [], length, IsTrue, IfOk, IfErr, IfSome, IfNone, OnOk, OnErr, IsErrOf};
ghost use Rattle.lsv_disk.specs.declared.file.Part.{Part};
ghost use Rattle.lsv_disk.specs.Files.{file_of};
ghost use Rattle.lsv_disk.specs.View.{HasCause};
ghost use Rattle.lsv_disk.specs.Throughout.{OnlyReads};
ghost use Rattle.lsv_bundle.specs.declared.shape.Shape.TheVariants as shapes;
ghost use Rattle.lsv_bundle.specs.Body.{length_of};
ghost use Rattle.lsv_record.specs.Lines.{IsLineAt};
ghost use Rattle.lsv_record.specs.Records.{IsGood};
ghost use Rattle.lsv_record.specs.Tally.{totals_of, with_line};
ghost use Rattle.lsv_iolog.specs.declared.fault.ViewFault.{ViewFault};
ghost use Rattle.lsv_iolog.specs.Inner.Scanning.{text_of, IsInOrder, IsSameWindow, IsReading, IsBadLine};
ghost use Rattle.lsv_iolog.specs.Reading.{IsWindowOf};

use crate::ViewFault;
use crate::pieces::read_piece;
use lsv_base::Bytes;
use lsv_bundle::View;
use lsv_disk::{Disk, Part};
use lsv_record::{Shaped, Tally};
use std::alloc::Global;
use std::marker::Model;

/// The most bytes that a text of timing may have.
const FILE_LIMIT: u64 = 1 << 40;

/// The most bytes of timing that are read at once.
const WINDOW: u64 = 1 << 16;

/// The place of the timing's length among the eight.
const TIMING: usize = 2;

/// The committed timing of a log, which is read line by line through windows of it.
#[derive(Drop)]
pub(crate) struct Lines {
    view: View,
    tally: Tally,
    /// The offset in the timing at which the window begins.
    start: u64,
    window: Bytes,
}

impl Model for Lines {
    ghost use Rattle.std.specs.Prelude.{◌≡◌, ◌≤◌, ◌+◌, length};
    ghost use Rattle.lsv_disk.specs.declared.file.Part.TheVariants.{Timing};
    ghost use Rattle.lsv_bundle.specs.declared.shape.Shape.TheVariants as shapes;
    ghost use Rattle.lsv_bundle.specs.Body.{length_of};
    ghost use Rattle.lsv_iolog.specs.Inner.Scanning.{Scan};

    ghost Value = { Scan };

    ghost view = { λ l. record { view = l.view; tally = l.tally; start = l.start; window = l.window } };

    ghost invariant = { λ l. (l.view.shape ≡ shapes.Log) × (l.start ≤ l.tally.timing) × (l.tally.timing ≤ l.start + length l.window) × (l.start + length l.window ≤ length_of l.view.body Timing) × (length l.window ≤ 65536) };
}

impl Lines {
    /// No line is read.
    pub(crate) fn new(alloc: Global, view: View) -> Self
        requires { view.shape ≡ shapes.Log }
        ensures { result ≡ record { view = view; tally = totals_of []; start = 0; window = [] } }
    {
        Lines {
            view,
            tally: Tally::new(),
            start: 0,
            window: Bytes::new(alloc),
        }
    }

    /// The view whose timing it is.
    pub(crate) fn view(&self) -> View
        ensures { result ≡ self.now.view }
    {
        self.view
    }

    /// What the lines so far come to.
    pub(crate) fn tally(&self) -> Tally
        ensures tally { result ≡ self.now.tally }
        ensures within { result.timing ≤ length_of self.now.view.body Part.Timing }
    {
        self.tally
    }

    /// Goes back to the place at which the lines came to this.
    pub(crate) fn back_to(&mut self, before: Tally)
        requires start { self.old.start ≤ before.timing }
        requires end { before.timing ≤ self.old.start + length self.old.window }
        ensures { self.new ≡ record { view = self.old.view; tally = before; start = self.old.start; window = self.old.window } }
    {
        self.tally = before;
    }

    /// Reads on in another view of the same log, after the lines that were read.
    pub(crate) fn renew(&mut self, view: View)
        requires shape { view.shape ≡ shapes.Log }
        requires timing { self.old.tally.timing ≤ length_of view.body Part.Timing }
        ensures { self.new ≡ record { view = view; tally = self.old.tally; start = self.old.tally.timing; window = [] } }
    {
        self.view = view;
        self.start = self.tally.timing();
        self.window.truncate(0);
    }

    /// How many bytes of timing are committed.
    fn total(&self) -> u64
        ensures total { result ≡ length_of self.now.view.body Part.Timing }
        ensures in_order { IsInOrder self.now }
    {
        self.view.body.lens[TIMING]
    }

    /// The window reaches to the end of the timing.
    fn is_last(&self) -> bool
        ensures { IsTrue result ↔ (self.now.start + length self.now.window ≡ length_of self.now.view.body Part.Timing) }
    {
        self.total() - self.start == self.window.as_slice().len() as u64
    }

    /// Reads the next line from the window, if the window has a whole one. None at the end of the timing, and if the
    /// window is too short. At None and at a fault nothing is read.
    fn step(&mut self, alloc: Global) -> Result<Option<Shaped>, ViewFault>
        requires small { length_of self.old.view.body Part.Timing ≤ 2 ^ 40 }
        ensures line { IfOk result (λ line. IfSome line (λ told. (text : List ℕ) → IsWindowOf text self.old.start self.old.window self.old.tally.timing → length text ≤ length_of self.old.view.body Part.Timing
            → IsLineAt text self.old.tally.timing told self.new.tally.timing)) }
        ensures taken { IfOk result (λ line. IfSome line (λ told. IsGood told × (self.new.tally ≡ with_line self.old.tally told))) }
        ensures end { IfOk result (λ line. IfNone line (self.old.start + length self.old.window ≡ length_of self.old.view.body Part.Timing → self.old.tally.timing ≡ length_of self.old.view.body Part.Timing)) }
        ensures short { IfOk result (λ line. IfNone line (self.old.start + length self.old.window < self.old.tally.timing + 56)) }
        ensures stays { IfOk result (λ line. IfNone line (self.new.tally ≡ self.old.tally)) }
        ensures err { OnErr result (self.new.tally ≡ self.old.tally) }
        ensures bad { IsErrOf result (ViewFault.Damaged Part.Timing) → (text : List ℕ) → IsWindowOf text self.old.start self.old.window self.old.tally.timing → length text ≤ length_of self.old.view.body Part.Timing
            → IsBadLine text self.old.tally }
        ensures view { self.new.view ≡ self.old.view }
        ensures window { IsSameWindow self.old self.new }
        ensures in_order { IsInOrder self.new }
        ensures fault { IfErr result (λ e. (e ≡ ViewFault.Damaged Part.Timing) ⊎ (e ≡ ViewFault.NoMem)) }
    {
        let from = (self.tally.timing() - self.start) as usize;
        let is_last = self.is_last();
        let window = &self.window.as_slice()[from..];
        let line = self.tally.step(alloc, window, is_last)?;
        Ok(line)
    }

    /// Reads a window that begins at the next line. If that fails, the window is empty.
    fn fill<D: Disk>(&mut self, alloc: Global, disk: &mut D) -> Result<(), ViewFault>
        ensures reading { D.tells → IsReading self.old (D.view disk.old) → IsReading self.new (D.view disk.new) }
        ensures full { D.tells → OnOk result (IsReading self.old (D.view disk.old) → length (text_of self.old.view (D.view disk.old) Part.Timing) ≡ length_of self.old.view.body Part.Timing
            → (65536 ≤ length self.new.window) ⊎ (self.new.start + length self.new.window ≡ length_of self.old.view.body Part.Timing)) }
        ensures view { self.new.view ≡ self.old.view }
        ensures tally { self.new.tally ≡ self.old.tally }
        ensures start { self.new.start ≡ self.old.tally.timing }
        ensures in_order { IsInOrder self.new }
        ensures reads { D.tells → OnlyReads (D.view disk.old) (D.view disk.new) }
        ensures fault { IfErr result (λ e. (e ≡ ViewFault.Disk) ⊎ (e ≡ ViewFault.NoMem)) }
        ensures cause { HasCause (file_of self.old.view.owner Part.Timing) (IsErrOf result ViewFault.Disk) (D.view disk.old) (D.view disk.new) }
    {
        let start = self.tally.timing();
        let room = (self.view.body.lens[TIMING] - start).min(WINDOW);
        self.start = start;
        self.window = Bytes::new(alloc);
        let view = self.view;
        self.window = read_piece(alloc, disk, &view, Part::Timing, start, room)?;
        Ok(())
    }

    /// Reads the next line. None at the end of the timing. `Damaged(Timing)` comes if there is no line, or the elapsed
    /// time reaches 2^63 nanoseconds with it, or the timing has more than 2^40 bytes. At a fault no line was read.
    pub(crate) fn next<D: Disk>(
        &mut self,
        alloc: Global,
        disk: &mut D,
    ) -> Result<Option<Shaped>, ViewFault>
        ensures line { D.tells → IfOk result (λ line. IfSome line (λ told. IsReading self.old (D.view disk.old) → IsLineAt (text_of self.old.view (D.view disk.old) Part.Timing) self.old.tally.timing told self.new.tally.timing)) }
        ensures taken { IfOk result (λ line. IfSome line (λ told. IsGood told × (self.new.tally ≡ with_line self.old.tally told))) }
        ensures end { IfOk result (λ line. IfNone line (self.old.tally.timing ≡ length_of self.old.view.body Part.Timing)) }
        ensures small { OnOk result (length_of self.old.view.body Part.Timing ≤ 2 ^ 40) }
        ensures stays { IfOk result (λ line. IfNone line (self.new.tally ≡ self.old.tally)) }
        ensures err { OnErr result (self.new.tally ≡ self.old.tally) }
        ensures view { self.new.view ≡ self.old.view }
        ensures window { (self.new.start ≤ self.old.tally.timing) × (self.old.tally.timing ≤ self.new.start + length self.new.window) }
        ensures in_order { IsInOrder self.new }
        ensures reading { D.tells → IsReading self.old (D.view disk.old) → IsReading self.new (D.view disk.new) }
        ensures bad { D.tells → IsErrOf result (ViewFault.Damaged Part.Timing) → IsReading self.old (D.view disk.old) → length (text_of self.old.view (D.view disk.old) Part.Timing) ≡ length_of self.old.view.body Part.Timing
            → IsBadLine (text_of self.old.view (D.view disk.old) Part.Timing) self.old.tally }
        ensures reads { D.tells → OnlyReads (D.view disk.old) (D.view disk.new) }
        ensures fault { IfErr result (λ e. (e ≡ ViewFault.Disk) ⊎ (e ≡ ViewFault.Damaged Part.Timing) ⊎ (e ≡ ViewFault.NoMem)) }
        ensures cause { HasCause (file_of self.old.view.owner Part.Timing) (IsErrOf result ViewFault.Disk) (D.view disk.old) (D.view disk.new) }
    {
        if self.total() > FILE_LIMIT {
            return Err(ViewFault::Damaged(Part::Timing));
        }
        if let Some(line) = self.step(alloc)? {
            return Ok(Some(line));
        }
        if self.is_last() {
            return Ok(None);
        }
        self.fill(alloc, disk)?;
        match self.step(alloc)? {
            Some(line) => Ok(Some(line)),
            None => self.no_line(),
        }
    }

    /// At the end of the timing no line is left; before it one is missing.
    fn no_line(&self) -> Result<Option<Shaped>, ViewFault>
        ensures end { IfOk result (λ line. (line ≡ None) × (self.now.start + length self.now.window ≡ length_of self.now.view.body Part.Timing)) }
        ensures fault { IfErr result (λ e. (e ≡ ViewFault.Damaged Part.Timing) × (self.now.start + length self.now.window ≢ length_of self.now.view.body Part.Timing)) }
    {
        if self.is_last() {
            return Ok(None);
        }
        Err(ViewFault::Damaged(Part::Timing))
    }
}
