//! The calls of a bundle, by words.

ghost use Rattle.std.specs.Prelude.{◌≡◌, true};
ghost use Rattle.lsv_bundle.specs.Shape.{IsPart};

use crate::calls::bytes_of;
use crate::names::{name_of, owner_of, part_of, shape_of};
use anyhow::{Error, Result, anyhow};
use lsv_bundle::{Body, Bundle, BundleFault, Shape};
use lsv_disk::{FileId, Owner, Part};
use lsvt_doubles::Hostile;
use std::alloc::Global;

/// A bundle, with its shape.
#[derive(Drop)]
pub struct Held {
    shape: Shape,
    bundle: Bundle,
    ghost same: { bundle.shape ≡ shape },
}

/// Why a call of a bundle failed, with the part that it names.
pub fn fault(fault: BundleFault) -> Error {
    match fault {
        BundleFault::Damaged(part) => anyhow!("{fault}: {}", name_of(part)),
        BundleFault::Full(part) => anyhow!("{fault}: {}", name_of(part)),
        fault => fault.into(),
    }
}

/// Whether a bundle of this shape has this part.
fn has(shape: Shape, part: Part) -> bool
    ensures { result ≡ true → IsPart shape part }
{
    match (shape, part) {
        (_, Part::Commit | Part::Slots) => false,
        (Shape::Lines, part) => part == Part::Lines,
        (Shape::Relay, part) => part == Part::Id,
        (Shape::Log, part) => part != Part::Lines && part != Part::Id,
    }
}

/// What an entry says, and the committed bytes of each part that has some.
fn said(alloc: Global, disk: &Hostile, owner: Owner, body: &Body) -> Result<String> {
    let Body {
        kind,
        count,
        elapsed,
        extra,
        lens,
    } = body;
    let mut text = format!(in alloc;
        "kind {kind}, count {count}, elapsed {elapsed}, extra {extra}"
    )?;
    for (part, len) in shape_of(owner)?.parts().iter().zip(lens.iter()) {
        let bytes = disk.bytes(FileId::new(owner, *part)).unwrap_or(&[]);
        let committed = bytes.get(..*len as usize).unwrap_or(&[]);
        if !committed.is_empty() {
            let digits = hex::encode(alloc, committed)?;
            text.push_str(format!(in alloc; ", {} {digits}", name_of(*part))?.as_str())?;
        }
    }
    Ok(text)
}

/// Views the bundle of an owner.
pub fn view(alloc: Global, disk: &mut Hostile, owner: &str) -> Result<String> {
    let owner = owner_of(owner)?;
    match Bundle::view(disk, owner, shape_of(owner)?).map_err(fault)? {
        Some(view) => said(alloc, disk, owner, &view.body()),
        None => Ok(format!(in alloc; "no entry")?),
    }
}

/// A bundle of this owner that is made.
pub fn create(alloc: Global, disk: &mut Hostile, owner: &str) -> Result<Held> {
    let owner = owner_of(owner)?;
    let shape = shape_of(owner)?;
    let bundle = Bundle::create(alloc, disk, owner, shape).map_err(fault)?;
    Ok(Held { shape, bundle })
}

/// A bundle of this owner that is opened, and what its last entry says. None without an entry.
pub fn open(alloc: Global, disk: &mut Hostile, owner: &str) -> Result<Option<(Held, String)>> {
    let owner = owner_of(owner)?;
    let shape = shape_of(owner)?;
    let opened = Bundle::open(alloc, disk, owner, shape).map_err(fault)?;
    let Some(bundle) = opened else {
        return Ok(None);
    };
    let text = said(alloc, disk, owner, &bundle.last())?;
    Ok(Some((Held { shape, bundle }, text)))
}

/// Commits what is staged, and then cuts all of it away.
fn flush_and_cut(
    bundle: &mut Bundle,
    disk: &mut Hostile,
    shape: Shape,
    kind: u8,
    count: u64,
) -> Result<(), BundleFault>
    requires { bundle.old.shape ≡ shape }
    ensures { bundle.new.shape ≡ shape }
{
    bundle.flush(disk, kind, count, 0, 0)?;
    bundle.cut(disk, [0; 8], 0, 0, 1)
}

/// The four numbers of an entry: its kind, count, elapsed time and cuts.
fn numbers_of(words: &str) -> Result<(u8, u64, u64, u64)> {
    let mut words = words.split(' ');
    let mut next = || -> Result<u64> {
        let word = words.next().ok_or(anyhow!("a number"))?;
        Ok(word.parse::<u64>()?)
    };
    Ok((next()?.min(255) as u8, next()?, next()?, next()?))
}

impl Held {
    /// Makes a call of the bundle. Returns what it answers, as a text.
    pub fn call(
        &mut self,
        alloc: Global,
        disk: &mut Hostile,
        word: &str,
        words: &str,
    ) -> Result<String> {
        match word {
            "stage" => self.stage(alloc, words),
            "unstage" => self.unstage(alloc, words),
            "flush" => self.flush(alloc, disk, words),
            "cut" => self.cut(alloc, disk, words),
            "read" => self.read(alloc, disk, words),
            _ => Err(anyhow!("a call of a bundle")),
        }
    }

    /// Stages bytes of a part.
    fn stage(&mut self, alloc: Global, words: &str) -> Result<String> {
        let (name, digits) = words.split_once(' ').ok_or(anyhow!("bytes"))?;
        let part = part_of(name)?;
        let bytes = bytes_of(alloc, digits)?;
        if !has(self.shape, part) {
            return Err(anyhow!("a part of the bundle"));
        }
        self.bundle.stage(part, &bytes).map_err(fault)?;
        Ok(String::new(alloc))
    }

    /// Keeps the first of the staged bytes of a part.
    fn unstage(&mut self, alloc: Global, words: &str) -> Result<String> {
        let (name, keep) = words.split_once(' ').ok_or(anyhow!("a count"))?;
        let part = part_of(name)?;
        if !has(self.shape, part) {
            return Err(anyhow!("a part of the bundle"));
        }
        self.bundle.unstage(part, keep.parse::<usize>()?);
        Ok(String::new(alloc))
    }

    /// Commits what is staged, by an entry with these numbers.
    fn flush(&mut self, alloc: Global, disk: &mut Hostile, words: &str) -> Result<String> {
        let (kind, count, elapsed, extra) = numbers_of(words)?;
        let flushed = self.bundle.flush(disk, kind, count, elapsed, extra);
        flushed.map_err(fault)?;
        Ok(String::new(alloc))
    }

    /// The same by an entry of this kind and count, and then cuts all of it away.
    fn cut(&mut self, alloc: Global, disk: &mut Hostile, words: &str) -> Result<String> {
        let (kind, count, _, _) = numbers_of(words)?;
        let cut = flush_and_cut(&mut self.bundle, disk, self.shape, kind, count);
        cut.map_err(fault)?;
        Ok(String::new(alloc))
    }

    /// Reads committed bytes of a part from an offset, at most four.
    fn read(&mut self, alloc: Global, disk: &mut Hostile, words: &str) -> Result<String> {
        let (name, at) = words.split_once(' ').ok_or(anyhow!("an offset"))?;
        let part = part_of(name)?;
        if !has(self.shape, part) {
            return Err(anyhow!("a part of the bundle"));
        }
        let mut buf = [0; 4];
        let read = self.bundle.read(disk, part, at.parse::<u64>()?, &mut buf);
        let count = read.map_err(fault)?;
        Ok(format!(in alloc; "{count} of {}", hex::encode(alloc, &buf)?)?)
    }
}
