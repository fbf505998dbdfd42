//! A bundle over a disk in memory that tells its files: its calls, and its laws.
ghost use Rattle.lsv_journal.specs.Last.{MayBeMade};
ghost use Rattle.lsv_bundle.specs.Shape.{journal_of};

use lsv_bundle::{
    Bundle, BundleFault, Shape, bundles_are_apart, bundles_stay, images_hold_what_is_committed,
    staging_commits_nothing,
};
use lsv_disk::{Claim, Disk, MemDisk, Owner, Part};
use std::alloc::Global;
use std::marker::PhantomData;
use std::test::Fail;

const EVENTS: Owner = Owner::Events(0);

/// Makes a bundle, stages, takes back, commits, and reads from the second byte on.
fn read_back<D: Disk>(alloc: Global, disk: &mut D) -> Result<([u8; 4], usize), BundleFault>
    requires { D.tells → MayBeMade 89 (journal_of EVENTS) (D.view disk.old) }
{
    let mut bundle = Bundle::create(alloc, disk, EVENTS, Shape::Lines)?;
    bundle.stage(Part::Lines, b"one")?;
    bundle.stage(Part::Lines, b"two")?;
    bundle.unstage(Part::Lines, 3);
    bundle.flush(disk, 1, 1, 0, 0)?;
    let mut buf = [0; 4];
    let count = bundle.read(disk, Part::Lines, 1, &mut buf)?;
    bundles_are_apart();
    images_hold_what_is_committed(&bundle, &*disk);
    staging_commits_nothing(&bundle, &bundle, &*disk);
    bundles_stay(&bundle, &*disk, &*disk, PhantomData::<Nothing>);
    Ok((buf, count))
}

#[test]
fn what_is_taken_back_isnt_committed(rt: HostRuntime) -> Result<(), Fail> {
    let mut disk = MemDisk::new(rt.alloc(), &[])?;
    assert_eq!(rt; read_back(rt.alloc(), &mut disk), Ok((*b"ne\0\0", 2)));
    let mut buf = [0; 4];
    let view = Bundle::view(&mut disk, EVENTS, Shape::Lines)?.ok_or("no entry")?;
    assert_eq!(rt; view.read(&mut disk, Part::Lines, 0, &mut buf), Ok(3));
    assert_eq!(rt; buf, *b"one\0");
    Ok(())
}

/// What holds of calls that touch no file.
struct Nothing;

impl Claim for Nothing {
    ghost touched = { λ _. ⊥ };

    ghost holds = { λ _. Unit {0} };
}
