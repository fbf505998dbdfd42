//! A journal of twelve bytes over a disk in memory that tells its files: its calls, and its laws.
ghost use Rattle.lsv_journal.specs.Last.{MayBeMade};

use lsv_disk::{Claim, Disk, FileId, MemDisk, Owner, Part};
use lsv_journal::{
    Journal, JournalFault, absent_journals, images_hold_the_last_entry, journals_stay, own_files,
};
use std::marker::PhantomData;
use std::test::Fail;

const SLOTS: FileId = FileId {
    owner: Owner::Numbers(0),
    part: Part::Slots,
};

/// Makes a journal, and appends 7, 8 and 9.
fn script<D: Disk>(disk: &mut D) -> Result<(), JournalFault>
    requires { D.tells → MayBeMade 12 SLOTS (D.view disk.old) }
{
    let mut journal = Journal::<12>::create(disk, SLOTS)?;
    journal.append(disk, [7; 12])?;
    journal.append(disk, [8; 12])?;
    journal.append(disk, [9; 12])
}

#[test]
fn the_theorems_hold_of_this_journal(rt: HostRuntime) -> Result<(), Fail> {
    let mut disk = MemDisk::new(rt.alloc(), &[])?;
    assert_eq!(rt; script(&mut disk), Ok(()));
    assert_eq!(rt; disk.bytes(SLOTS).map(|bytes| bytes.len()), Some(26));
    own_files();
    assert_eq!(rt; Journal::<12>::view(&mut disk, SLOTS), Ok(Some([9; 12])));
    if let Some(journal) = Journal::<12>::open(&mut disk, SLOTS)? {
        images_hold_the_last_entry(&journal, &disk);
        absent_journals(&journal, &disk);
        journals_stay(&journal, &disk, &disk, PhantomData::<Nothing>);
    }
    Ok(())
}

/// What holds of calls that touch no file.
struct Nothing;

impl Claim for Nothing {
    ghost touched = { λ _. ⊥ };

    ghost holds = { λ _. Unit {0} };
}
