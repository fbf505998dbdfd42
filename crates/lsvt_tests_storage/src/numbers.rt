//! The numbers of a lane over a disk in memory that tells its files: their calls, and their laws.

use lsv_base::LogNo;
use lsv_disk::{Claim, MemDisk};
use lsv_seq::{
    Numbers, an_image_has_one_last_number, each_image_has_the_last_number, last_drawn,
    no_number_is_drawn_twice, numbers_stay,
};
use std::marker::PhantomData;
use std::test::Fail;

#[test]
fn the_theorems_hold_of_these_numbers(rt: HostRuntime) -> Result<(), Fail> {
    let mut disk = MemDisk::new(rt.alloc(), &[])?;
    assert_eq!(rt; last_drawn(&mut disk, 3), Ok(None));
    let mut numbers = Numbers::open(&mut disk, 3, 8)?;
    assert_eq!(rt; numbers.draw(&mut disk).map(LogNo::get), Ok(4));
    assert_eq!(rt; last_drawn(&mut disk, 3), Ok(Some((4, 8))));
    an_image_has_one_last_number();
    each_image_has_the_last_number(&numbers, &disk);
    numbers_stay(&numbers, &disk, &disk, PhantomData::<Nothing>);
    no_number_is_drawn_twice(&numbers);
    Ok(())
}

/// What holds of calls that touch no file.
struct Nothing;

impl Claim for Nothing {
    ghost touched = { λ _. ⊥ };

    ghost holds = { λ _. Unit {0} };
}
