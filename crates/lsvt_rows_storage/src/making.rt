//! In which order the files of a folder are made, and which of them are synced.

use crate::names::{name_of, part_of};
use anyhow::{Result, anyhow};
use lsv_disk::{FileId, Owner, Part};
use lsv_real_disk::{InodeTable, Made, NewFile};

/// The part that has a gate, which is written when it is made.
const GATED: Part = Part::Slots;

/// The files that are made together, in the order of their names.
fn parts_of(rt: &HostRuntime, words: &str) -> Result<Vec<Part>> {
    let mut parts = Vec::new(rt.alloc());
    for word in words.split(',') {
        parts.push(part_of(word)?)?;
    }
    Ok(parts)
}

/// Makes files in a folder, one after the other. The words are the length of a block in bytes, the number of the folder's
/// inode, the parts with commas between, and the numbers of their inodes. Prints the order, and which files are synced.
pub fn show(rt: &HostRuntime, words: &str) -> Result<()> {
    let (length, rest) = words.split_once(' ').ok_or(anyhow!("a folder"))?;
    let (folder, rest) = rest.split_once(' ').ok_or(anyhow!("parts"))?;
    let (parts, numbers) = rest.split_once(' ').ok_or(anyhow!("inodes"))?;
    let table = InodeTable {
        block_length: length.parse::<u64>()?,
    };
    let mut made = Made::new(rt.alloc(), table, folder.parse::<u64>()?);
    let order = made.in_order(rt.alloc(), &parts_of(rt, parts)?)?;
    print!(rt; "made")?;
    for (part, number) in order.iter().zip(numbers.split(' ')) {
        let new = NewFile {
            id: FileId::new(Owner::Log(1), *part),
            inode: number.parse::<u64>()?,
        };
        made.note(new, *part == GATED)?;
        print!(rt; " {}", name_of(*part))?;
    }
    print!(rt; ", synced")?;
    for new in made.to_sync() {
        print!(rt; " {}", name_of(new.id.part))?;
    }
    println!(rt;)?;
    Ok(())
}
