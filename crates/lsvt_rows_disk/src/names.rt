//! Files of a store, by name.

use anyhow::{Result, anyhow};
use lsv_bundle::Shape;
use lsv_disk::{FileId, Owner, Part};

/// The files that an owner may have, by name.
const PARTS: [(&str, Part); 12] = [
    ("log.json", Part::Head),
    ("exit.json", Part::Exit),
    ("timing", Part::Timing),
    ("stdin", Part::Stdin),
    ("stdout", Part::Stdout),
    ("stderr", Part::Stderr),
    ("ttyin", Part::Ttyin),
    ("ttyout", Part::Ttyout),
    ("lines", Part::Lines),
    ("id", Part::Id),
    ("commit", Part::Commit),
    ("slots", Part::Slots),
];

/// The part of this name.
pub fn part_of(word: &str) -> Result<Part> {
    for (name, part) in PARTS {
        if word == name {
            return Ok(part);
        }
    }
    Err(anyhow!("a part"))
}

/// The name of a part.
pub fn name_of(part: Part) -> &'static str {
    for (name, known) in PARTS {
        if part == known {
            return name;
        }
    }
    "none"
}

/// An owner: its kind, a point, and the number of the log or the lane.
pub fn owner_of(word: &str) -> Result<Owner> {
    let (kind, number) = word.split_once('.').ok_or(anyhow!("an owner"))?;
    let number = number.parse::<u32>()?;
    match kind {
        "log" => Ok(Owner::Log(number)),
        "events" => Ok(Owner::Events(number)),
        "numbers" => Ok(Owner::Numbers(number)),
        "relay" => Ok(Owner::Relay(number)),
        _ => Err(anyhow!("an owner")),
    }
}

/// A file: its owner, a slash, and its part.
pub fn file_of(word: &str) -> Result<FileId> {
    let (owner, part) = word.split_once('/').ok_or(anyhow!("a file"))?;
    Ok(FileId::new(owner_of(owner)?, part_of(part)?))
}

/// The shape of an owner's bundle.
pub fn shape_of(owner: Owner) -> Result<Shape> {
    match owner {
        Owner::Log(_) => Ok(Shape::Log),
        Owner::Events(_) => Ok(Shape::Lines),
        Owner::Relay(_) => Ok(Shape::Relay),
        Owner::Numbers(_) => Err(anyhow!("a bundle")),
    }
}
