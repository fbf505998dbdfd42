ghost use Rattle.std.specs.Prelude.{◌≡◌, ◌<◌, ℕ};
ghost use Rattle.lsv_bundle.specs.Shape.{parts_of, index_of};
ghost use Rattle.lsv_bundle.specs.InnerFiles.{all_parts_of};

use lsv_disk::Part;

/// Which data files a bundle has.
#[derive(Clone, Copy, Debug, PartialEq, Eq)]
pub enum Shape {
    /// A log: `log.json`, `exit.json`, `timing`, and the five streams.
    Log,
    /// An event log: its lines.
    Lines,
    /// The state of relaying a log: the identifier that the upstream gave.
    Relay,
}

const LOG_PARTS: [Part; 9] = [
    Part::Head,
    Part::Exit,
    Part::Timing,
    Part::Stdin,
    Part::Stdout,
    Part::Stderr,
    Part::Ttyin,
    Part::Ttyout,
    Part::Slots,
];

const LINES_PARTS: [Part; 2] = [Part::Lines, Part::Slots];

const RELAY_PARTS: [Part; 2] = [Part::Id, Part::Slots];

impl Shape {
    /// Its parts, in the order of the eight lengths.
    pub fn parts(self) -> &'static [Part]
        ensures { result.now ≡ parts_of self }
    {
        match self {
            Shape::Log => &LOG_PARTS[..8],
            Shape::Lines => &LINES_PARTS[..1],
            Shape::Relay => &RELAY_PARTS[..1],
        }
    }

    /// Its parts, and the journal's.
    pub(crate) fn all_parts(self) -> &'static [Part]
        ensures { result.now ≡ all_parts_of self }
    {
        match self {
            Shape::Log => &LOG_PARTS,
            Shape::Lines => &LINES_PARTS,
            Shape::Relay => &RELAY_PARTS,
        }
    }
}

/// Where a part's length stands among the eight.
pub fn index_of(part: Part) -> usize
    ensures index { result ≡ index_of part }
    ensures below { result < 8 }
{
    match part {
        Part::Head | Part::Lines | Part::Id | Part::Commit | Part::Slots => 0,
        Part::Exit => 1,
        Part::Timing => 2,
        Part::Stdin => 3,
        Part::Stdout => 4,
        Part::Stderr => 5,
        Part::Ttyin => 6,
        Part::Ttyout => 7,
    }
}
