ghost use Rattle.std.specs.Prelude.{◌≡◌, ◌↔◌, ◌⊎◌, ◌<◌, ◌≤◌, true, SomeIff};
ghost use Rattle.lsv_seq.specs.Entry.{body_of, entry_in, is_entry, is_of_lane, most, next};

use lsv_base::LogNo;

/// The greatest number of a log.
const MOST: u32 = 2_176_782_335;

/// What the last entry of a lane's number file says.
#[derive(Clone, Copy, Debug, PartialEq, Eq)]
pub struct Entry {
    /// The last number drawn, 0 where none was.
    pub last: u32,
    pub lane: u32,
    /// How many lanes there are.
    pub lanes: u32,
}

impl Entry {
    #[tactic(auto, unfolding(crate::specs::Entry::body_of))]
    /// Its twelve bytes: three numbers of four bytes, the most significant first.
    pub fn encode(self) -> [u8; 12]
        ensures { result ≡ body_of self }
    {
        let [a, b, c, d] = self.last.to_be_bytes();
        let [e, f, g, h] = self.lane.to_be_bytes();
        let [i, j, k, l] = self.lanes.to_be_bytes();
        [a, b, c, d, e, f, g, h, i, j, k, l]
    }

    #[tactic(auto, unfolding(crate::specs::Entry::entry_in))]
    /// The entry with these bytes.
    pub fn decode(body: [u8; 12]) -> Self
        ensures { result ≡ entry_in body }
    {
        let [a, b, c, d, e, f, g, h, i, j, k, l] = body;
        Entry {
            last: u32::from_be_bytes([a, b, c, d]),
            lane: u32::from_be_bytes([e, f, g, h]),
            lanes: u32::from_be_bytes([i, j, k, l]),
        }
    }

    /// The number after the last one, where it has six digits.
    pub fn next(self) -> Option<LogNo>
        requires { is_entry self ≡ true }
        ensures { SomeIff result (next self ≤ most) (next self) }
    {
        let next = if self.last == 0 {
            self.lane + 1
        } else {
            self.last + self.lanes
        };
        LogNo::new(next)
    }

    /// Whether the last number is one of the lane's, or none was drawn.
    pub fn is_of_lane(self) -> bool
        requires { 0 < self.lanes }
        ensures { result ≡ is_of_lane self }
    {
        self.last == 0 || (self.last <= MOST && (self.last - 1) % self.lanes == self.lane)
    }

    /// Whether it is that entry, or that one with this last number.
    pub fn is_either(self, kept: Entry, last: u32) -> bool
        ensures { (result ≡ true) ↔ ((self ≡ kept) ⊎ (self ≡ record kept { last = last })) }
    {
        self == kept || self == Entry { last, ..kept }
    }

    /// Whether it is the entry of one of at most eight lanes.
    pub fn is_entry(self) -> bool
        ensures { result ≡ is_entry self }
    {
        self.lane < self.lanes && self.lanes <= 8 && self.is_of_lane()
    }
}
