ghost use Rattle.std.specs.Prelude.{◌≡◌, ◌<◌, ◌≤◌, [], length, drop, slice_index_or};
ghost use Rattle.lsv_base.specs.MemSource.{from_filled, first_piece, without_front};

use crate::{Bytes, List};
use std::marker::Model;

/// Pieces that are given bit by bit, empty ones being passed over. Contracts see those that are left, the first
/// without the bytes that were given.
#[derive(Debug, Drop)]
pub struct Pieces {
    pieces: List<Bytes>,
    /// The place of the first piece that is left.
    place: usize,
    /// How many of its bytes were given.
    at: usize,
}

impl Model for Pieces {
    ghost use Rattle.std.specs.Prelude.{◌≡◌, ℕ, ◌≤◌, ◌<◌, List, [], length, drop, slice_index_or};
    ghost use Rattle.lsv_base.specs.MemSource.{without_front};

    ghost Value = { List (List ℕ) };

    ghost view = { λ p. without_front p.at (drop p.place p.pieces) };

    ghost invariant = { λ p. (p.place < length p.pieces → p.at < length (slice_index_or p.pieces p.place [])) × (length p.pieces ≤ p.place → p.at ≡ 0) };
}

impl Pieces {
    pub fn new(pieces: List<Bytes>) -> Self
        ensures { result ≡ from_filled pieces }
    {
        let place = first_filled(pieces.as_slice(), 0);
        Pieces {
            pieces,
            place,
            at: 0,
        }
    }

    /// What is left of the first piece. It is empty only where no piece is left.
    pub fn first(&self) -> &[u8]
        ensures value { result.now ≡ first_piece self.now }
        ensures end { length result.now ≡ 0 → self.now ≡ [] }
    {
        match self.pieces.as_slice().get(self.place) {
            Some(piece) => &piece.as_slice()[self.at..],
            None => &[],
        }
    }

    /// Takes this many bytes off the first piece.
    pub fn advance(&mut self, n: usize)
        requires { n ≤ length (first_piece self.old) }
        ensures { self.new ≡ from_filled (without_front n self.old) }
    {
        let pieces = self.pieces.as_slice();
        let Some(piece) = pieces.get(self.place) else {
            return;
        };
        let piece = piece.as_slice();
        self.at += n;
        if self.at == piece.len() {
            self.place = first_filled(pieces, self.place + 1);
            self.at = 0;
        }
    }
}

/// The place of the first piece from there on that isn't empty, or a place past the pieces.
fn first_filled(pieces: &[Bytes], from: usize) -> usize
    ensures rest { drop result pieces.now ≡ from_filled (drop from pieces.now) }
    ensures filled { result < length pieces.now → 0 < length (slice_index_or pieces.now result []) }
{
    let mut place = from;
    while place < pieces.len() && pieces[place].as_slice().is_empty() {
        place += 1;
    }
    place
}
