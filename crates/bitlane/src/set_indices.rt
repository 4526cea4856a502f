// The places of the true values, for loops that leave rows out.
ghost use Rattle.std.specs.Prelude.{◌≡◌};
ghost use Rattle.std.specs.Iterator.{YieldsFirst, item_count};
ghost use Rattle.bitlane.specs.Bits.{true_indices};

use std::marker::Model;

/// The indices of the true values of a bit buffer, in rising order. Contracts see it as the list of those left.
#[derive(Drop)]
pub struct SetIndices<'a> {
    bits: &'a [bool],
    /// The first index that wasn't looked at.
    index: usize,
}

impl<'a> Model for SetIndices<'a> {
    ghost use Rattle.std.specs.Prelude.{List, ℕ, ◌≤◌, drop, length};
    ghost use Rattle.bitlane.specs.Bits.{true_indices_from};

    ghost Value = { List ℕ };

    ghost view = { λ s. true_indices_from s.index (drop s.index s.bits.now) };

    ghost invariant = { λ s. s.index ≤ length s.bits.now };
}

impl<'a> SetIndices<'a> {
    pub(crate) fn new(bits: &'a [bool]) -> SetIndices<'a>
        ensures { result ≡ true_indices bits.now }
    {
        SetIndices { bits, index: 0 }
    }
}

impl<'a> Iterator for SetIndices<'a> {
    type Item = usize;

    ghost next_gives = { YieldsFirst (λ s. s) };

    ghost remaining = { item_count (λ s. s) };

    fn next(&mut self) -> Option<usize> {
        let bits = self.bits;
        let mut index = self.index;
        while index < bits.len() {
            let at = index;
            index += 1;
            if bits[at] {
                *self = SetIndices { bits, index };
                return Some(at);
            }
        }
        *self = SetIndices { bits, index };
        None
    }
}
