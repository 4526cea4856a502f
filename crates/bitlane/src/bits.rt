// Bit buffers: validity, masks and truth values. Contracts speak of the list, whatever holds it.
ghost use Rattle.std.specs.Prelude.{◌≡◌, ◌≤◌, ◌<◌, length, IfOk, slice_range, map, not, count_by, replicate, true, false};
ghost use Rattle.bitlane.specs.Bits.{bit, both, CallableFrom, Collects, true_indices};

use crate::collect::collect_indices;
use crate::set_indices::SetIndices;
use shared::SharedSlice;
use std::alloc::{AllocError, Global};
use std::marker::Model;

/// A shared list of truth values, which contracts see as that list.
///
/// `share` and `slice` take no memory and copy nothing. Every other buffer is made in new memory, which is taken
/// once and at its full length, and written once.
#[derive(Drop)]
pub struct BitBuffer {
    bits: SharedSlice<bool>,
}

impl Model for BitBuffer {
    ghost use Rattle.std.specs.Prelude.{List, Bool};

    ghost Value = { List Bool };

    ghost view = { λ b. b.bits };
}

impl BitBuffer {
    /// The values of `f` at the indices below `len`. It calls `f` once for each index, in rising order, and asks
    /// only that these calls may be made, so `f` may read a slice of `len` elements at its index.
    pub fn collect_bool_in<F: FnMut(usize) -> bool>(
        alloc: Global,
        len: usize,
        f: F,
    ) -> Result<BitBuffer, AllocError>
        requires { CallableFrom F.pre F.step f 0 len }
        ensures len { IfOk result (λ b. length b ≡ len) }
        ensures calls { IfOk result (λ b. (last : F) × Collects F.step f 0 b last) }
    {
        BitBuffer::from_vec(alloc, collect_indices(alloc, len, f)?)
    }

    /// The same list as that of [`BitBuffer::collect_bool_in`], by the same calls of `f`.
    pub fn collect_bool_multiversioned_in<F: FnMut(usize) -> bool>(
        alloc: Global,
        len: usize,
        f: F,
    ) -> Result<BitBuffer, AllocError>
        requires { CallableFrom F.pre F.step f 0 len }
        ensures len { IfOk result (λ b. length b ≡ len) }
        ensures calls { IfOk result (λ b. (last : F) × Collects F.step f 0 b last) }
    {
        BitBuffer::collect_bool_in(alloc, len, f)
    }

    /// `len` times true.
    pub fn new_set(alloc: Global, len: usize) -> Result<BitBuffer, AllocError>
        ensures { IfOk result (λ b. b ≡ replicate len true) }
    {
        BitBuffer::from_vec(alloc, Vec::from_elem(alloc, true, len)?)
    }

    /// `len` times false.
    pub fn new_unset(alloc: Global, len: usize) -> Result<BitBuffer, AllocError>
        ensures { IfOk result (λ b. b ≡ replicate len false) }
    {
        BitBuffer::from_vec(alloc, Vec::from_elem(alloc, false, len)?)
    }

    /// The values of a `Vec`, none of which is copied.
    pub fn from_vec(alloc: Global, bits: Vec<bool>) -> Result<BitBuffer, AllocError>
        ensures { IfOk result (λ b. b ≡ bits.items) }
    {
        Ok(BitBuffer {
            bits: SharedSlice::from_vec(alloc, bits)?,
        })
    }

    /// Another owner of the same values.
    pub fn share(&self) -> BitBuffer
        ensures { result ≡ self.now }
    {
        BitBuffer {
            bits: self.bits.share(),
        }
    }

    /// How many values there are.
    pub fn len(&self) -> usize
        ensures { result ≡ length self.now }
    {
        self.bits.len()
    }

    /// The value at an index.
    pub fn value(&self, index: usize) -> bool
        requires { index < length self.now }
        ensures { result ≡ bit self.now index }
    {
        self.bits.as_slice()[index]
    }

    /// The values from `start` up to `end`, which is not included.
    pub fn slice(&self, start: usize, end: usize) -> BitBuffer
        requires order { start ≤ end }
        requires within { end ≤ length self.now }
        ensures { result ≡ slice_range self.now start end }
    {
        BitBuffer {
            bits: self.bits.slice(start, end),
        }
    }

    /// The conjunction at each index, of two buffers of one length.
    pub fn and(&self, alloc: Global, other: &BitBuffer) -> Result<BitBuffer, AllocError>
        requires { length self.now ≡ length other.now }
        ensures { IfOk result (λ b. b ≡ both self.now other.now) }
    {
        let xs = self.bits.as_slice();
        let ys = other.bits.as_slice();
        BitBuffer::collect_bool_in(alloc, xs.len(), |i| xs[i] & ys[i])
    }

    /// The negation at each index.
    pub fn not(&self, alloc: Global) -> Result<BitBuffer, AllocError>
        ensures { IfOk result (λ b. b ≡ map not self.now) }
    {
        let bits = self.bits.as_slice();
        BitBuffer::collect_bool_in(alloc, bits.len(), |i| !bits[i])
    }

    /// How many values are true.
    pub fn true_count(&self) -> usize
        ensures { result ≡ count_by (λ b. b) self.now }
    {
        self.bits.as_slice().iter().filter(|b| **b).count()
    }

    /// The indices of the true values, in rising order.
    pub fn set_indices(&self) -> SetIndices<'_>
        ensures { result ≡ true_indices self.now }
    {
        SetIndices::new(self.bits.as_slice())
    }
}
