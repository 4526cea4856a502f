// A range of a shared list: columns are cut and shared without copying an element.
ghost use Rattle.std.specs.Prelude.{◌≡◌, ◌≤◌, length, IfOk, slice_range, slice_get};
ghost use Rattle.std.specs.Option.{option_copied};

use crate::{Items, Shared, at};
use std::alloc::{AllocError, Global};
use std::marker::Model;

/// A range of a shared list, which contracts see as the elements of that range.
///
/// `share` and `slice` take no memory and copy no element: they count one more owner of the whole list.
#[derive(Drop)]
pub struct SharedSlice<T> {
    items: Shared<Items<T>>,
    start: usize,
    end: usize,
}

impl<T> Model for SharedSlice<T> {
    ghost use Rattle.std.specs.Prelude.{List, ◌≤◌, length, slice_range};
    ghost use Rattle.std.specs.Coded.{coded_list};

    ghost Value = { List T };

    ghost coded = { coded_list T.code };

    ghost view = { λ s. slice_range s.items s.start s.end };

    ghost invariant = { λ s. (s.start ≤ s.end) × (s.end ≤ length s.items) };
}

impl<T: Drop> SharedSlice<T> {
    /// The whole of a list, which takes one block for the count.
    pub fn from_vec(alloc: Global, values: Vec<T>) -> Result<SharedSlice<T>, AllocError>
        ensures { IfOk result (λ s. s ≡ values.items) }
    {
        let end = values.len();
        let items = Shared::new(alloc, Items::from_vec(values))?;
        Ok(SharedSlice {
            items,
            start: 0,
            end,
        })
    }

    /// Another owner of the same elements.
    pub fn share(&self) -> SharedSlice<T>
        ensures { result ≡ self.now }
    {
        SharedSlice {
            items: self.items.share(),
            start: self.start,
            end: self.end,
        }
    }

    /// The elements from `start` up to `end`, which is not included; an owner of the same list.
    pub fn slice(&self, start: usize, end: usize) -> SharedSlice<T>
        requires order { start ≤ end }
        requires within { end ≤ length self.now }
        ensures { result ≡ slice_range self.now start end }
    {
        let _limit = self.end;
        SharedSlice {
            items: self.items.share(),
            start: self.start + start,
            end: self.start + end,
        }
    }
}

impl<T> SharedSlice<T> {
    /// The elements, in order. A loop over many of them copies this slice into a local first.
    pub fn as_slice(&self) -> &[T]
        ensures { result.now ≡ self.now }
    {
        &self.items.get().as_slice()[self.start..self.end]
    }

    pub fn len(&self) -> usize
        ensures { result ≡ length self.now }
    {
        self.end - self.start
    }

    /// The element at an index, if there is one.
    pub fn get(&self, index: usize) -> Option<&T>
        ensures { option_copied result ≡ slice_get self.now index }
    {
        at(self.as_slice(), index)
    }
}
