// An array whose layout was tested once, for code that reads the parts of that layout.
ghost use Rattle.std.specs.Prelude.{◌≡◌, ◌↔◌, IsTrue, IsSome, IfSome};

use crate::array::ArrayRef;
use crate::vtable::VTable;
use std::marker::PhantomData;

/// An array that is known to have the layout `V`.
#[derive(Drop)]
pub struct ArrayView<'a, V: VTable> {
    array: &'a ArrayRef,
    layout: PhantomData<V>,
    ghost of_layout: { IsTrue (V.has_layout array.now) },
}

impl<'a, V: VTable> ArrayView<'a, V> {
    /// A view of the array, exactly where it has the layout `V`.
    pub fn try_new(array: &'a ArrayRef) -> Option<ArrayView<'a, V>>
        ensures known { IsSome result ↔ IsTrue (V.has_layout array.now) }
        ensures same { IfSome result (λ v. v.array.now ≡ array.now) }
    {
        if !V::is(array) {
            return None;
        }
        Some(ArrayView {
            array,
            layout: PhantomData,
        })
    }

    pub fn array(&self) -> &ArrayRef
        ensures same { result.now ≡ self.now.array.now }
        ensures known { IsTrue (V.has_layout result.now) }
    {
        self.array
    }
}
