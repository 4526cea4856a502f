// How many rows a view has. A tuple of views tells the length of its first, so its parts must be of one length.
ghost use Rattle.std.specs.Prelude.{◌≡◌, ◌==◌, ℕ, length};

use crate::slice_rows::{Preinitialized, SliceRows};
use bitlane::BitBuffer;

/// A view of rows that can tell how many they are.
pub trait ViewLen {
    // The number of rows.
    ghost rows: { Self → ℕ };

    // Whether each part of the view has as many rows.
    ghost IsEven: { Self → Type 0 };

    fn len(&self) -> usize
        requires { IsEven self.now }
        ensures { result ≡ rows self.now };

    fn is_empty(&self) -> bool
        requires { IsEven self.now }
        ensures { result ≡ (rows self.now == 0) }
    {
        self.len() == 0
    }
}

/// No rows.
impl ViewLen for () {
    ghost use Rattle.std.specs.Prelude.{⊤};

    ghost rows = { λ v. 0 };

    ghost IsEven = { λ v. ⊤ };

    fn len(&self) -> usize {
        0
    }
}

impl<T> ViewLen for Vec<T> {
    ghost use Rattle.std.specs.Prelude.{⊤, length};

    ghost rows = { λ v. length v.items };

    ghost IsEven = { λ v. ⊤ };

    fn len(&self) -> usize {
        Vec::len(self)
    }
}

impl ViewLen for BitBuffer {
    ghost use Rattle.std.specs.Prelude.{⊤, length};

    ghost rows = { λ v. length v };

    ghost IsEven = { λ v. ⊤ };

    fn len(&self) -> usize {
        BitBuffer::len(self)
    }
}

impl<'a, T> ViewLen for SliceRows<'a, T> {
    ghost use Rattle.std.specs.Prelude.{⊤, length};

    ghost rows = { λ v. length v.0.now };

    ghost IsEven = { λ v. ⊤ };

    fn len(&self) -> usize {
        self.0.len()
    }
}

impl<'a, V: ViewLen> ViewLen for &'a V {
    ghost rows = { λ v. V.rows v.now };

    ghost IsEven = { λ v. V.IsEven v.now };

    fn len(&self) -> usize {
        (**self).len()
    }
}

impl<'a, V: ViewLen> ViewLen for &'a mut V {
    ghost rows = { λ v. V.rows v.now };

    ghost IsEven = { λ v. V.IsEven v.now };

    fn len(&self) -> usize {
        (**self).len()
    }
}

impl<R: ViewLen> ViewLen for Preinitialized<R> {
    ghost rows = { λ v. R.rows v.0 };

    ghost IsEven = { λ v. R.IsEven v.0 };

    fn len(&self) -> usize {
        self.0.len()
    }
}

impl<A: ViewLen> ViewLen for (A,) {
    ghost rows = { λ v. A.rows v.0 };

    ghost IsEven = { λ v. A.IsEven v.0 };

    fn len(&self) -> usize {
        self.0.len()
    }
}

impl<A: ViewLen, B: ViewLen> ViewLen for (A, B) {
    ghost use Rattle.std.specs.Prelude.{◌≡◌};

    ghost rows = { λ v. A.rows v.0 };

    ghost IsEven = { λ v. A.IsEven v.0 × B.IsEven v.1 × (B.rows v.1 ≡ A.rows v.0) };

    fn len(&self) -> usize {
        self.0.len()
    }
}

impl<A: ViewLen, B: ViewLen, C: ViewLen> ViewLen for (A, B, C) {
    ghost use Rattle.std.specs.Prelude.{◌≡◌};

    ghost rows = { λ v. A.rows v.0 };

    ghost IsEven = { λ v. A.IsEven v.0 × B.IsEven v.1 × C.IsEven v.2 × (B.rows v.1 ≡ A.rows v.0) × (C.rows v.2 ≡ A.rows v.0) };

    fn len(&self) -> usize {
        self.0.len()
    }
}

impl<A: ViewLen, B: ViewLen, C: ViewLen, D: ViewLen> ViewLen for (A, B, C, D) {
    ghost use Rattle.std.specs.Prelude.{◌≡◌};

    ghost rows = { λ v. A.rows v.0 };

    ghost IsEven = { λ v. A.IsEven v.0 × B.IsEven v.1 × C.IsEven v.2 × D.IsEven v.3 × (B.rows v.1 ≡ A.rows v.0) × (C.rows v.2 ≡ A.rows v.0) × (D.rows v.3 ≡ A.rows v.0) };

    fn len(&self) -> usize {
        self.0.len()
    }
}
