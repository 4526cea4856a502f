// Setting rows to the default before a loop writes them, and rows that need none since they are written already.
ghost use Rattle.std.specs.Prelude.{◌≡◌, ◌<◌, ℕ, length, slice_index_or};
ghost use Rattle.rowouts.specs.Filled.{FilledList};

use crate::slice_rows::{Preinitialized, SliceRows};

/// Rows that can be set to the default before they are written.
pub trait FillDefault {
    // What filling makes of a value.
    ghost Filled: { Self → Self → Type 0 };

    /// Writes the default in every row.
    fn fill_default(&mut self)
        ensures { Filled self.old self.new };
}

/// Nothing to fill.
impl FillDefault for () {
    ghost use Rattle.std.specs.Prelude.{◌≡◌};

    ghost Filled = { λ before after. after ≡ before };

    fn fill_default(&mut self) {}
}

impl<T: Copy + Default> FillDefault for Vec<T> {
    ghost use Rattle.rowouts.specs.Filled.{FilledList};

    ghost Filled = { λ before after. FilledList T.is_default before.items after.items };

    fn fill_default(&mut self) {
        fill_slice(self.as_mut_slice());
    }
}

impl<'a, T: Copy + Default> FillDefault for SliceRows<'a, T> {
    ghost use Rattle.rowouts.specs.Filled.{FilledList};

    ghost Filled = { λ before after. FilledList T.is_default before.0.now after.0.now };

    fn fill_default(&mut self) {
        fill_slice(self.0);
    }
}

impl<'a, R: FillDefault> FillDefault for &'a mut R {
    ghost Filled = { λ before after. R.Filled before.now after.now };

    fn fill_default(&mut self) {
        (**self).fill_default();
    }
}

/// Leaves the rows as they are.
impl<R> FillDefault for Preinitialized<R> {
    ghost use Rattle.std.specs.Prelude.{◌≡◌};

    ghost Filled = { λ before after. after ≡ before };

    fn fill_default(&mut self) {}
}

fn fill_slice<T: Copy + Default>(rows: &mut [T])
    ensures { FilledList T.is_default rows.old rows.new }
{
    let value = T::default();
    for i in 0..rows.len() {
        rows[i] = value;
    }
}
