// Equality of scalars: one value, and one type but for nullability.
ghost use Rattle.std.specs.Prelude.{◌≡◌, ◌↔◌, IsTrue, map, option_map};
ghost use Rattle.coltypes.specs.CellOf.{cell_of};
ghost use Rattle.coltypes.specs.Equal.{SameScalars};

use super::{Scalar, ScalarValue};

impl ScalarValue {
    /// Whether the two are one value.
    pub fn same(&self, other: &ScalarValue) -> bool
        ensures { IsTrue result ↔ (cell_of self.now ≡ cell_of other.now) }
    {
        same_value(self, other)
    }
}

#[cycle(same)]
fn same_value(a: &ScalarValue, b: &ScalarValue) -> bool
    ensures { IsTrue result ↔ (cell_of a.now ≡ cell_of b.now) }
{
    match (a, b) {
        (ScalarValue::Bool(x), ScalarValue::Bool(y)) => *x == *y,
        (ScalarValue::Int(x), ScalarValue::Int(y)) => *x == *y,
        (ScalarValue::Bytes(x), ScalarValue::Bytes(y)) => x.as_slice() == y.as_slice(),
        (ScalarValue::List(x), ScalarValue::List(y)) => {
            same_values(x.get().as_slice(), y.get().as_slice())
        }
        _ => false,
    }
}

#[cycle(same)]
fn same_values(xs: &[Option<ScalarValue>], ys: &[Option<ScalarValue>]) -> bool
    ensures { IsTrue result ↔ (map (option_map cell_of) xs.now ≡ map (option_map cell_of) ys.now) }
{
    if xs.len() != ys.len() {
        return false;
    }
    for i in 0..xs.len() {
        match (&xs[i], &ys[i]) {
            (None, None) => {}
            (Some(x), Some(y)) => {
                if !same_value(x, y) {
                    return false;
                }
            }
            _ => return false,
        }
    }
    true
}

fn same_optional(a: &Option<ScalarValue>, b: &Option<ScalarValue>) -> bool
    ensures { IsTrue result ↔ (option_map cell_of a.now ≡ option_map cell_of b.now) }
{
    match (a, b) {
        (None, None) => true,
        (Some(x), Some(y)) => x.same(y),
        _ => false,
    }
}

impl Scalar {
    /// Whether the two have one value, or both are null, and their types are one but for nullability.
    pub fn same(&self, other: &Scalar) -> bool
        ensures { IsTrue result ↔ SameScalars self.now other.now }
    {
        same_optional(&self.value, &other.value) && self.dtype.eq_ignore_nullability(&other.dtype)
    }
}

impl PartialEq for Scalar {
    ghost use Rattle.std.specs.Cmp.{partial_equiv_from_equiv};
    ghost use Rattle.coltypes.specs.Equal.{same_scalar};
    ghost use Rattle.coltypes.specs.EqualLaws.{scalar_equiv};

    ghost eq = { same_scalar };

    ghost laws = { partial_equiv_from_equiv scalar_equiv };

    fn eq(&self, other: &Scalar) -> bool {
        self.same(other)
    }
}

impl Eq for Scalar {
    ghost use Rattle.coltypes.specs.EqualLaws.{scalar_equiv};

    ghost laws = { scalar_equiv };
}
