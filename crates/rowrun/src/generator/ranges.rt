// That each cell of a column of numbers of 64 bits is in the range of its type, so that decoding such a column fails by want of
// memory alone. The calls have no effect but their clauses.
ghost use Rattle.std.specs.Prelude.{◌≡◌, ◌<◌, ℕ, IsTrue, None, true};
ghost use Rattle.coltypes.specs.Cell.{Cell};
ghost use Rattle.coltypes.specs.Fits.{in_range};
ghost use Rattle.coltypes.specs.Values.{count, number_at, ptype_of};
ghost use Rattle.coltypes.specs.declared.dtype.PType.TheVariants.{I64};
ghost use Rattle.colbase.specs.Arrays.{MustRead, dtype};
ghost use Rattle.colbase.specs.Parts.{child_of, values_of};
ghost use Rattle.rowelems.specs.Reading.{IsNumberOf, is_integer};

use colbase::{ArrayRef, PrimitiveValues};

/// Says that each number is in the range of its type.
fn check_values(values: &PrimitiveValues)
    ensures { (i : ℕ) → i < count values.now → IsTrue (in_range (ptype_of values.now) (number_at values.now i)) }
{
    for i in 0..values.len() {
        values.value(i);
    }
}

/// Says that each cell that must be read is a number of 64 bits.
pub(super) fn check_array(array: &ArrayRef)
    requires { is_integer I64 (dtype array.now) ≡ true }
    ensures { (x : Cell) → MustRead array.now x → IsNumberOf I64 x }
{
    match array.masked_child() {
        Some(child) => check_array(child),
        None => check_unmasked(array),
    }
}

/// The same of an array that is no mask over another.
fn check_unmasked(array: &ArrayRef)
    requires integer { is_integer I64 (dtype array.now) ≡ true }
    requires unmasked { child_of array.now ≡ None }
    ensures { (x : Cell) → MustRead array.now x → IsNumberOf I64 x }
{
    match array.values() {
        Some(values) => check_values(values),
        None => check_constant(array),
    }
}

/// The same of an array that is a constant, since nothing else is left.
fn check_constant(array: &ArrayRef)
    requires integer { is_integer I64 (dtype array.now) ≡ true }
    requires unmasked { child_of array.now ≡ None }
    requires unvalued { values_of array.now ≡ None }
    ensures { (x : Cell) → MustRead array.now x → IsNumberOf I64 x }
{
    match array.as_constant() {
        Some(scalar) => scalar.checks(),
        None => {}
    }
}
