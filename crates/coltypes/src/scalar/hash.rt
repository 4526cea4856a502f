// The hash of a scalar, which is that of its optional value: equal scalars have equal values, while their types
// may differ in nullability.
ghost use Rattle.std.specs.Prelude.{◌≡◌, fold, map, option_map};
ghost use Rattle.coltypes.specs.Cell.{list_of};
ghost use Rattle.coltypes.specs.CellOf.{cell_of};
ghost use Rattle.coltypes.specs.Equal.{cell_input};

use super::{Scalar, ScalarValue};
use std::hash::{Hash, Hasher};

#[cycle(feed)]
fn feed_value<H: Hasher>(value: &ScalarValue, state: &mut H)
    ensures { state.new ≡ fold H.write state.old (cell_input (cell_of value.now)) }
{
    match value {
        ScalarValue::Bool(b) => {
            state.write_u8(0);
            b.hash(state);
        }
        ScalarValue::Int(n) => {
            state.write_u8(1);
            state.write_i128(*n);
        }
        ScalarValue::Bytes(bytes) => {
            state.write_u8(2);
            bytes.as_slice().hash(state);
        }
        ScalarValue::List(items) => feed_list(items.get().as_slice(), state),
    }
}

#[cycle(feed)]
fn feed_list<H: Hasher>(values: &[Option<ScalarValue>], state: &mut H)
    ensures { state.new ≡ fold H.write state.old (cell_input (list_of (map (option_map cell_of) values.now))) }
{
    state.write_u8(3);
    state.write_usize(values.len());
    for i in 0..values.len() {
        match &values[i] {
            None => state.write_u8(0),
            Some(value) => {
                state.write_u8(1);
                feed_value(value, state);
            }
        }
    }
}

/// Feeds whether there is a value, its form and the value: a list's length and elements too. The type isn't fed.
impl Hash for Scalar {
    ghost use Rattle.coltypes.specs.Scalars.{scalar_cell};
    ghost use Rattle.coltypes.specs.Equal.{optional_input};
    ghost use Rattle.coltypes.specs.EqualLaws.{scalar_alike};

    ghost hash_input = { λ s. optional_input (scalar_cell s) };

    ghost respects_eq = { scalar_alike };

    fn hash<H: Hasher>(&self, state: &mut H) {
        match &self.value {
            None => state.write_u8(0),
            Some(value) => {
                state.write_u8(1);
                feed_value(value, state);
            }
        }
    }
}
