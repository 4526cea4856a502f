// Argument columns. Whether an argument is one value for the batch or a column is told once, when it is decoded; a
// loop over it then runs over a source of the one type or the other.
ghost use Rattle.std.specs.Prelude.{◌≡◌, ◌<◌, ◌⊎◌, ℕ, Bool, true, IfOk, IfErr, Option};
ghost use Rattle.colbase.specs.Arrays.{dtype, len, MustRead};
ghost use Rattle.rowelems.specs.Shown.{batch_value};
ghost use Rattle.rowelems.specs.Argument.{ArgumentFails, IsWithin, ReadsAll, is_length, length_unless, placed, arg_length, arg_shows, arg_value, known_cell};

use crate::batch::has_batch_value;
use crate::element::InputElement;
use crate::source_visitor::SourceVisitor;
use crate::sources::{ColumnRows, Repeated, Values};
use colbase::{ArrayRef, ExecutionCtx, Fault, Res};

/// An argument as it is read: one value for all rows, or a decoded column.
#[derive(Drop)]
pub enum ArgColumn<T: InputElement> {
    Value(T::Constant),
    Column(T::Column),
}

impl<T: InputElement> ArgColumn<T> {
    /// One value for a batch constant that is not null, of a column that is not empty, and else a decoded column. A
    /// `Decode` names the place that is given.
    pub fn decode(array: &ArrayRef, place: usize, ctx: ExecutionCtx) -> Res<ArgColumn<T>>
        requires { T.accepts (dtype array.now) ≡ true }
        ensures value { IfOk result (λ c. arg_value T.constant_cell c ≡ batch_value array.now) }
        ensures length { IfOk result (λ c. arg_length T.count c ≡ length_unless (batch_value array.now) (len array.now)) }
        ensures same { IfOk result (λ c. (i : ℕ) → IsWithin i (arg_length T.count c) → arg_shows T.shows T.constant_cell c i ≡ T.shown array.now i) }
        ensures read { IfOk result (λ c. ReadsAll T.reads array.now) }
        ensures dense { IfOk result (λ c. T.DENSE_SAFE ≡ true → (i : ℕ) → IsWithin i (arg_length T.count c) → T.reads (T.shown array.now i)) }
        ensures errors { IfErr result (λ e. ArgumentFails T.reads place array.now e) }
    {
        if has_batch_value(array) {
            return match T::decode_constant(array, ctx) {
                Ok(constant) => Ok(ArgColumn::Value(constant)),
                Err(fault) => Err(at_place(fault, place)),
            };
        }
        match T::decode(array, ctx) {
            Ok(column) => Ok(ArgColumn::Column(column)),
            Err(fault) => Err(at_place(fault, place)),
        }
    }

    /// The same as [`ArgColumn::decode`], by the element's decoding with nulls where it has one for the array.
    pub fn decode_null_tolerant(
        array: &ArrayRef,
        place: usize,
        ctx: ExecutionCtx,
    ) -> Res<ArgColumn<T>>
        requires { T.accepts (dtype array.now) ≡ true }
        ensures value { IfOk result (λ c. arg_value T.constant_cell c ≡ batch_value array.now) }
        ensures length { IfOk result (λ c. arg_length T.count c ≡ length_unless (batch_value array.now) (len array.now)) }
        ensures same { IfOk result (λ c. (i : ℕ) → IsWithin i (arg_length T.count c) → arg_shows T.shows T.constant_cell c i ≡ T.shown array.now i) }
        ensures read { IfOk result (λ c. ReadsAll T.reads array.now) }
        ensures dense { IfOk result (λ c. T.DENSE_SAFE ≡ true → (i : ℕ) → IsWithin i (arg_length T.count c) → T.reads (T.shown array.now i)) }
        ensures errors { IfErr result (λ e. ArgumentFails T.reads place array.now e) }
    {
        if has_batch_value(array) {
            return match T::decode_constant(array, ctx) {
                Ok(constant) => Ok(ArgColumn::Value(constant)),
                Err(fault) => Err(at_place(fault, place)),
            };
        }
        match T::decode_null_tolerant(array, ctx) {
            Ok(Some(column)) => Ok(ArgColumn::Column(column)),
            Ok(None) => ArgColumn::decode(array, place, ctx),
            Err(fault) => Err(at_place(fault, place)),
        }
    }

    /// The value at a row.
    pub fn get(&self, index: usize) -> T::Elem
        requires { IsWithin index (arg_length T.count self.now) }
        ensures { T.cell result ≡ arg_shows T.shows T.constant_cell self.now index }
    {
        match self {
            ArgColumn::Value(constant) => T::get_constant(constant),
            ArgColumn::Column(column) => T::get(column, index),
        }
    }

    /// The value, where it is one for all rows.
    pub fn const_value(&self) -> Option<T::Elem>
        ensures { known_cell T.cell result ≡ arg_value T.constant_cell self.now }
    {
        match self {
            ArgColumn::Value(constant) => Some(T::get_constant(constant)),
            ArgColumn::Column(_) => None,
        }
    }

    /// Runs a loop over this many rows, told before the loop whether the argument is one value or a column.
    pub fn visit<V: SourceVisitor<T::Elem>>(&self, rows: usize, visitor: V) -> V::Output
        requires ready { V.ready visitor }
        requires rows { V.rows visitor ≡ rows }
        requires length { is_length rows (arg_length T.count self.now) ≡ true }
        requires items { (i : ℕ) (e : T.Elem) → i < rows → T.cell e ≡ arg_shows T.shows T.constant_cell self.now i → V.may_be visitor i e }
        ensures { V.gives visitor result }
    {
        match self {
            ArgColumn::Value(constant) => {
                let value = T::get_constant(constant);
                visitor.visit(Repeated::<T> { value, rows })
            }
            ArgColumn::Column(column) => match T::values(column) {
                Some(values) => visitor.visit(Values::<T> { values }),
                None => visitor.visit(ColumnRows::<T> { column }),
            },
        }
    }

    /// Whether a decoded column has this many rows. One value has as many as are asked for.
    pub fn len_matches(&self, row_count: usize) -> bool
        ensures { result ≡ is_length row_count (arg_length T.count self.now) }
    {
        match self {
            ArgColumn::Value(_) => true,
            ArgColumn::Column(column) => T::column_len(column) == row_count,
        }
    }
}

/// The fault of an argument's first place as that of this place.
pub fn at_place(fault: Fault, place: usize) -> Fault
    ensures { result ≡ placed place fault }
{
    match fault {
        Fault::Decode { index } => Fault::Decode {
            index: index.saturating_add(place),
        },
        Fault::Dtype { index } => Fault::Dtype {
            index: index.saturating_add(place),
        },
        other => other,
    }
}
