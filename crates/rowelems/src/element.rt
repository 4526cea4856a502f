// The trait of input elements. Its ghost members state what an impl reads and shows; all clauses are stated by them,
// so that a caller is proved once, for each impl.
ghost use Rattle.std.specs.Prelude.{◌≡◌, ◌<◌, ℕ, Bool, true, false, Option, Some, None, Ok, Err, IsSome, IfOk, IfErr, IfSome, is_some, length, slice_index_or};

use colbase::{ArrayRef, DType, ExecutionCtx, Res};

mod boolean;
mod decimal_scale;
mod integer;
mod native_integers;
mod timestamp_row;

pub use decimal_scale::DecimalScale;
pub use timestamp_row::TimestampRow;

/// How an argument of one element type is read: which types it accepts, what it decodes a column to, and what it
/// gives at each row.
///
/// A decoded column shows a cell at every row, at null rows too: the value of a batch constant that is not null, else
/// the row's cell, else the element's own cell, which the impl states.
pub trait InputElement {
    ghost use Rattle.coltypes.specs.Cell.{Cell};
    ghost use Rattle.coltypes.specs.LogicalType.{LogicalType};
    ghost use Rattle.coltypes.specs.LogicalTypeOf.{logical_type};
    ghost use Rattle.colbase.specs.Arrays.{Array, MustRead, dtype, len, row, constant_cell as cell_of_constant};
    ghost use Rattle.rowelems.specs.Shown.{batch_value};
    ghost use Rattle.rowelems.specs.Reading.{DecodeCause, ConstantCause, checked_type};

    type Column: Drop;

    type Constant: Drop;

    type Elem: Drop;

    /// Whether every cell that a decoded column shows is read, at null rows too.
    const DENSE_SAFE: bool;

    /// Whether no column of an accepted type has a cell that is not read.
    const DECODE_INFALLIBLE: bool;

    ghost DENSE_SAFE: { Bool };

    ghost DECODE_INFALLIBLE: { Bool };

    ghost accepts: { LogicalType → Bool };

    ghost reads: { Cell → Type 0 };

    // The cell that a column shows at a row.
    ghost shown: { Array → ℕ → Cell };

    // The cell that a value is.
    ghost cell: { Self.Elem → Cell };

    // The number of rows of a decoded column, and the cell that it shows at a row.
    ghost count: { Self.Column → ℕ };

    ghost shows: { Self.Column → ℕ → Cell };

    ghost constant_cell: { Self.Constant → Cell };

    ghost null_tolerant: { Array → Bool };

    /// Refuses a type that is not accepted, as that of argument 0.
    fn validate(dtype: &DType) -> Res<()>
        ensures { result ≡ checked_type (accepts (logical_type dtype.now)) };

    /// The column that shows the array's rows. Fails where a cell that must be read isn't.
    fn decode(array: &ArrayRef, ctx: ExecutionCtx) -> Res<Self::Column>
        requires { accepts (dtype array.now) ≡ true }
        ensures len { IfOk result (λ c. count c ≡ len array.now) }
        ensures same { IfOk result (λ c. (i : ℕ) → i < len array.now → shows c i ≡ shown array.now i) }
        ensures read { IfOk result (λ c. (x : Cell) → MustRead array.now x → reads x) }
        ensures dense { IfOk result (λ c. DENSE_SAFE ≡ true → (i : ℕ) → i < len array.now → reads (shown array.now i)) }
        ensures errors { IfErr result (λ e. DecodeCause reads array.now e) };

    /// The value of a batch constant that is not null.
    fn decode_constant(array: &ArrayRef, ctx: ExecutionCtx) -> Res<Self::Constant>
        requires accepted { accepts (dtype array.now) ≡ true }
        requires constant { IsSome (cell_of_constant array.now) }
        ensures value { IfOk result (λ c. cell_of_constant array.now ≡ Some (constant_cell c)) }
        ensures read { IfOk result (λ c. reads (constant_cell c)) }
        ensures errors { IfErr result (λ e. ConstantCause reads array.now e) };

    /// Whether [`InputElement::decode_null_tolerant`] gives a column.
    fn can_decode_null_tolerant(array: &ArrayRef) -> bool
        requires { accepts (dtype array.now) ≡ true }
        ensures { result ≡ null_tolerant array.now };

    /// The same column as that of [`InputElement::decode`], where the array can be decoded with its nulls.
    fn decode_null_tolerant(array: &ArrayRef, ctx: ExecutionCtx) -> Res<Option<Self::Column>>
        requires { accepts (dtype array.now) ≡ true }
        ensures declined { null_tolerant array.now ≡ false → result ≡ Ok None }
        ensures told { IfOk result (λ o. is_some o ≡ null_tolerant array.now) }
        ensures len { IfOk result (λ o. IfSome o (λ c. count c ≡ len array.now)) }
        ensures same { IfOk result (λ o. IfSome o (λ c. (i : ℕ) → i < len array.now → shows c i ≡ shown array.now i)) }
        ensures read { IfOk result (λ o. IfSome o (λ c. (x : Cell) → MustRead array.now x → reads x)) }
        ensures dense { IfOk result (λ o. IfSome o (λ c. DENSE_SAFE ≡ true → (i : ℕ) → i < len array.now → reads (shown array.now i))) }
        ensures errors { IfErr result (λ e. DecodeCause reads array.now e) };

    /// The number of rows of a decoded column.
    fn column_len(column: &Self::Column) -> usize
        ensures { result ≡ count column.now };

    /// The value at a row of a decoded column.
    fn get(column: &Self::Column, index: usize) -> Self::Elem
        requires { index < count column.now }
        ensures { cell result ≡ shows column.now index };

    /// The value of a decoded constant.
    fn get_constant(constant: &Self::Constant) -> Self::Elem
        ensures { cell result ≡ constant_cell constant.now };

    /// The values of a decoded column, where they lie side by side: a loop over a slice is a vector loop. This
    /// project's own.
    fn values(column: &Self::Column) -> Option<&[Self::Elem]>
        ensures len { IfSome result (λ v. length v.now ≡ count column.now) }
        ensures same { IfSome result (λ v. (i : ℕ) (d : Self.Elem) → i < count column.now → cell (slice_index_or v.now i d) ≡ shows column.now i) };

    /// The same value once more. This project's own.
    fn again(value: &Self::Elem) -> Self::Elem
        ensures { cell result ≡ cell value.now };

    ghost shown_constant: { (a : Array) (i : ℕ) (x : Cell) → batch_value a ≡ Some x → shown a i ≡ x };

    ghost shown_row: { (a : Array) (i : ℕ) (x : Cell) → batch_value a ≡ None → row a i ≡ Some x → shown a i ≡ x };
}
