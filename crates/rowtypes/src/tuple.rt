// The trait of tuples of elements. Its ghost members go by the place of the argument, so that one definition serves
// tuples of each length, and two side by side.
ghost use Rattle.std.specs.Prelude.{◌≡◌, ℕ, Bool, true, false, Ok, IfSome, is_some, ◌&&◌, List, [], ◌∷◌, length, ◌<◌, ⊤, Option, None, Some, IfOk, IfErr};

use colbase::{ArrayRef, DType, ExecutionCtx, Res};
use rowelems::InputElement;

mod beside;
mod flat;
mod four;
mod indexed;
mod three;
mod unit;
mod up_to_two;

pub use indexed::IndexedElementTuple;

/// The arguments of a row: how many there are, which types they accept, and what each row of them is.
///
/// An argument that is a batch constant and not null, of a column that is not empty, is kept as one value, which it
/// shows at every row. Each other argument is a decoded column. So the columns may differ in their lengths, and a row
/// is there where the index is below the length of each decoded column.
pub trait ElementTuple {
    ghost use Rattle.coltypes.specs.Cell.{Cell};
    ghost use Rattle.coltypes.specs.LogicalType.{LogicalType};
    ghost use Rattle.colbase.specs.Arrays.{Array, row};
    ghost use Rattle.rowelems.specs.Shown.{batch_value};
    ghost use Rattle.rowtypes.specs.Elements.{Elements};
    ghost use Rattle.rowtypes.specs.Rows.{AcceptsFrom, AgreesWith, DecodeFails, HasRow, ReadsAllFrom, ReadsFrom, all_tolerant, batch_values, checked_types, decoded_lengths, each_length, first_refused, logical_types, shown_from};

    /// The arguments as they are decoded.
    type Columns: Drop;

    /// The values of a row.
    type Elems: Drop;

    /// For each argument its value, where it is one for all rows.
    type ConstElems: Drop;

    const ARITY: usize;

    /// Whether each element is.
    const DENSE_SAFE: bool;

    /// Whether each element is.
    const DECODE_INFALLIBLE: bool;

    ghost ARITY: { ℕ };

    ghost DENSE_SAFE: { Bool };

    ghost DECODE_INFALLIBLE: { Bool };

    // Which types each place accepts, which cells it reads, what it shows, and which arrays it decodes with their nulls.
    ghost elements: { Elements };

    // The cells of a row's values.
    ghost cells: { Self.Elems → List Cell };

    ghost known: { Self.ConstElems → List (Option Cell) };

    // The value of each argument that is one value.
    ghost known_of: { Self.Columns → List (Option Cell) };

    // The length of each argument that is a decoded column.
    ghost lengths: { Self.Columns → List (Option ℕ) };

    // The cells that the arguments show at a row.
    ghost shows: { Self.Columns → ℕ → List Cell };

    /// Refuses the lowest place whose type is not accepted.
    fn validate(types: &[DType]) -> Res<()>
        requires { length types.now ≡ ARITY }
        ensures { result ≡ checked_types (first_refused elements.accepts 0 (logical_types types.now)) };

    /// Decodes each argument in order. A `Decode` names the lowest argument that fails, by its place.
    fn decode(columns: &[ArrayRef], ctx: ExecutionCtx) -> Res<Self::Columns>
        requires arity { length columns.now ≡ ARITY }
        requires types { AcceptsFrom elements.accepts 0 columns.now }
        ensures lengths { IfOk result (λ c. lengths c ≡ decoded_lengths columns.now) }
        ensures same { IfOk result (λ c. (i : ℕ) → HasRow (lengths c) i → shows c i ≡ shown_from elements.shown 0 columns.now i) }
        ensures known { IfOk result (λ c. known_of c ≡ batch_values columns.now) }
        ensures read { IfOk result (λ c. ReadsAllFrom elements.reads 0 columns.now) }
        ensures dense { IfOk result (λ c. DENSE_SAFE ≡ true → (i : ℕ) → HasRow (lengths c) i → ReadsFrom elements.reads 0 (shows c i)) }
        ensures errors { IfErr result (λ e. DecodeFails elements.reads 0 columns.now e) };

    /// Whether each argument's element decodes its array with its nulls.
    fn can_decode_null_tolerant(columns: &[ArrayRef]) -> bool
        requires arity { length columns.now ≡ ARITY }
        requires types { AcceptsFrom elements.accepts 0 columns.now }
        ensures { result ≡ all_tolerant elements.tolerant 0 columns.now };

    /// The same columns as those of [`ElementTuple::decode`], where each array can be decoded with its nulls, and else
    /// none.
    fn decode_null_tolerant(columns: &[ArrayRef], ctx: ExecutionCtx) -> Res<Option<Self::Columns>>
        requires arity { length columns.now ≡ ARITY }
        requires types { AcceptsFrom elements.accepts 0 columns.now }
        ensures declined { all_tolerant elements.tolerant 0 columns.now ≡ false → result ≡ Ok None }
        ensures told { IfOk result (λ o. is_some o ≡ all_tolerant elements.tolerant 0 columns.now) }
        ensures lengths { IfOk result (λ o. IfSome o (λ c. lengths c ≡ decoded_lengths columns.now)) }
        ensures same { IfOk result (λ o. IfSome o (λ c. (i : ℕ) → HasRow (lengths c) i → shows c i ≡ shown_from elements.shown 0 columns.now i)) }
        ensures known { IfOk result (λ o. IfSome o (λ c. known_of c ≡ batch_values columns.now)) }
        ensures read { IfOk result (λ o. IfSome o (λ c. ReadsAllFrom elements.reads 0 columns.now)) }
        ensures dense { IfOk result (λ o. IfSome o (λ c. DENSE_SAFE ≡ true → (i : ℕ) → HasRow (lengths c) i → ReadsFrom elements.reads 0 (shows c i))) }
        ensures errors { IfErr result (λ e. DecodeFails elements.reads 0 columns.now e) };

    /// The values of a row.
    fn get(columns: &Self::Columns, index: usize) -> Self::Elems
        requires { HasRow (lengths columns.now) index }
        ensures { cells result ≡ shows columns.now index };

    /// Whether each decoded column has this many rows. Arguments that are one value aren't looked at.
    fn decoded_lens_match(columns: &Self::Columns, row_count: usize) -> bool
        ensures { result ≡ each_length row_count (lengths columns.now) };

    /// The value of each argument that is one value.
    fn const_values(columns: &Self::Columns) -> Self::ConstElems
        ensures { known result ≡ known_of columns.now };

    // The values that are known before a row is read are those of every row.
    ghost known_agrees: { (c : Self.Columns) (i : ℕ) → AgreesWith (known_of c) (shows c i) };

    ghost shown_constant: { (k : ℕ) (a : Array) (i : ℕ) (x : Cell) → batch_value a ≡ Some x → elements.shown k a i ≡ x };

    ghost shown_row: { (k : ℕ) (a : Array) (i : ℕ) (x : Cell) → batch_value a ≡ None → row a i ≡ Some x → elements.shown k a i ≡ x };
}

ghost use Rattle.coltypes.specs.LogicalTypeOf.{logical_type};

// Whether the element accepts the type.
fn accepts_type<T: InputElement>(dtype: &DType) -> bool
    ensures { result ≡ T.accepts (logical_type dtype.now) }
{
    T::validate(dtype).is_ok()
}
