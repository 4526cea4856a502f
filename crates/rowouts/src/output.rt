// The traits of outputs, and the buffer of those that are one value a row. `slots` lends the whole buffer, so that a
// loop writes by index into a slice; `finish` makes the column of the block that was written.
ghost use Rattle.std.specs.Prelude.{◌≡◌, ◌≤◌, ◌<◌, ℕ, length, map, take, replicate, IfOk, IfErr};
ghost use Rattle.colbase.specs.Arrays.{dtype, len, row};
ghost use Rattle.rowouts.specs.Outputs.{StatesAnswer};

use bitlane::{IndexedSource, map_collect};
use colbase::{ArrayRef, DType, ExecutionCtx, Fault, Res};

mod booleans;
mod integers;
mod native_integers;

/// A value that a row function writes, and how a column is made of such values.
pub trait OutputElement: Copy + Default + ColumnValue {
    ghost use Rattle.coltypes.specs.Cell.{Cell};
    ghost use Rattle.coltypes.specs.LogicalType.{LogicalType};
    ghost use Rattle.coltypes.specs.LogicalTypeOf.{logical_type};

    type Buffer: OutputBuffer<Self>;

    // The cell that a value is.
    ghost states: { Self → Cell };

    ghost element_type: { LogicalType };

    // The default, which a new buffer holds at every place.
    ghost placeholder: { Self };

    /// The type of a column of such values, not nullable.
    fn element_dtype() -> DType
        ensures { logical_type result ≡ element_type };

    /// A buffer of `rows` places that hold the default.
    fn with_capacity(rows: usize, ctx: ExecutionCtx) -> Res<Self::Buffer>
        ensures places { IfOk result (λ b. Self.Buffer.places b ≡ replicate rows placeholder) }
        ensures errors { IfErr result (λ e. e ≡ Fault.Memory) };

    ghost value_states: { (x : Self) → Self.value_cell x ≡ states x };

    ghost value_has_type: { Self.value_type ≡ element_type };

    ghost default_is_placeholder: { (x : Self) → Self.is_default x → x ≡ placeholder };

    ghost buffer_states: { (x : Self) → Self.Buffer.states x ≡ states x };

    ghost buffer_type: { Self.Buffer.element_type ≡ element_type };
}

/// Places for values, which a loop writes before they become a column.
pub trait OutputBuffer<T>: Sized + Drop {
    ghost use Rattle.std.specs.Prelude.{List};
    ghost use Rattle.std.specs.Borrow.{sem, Lends, Array as Items};
    ghost use Rattle.coltypes.specs.Cell.{Cell};
    ghost use Rattle.coltypes.specs.LogicalType.{LogicalType};
    ghost use Rattle.colbase.specs.Arrays.{column};
    ghost use Rattle.rowouts.specs.Outputs.{full_column};

    ghost places: { Self → List T };

    ghost with_places: { Self → List T → Self };

    ghost states: { T → Cell };

    ghost element_type: { LogicalType };

    /// The places, to be written.
    fn slots(&mut self) -> &mut [T]
        ensures* writes_back { sem 𝓛 (Lends Self.row (Items T.row 0) self.entry result (with_places self.old)) }
        ensures value { result.now ≡ places self.old };

    /// The first `len` places as a column without nulls.
    fn finish(self, len: usize, ctx: ExecutionCtx) -> Res<ArrayRef>
        requires { len ≤ length (places self) }
        ensures column { IfOk result (λ a. column a ≡ full_column element_type (map states (take len (places self)))) }
        ensures errors { IfErr result (λ e. e ≡ Fault.Memory) };

    ghost places_there: { (b : Self) (xs : List T) → length xs ≡ length (places b) → places (with_places b xs) ≡ xs };
}

/// A value of which a column without nulls is made.
pub trait ColumnValue: Copy {
    ghost use Rattle.coltypes.specs.Cell.{Cell};
    ghost use Rattle.coltypes.specs.LogicalType.{LogicalType};
    ghost use Rattle.colbase.specs.Arrays.{column};
    ghost use Rattle.rowouts.specs.Outputs.{full_column};

    // The cell that a value is, and the type of a column of them.
    ghost value_cell: { Self → Cell };

    ghost value_type: { LogicalType };

    /// The column of the values. It keeps the block that holds them.
    fn column_of(values: Vec<Self>, ctx: ExecutionCtx) -> Res<ArrayRef>
        ensures column { IfOk result (λ a. column a ≡ full_column value_type (map value_cell values.items)) }
        ensures errors { IfErr result (λ e. e ≡ Fault.Memory) };
}

/// The buffer of outputs that are one value a row.
#[derive(Drop)]
pub struct OutputSlots<T> {
    items: Vec<T>,
}

impl<T: ColumnValue> OutputBuffer<T> for OutputSlots<T> {
    ghost use Rattle.std.specs.Vec.{with_items};
    ghost use Rattle.rowouts.specs.Places.{places_back};

    ghost places = { λ b. b.items.items };

    ghost with_places = { λ b xs. record b { items = with_items b.items xs } };

    ghost states = { T.value_cell };

    ghost element_type = { T.value_type };

    ghost places_there = { λ b xs e. places_back b.items.len xs b.items.items b.items.ok.0 e };

    fn slots(&mut self) -> &mut [T] {
        self.items.as_mut_slice()
    }

    fn finish(self, len: usize, ctx: ExecutionCtx) -> Res<ArrayRef> {
        let OutputSlots { mut items } = self;
        items.truncate(len);
        T::column_of(items, ctx)
    }
}

/// The answers of `apply` to the items, in order, as a column without nulls. Each answer is written once.
pub fn build_from<T: OutputElement, S: IndexedSource, F: Fn(S::Item) -> T>(
    source: &S,
    apply: F,
    ctx: ExecutionCtx,
) -> Res<ArrayRef>
    requires callable { (i : ℕ) (x : S.Item) → i < S.count source.now → S.item_at source.now i x → F.pre apply x }
    ensures dtype { IfOk result (λ a. dtype a ≡ T.element_type) }
    ensures len { IfOk result (λ a. len a ≡ S.count source.now) }
    ensures rows { IfOk result (λ a. (i : ℕ) → i < S.count source.now → StatesAnswer (S.item_at source.now i) (F.post apply) T.states (row a i)) }
    ensures errors { IfErr result (λ e. e ≡ Fault.Memory) }
{
    let values = map_collect(source, apply, ctx.alloc())?;
    T::column_of(values, ctx)
}
