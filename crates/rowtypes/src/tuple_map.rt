// The answers of a callback to all rows of decoded arguments, written by index into the places of a buffer.
ghost use Rattle.std.specs.Prelude.{◌≡◌, ◌<◌, ℕ, true, length, slice_index_or};
ghost use Rattle.bitlane.specs.Maps.{MapsTo};
ghost use Rattle.rowtypes.specs.Rows.{each_length};

use crate::rows_visitor::RowsVisitor;
use crate::tuple::{ElementTuple, IndexedElementTuple};
use bitlane::{IndexedSource, map_into};
use rowouts::{OutputBuffer, OutputElement};

/// Writes the answer of `apply` to each row at the row's place. There are as many places as rows, and each decoded
/// column has as many. Whether an argument is one value or a column is told before the loop. This project's own.
pub fn map_rows<Args: IndexedElementTuple, Out: OutputElement, F: Fn(Args::Elems) -> Out>(
    columns: &Args::Columns,
    rows: usize,
    buffer: Out::Buffer,
    apply: F,
) -> Out::Buffer
    requires room { length (Out.Buffer.places buffer) ≡ rows }
    requires lengths { each_length rows (Args.lengths columns.now) ≡ true }
    requires callable { (i : ℕ) (e : Args.Elems) → i < rows → Args.cells e ≡ Args.shows columns.now i → F.pre apply e }
    ensures room { length (Out.Buffer.places result) ≡ rows }
    ensures each { (i : ℕ) (d : Out) → i < rows → MapsTo (λ e. Args.cells e ≡ Args.shows columns.now i) (F.post apply) (slice_index_or (Out.Buffer.places result) i d) }
{
    let visitor = MapRows::<Args, Out, F> {
        columns,
        buffer,
        apply,
    };
    Args::visit_rows(columns, rows, visitor)
}

/// Writes the answer of a callback to each row.
#[derive(Drop)]
struct MapRows<'a, Args: ElementTuple, Out: OutputElement, F> {
    columns: &'a Args::Columns,
    buffer: Out::Buffer,
    apply: F,
}

impl<'a, Args: ElementTuple, Out: OutputElement, F: Fn(Args::Elems) -> Out> RowsVisitor<Args>
    for MapRows<'a, Args, Out, F> {
    ghost use Rattle.std.specs.Prelude.{◌≡◌, ◌<◌, ℕ, length, slice_index_or};
    ghost use Rattle.bitlane.specs.Maps.{MapsTo};

    type Output = Out::Buffer;

    ghost rows = { λ s. length (Out.Buffer.places s.buffer) };

    ghost may_be = { λ s i e. Args.cells e ≡ Args.shows s.columns.now i };

    ghost ready = { λ s. (i : ℕ) (e : Args.Elems) → i < length (Out.Buffer.places s.buffer) → Args.cells e ≡ Args.shows s.columns.now i → F.pre s.apply e };

    ghost gives = { λ s r. (length (Out.Buffer.places r) ≡ length (Out.Buffer.places s.buffer)) × ((i : ℕ) (d : Out) → i < length (Out.Buffer.places s.buffer) → MapsTo (λ e. Args.cells e ≡ Args.shows s.columns.now i) (F.post s.apply) (slice_index_or (Out.Buffer.places r) i d)) };

    fn visit<S: IndexedSource<Item = Args::Elems> + Drop>(self, source: S) -> Out::Buffer {
        let MapRows {
            mut buffer,
            apply,
            ..
        } = self;
        map_into(&source, buffer.slots(), apply);
        buffer
    }
}
