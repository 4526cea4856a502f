// What is proved of any tuple, from the clauses of its trait alone.
ghost use Rattle.std.specs.Prelude.{◌≡◌, ◌<◌, ℕ, length, is_some, IfOk, IfErr, IfSome};
ghost use Rattle.colbase.specs.Arrays.{row};
ghost use Rattle.rowouts.specs.Outputs.{StatesAnswer};
ghost use Rattle.rowtypes.specs.Rows.{AcceptsFrom, DecodeFails, decoded_lengths, each_length, shown_from};

use bitlane::IndexedSource;
use colbase::{ArrayRef, ExecutionCtx, Res};
use rowtypes::{
    ArgTupleSource, ElementTuple, IndexedElementTuple, OutputBuffer, OutputElement, build_from,
    map_rows,
};
use std::test::Fail;

/// The answers of `apply` to as many rows, by the loop that is told which arguments are one value. None where a decoded
/// column has another number of rows.
pub fn answers<Args: IndexedElementTuple, Out: OutputElement, F: Fn(Args::Elems) -> Out>(
    columns: &[ArrayRef],
    rows: usize,
    apply: F,
    ctx: ExecutionCtx,
) -> Res<Option<ArrayRef>>
    requires arity { length columns.now ≡ Args.ARITY }
    requires types { AcceptsFrom Args.elements.accepts 0 columns.now }
    requires callable { (i : ℕ) (e : Args.Elems) → i < rows → Args.cells e ≡ shown_from Args.elements.shown 0 columns.now i → F.pre apply e }
    ensures told { IfOk result (λ o. is_some o ≡ each_length rows (decoded_lengths columns.now)) }
    ensures rows { IfOk result (λ o. IfSome o (λ a. (i : ℕ) → i < rows → StatesAnswer (λ e. Args.cells e ≡ shown_from Args.elements.shown 0 columns.now i) (F.post apply) Out.states (row a i))) }
    ensures errors { IfErr result (λ e. DecodeFails Args.elements.reads 0 columns.now e) }
{
    let decoded = Args::decode(columns, ctx)?;
    if !Args::decoded_lens_match(&decoded, rows) {
        return Ok(None);
    }
    let buffer = Out::with_capacity(rows, ctx)?;
    let written = map_rows::<Args, Out, F>(&decoded, rows, buffer, apply);
    Ok(Some(written.finish(rows, ctx)?))
}

/// The same answers, by the rows that are read at their index.
pub fn answers_by_index<Args: ElementTuple, Out: OutputElement, F: Fn(Args::Elems) -> Out>(
    columns: &[ArrayRef],
    rows: usize,
    apply: F,
    ctx: ExecutionCtx,
) -> Res<Option<ArrayRef>>
    requires arity { length columns.now ≡ Args.ARITY }
    requires types { AcceptsFrom Args.elements.accepts 0 columns.now }
    requires callable { (i : ℕ) (e : Args.Elems) → i < rows → Args.cells e ≡ shown_from Args.elements.shown 0 columns.now i → F.pre apply e }
    ensures told { IfOk result (λ o. is_some o ≡ each_length rows (decoded_lengths columns.now)) }
    ensures rows { IfOk result (λ o. IfSome o (λ a. (i : ℕ) → i < rows → StatesAnswer (λ e. Args.cells e ≡ shown_from Args.elements.shown 0 columns.now i) (F.post apply) Out.states (row a i))) }
    ensures errors { IfErr result (λ e. DecodeFails Args.elements.reads 0 columns.now e) }
{
    let decoded = Args::decode(columns, ctx)?;
    if !Args::decoded_lens_match(&decoded, rows) {
        return Ok(None);
    }
    let source = ArgTupleSource::<Args>::new(&decoded, rows);
    Ok(Some(build_from(&source, apply, ctx)?))
}

/// The values at each of these rows, and those that are known before a row is read.
pub fn rows_of<Args: ElementTuple>(
    columns: &[ArrayRef],
    rows: usize,
    ctx: ExecutionCtx,
) -> Result<(Vec<Args::Elems>, Args::ConstElems), Fail>
    requires arity { length columns.now ≡ Args.ARITY }
    requires types { AcceptsFrom Args.elements.accepts 0 columns.now }
{
    let decoded = Args::decode(columns, ctx)?;
    if !Args::decoded_lens_match(&decoded, rows) {
        return Err(Fail::from("another number of rows"));
    }
    let source = ArgTupleSource::<Args>::new(&decoded, rows);
    let mut values = Vec::new(ctx.alloc());
    for index in 0..source.len() {
        values.push(source.get(index))?;
    }
    Ok((values, Args::const_values(&decoded)))
}

/// Whether the arguments, decoded with their nulls, have as many rows. None where they can't be decoded so.
pub fn has_rows_with_nulls<Args: ElementTuple>(
    columns: &[ArrayRef],
    rows: usize,
    ctx: ExecutionCtx,
) -> Res<Option<bool>>
    requires arity { length columns.now ≡ Args.ARITY }
    requires types { AcceptsFrom Args.elements.accepts 0 columns.now }
{
    let decoded = Args::decode_null_tolerant(columns, ctx)?;
    Ok(decoded.map(|columns| Args::decoded_lens_match(&columns, rows)))
}
