// The run whose callback gives a truth value and doesn't fail. Those of all rows are packed into bits as they are answered.
ghost use Rattle.std.specs.Prelude.{◌≡◌, ◌<◌, ◌≤◌, ℕ, length, true, Ok, Err, IfOk, IfErr, MatchResult};
ghost use Rattle.bitlane.specs.Bits.{bit};
ghost use Rattle.bitlane.specs.Maps.{MapsTo};
ghost use Rattle.colbase.specs.Arrays.{dtype, len, row};
ghost use Rattle.coltypes.specs.Cell.{truth};
ghost use Rattle.coltypes.specs.LogicalType.{bool as bool_type};
ghost use Rattle.coltypes.specs.declared.dtype.Nullability.TheVariants.{NonNullable as not_nullable};
ghost use Rattle.rowouts.specs.Outputs.{StatesAnswer};
ghost use Rattle.rowtypes.specs.Rows.{each_length};
ghost use Rattle.rowloops.specs.Domain.{RunsTotal, domain_of};

use crate::domain::RowDomain;
use crate::owned::execute_owned;
use bitlane::{BitBuffer, IndexedSource, NoFailure};
use colbase::{ArrayRef, BoolArray, ExecutionCtx, Fault, Res, Validity};
use rowtypes::{ElementTuple, IndexedElementTuple, RowsVisitor};
use std::alloc::AllocError;

/// The answers of a callback that doesn't fail to the rows of a domain, as a column of truth values without nulls whose other rows are
/// false; and how often it was called. `multiversioned` selects the collector of all rows, and changes no result. Whether an argument is
/// one value or a column is told before the loop.
pub fn execute_owned_bool<Args: IndexedElementTuple, A: Fn(Args::Elems) -> bool>(
    columns: &Args::Columns,
    domain: RowDomain,
    multiversioned: bool,
    apply: A,
    ctx: ExecutionCtx,
) -> (Res<(ArrayRef, NoFailure)>, u128)
    requires lengths { each_length (domain_of domain).width (Args.lengths columns.now) ≡ true }
    requires callable { (i : ℕ) (e : Args.Elems) → i < (domain_of domain).width → (domain_of domain).selected i ≡ true
        → Args.cells e ≡ Args.shows columns.now i → A.pre apply e }
    ensures { RunsTotal (domain_of domain.entry) (λ i e. Args.cells e ≡ Args.shows columns.now i) (A.post apply)
        truth (bool_type not_nullable) result.0 result.1 }
{
    match domain {
        RowDomain::All(rows) => {
            let (answer, steps) = execute_packed::<Args, A>(
                columns,
                rows,
                multiversioned,
                apply,
                ctx,
            );
            (without_failure(answer), steps)
        }
        RowDomain::Marked(_) | RowDomain::Filtered(_) => {
            execute_owned::<Args, bool, NoFailure, (), _>(
                columns,
                domain,
                (),
                |_lent: &(), elems: Args::Elems| -> (bool, NoFailure)
                    requires { A.pre apply elems }
                    ensures { A.post apply elems result.0 }
                { (apply(elems), NoFailure) },
                ctx,
            )
        }
    }
}

// The same, with the evidence of no failure.
fn without_failure(values: Res<ArrayRef>) -> Res<(ArrayRef, NoFailure)>
    ensures { MatchResult values (λ a. result ≡ Ok (a, record {})) (λ e. result ≡ Err e) }
{
    match values {
        Ok(values) => Ok((values, NoFailure)),
        Err(fault) => Err(fault),
    }
}

// The answers to all rows.
fn execute_packed<Args: IndexedElementTuple, A: Fn(Args::Elems) -> bool>(
    columns: &Args::Columns,
    row_count: usize,
    multiversioned: bool,
    apply: A,
    ctx: ExecutionCtx,
) -> (Res<ArrayRef>, u128)
    requires lengths { each_length row_count (Args.lengths columns.now) ≡ true }
    requires callable { (i : ℕ) (e : Args.Elems) → i < row_count → Args.cells e ≡ Args.shows columns.now i → A.pre apply e }
    ensures dtype { IfOk result.0 (λ a. dtype a ≡ bool_type not_nullable) }
    ensures len { IfOk result.0 (λ a. len a ≡ row_count) }
    ensures rows { IfOk result.0 (λ a. (i : ℕ) → i < row_count
        → StatesAnswer (λ e. Args.cells e ≡ Args.shows columns.now i) (λ e r. A.post apply e r) truth (row a i)) }
    ensures errors { IfErr result.0 (λ e. e ≡ Fault.Memory) }
    ensures most { result.1 ≤ row_count }
    ensures least { IfOk result.0 (λ _. row_count ≤ result.1) }
{
    let visitor = PackRows::<Args, A> {
        columns,
        row_count,
        multiversioned,
        apply,
        ctx,
    };
    Args::visit_rows(columns, row_count, visitor)
}

/// Collects the truth values that a callback answers.
#[derive(Drop)]
struct PackRows<'a, Args: ElementTuple, A> {
    columns: &'a Args::Columns,
    row_count: usize,
    multiversioned: bool,
    apply: A,
    ctx: ExecutionCtx,
}

impl<'a, Args: ElementTuple, A: Fn(Args::Elems) -> bool> RowsVisitor<Args>
    for PackRows<'a, Args, A> {
    ghost use Rattle.std.specs.Prelude.{◌≡◌, ◌<◌, ◌≤◌, ℕ, IfOk, IfErr};
    ghost use Rattle.colbase.specs.Arrays.{dtype, len, row};
    ghost use Rattle.coltypes.specs.Cell.{truth};
    ghost use Rattle.coltypes.specs.LogicalType.{bool as bool_type};
    ghost use Rattle.coltypes.specs.declared.dtype.Nullability.TheVariants.{NonNullable as not_nullable};
    ghost use Rattle.coltypes.specs.declared.fault.Fault.TheVariants.{Memory};
    ghost use Rattle.rowouts.specs.Outputs.{StatesAnswer};

    type Output = (Res<ArrayRef>, u128);

    ghost rows = { λ s. s.row_count };

    ghost may_be = { λ s i e. Args.cells e ≡ Args.shows s.columns.now i };

    ghost ready = { λ s. (i : ℕ) (e : Args.Elems) → i < s.row_count → Args.cells e ≡ Args.shows s.columns.now i → A.pre s.apply e };

    ghost gives = { λ s r. IfOk r.0 (λ a. dtype a ≡ bool_type not_nullable) × IfOk r.0 (λ a. len a ≡ s.row_count)
        × IfOk r.0 (λ a. (i : ℕ) → i < s.row_count
        → StatesAnswer (λ e. Args.cells e ≡ Args.shows s.columns.now i) (λ e b. A.post s.apply e b) truth (row a i))
        × IfErr r.0 (λ e. e ≡ Memory) × (r.1 ≤ s.row_count) × IfOk r.0 (λ _. s.row_count ≤ r.1) };

    fn visit<S: IndexedSource<Item = Args::Elems> + Drop>(
        self,
        source: S,
    ) -> (Res<ArrayRef>, u128) {
        pack_counted::<S, A>(&source, self.multiversioned, self.apply, self.ctx)
    }
}

/// The answers to the items of a source as a column of truth values without nulls, and how often the callback was called.
fn pack_counted<S: IndexedSource, A: Fn(S::Item) -> bool>(
    source: &S,
    multiversioned: bool,
    apply: A,
    ctx: ExecutionCtx,
) -> (Res<ArrayRef>, u128)
    requires callable { (i : ℕ) (x : S.Item) → i < S.count source.now → S.item_at source.now i x → A.pre apply x }
    ensures dtype { IfOk result.0 (λ a. dtype a ≡ bool_type not_nullable) }
    ensures len { IfOk result.0 (λ a. len a ≡ S.count source.now) }
    ensures rows { IfOk result.0 (λ a. (i : ℕ) → i < S.count source.now
        → StatesAnswer (S.item_at source.now i) (λ x r. A.post apply x r) truth (row a i)) }
    ensures errors { IfErr result.0 (λ e. e ≡ Fault.Memory) }
    ensures most { result.1 ≤ S.count source.now }
    ensures least { IfOk result.0 (λ _. S.count source.now ≤ result.1) }
{
    match collect_bits(source, multiversioned, apply, ctx) {
        Ok(bits) => (
            BoolArray::try_new(bits, Validity::NonNullable, ctx),
            source.len() as u128,
        ),
        Err(AllocError) => (Err(Fault::Memory), 0),
    }
}

/// The answers to the items of a source, by one of the two collectors.
fn collect_bits<S: IndexedSource, A: Fn(S::Item) -> bool>(
    source: &S,
    multiversioned: bool,
    apply: A,
    ctx: ExecutionCtx,
) -> Result<BitBuffer, AllocError>
    requires callable { (i : ℕ) (x : S.Item) → i < S.count source.now → S.item_at source.now i x → A.pre apply x }
    ensures len { IfOk result (λ b. length b ≡ S.count source.now) }
    ensures items { IfOk result (λ b. (i : ℕ) → i < S.count source.now → MapsTo (S.item_at source.now i) (A.post apply) (bit b i)) }
{
    let rows = source.len();
    let answer = |index: usize| -> bool
        requires within { index < S.count source.now }
        requires callable { (x : S.Item) → S.item_at source.now index x → A.pre apply x }
        ensures { MapsTo (S.item_at source.entry.now index) (A.post apply) result }
    { apply(source.get(index)) };
    if multiversioned {
        BitBuffer::collect_bool_multiversioned_in(ctx.alloc(), rows, answer)
    } else {
        BitBuffer::collect_bool_in(ctx.alloc(), rows, answer)
    }
}
