// The columns that are generated, each by a pattern whose remainders are counted on, without a division a row.
ghost use Rattle.std.specs.Prelude.{◌≡◌, ◌<◌, ◌≤◌, ◌+◌, ◌%◌, ◌^◌, [], ◌∷◌, pos, if◌then◌else◌, IfOk, IfErr};
ghost use Rattle.bitlane.specs.Bits.{tabulate};
ghost use Rattle.coltypes.specs.declared.fault.Fault.TheVariants.{Memory};
ghost use Rattle.rowrun.specs.Generator.{generated, generated_column, is_valid_in, left, right, stored_in};

use bitlane::BitBuffer;
use colbase::{ArrayRef, Buffer, ExecutionArgs, ExecutionCtx, PrimitiveArray, Res, Validity};
use std::alloc::{AllocError, Global};

/// How a column of numbers of 64 bits is made. Row i holds `step * i` modulo `modulus`. Where i modulo `period` is
/// `null_at` the row is null, and `under_null` is stored.
#[derive(Clone, Copy, Debug)]
pub(super) struct Pattern {
    step: u32,
    modulus: u32,
    period: u32,
    null_at: u32,
    under_null: i64,
}

/// The pattern of the left column.
fn left() -> Pattern
    ensures { result ≡ left }
{
    Pattern {
        step: 37,
        modulus: 1000,
        period: 5,
        null_at: 3,
        under_null: i64::MAX,
    }
}

/// The pattern of the right column.
fn right() -> Pattern
    ensures { result ≡ right }
{
    Pattern {
        step: 1,
        modulus: 97,
        period: 7,
        null_at: 2,
        under_null: 1,
    }
}

/// The sum of two numbers below the modulus, modulo it, without a division.
fn advanced(number: u32, step: u32, modulus: u32) -> u32
    requires within { number < modulus }
    requires short { step < modulus }
    requires narrow { modulus ≤ 2 ^ 31 }
    ensures sum { result ≡ (number + step) % modulus }
    ensures within { result < modulus }
{
    let sum = number + step;
    if sum < modulus { sum } else { sum - modulus }
}

/// What is stored in a row, null or not.
fn stored(pattern: Pattern, null: bool, number: u32) -> i64
    ensures { result ≡ (if null then pattern.under_null else pos number) }
{
    if null {
        pattern.under_null
    } else {
        number as i64
    }
}

/// What is stored in each row, and which rows aren't null.
fn rows_of(
    alloc: Global,
    pattern: Pattern,
    rows: usize,
) -> Result<(Vec<i64>, Vec<bool>), AllocError>
    requires steps { pattern.step < pattern.modulus }
    requires turns { 1 < pattern.period }
    requires narrow { pattern.modulus ≤ 2 ^ 31 }
    requires short { pattern.period ≤ 2 ^ 31 }
    ensures stored { IfOk result (λ r. r.0.items ≡ tabulate (stored_in pattern) rows) }
    ensures marks { IfOk result (λ r. r.1.items ≡ tabulate (is_valid_in pattern) rows) }
{
    let mut values = Vec::with_capacity(alloc, rows)?;
    let mut marks = Vec::with_capacity(alloc, rows)?;
    let mut number = 0;
    let mut turn = 0;
    for _ in 0..rows {
        let null = turn == pattern.null_at;
        values.push(stored(pattern, null, number))?;
        marks.push(!null)?;
        number = advanced(number, pattern.step, pattern.modulus);
        turn = advanced(turn, 1, pattern.period);
    }
    Ok((values, marks))
}

/// A column of this many rows.
fn column(pattern: Pattern, rows: usize, ctx: ExecutionCtx) -> Res<ArrayRef>
    requires steps { pattern.step < pattern.modulus }
    requires turns { 1 < pattern.period }
    requires narrow { pattern.modulus ≤ 2 ^ 31 }
    requires short { pattern.period ≤ 2 ^ 31 }
    ensures column { IfOk result (λ a. a ≡ generated_column pattern rows) }
    ensures errors { IfErr result (λ e. e ≡ Memory) }
{
    let (values, marks) = rows_of(ctx.alloc(), pattern, rows)?;
    let values = Buffer::from_vec(values, ctx)?;
    let marks = BitBuffer::from_vec(ctx.alloc(), marks)?;
    PrimitiveArray::try_new(values, Validity::Array(marks), ctx)
}

fn both(alloc: Global, left: ArrayRef, right: ArrayRef) -> Result<Vec<ArrayRef>, AllocError>
    ensures { IfOk result (λ v. v.items ≡ left ∷ right ∷ []) }
{
    let mut columns = Vec::with_capacity(alloc, 2)?;
    columns.push(left)?;
    columns.push(right)?;
    Ok(columns)
}

/// The generated columns of this many rows.
#[tactic(auto, unfolding(crate::specs::Generator::generated))]
pub(super) fn generated(rows: usize, ctx: ExecutionCtx) -> Res<ExecutionArgs>
    ensures columns { IfOk result (λ args. args.columns ≡ generated rows) }
    ensures row_count { IfOk result (λ args. args.row_count ≡ rows) }
    ensures errors { IfErr result (λ e. e ≡ Memory) }
{
    let left = column(left(), rows, ctx)?;
    let right = column(right(), rows, ctx)?;
    Ok(ExecutionArgs::new(both(ctx.alloc(), left, right)?, rows))
}
