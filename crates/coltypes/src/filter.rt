// The values that a mask selects, one pass for each buffer.
ghost use Rattle.std.specs.Prelude.{◌≡◌, length, IfOk, IfErr};
ghost use Rattle.coltypes.specs.Keep.{keep, keep_validity, keep_values, trues};
ghost use Rattle.coltypes.specs.Valid.{Covers};
ghost use Rattle.coltypes.specs.Values.{count};

use crate::buffer::Buffer;
use crate::ctx::ExecutionCtx;
use crate::fault::{Fault, Res};
use crate::validity::Validity;
use crate::values::PrimitiveValues;
use bitlane::BitBuffer;
use std::alloc::{AllocError, Global};

impl Validity {
    /// The validity of the rows where `bits` is true, which are `true_count` in number.
    pub fn filter(&self, bits: &BitBuffer, true_count: usize, ctx: ExecutionCtx) -> Res<Validity>
        requires covers { Covers self.now (length bits.now) }
        requires counted { true_count ≡ trues bits.now }
        ensures kept { IfOk result (λ w. w ≡ keep_validity bits.now self.now) }
        ensures errors { IfErr result (λ e. e ≡ Fault.Memory) }
    {
        match self {
            Validity::NonNullable => Ok(Validity::NonNullable),
            Validity::AllValid => Ok(Validity::AllValid),
            Validity::AllInvalid => Ok(Validity::AllInvalid),
            Validity::Array(valid) => {
                let kept = filter_bits(valid, bits, true_count, ctx)?;
                Ok(Validity::Array(kept))
            }
        }
    }
}

impl PrimitiveValues {
    /// The numbers where `bits` is true, which are `true_count` in number.
    pub fn filter(
        &self,
        bits: &BitBuffer,
        true_count: usize,
        ctx: ExecutionCtx,
    ) -> Res<PrimitiveValues>
        requires covers { length bits.now ≡ count self.now }
        requires counted { true_count ≡ trues bits.now }
        ensures kept { IfOk result (λ x. x ≡ keep_values bits.now self.now) }
        ensures errors { IfErr result (λ e. e ≡ Fault.Memory) }
    {
        match self {
            PrimitiveValues::I8(b) => Ok(PrimitiveValues::I8(b.filter(bits, true_count, ctx)?)),
            PrimitiveValues::I16(b) => Ok(PrimitiveValues::I16(b.filter(bits, true_count, ctx)?)),
            PrimitiveValues::I32(b) => Ok(PrimitiveValues::I32(b.filter(bits, true_count, ctx)?)),
            PrimitiveValues::I64(b) => Ok(PrimitiveValues::I64(b.filter(bits, true_count, ctx)?)),
            PrimitiveValues::U8(b) => Ok(PrimitiveValues::U8(b.filter(bits, true_count, ctx)?)),
            PrimitiveValues::U16(b) => Ok(PrimitiveValues::U16(b.filter(bits, true_count, ctx)?)),
            PrimitiveValues::U32(b) => Ok(PrimitiveValues::U32(b.filter(bits, true_count, ctx)?)),
            PrimitiveValues::U64(b) => Ok(PrimitiveValues::U64(b.filter(bits, true_count, ctx)?)),
        }
    }
}

/// The truth values where `bits` is true, which are `true_count` in number.
pub fn filter_bits(
    values: &BitBuffer,
    bits: &BitBuffer,
    true_count: usize,
    ctx: ExecutionCtx,
) -> Res<BitBuffer>
    requires covers { length bits.now ≡ length values.now }
    requires counted { true_count ≡ trues bits.now }
    ensures kept { IfOk result (λ b. b ≡ keep bits.now values.now) }
    ensures errors { IfErr result (λ e. e ≡ Fault.Memory) }
{
    let kept = selected_bits(values, bits, true_count, ctx.alloc())?;
    Ok(BitBuffer::from_vec(ctx.alloc(), kept)?)
}

impl<T: Copy + Drop> Buffer<T> {
    /// The values where `bits` is true, which are `true_count` in number.
    pub fn filter(&self, bits: &BitBuffer, true_count: usize, ctx: ExecutionCtx) -> Res<Buffer<T>>
        requires covers { length bits.now ≡ length self.now }
        requires counted { true_count ≡ trues bits.now }
        ensures kept { IfOk result (λ b. b ≡ keep bits.now self.now) }
        ensures errors { IfErr result (λ e. e ≡ Fault.Memory) }
    {
        let kept = selected_items(self.as_slice(), bits, true_count, ctx.alloc())?;
        Buffer::from_vec(kept, ctx)
    }
}

// Takes the room for all of them once.
fn selected_items<T: Copy + Drop>(
    items: &[T],
    bits: &BitBuffer,
    true_count: usize,
    alloc: Global,
) -> Result<Vec<T>, AllocError>
    requires covers { length bits.now ≡ length items.now }
    requires counted { true_count ≡ trues bits.now }
    ensures { IfOk result (λ v. v.items ≡ keep bits.now items.now) }
{
    let mut kept = Vec::with_capacity(alloc, true_count)?;
    for index in bits.set_indices() {
        kept.push(items[index])?;
    }
    Ok(kept)
}

fn selected_bits(
    values: &BitBuffer,
    bits: &BitBuffer,
    true_count: usize,
    alloc: Global,
) -> Result<Vec<bool>, AllocError>
    requires covers { length bits.now ≡ length values.now }
    requires counted { true_count ≡ trues bits.now }
    ensures { IfOk result (λ v. v.items ≡ keep bits.now values.now) }
{
    let mut kept = Vec::with_capacity(alloc, true_count)?;
    for index in bits.set_indices() {
        kept.push(values.value(index))?;
    }
    Ok(kept)
}
