// The rows that a mask selects.
ghost use Rattle.std.specs.Prelude.{◌≡◌, length, IfOk, IfErr};
ghost use Rattle.colbase.specs.ArrayOf.{array_of};
ghost use Rattle.colbase.specs.Arrays.{MustRead, Sound, dtype, len, payload, rows};
ghost use Rattle.coltypes.specs.Cell.{Cell};
ghost use Rattle.colbase.specs.Selects.{Filters, Selects};
ghost use Rattle.coltypes.specs.Keep.{keep, trues};
ghost use Rattle.coltypes.specs.Masks.{mask_bits};

use super::{ArrayRef, Layout, make};
use bitlane::BitBuffer;
use coltypes::{ExecutionCtx, Fault, Mask, Res, filter_bits};

impl ArrayRef {
    /// The rows that the mask selects, in their order and in the array's type. Under `AllTrue` it is another owner of the
    /// array, and under `AllFalse` an empty part of it; else each buffer is read in one pass.
    pub fn filter(&self, mask: &Mask, ctx: ExecutionCtx) -> Res<ArrayRef>
        requires { length (mask_bits mask.now) ≡ len self.now }
        ensures rows { IfOk result (λ a. rows a ≡ keep (mask_bits mask.now) (rows self.now)) }
        ensures dtype { IfOk result (λ a. dtype a ≡ dtype self.now) }
        ensures payload { IfOk result (λ a. payload a ≡ keep (mask_bits mask.now) (payload self.now)) }
        ensures must_read { IfOk result (λ a. (x : Cell) → MustRead a x → MustRead self.now x) }
        ensures errors { IfErr result (λ e. e ≡ Fault.Memory) }
    {
        self.filter_by(mask, ctx)
    }

    fn filter_by(&self, mask: &Mask, ctx: ExecutionCtx) -> Res<ArrayRef>
        requires { length (mask_bits mask.now) ≡ len self.now }
        ensures filtered { IfOk result (Filters self.now (mask_bits mask.now)) }
        ensures errors { IfErr result (λ e. e ≡ Fault.Memory) }
    {
        match mask {
            Mask::AllTrue(_) => Ok(self.share()),
            Mask::AllFalse(_) => self.slice(0, 0, ctx),
            Mask::Values(bits) => self.select(bits, bits.true_count(), ctx),
        }
    }

    #[cycle(select)]
    fn select(&self, bits: &BitBuffer, true_count: usize, ctx: ExecutionCtx) -> Res<ArrayRef>
        requires covers { length bits.now ≡ len self.now }
        requires counted { true_count ≡ trues bits.now }
        ensures selected { IfOk result (Selects self.now bits.now) }
        ensures errors { IfErr result (λ e. e ≡ Fault.Memory) }
    {
        let dtype = self.dtype().share();
        let layout = self.select_layout(bits, true_count, ctx)?;
        make(dtype, true_count, layout, ctx)
    }

    #[cycle(select)]
    fn select_layout(&self, bits: &BitBuffer, true_count: usize, ctx: ExecutionCtx) -> Res<Layout>
        requires covers { length bits.now ≡ len self.now }
        requires counted { true_count ≡ trues bits.now }
        ensures selected { IfOk result (λ l. Selects self.now bits.now (array_of l)) }
        ensures sound { IfOk result (λ l. Sound (array_of l)) }
        ensures errors { IfErr result (λ e. e ≡ Fault.Memory) }
    {
        self.checks();
        match &self.inner.get().layout {
            Layout::Constant(s, _) => Ok(Layout::Constant(s.share(), true_count)),
            Layout::Masked(child, v) => {
                let child = child.select(bits, true_count, ctx)?;
                child.checks();
                Ok(Layout::Masked(child, v.filter(bits, true_count, ctx)?))
            }
            Layout::Extension(ext, storage) => {
                let storage = storage.select(bits, true_count, ctx)?;
                storage.checks();
                Ok(Layout::Extension(ext.share(), storage))
            }
            Layout::Primitive(values, v) => {
                let values = values.filter(bits, true_count, ctx)?;
                Ok(Layout::Primitive(values, v.filter(bits, true_count, ctx)?))
            }
            Layout::Bool(truths, v) => {
                let truths = filter_bits(truths, bits, true_count, ctx)?;
                Ok(Layout::Bool(truths, v.filter(bits, true_count, ctx)?))
            }
        }
    }
}
