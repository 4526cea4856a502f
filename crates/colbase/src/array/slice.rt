// A part of an array's rows.
ghost use Rattle.std.specs.Prelude.{◌≡◌, ◌≤◌, IfOk, IfErr, slice_range};
ghost use Rattle.colbase.specs.Arrays.{dtype, len, rows, payload, MustRead};
ghost use Rattle.colbase.specs.ArrayOf.{array_of};
ghost use Rattle.coltypes.specs.Cell.{Cell};
ghost use Rattle.colbase.specs.Cut.{cut};

use super::{ArrayRef, Layout, make};
use coltypes::{ExecutionCtx, Fault, Res};

impl ArrayRef {
    /// The rows from `start` to below `end`, in the array's type. Copies no row.
    pub fn slice(&self, start: usize, end: usize, ctx: ExecutionCtx) -> Res<ArrayRef>
        requires order { start ≤ end }
        requires within { end ≤ len self.now }
        ensures rows { IfOk result (λ a. rows a ≡ slice_range (rows self.now) start end) }
        ensures dtype { IfOk result (λ a. dtype a ≡ dtype self.now) }
        ensures payload { IfOk result (λ a. payload a ≡ slice_range (payload self.now) start end) }
        ensures must_read { IfOk result (λ a. (x : Cell) → MustRead a x → MustRead self.now x) }
        ensures errors { IfErr result (λ e. e ≡ Fault.Memory) }
    {
        self.cut(start, end, ctx)
    }

    #[cycle(cut)]
    fn cut(&self, start: usize, end: usize, ctx: ExecutionCtx) -> Res<ArrayRef>
        requires order { start ≤ end }
        requires within { end ≤ len self.now }
        ensures cut { IfOk result (λ a. a ≡ cut self.now start end) }
        ensures errors { IfErr result (λ e. e ≡ Fault.Memory) }
    {
        self.checks();
        let dtype = self.dtype().share();
        let layout = self.cut_layout(start, end, ctx)?;
        make(dtype, end - start, layout, ctx)
    }

    #[cycle(cut)]
    fn cut_layout(&self, start: usize, end: usize, ctx: ExecutionCtx) -> Res<Layout>
        requires order { start ≤ end }
        requires within { end ≤ len self.now }
        ensures cut { IfOk result (λ l. array_of l ≡ cut self.now start end) }
        ensures errors { IfErr result (λ e. e ≡ Fault.Memory) }
    {
        let inner = self.inner.get();
        let len = inner.len;
        match &inner.layout {
            Layout::Constant(s, _) => Ok(Layout::Constant(s.share(), end - start)),
            Layout::Masked(child, v) => {
                Ok(Layout::Masked(child.cut(start, end, ctx)?, v.slice(start, end, len)))
            }
            Layout::Extension(e, storage) => {
                Ok(Layout::Extension(e.share(), storage.cut(start, end, ctx)?))
            }
            Layout::Primitive(values, v) => {
                Ok(Layout::Primitive(values.slice(start, end), v.slice(start, end, len)))
            }
            Layout::Bool(bits, v) => {
                Ok(Layout::Bool(bits.slice(start, end), v.slice(start, end, len)))
            }
        }
    }
}
