// A row as a scalar.
ghost use Rattle.std.specs.Prelude.{◌≡◌, ◌<◌, IfOk, IfErr, IsTrue, option_map};
ghost use Rattle.colbase.specs.Arrays.{dtype, len, row};
ghost use Rattle.coltypes.specs.CellOf.{cell_of};
ghost use Rattle.coltypes.specs.Fits.{fits_type};
ghost use Rattle.coltypes.specs.Scalars.{scalar_cell, scalar_type};

use super::{ArrayRef, Layout};
use coltypes::{ExecutionCtx, Fault, Res, Scalar, ScalarValue};

impl ArrayRef {
    /// The row at `index` as a scalar of the array's type. Text that is not UTF-8 is given as its bytes too.
    pub fn scalar_at(&self, index: usize, ctx: ExecutionCtx) -> Res<Scalar>
        requires { index < len self.now }
        ensures cell { IfOk result (λ s. scalar_cell s ≡ row self.now index) }
        ensures dtype { IfOk result (λ s. scalar_type s ≡ dtype self.now) }
        ensures errors { IfErr result (λ e. e ≡ Fault.Memory) }
    {
        let value = self.value_at(index, ctx)?;
        let dtype = self.dtype().share();
        Ok(Scalar::made(dtype, value))
    }

    #[cycle(value)]
    fn value_at(&self, index: usize, ctx: ExecutionCtx) -> Res<Option<ScalarValue>>
        requires { index < len self.now }
        ensures cell { IfOk result (λ v. option_map cell_of v ≡ row self.now index) }
        ensures fits { IfOk result (λ v. IsTrue (fits_type (option_map cell_of v) (dtype self.now))) }
        ensures errors { IfErr result (λ e. e ≡ Fault.Memory) }
    {
        self.checks();
        let inner = self.inner.get();
        let len = inner.len;
        match &inner.layout {
            Layout::Constant(s, _) => {
                s.checks();
                Ok(s.share_value())
            }
            Layout::Masked(child, v) => {
                if v.value(index, len) {
                    child.value_at(index, ctx)
                } else {
                    Ok(None)
                }
            }
            Layout::Extension(_, storage) => storage.value_at(index, ctx),
            Layout::Primitive(values, v) => {
                if v.value(index, len) {
                    Ok(Some(ScalarValue::Int(values.value(index))))
                } else {
                    Ok(None)
                }
            }
            Layout::Bool(bits, v) => {
                if v.value(index, len) {
                    Ok(Some(ScalarValue::Bool(bits.value(index))))
                } else {
                    Ok(None)
                }
            }
        }
    }
}
