// An array whose type is made nullable or not.
ghost use Rattle.std.specs.Prelude.{◌≡◌, IfOk, IfErr, length};
ghost use Rattle.colbase.specs.Arrays.{Sound, bool, constant, dtype, len, masked, primitive};
ghost use Rattle.colbase.specs.Casts.{Casts, NoNull, refused_null};
ghost use Rattle.colbase.specs.Hides.{Retypes};
ghost use Rattle.coltypes.specs.LogicalType.{with_nullability};
ghost use Rattle.coltypes.specs.LogicalTypeOf.{logical_type};
ghost use Rattle.coltypes.specs.Scalars.{scalar_type};
ghost use Rattle.coltypes.specs.Valid.{Covers};
ghost use Rattle.coltypes.specs.Values.{count};

use super::mask::extension_over;
use super::masked::masked_dtype;
use super::{ArrayRef, Layout, make};
use bitlane::BitBuffer;
use coltypes::{DType, ExecutionCtx, Fault, Nullability, PrimitiveValues, Res, Scalar, Validity};

impl ArrayRef {
    /// The same rows and payload in the type made nullable or not, at its outer level alone. Copies no value. Looks at
    /// the rows only where the new type is not nullable and the validity may hold nulls.
    pub fn cast(&self, to: Nullability, ctx: ExecutionCtx) -> Res<ArrayRef>
        ensures { Casts result self.now to }
    {
        // `Null`, and an extension over it, stay nullable.
        let to = self.dtype().nullability_with(to);
        if let Some(row) = self.refused_null(to) {
            return Err(Fault::Cast { row });
        }
        self.retype(to, ctx)
    }

    // The lowest null row, where none may be.
    fn refused_null(&self, to: Nullability) -> Option<usize>
        ensures { result ≡ refused_null self.now to }
    {
        match to {
            Nullability::NonNullable => self.lowest_null(),
            Nullability::Nullable => None,
        }
    }

    #[cycle(retype)]
    fn retype(&self, to: Nullability, ctx: ExecutionCtx) -> Res<ArrayRef>
        requires { to ≡ Nullability.NonNullable → NoNull self.now }
        ensures retyped { IfOk result (Retypes self.now (with_nullability (dtype self.now) to)) }
        ensures errors { IfErr result (λ e. e ≡ Fault.Memory) }
    {
        self.checks();
        if self.dtype().has_nullability(to) {
            return Ok(self.share());
        }
        match &self.inner.get().layout {
            Layout::Constant(s, n) => retype_constant(s, *n, to, ctx),
            Layout::Masked(child, v) => match to {
                // No row is null, so the mask says nothing.
                Nullability::NonNullable => child.retype(to, ctx),
                Nullability::Nullable => retype_masked(child, v, ctx),
            },
            Layout::Extension(e, storage) => {
                let storage = storage.retype(to, ctx)?;
                extension_over(e, to, storage, ctx)
            }
            Layout::Primitive(values, v) => retype_primitive(values, v, to, ctx),
            Layout::Bool(bits, v) => retype_bool(bits, v, to, ctx),
        }
    }
}

// A constant under another nullability. A null in no row at all gives way to a value of the type.
fn retype_constant(s: &Scalar, rows: usize, to: Nullability, ctx: ExecutionCtx) -> Res<ArrayRef>
    requires { to ≡ Nullability.NonNullable → NoNull (constant s.now rows) }
    ensures retyped { IfOk result (Retypes (constant s.now rows) (with_nullability (scalar_type s.now) to)) }
    ensures errors { IfErr result (λ e. e ≡ Fault.Memory) }
{
    s.checks();
    let dtype = s.dtype().with_nullability(to, ctx)?;
    if rows == 0 && s.is_null() {
        return empty_array(dtype, ctx);
    }
    let scalar = Scalar::made(dtype, s.share_value());
    let dtype = scalar.dtype().share();
    make(dtype, rows, Layout::Constant(scalar, rows), ctx)
}

// An array of no rows.
fn empty_array(stated: DType, ctx: ExecutionCtx) -> Res<ArrayRef>
    ensures counted { IfOk result (λ a. len a ≡ 0) }
    ensures typed { IfOk result (λ a. dtype a ≡ logical_type stated) }
    ensures errors { IfErr result (λ e. e ≡ Fault.Memory) }
{
    let scalar = Scalar::any(stated, ctx)?;
    let dtype = scalar.dtype().share();
    make(dtype, 0, Layout::Constant(scalar, 0), ctx)
}

// A masked array whose type is made nullable.
fn retype_masked(child: &ArrayRef, v: &Validity, ctx: ExecutionCtx) -> Res<ArrayRef>
    requires { Sound (masked child.now v.now) }
    ensures retyped { IfOk result (Retypes (masked child.now v.now) (with_nullability (dtype (masked child.now v.now)) Nullability.Nullable)) }
    ensures errors { IfErr result (λ e. e ≡ Fault.Memory) }
{
    let len = child.len();
    let validity = v.with_nullability(Nullability::Nullable);
    let dtype = masked_dtype(child.dtype(), &validity, ctx)?;
    make(dtype, len, Layout::Masked(child.share(), validity), ctx)
}

// Numbers under another nullability.
fn retype_primitive(
    values: &PrimitiveValues,
    v: &Validity,
    to: Nullability,
    ctx: ExecutionCtx,
) -> Res<ArrayRef>
    requires covers { Covers v.now (count values.now) }
    requires nulls { to ≡ Nullability.NonNullable → NoNull (primitive values.now v.now) }
    ensures retyped { IfOk result (Retypes (primitive values.now v.now) (with_nullability (dtype (primitive values.now v.now)) to)) }
    ensures errors { IfErr result (λ e. e ≡ Fault.Memory) }
{
    let len = values.len();
    let validity = v.with_nullability(to);
    let dtype = DType::Primitive(values.ptype(), validity.nullability());
    make(dtype, len, Layout::Primitive(values.share(), validity), ctx)
}

// Truth values under another nullability.
fn retype_bool(bits: &BitBuffer, v: &Validity, to: Nullability, ctx: ExecutionCtx) -> Res<ArrayRef>
    requires covers { Covers v.now (length bits.now) }
    requires nulls { to ≡ Nullability.NonNullable → NoNull (bool bits.now v.now) }
    ensures retyped { IfOk result (Retypes (bool bits.now v.now) (with_nullability (dtype (bool bits.now v.now)) to)) }
    ensures errors { IfErr result (λ e. e ≡ Fault.Memory) }
{
    let len = bits.len();
    let validity = v.with_nullability(to);
    let dtype = DType::Bool(validity.nullability());
    make(dtype, len, Layout::Bool(bits.share(), validity), ctx)
}
