// Rows made null.
ghost use Rattle.std.specs.Prelude.{◌≡◌, length, IfOk, IfErr, IsSome, ℕ};
ghost use Rattle.bitlane.specs.Bits.{tabulate};
ghost use Rattle.colbase.specs.ArrayOf.{array_of};
ghost use Rattle.colbase.specs.Arrays.{Sound, bool, constant, dtype, len, masked, payload, primitive, row, rows};
ghost use Rattle.colbase.specs.Hides.{Hides, Retypes, shown_row};
ghost use Rattle.coltypes.specs.LogicalType.{with_nullability};
ghost use Rattle.coltypes.specs.LogicalTypeOf.{extension_type, logical_type};
ghost use Rattle.coltypes.specs.Valid.{Covers, validity_and};
ghost use Rattle.coltypes.specs.Values.{count};

use super::masked::masked_dtype;
use super::{ArrayRef, Layout, make};
use bitlane::BitBuffer;
use coltypes::{DType, ExecutionCtx, ExtDType, Fault, Nullability, PrimitiveValues, Res, Validity};

impl ArrayRef {
    /// The array with its row null too wherever `valid` is false. The payload stays whole, and the type is made nullable.
    /// Copies no value; a validity array is joined in one pass.
    pub fn mask(&self, valid: &BitBuffer, ctx: ExecutionCtx) -> Res<ArrayRef>
        requires { length valid.now ≡ len self.now }
        ensures rows { IfOk result (λ a. rows a ≡ tabulate (shown_row valid.now (row self.now)) (len self.now)) }
        ensures payload { IfOk result (λ a. payload a ≡ payload self.now) }
        ensures dtype { IfOk result (λ a. dtype a ≡ with_nullability (dtype self.now) Nullability.Nullable) }
        ensures errors { IfErr result (λ e. e ≡ Fault.Memory) }
    {
        self.hide(valid, ctx)
    }

    #[cycle(hide)]
    fn hide(&self, valid: &BitBuffer, ctx: ExecutionCtx) -> Res<ArrayRef>
        requires { length valid.now ≡ len self.now }
        ensures hidden { IfOk result (Hides self.now valid.now) }
        ensures errors { IfErr result (λ e. e ≡ Fault.Memory) }
    {
        self.checks();
        match &self.inner.get().layout {
            Layout::Constant(s, _) => {
                s.checks();
                if s.is_null() {
                    return Ok(self.share());
                }
                hide_whole(self, valid, ctx)
            }
            Layout::Masked(child, v) => hide_masked(child, v, valid, ctx),
            Layout::Extension(e, storage) => {
                let storage = storage.hide(valid, ctx)?;
                extension_over(e, Nullability::Nullable, storage, ctx)
            }
            Layout::Primitive(values, v) => hide_primitive(values, v, valid, ctx),
            Layout::Bool(bits, v) => hide_bool(bits, v, valid, ctx),
        }
    }
}

// An array without nulls under a mask.
fn hide_whole(child: &ArrayRef, valid: &BitBuffer, ctx: ExecutionCtx) -> Res<ArrayRef>
    requires counted { length valid.now ≡ len child.now }
    requires whole { (i : ℕ) → IsSome (row child.now i) }
    ensures made { IfOk result (λ a. a ≡ masked child.now (Validity.Array valid.now)) }
    ensures errors { IfErr result (λ e. e ≡ Fault.Memory) }
{
    child.checks();
    let validity = Validity::Array(valid.share());
    let dtype = masked_dtype(child.dtype(), &validity, ctx)?;
    let len = child.len();
    make(dtype, len, Layout::Masked(child.share(), validity), ctx)
}

// A masked array under one more mask.
fn hide_masked(
    child: &ArrayRef,
    v: &Validity,
    valid: &BitBuffer,
    ctx: ExecutionCtx,
) -> Res<ArrayRef>
    requires sound { Sound (masked child.now v.now) }
    requires counted { length valid.now ≡ len child.now }
    ensures made { IfOk result (λ a. a ≡ masked child.now (validity_and v.now (Validity.Array valid.now))) }
    ensures errors { IfErr result (λ e. e ≡ Fault.Memory) }
{
    let len = child.len();
    let validity = hide_validity(v, valid, len, ctx)?;
    let dtype = masked_dtype(child.dtype(), &validity, ctx)?;
    make(dtype, len, Layout::Masked(child.share(), validity), ctx)
}

// Numbers under one more mask.
fn hide_primitive(
    values: &PrimitiveValues,
    v: &Validity,
    valid: &BitBuffer,
    ctx: ExecutionCtx,
) -> Res<ArrayRef>
    requires covers { Covers v.now (count values.now) }
    requires counted { length valid.now ≡ count values.now }
    ensures made { IfOk result (λ a. a ≡ primitive values.now (validity_and v.now (Validity.Array valid.now))) }
    ensures errors { IfErr result (λ e. e ≡ Fault.Memory) }
{
    let len = values.len();
    let validity = hide_validity(v, valid, len, ctx)?;
    let dtype = DType::Primitive(values.ptype(), validity.nullability());
    make(dtype, len, Layout::Primitive(values.share(), validity), ctx)
}

// Truth values under one more mask.
fn hide_bool(bits: &BitBuffer, v: &Validity, valid: &BitBuffer, ctx: ExecutionCtx) -> Res<ArrayRef>
    requires covers { Covers v.now (length bits.now) }
    requires counted { length valid.now ≡ length bits.now }
    ensures made { IfOk result (λ a. a ≡ bool bits.now (validity_and v.now (Validity.Array valid.now))) }
    ensures errors { IfErr result (λ e. e ≡ Fault.Memory) }
{
    let len = bits.len();
    let validity = hide_validity(v, valid, len, ctx)?;
    let dtype = DType::Bool(validity.nullability());
    make(dtype, len, Layout::Bool(bits.share(), validity), ctx)
}

// The validity that is null too where a truth value is false.
fn hide_validity(v: &Validity, valid: &BitBuffer, len: usize, ctx: ExecutionCtx) -> Res<Validity>
    requires covers { Covers v.now len }
    requires counted { length valid.now ≡ len }
    ensures joined { IfOk result (λ w. w ≡ validity_and v.now (Validity.Array valid.now)) }
    ensures covers { IfOk result (λ w. Covers w len) }
    ensures errors { IfErr result (λ e. e ≡ Fault.Memory) }
{
    v.and(&Validity::Array(valid.share()), ctx)
}

/// An extension over a storage of this nullability.
pub(super) fn extension_over(
    ext: &ExtDType,
    to: Nullability,
    storage: ArrayRef,
    ctx: ExecutionCtx,
) -> Res<ArrayRef>
    requires { dtype storage ≡ with_nullability (logical_type ext.now.storage) to }
    ensures made { IfOk result (Retypes storage (with_nullability (extension_type ext.now) to)) }
    ensures errors { IfErr result (λ e. e ≡ Fault.Memory) }
{
    storage.checks();
    let len = storage.len();
    let ext = ext.with_nullability(to, ctx)?;
    let dtype = DType::Extension(ext.share());
    make(dtype, len, Layout::Extension(ext, storage), ctx)
}
