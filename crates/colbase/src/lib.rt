//! Columns: arrays that are shared layouts, and what is asked of every array. The types, scalars and buffers that they are made
//! of stand in `coltypes` and are named here too.
#![tactic(auto)]

mod args;
mod array;
mod native;
mod view;
mod vtable;

pub use args::ExecutionArgs;
pub use array::{ArrayRef, BoolArray, ConstantArray, ExtensionArray, MaskedArray, PrimitiveArray};
pub use coltypes::{
    BinaryKind, BinaryView, Buffer, DType, EmptyOptions, ExecutionCtx, ExtDType, Fault,
    LayoutFault, Mask, Name, Nullability, PType, PlanDifference, PrimitiveValues, Res, RowError,
    RowFault, Scalar, ScalarValue, TimeUnit, Validity, ValidityKind,
};
pub use native::NativeInt;
pub use view::ArrayView;
pub use vtable::{Bool, Constant, Extension, Masked, Primitive, VTable};
