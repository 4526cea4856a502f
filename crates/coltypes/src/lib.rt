//! What columns are made of: types, scalars, validity, masks and buffers, and why a call gives no value.
#![tactic(auto)]

mod binary;
mod buffer;
mod ctx;
mod dtype;
mod fault;
mod filter;
mod mask;
mod name;
mod options;
mod scalar;
mod validity;
mod values;

pub use binary::{BinaryKind, BinaryView};
pub use buffer::Buffer;
pub use ctx::ExecutionCtx;
pub use dtype::{DType, ExtDType, Nullability, PType, TimeUnit};
pub use fault::{Fault, LayoutFault, PlanDifference, Res, RowError, RowFault};
pub use filter::filter_bits;
pub use mask::Mask;
pub use name::Name;
pub use options::EmptyOptions;
pub use scalar::{Scalar, ScalarValue};
pub use validity::{Validity, ValidityKind};
pub use values::PrimitiveValues;
