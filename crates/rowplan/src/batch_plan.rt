//! The plan of a batch: what is settled of it from the argument types alone, before a column is looked at.
ghost use Rattle.std.specs.Prelude.{◌≡◌, true};
ghost use Rattle.coltypes.specs.Equal.{same_type};
ghost use Rattle.coltypes.specs.LogicalType.{nullability_of};
ghost use Rattle.coltypes.specs.LogicalTypeOf.{logical_type};
ghost use Rattle.coltypes.specs.declared.dtype.Nullability.TheVariants.{NonNullable};
ghost use Rattle.rowplan.specs.Labels.{label_storage};

use colbase::{DType, ExtDType};

mod calls;
mod labels;

pub use labels::is_any_nullable;

/// Which rows a visit may run over.
#[derive(Clone, Copy, Debug, PartialEq, Eq)]
pub enum RowPolicy {
    /// All rows, on what the arguments show under nulls too.
    Dense,
    /// As `Dense`; where the joined evidence isn't accepted, the rows without a null are run again alone.
    DenseWithRetry,
    /// The rows without a null alone.
    ValidOnly,
}

/// The plan of a batch: which type is stored, under which type it is shown, and which rows are run.
#[derive(Drop)]
pub struct BatchPlan {
    storage: DType,
    label: Option<ExtDType>,
    policy: RowPolicy,
    ghost not_nullable: { nullability_of (logical_type storage) ≡ NonNullable },
    ghost over: { same_type (label_storage label (logical_type storage)) (logical_type storage) ≡ true },
}
