// The calls of a plan. Its two ghost facts, a storage type that is not nullable and a label over exactly it, are what lets it answer
// types without a fault.
ghost use Rattle.std.specs.Prelude.{◌≡◌, Option, IfOk, IfErr, option_map};
ghost use Rattle.colbase.specs.Arrays.{dtype, payload, rows};
ghost use Rattle.coltypes.specs.LogicalType.{nullability_of, with_nullability};
ghost use Rattle.coltypes.specs.LogicalTypeOf.{logical_type};
ghost use Rattle.rowtypes.specs.Rows.{logical_types};
ghost use Rattle.rowplan.specs.Outputs.{stated_type};
ghost use Rattle.rowplan.specs.Plans.{Plans, Reproduces, plan_of};

use super::labels::own_label;
use super::{BatchPlan, RowPolicy, is_any_nullable};
use colbase::{
    ArrayRef, DType, ExecutionCtx, ExtensionArray, Fault, Nullability, PlanDifference, Res,
};

impl BatchPlan {
    /// A plan of this storage type and declared output type. `OutputType` exactly where one of them is nullable, or the
    /// declared type is neither the storage type nor an extension over exactly it. A declared type that is the storage
    /// type counts as none.
    pub fn new(storage: DType, output: Option<DType>, policy: RowPolicy) -> Res<BatchPlan>
        ensures { Plans result (logical_type storage) (option_map logical_type output) policy }
    {
        if storage.is_nullable() {
            return Err(Fault::OutputType);
        }
        let label = own_label(&storage, &output)?;
        Ok(BatchPlan {
            storage,
            label,
            policy,
        })
    }

    /// The type of what is stored, which isn't nullable.
    pub fn storage_dtype(&self) -> &DType
        ensures { logical_type result.now ≡ (plan_of self.now).storage }
    {
        &self.storage
    }

    /// The type of the output before it is made nullable: the label, or the storage type.
    pub fn output_dtype(&self) -> DType
        ensures { logical_type result ≡ (plan_of self.now).output }
    {
        match &self.label {
            None => self.storage.share(),
            Some(label) => DType::Extension(label.share()),
        }
    }

    pub fn policy(&self) -> RowPolicy
        ensures { result ≡ (plan_of self.now).policy }
    {
        self.policy
    }

    /// The output type, made nullable where some argument's type is nullable.
    pub fn result_dtype(&self, types: &[DType], ctx: ExecutionCtx) -> Res<DType>
        ensures stated { IfOk result (λ d. logical_type d ≡ stated_type (plan_of self.now).output (logical_types types.now)) }
        ensures errors { IfErr result (λ e. e ≡ Fault.Memory) }
    {
        let output = self.output_dtype();
        if is_any_nullable(types) {
            return output.with_nullability(Nullability::Nullable, ctx);
        }
        Ok(output)
    }

    /// Whether `actual` is this plan. `Plan` tells the first of policy, storage type and output type in which they differ.
    pub fn ensure_reproduced_by(&self, actual: &BatchPlan) -> Res<()>
        ensures { Reproduces result (plan_of self.now) (plan_of actual.now) }
    {
        if self.policy != actual.policy {
            return Err(Fault::Plan(PlanDifference::Policy));
        }
        if !self.storage.same(&actual.storage) {
            return Err(Fault::Plan(PlanDifference::Storage));
        }
        if !self.output_dtype().same(&actual.output_dtype()) {
            return Err(Fault::Plan(PlanDifference::Label));
        }
        Ok(())
    }

    /// The values under the label. Their type is the storage type but for its outer nullability, which stays. No row and no
    /// stored value changes.
    pub fn relabel_output(&self, values: ArrayRef, ctx: ExecutionCtx) -> Res<ArrayRef>
        requires { dtype values ≡ with_nullability (plan_of self.now).storage (nullability_of (dtype values)) }
        ensures dtype { IfOk result (λ a. dtype a ≡ with_nullability (plan_of self.now).output (nullability_of (dtype values))) }
        ensures rows { IfOk result (λ a. rows a ≡ rows values) }
        ensures payload { IfOk result (λ a. payload a ≡ payload values) }
        ensures errors { IfErr result (λ e. e ≡ Fault.Memory) }
    {
        match &self.label {
            None => Ok(values),
            Some(label) => {
                let label = label.with_nullability(values.dtype().nullability(), ctx)?;
                ExtensionArray::try_new(label, values, ctx)
            }
        }
    }
}
