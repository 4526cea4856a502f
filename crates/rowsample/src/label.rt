// The type under which an output is shown: that of the argument, not nullable, since the engine adds nullability itself.
ghost use Rattle.std.specs.Prelude.{◌≡◌, None, Result, option_map, IfOk, IfErr};
ghost use Rattle.coltypes.specs.LogicalTypeOf.{logical_type};
ghost use Rattle.coltypes.specs.declared.fault.Fault as refusals;
ghost use Rattle.coltypes.specs.declared.fault.Fault.TheVariants.{Memory};
ghost use Rattle.rowsample.specs.Functions.{time_label};

use colbase::{DType, ExecutionCtx, Nullability, Res};
use rowplan::{RowSpec, RowVisitor};
use rowtypes::{InputElement, TimestampRow};

/// A timestamp type, not nullable. None of another type.
pub(crate) fn time_label(dtype: &DType, ctx: ExecutionCtx) -> Res<Option<DType>>
    ensures ok { IfOk result (λ label. option_map logical_type label ≡ time_label (logical_type dtype.now)) }
    ensures errors { IfErr result (λ e. e ≡ Memory) }
{
    match TimestampRow::validate(dtype) {
        Ok(()) => Ok(Some(dtype.with_nullability(Nullability::NonNullable, ctx)?)),
        Err(_) => Ok(None),
    }
}

/// The visitor, told the label where there is one.
pub(crate) fn labelled<F: RowSpec, V: RowVisitor<F>>(visitor: V, label: Option<DType>) -> V
    requires unlabelled { V.label visitor ≡ None }
    ensures options { V.options result ≡ V.options visitor }
    ensures types { V.types result ≡ V.types visitor }
    ensures label { V.label result ≡ option_map logical_type label }
    ensures ready { V.ready visitor → V.ready result }
    ensures gives { (r : Result V.VisitResult refusals.Fault) → V.gives result r → V.gives visitor r }
{
    match label {
        Some(dtype) => visitor.with_output_dtype(dtype),
        None => visitor,
    }
}
