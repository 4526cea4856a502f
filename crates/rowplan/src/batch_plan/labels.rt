// The two tests that a plan makes of types: whether a declared type labels the storage, and whether an argument is nullable.
ghost use Rattle.std.specs.Prelude.{◌≡◌, true, IfOk, IfErr, option_map};
ghost use Rattle.coltypes.specs.Equal.{same_type};
ghost use Rattle.coltypes.specs.LogicalTypeOf.{logical_type};
ghost use Rattle.rowtypes.specs.Rows.{logical_types};
ghost use Rattle.rowplan.specs.Labels.{label_storage, shown_as};
ghost use Rattle.rowplan.specs.Outputs.{LabelFits, any_nullable, output_type};

use colbase::{DType, ExtDType, Fault, Res};

// The label that a declared type is: none where it is the storage type, and else an extension over exactly it.
pub(super) fn own_label(storage: &DType, declared: &Option<DType>) -> Res<Option<ExtDType>>
    ensures over { IfOk result (λ l. same_type (label_storage l (logical_type storage.now)) (logical_type storage.now) ≡ true) }
    ensures shown { IfOk result (λ l. shown_as l (logical_type storage.now) ≡ output_type (logical_type storage.now)
        (option_map logical_type declared.now)) }
    ensures fits { IfOk result (λ l. LabelFits (logical_type storage.now) (option_map logical_type declared.now)) }
    ensures errors { IfErr result (λ e. (e ≡ Fault.OutputType) ×
        (LabelFits (logical_type storage.now) (option_map logical_type declared.now) → ⊥)) }
{
    let Some(declared) = declared else {
        return Ok(None);
    };
    if declared.is_nullable() {
        return Err(Fault::OutputType);
    }
    if declared.same(storage) {
        return Ok(None);
    }
    match declared {
        DType::Extension(label) => {
            if label.storage.get().same(storage) {
                return Ok(Some(label.share()));
            }
            Err(Fault::OutputType)
        }
        _ => Err(Fault::OutputType),
    }
}

/// Whether some type is nullable.
pub fn is_any_nullable(types: &[DType]) -> bool
    ensures { result ≡ any_nullable (logical_types types.now) }
{
    for dtype in types {
        if dtype.is_nullable() {
            return true;
        }
    }
    false
}
