// A function whose declared output type is no extension over its storage type, so that each plan of it is refused.
ghost use Rattle.std.specs.Prelude.{◌≡◌, ◌⊎◌, true};

use colbase::{ExtDType, Nullability, PType};
use rowplan::{DType, EmptyOptions, ExecutionCtx, NoFailure, Res, RowFn, RowSpec, RowVisitor};

/// One number, which is the answer. The output type that is declared is an extension over numbers of 32 bits.
pub struct Labelled;

const NAMES: &'static [&'static str] = &["value"];

impl RowSpec for Labelled {
    ghost use Rattle.std.specs.Prelude.{Some};
    ghost use Rattle.rowplan.specs.Constructors.{texts_of, total, total_is_lawful, true};
    ghost use Rattle.rowplan.specs.Law.{labelled, labelled_is_lawful};
    ghost use Rattle.rowplan.specs.declared.batch_plan.RowPolicy.TheVariants.{Dense};
    ghost use Rattle.rowsample.specs.Functions.{i64_stored};
    ghost use Rattle.rowcases.specs.Cases.{first_cell, narrow_label};
    ghost use Rattle.rowcases.specs.declared.labelled.TheConstants.{NAMES as names};

    type Options = EmptyOptions;

    type Evidence = NoFailure;

    const ARG_NAMES: rowplan::Texts = rowplan::Texts(NAMES);

    ghost ARG_NAMES = { texts_of names };

    const INFALLIBLE: bool = true;

    ghost INFALLIBLE = { true };

    ghost law = { λ o t. labelled (Some narrow_label) (total 1 ⟦<(i64,) as rowtypes::ElementTuple>⟧.elements Dense i64_stored first_cell) };

    ghost lawful = { λ o t. labelled_is_lawful (Some narrow_label) (total_is_lawful _ _ _ _ _ _) };
}

impl RowFn for Labelled {
    fn id(&self) -> &'static str {
        "labelled"
    }

    fn dispatch<V: RowVisitor<Labelled>>(
        &self,
        _options: &EmptyOptions,
        _types: &[DType],
        visitor: V,
        ctx: ExecutionCtx,
    ) -> Res<V::VisitResult> {
        let storage = DType::Primitive(PType::I32, Nullability::NonNullable);
        let label = ExtDType::try_new("x", None, None, storage, ctx)?;
        visitor
            .with_output_dtype(DType::Extension(label))
            .visit::<(i64,), i64, _>(|row: (i64,)| row.0)
    }
}
