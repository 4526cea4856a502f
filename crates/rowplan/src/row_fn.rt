// The calls of a row function, whose contracts tie it to its law in `RowSpec`.
ghost use Rattle.std.specs.Prelude.{◌≡◌, ◌⊎◌, true, false, length, Option, None, IfOk, IfErr, IfSome, Err, is_some};

use crate::options_form::{OptionsForm, RowOptions};
use crate::row_spec::RowSpec;
use crate::visitor::RowVisitor;
use colbase::{DType, ExecutionCtx, Fault, Res};

/// A row function: its name, its options as bytes, and the visit that it selects.
pub trait RowFn: RowSpec + Sized {
    ghost use Rattle.coltypes.specs.declared.fault.Fault.TheVariants.{Memory, Metadata, NotSerializable, Refused};
    ghost use Rattle.rowtypes.specs.Rows.{logical_types};

    fn id(&self) -> &'static str;

    /// The options as bytes, by their form. None for a function whose options have no form.
    fn serialize(&self, options: &Self::Options, ctx: ExecutionCtx) -> Res<Option<Vec<u8>>>
        ensures none { IfOk result (λ o. is_some o ≡ Self.Options.Form.has_form) }
        ensures states { IfOk result (λ o. IfSome o (λ bytes. Self.Options.Form.states bytes.items options.now)) }
        ensures errors { IfErr result (λ e. e ≡ Memory) }
    {
        <<Self::Options as RowOptions>::Form as OptionsForm<Self::Options>>::serialize(options, ctx)
    }

    /// The options that the bytes state. `NotSerializable` where options have no form, and `Metadata` where the bytes
    /// state none.
    fn deserialize(&self, metadata: &[u8], ctx: ExecutionCtx) -> Res<Self::Options>
        ensures form { IfOk result (λ o. Self.Options.Form.has_form ≡ true) }
        ensures states { IfOk result (λ o. Self.Options.Form.states metadata.now o) }
        ensures errors { IfErr result (λ e. (e ≡ Memory) ⊎ (((e ≡ NotSerializable) × (Self.Options.Form.has_form ≡ false)) ⊎
            ((e ≡ Metadata) × (Self.Options.Form.has_form ≡ true) × ((o : Self.Options) → Self.Options.Form.states metadata.now o → ⊥)))) }
    {
        <<Self::Options as RowOptions>::Form as OptionsForm<Self::Options>>::deserialize(
            metadata, ctx,
        )
    }

    /// Hands the visitor the visit for these options and types, and passes its answer on. `Refused` exactly where the
    /// function doesn't take them. The visitor was told no output type yet, so that a function which declares none has none.
    fn dispatch<V: RowVisitor<Self>>(
        &self,
        options: &Self::Options,
        types: &[DType],
        visitor: V,
        ctx: ExecutionCtx,
    ) -> Res<V::VisitResult>
        requires arity { length types.now ≡ (Self.law options.now (logical_types types.now)).arity }
        requires options { V.options visitor ≡ options.now }
        requires types { V.types visitor ≡ logical_types types.now }
        requires label { V.label visitor ≡ None }
        requires ready { V.ready visitor }
        ensures refused { (Self.law options.now (logical_types types.now)).accepts ≡ false → result ≡ Err Refused }
        ensures gives { (Self.law options.now (logical_types types.now)).accepts ≡ true → (result ≡ Err Memory) ⊎ V.gives visitor result };
}
