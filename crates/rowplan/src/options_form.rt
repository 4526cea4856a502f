// The form of options as bytes, apart from the function, so that a function without one says so in a line.
ghost use Rattle.std.specs.Prelude.{◌≡◌, ◌⊎◌, true, false, Bool, ℕ, List, IfOk, IfErr, IfSome, is_some};

use colbase::{EmptyOptions, ExecutionCtx, Fault, Res};

/// Which bytes state which options, where options have a form.
pub trait OptionsForm<O> {
    ghost use Rattle.coltypes.specs.declared.fault.Fault.TheVariants.{Memory, Metadata, NotSerializable};

    ghost has_form: { Bool };

    ghost states: { List ℕ → O → Type 0 };

    /// The options as bytes. None where options have no form.
    fn serialize(options: &O, ctx: ExecutionCtx) -> Res<Option<Vec<u8>>>
        ensures none { IfOk result (λ o. is_some o ≡ has_form) }
        ensures states { IfOk result (λ o. IfSome o (λ bytes. states bytes.items options.now)) }
        ensures errors { IfErr result (λ e. e ≡ Memory) };

    /// The options that the bytes state. `NotSerializable` where options have no form, and `Metadata` where the bytes state none.
    fn deserialize(metadata: &[u8], ctx: ExecutionCtx) -> Res<O>
        ensures form { IfOk result (λ o. has_form ≡ true) }
        ensures states { IfOk result (λ o. states metadata.now o) }
        ensures errors { IfErr result (λ e. (e ≡ Memory) ⊎ (((e ≡ NotSerializable) × (has_form ≡ false)) ⊎
            ((e ≡ Metadata) × (has_form ≡ true) × ((o : O) → states metadata.now o → ⊥)))) };
}

/// Options of a row function. Their type says which form they have, so that no function says it again.
pub trait RowOptions: Sized {
    type Form: OptionsForm<Self>;
}

impl RowOptions for EmptyOptions {
    type Form = NoForm;
}

/// Options without a form as bytes.
#[derive(Clone, Copy, Debug, PartialEq, Eq)]
pub struct NoForm;

impl<O> OptionsForm<O> for NoForm {
    ghost has_form = { false };

    ghost states = { λ bytes o. ⊥ };

    fn serialize(_options: &O, _ctx: ExecutionCtx) -> Res<Option<Vec<u8>>> {
        Ok(None)
    }

    fn deserialize(_metadata: &[u8], _ctx: ExecutionCtx) -> Res<O> {
        Err(Fault::NotSerializable)
    }
}
