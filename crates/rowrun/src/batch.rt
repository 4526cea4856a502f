// A call and its arguments. The functions are told apart by an enum, so that reading a batch needs no type parameter.
use colbase::ExecutionArgs;
use rowsample::TruncateOptions;

/// The functions that a batch may call.
#[derive(Clone, Copy, Debug, PartialEq, Eq)]
pub(crate) enum Call {
    WrappingAdd,
    CheckedAdd,
    Rescale,
    Truncate(TruncateOptions),
}

/// A call and its arguments.
#[derive(Drop)]
pub(crate) struct Batch {
    pub(crate) call: Call,
    pub(crate) args: ExecutionArgs,
}
