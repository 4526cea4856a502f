// The decoded arguments of a run: with their nulls where the domain's rows stand among others.
ghost use Rattle.std.specs.Prelude.{◌≡◌, ℕ, true, IfOk, IfErr, IfSome, is_some, length};
ghost use Rattle.rowtypes.specs.Rows.{AcceptsFrom, DecodeFails, HasRow, ReadsAllFrom, ReadsFrom, ReadsKnown};
ghost use Rattle.rowtypes.specs.Rows.{batch_values, decoded_lengths, logical_types, shown_from};
ghost use Rattle.rowplan.specs.Visits.{Selects};
ghost use Rattle.rowloops.specs.Domain.{domain_of};
ghost use Rattle.rowexec.specs.RowRuns.{DecodedOver, IsReady, ReadsBy, decodes};

use crate::execution_args::BorrowedRowFnArgs;
use colbase::{ArrayRef, ExecutionCtx, Res};
use rowloops::RowDomain;
use rowplan::RowSpec;
use rowtypes::ElementTuple;

/// The decoded columns. None where the domain's rows stand among others and some argument can't be decoded with its nulls.
pub(super) fn decode<F: RowSpec, Args: ElementTuple>(
    args: &BorrowedRowFnArgs<F>,
) -> Res<Option<Args::Columns>>
    requires ready { IsReady (F.law args.now.options.now (logical_types args.now.types.now)) (logical_types args.now.types.now)
        args.now.columns.now (domain_of args.now.domain) }
    requires arguments { Selects (F.law args.now.options.now (logical_types args.now.types.now)) Args.ARITY Args.elements
        (logical_types args.now.types.now) }
    requires reads { ReadsBy Args.DENSE_SAFE args.now.columns.now (domain_of args.now.domain) }
    ensures told { IfOk result (λ o. is_some o ≡ decodes (F.law args.now.options.now (logical_types args.now.types.now))
        args.now.columns.now (domain_of args.now.domain)) }
    ensures decoded { IfOk result (λ o. IfSome o (λ c. DecodedOver (F.law args.now.options.now (logical_types args.now.types.now))
        Args.elements.reads args.now.columns.now (domain_of args.now.domain) (Args.lengths c) (Args.shows c) (Args.known_of c))) }
    ensures errors { IfErr result (DecodeFails (F.law args.now.options.now (logical_types args.now.types.now)).arguments.reads 0
        args.now.columns.now) }
{
    match args.domain {
        RowDomain::All(_) => decode_whole::<Args>(args.columns, args.ctx),
        RowDomain::Marked(_) => Args::decode_null_tolerant(args.columns, args.ctx),
        RowDomain::Filtered(_) => decode_whole::<Args>(args.columns, args.ctx),
    }
}

// All rows of the columns, in the form of columns that may be declined.
fn decode_whole<Args: ElementTuple>(
    columns: &[ArrayRef],
    ctx: ExecutionCtx,
) -> Res<Option<Args::Columns>>
    requires arity { length columns.now ≡ Args.ARITY }
    requires types { AcceptsFrom Args.elements.accepts 0 columns.now }
    ensures told { IfOk result (λ o. is_some o ≡ true) }
    ensures lengths { IfOk result (λ o. IfSome o (λ c. Args.lengths c ≡ decoded_lengths columns.now)) }
    ensures same { IfOk result (λ o. IfSome o (λ c. (i : ℕ) → HasRow (Args.lengths c) i
        → Args.shows c i ≡ shown_from Args.elements.shown 0 columns.now i)) }
    ensures known { IfOk result (λ o. IfSome o (λ c. Args.known_of c ≡ batch_values columns.now)) }
    ensures read { IfOk result (λ o. IfSome o (λ c. ReadsAllFrom Args.elements.reads 0 columns.now)) }
    ensures dense { IfOk result (λ o. IfSome o (λ c. Args.DENSE_SAFE ≡ true → (i : ℕ) → HasRow (Args.lengths c) i
        → ReadsFrom Args.elements.reads 0 (Args.shows c i))) }
    ensures errors { IfErr result (DecodeFails Args.elements.reads 0 columns.now) }
{
    match Args::decode(columns, ctx) {
        Ok(decoded) => Ok(Some(decoded)),
        Err(fault) => Err(fault),
    }
}

/// The arguments that are one value, each of which is read.
pub(super) fn known_values<Args: ElementTuple>(decoded: &Args::Columns) -> Args::ConstElems
    requires { ReadsKnown Args.elements.reads 0 (Args.known_of decoded.now) }
    ensures known { Args.known result ≡ Args.known_of decoded.now }
    ensures read { ReadsKnown Args.elements.reads 0 (Args.known result) }
{
    Args::const_values(decoded)
}
