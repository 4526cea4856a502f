// The product with a power of 10. A scale past 18 isn't read, so that only rows without a null run; the power of a constant scale is made once.
ghost use Rattle.std.specs.Prelude.{◌≡◌, ◌⊎◌, ◌≤◌, ◌^◌, ◌*ℤ◌, pos, false, Option, MatchOption, option_map, Ok};
ghost use Rattle.coltypes.specs.Cell.{number};
ghost use Rattle.rowplan.specs.Outcomes.{done};
ghost use Rattle.rowsample.specs.Functions.{wrapped};
ghost use Rattle.rowsample.specs.Powers.{power_of, HasBounds};

use crate::evidence::judge;
use rowplan::{DType, EmptyOptions, ExecutionCtx, Res, RowFn, RowSpec, RowVisitor};
use rowtypes::DecimalScale;
use std::alloc::AllocError;

/// An `i64` times 10 to the power of a scale. It fails with the error 1 where a product is no `i64`. It has no options with a form.
#[derive(Clone, Copy, Debug, PartialEq, Eq)]
pub struct Rescale;

const NAMES: &'static [&'static str] = &["value", "scale"];

impl RowSpec for Rescale {
    ghost use Rattle.rowsample.specs.Functions.{exact_is_lawful, false, rescales, texts_of};
    ghost use Rattle.rowsample.specs.declared.rescale.TheConstants.{NAMES as names};

    type Options = EmptyOptions;

    type Evidence = bool;

    const ARG_NAMES: rowplan::Texts = rowplan::Texts(NAMES);

    ghost ARG_NAMES = { texts_of names };

    const INFALLIBLE: bool = false;

    ghost INFALLIBLE = { false };

    ghost law = { λ o t. rescales };

    ghost lawful = { λ o t. exact_is_lawful _ _ _ _ };
}

impl RowFn for Rescale {
    fn id(&self) -> &'static str {
        "rescale"
    }

    fn dispatch<V: RowVisitor<Rescale>>(
        &self,
        _options: &EmptyOptions,
        _types: &[DType],
        visitor: V,
        _ctx: ExecutionCtx,
    ) -> Res<V::VisitResult> {
        visitor.visit_prepared_deferred::<(i64, DecimalScale), i64, Option<Power>, _, _, _>(
            |known: (Option<i64>, Option<u8>)| -> Result<Option<Power>, AllocError>
                requires { MatchOption known.1 (Unit {0}) (λ n. n ≤ 18) }
                ensures { result ≡ Ok (option_map power_of known.1) }
            { Ok(known_power(known.1)) },
            |power: &Option<Power>, row: (i64, u8)| -> (i64, bool)
                requires within { row.1 ≤ 18 }
                requires same { MatchOption power.now (Unit {0}) (λ p. p ≡ power_of row.1) }
                ensures { wrapped (row.0 *ℤ pos (10 ^ row.1)) ≡ done (number result.0) result.1 }
            { rescaled(*power, row.0, row.1) },
            judge,
        )
    }
}

/// A power of 10, with the least and the greatest number whose product with it is an `i64`.
#[derive(Clone, Copy)]
struct Power {
    factor: i64,
    least: i64,
    most: i64,
}

const POWERS_OF_TEN: [i64; 19] = [
    1,
    10,
    100,
    1_000,
    10_000,
    100_000,
    1_000_000,
    10_000_000,
    100_000_000,
    1_000_000_000,
    10_000_000_000,
    100_000_000_000,
    1_000_000_000_000,
    10_000_000_000_000,
    100_000_000_000_000,
    1_000_000_000_000_000,
    10_000_000_000_000_000,
    100_000_000_000_000_000,
    1_000_000_000_000_000_000,
];

/// 10 to the power of a scale.
fn power_of_ten(scale: u8) -> i64
    requires { scale ≤ 18 }
    ensures { result ≡ pos (10 ^ scale) }
{
    POWERS_OF_TEN[scale as usize]
}

/// 10 to the power of a scale, with its bounds, which take two divisions.
fn bounded_power(scale: u8) -> Power
    requires { scale ≤ 18 }
    ensures { result ≡ power_of scale }
{
    let factor = power_of_ten(scale);
    Power {
        factor,
        least: i64::MIN / factor,
        most: i64::MAX / factor,
    }
}

/// The power of a scale that is one value for all rows.
fn known_power(scale: Option<u8>) -> Option<Power>
    requires { MatchOption scale (Unit {0}) (λ n. n ≤ 18) }
    ensures { result ≡ option_map power_of scale }
{
    match scale {
        Some(scale) => Some(bounded_power(scale)),
        None => None,
    }
}

/// A number times the power that is known, and else times that of the row's scale, modulo 2^64, and whether the product is no
/// `i64`.
#[tactic(auto, using(crate::proofs::ExactNumbers::checked_product))]
fn rescaled(power: Option<Power>, value: i64, scale: u8) -> (i64, bool)
    requires within { scale ≤ 18 }
    requires same { MatchOption power (Unit {0}) (λ p. p ≡ power_of scale) }
    ensures { wrapped (value *ℤ pos (10 ^ scale)) ≡ done (number result.0) result.1 }
{
    match power {
        Some(power) => scaled(value, power),
        None => value.overflowing_mul(power_of_ten(scale)),
    }
}

/// A number times a power of 10, modulo 2^64, and whether the product is no `i64`. The two comparisons stand in for a product of
/// 128 bits, and `|` for a branch, so that a loop over many numbers can be a vector loop.
fn scaled(value: i64, power: Power) -> (i64, bool)
    requires { HasBounds power }
    ensures { wrapped (value *ℤ power.factor) ≡ done (number result.0) result.1 }
{
    (
        value.wrapping_mul(power.factor),
        (value < power.least) | (value > power.most),
    )
}
