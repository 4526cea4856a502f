// Evidence of failures as a value that is joined row by row, so that a loop has no early exit.
ghost use Rattle.std.specs.Prelude.{◌≡◌, ◌||◌, ◌<◌, ⊤, false, bit_or};
ghost use Rattle.bitlane.specs.Evidence.{JoinLaws};

use std::ops::BitOrAssign;

/// Evidence of failures, which `|=` joins. A loop joins the evidence of all rows, and it is judged once at the end.
pub trait FailureEvidence: Copy + Default + BitOrAssign {
    // The values that the laws of joining speak of.
    ghost in_range: { Self → Type 0 };

    ghost join: { Self → Self → Self };

    ghost neutral: { Self };

    ghost laws: { JoinLaws Self in_range join neutral };

    // The default is the neutral value, and `|=` joins.
    ghost default_is_neutral: { (x : Self) → Self.is_default x → x ≡ neutral };

    ghost can_join: { (x y : Self) → Self.can_bitor_assign x y };

    ghost or_joins: { (x y z : Self) → Self.bitor_assign_gives x y z → z ≡ join x y };
}

/// Whether a row failed.
impl FailureEvidence for bool {
    ghost use Rattle.bitlane.specs.EvidenceLaws.{bool_laws};

    ghost in_range = { λ _. ⊤ };

    ghost join = { ◌||◌ };

    ghost neutral = { false };

    ghost laws = { bool_laws };

    ghost default_is_neutral = { λ x h. h };

    ghost can_join = { λ x y. tt };

    ghost or_joins = { λ x y z h. h };
}

/// One flag for each bit.
impl FailureEvidence for u8 {
    ghost use Rattle.bitlane.specs.EvidenceLaws.{flag_laws};

    ghost in_range = { λ x. x < 256 };

    ghost join = { bit_or };

    ghost neutral = { 0 };

    ghost laws = { flag_laws };

    ghost default_is_neutral = { λ x h. h };

    ghost can_join = { λ x y. tt };

    ghost or_joins = { λ x y z h. h };
}

/// The evidence of a function that never fails.
#[derive(Debug, Drop, Clone, Copy, PartialEq, Eq, Default)]
pub struct NoFailure;

impl BitOrAssign for NoFailure {
    fn bitor_assign(&mut self, _rhs: NoFailure) {}
}

impl FailureEvidence for NoFailure {
    ghost use Rattle.bitlane.specs.declared.failure_evidence.NoFailure.{NoFailure};
    ghost use Rattle.bitlane.specs.NoFailureLaws.{no_failure_laws, one_value};

    ghost in_range = { λ _. ⊤ };

    ghost join = { λ a b. a };

    ghost neutral = { record {} };

    ghost laws = { no_failure_laws };

    ghost default_is_neutral = { λ x h. one_value x _ };

    ghost can_join = { λ x y. tt };

    ghost or_joins = { λ x y z h. one_value z x };
}
