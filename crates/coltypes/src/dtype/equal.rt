// Equality of types, nullability included.
use super::{DType, ExtDType};

impl PartialEq for DType {
    ghost use Rattle.std.specs.Cmp.{on_equiv, partial_equiv_from_equiv};
    ghost use Rattle.coltypes.specs.LogicalTypeOf.{logical_type};
    ghost use Rattle.coltypes.specs.Equal.{same_type};
    ghost use Rattle.coltypes.specs.EqualLaws.{type_equiv};

    ghost eq = { λ a b. same_type (logical_type a) (logical_type b) };

    ghost laws = { partial_equiv_from_equiv (on_equiv logical_type type_equiv) };

    fn eq(&self, other: &DType) -> bool {
        self.same(other)
    }
}

impl Eq for DType {
    ghost use Rattle.std.specs.Cmp.{on_equiv};
    ghost use Rattle.coltypes.specs.LogicalTypeOf.{logical_type};
    ghost use Rattle.coltypes.specs.EqualLaws.{type_equiv};

    ghost laws = { on_equiv logical_type type_equiv };
}

impl PartialEq for ExtDType {
    ghost use Rattle.std.specs.Cmp.{on_equiv, partial_equiv_from_equiv};
    ghost use Rattle.coltypes.specs.LogicalTypeOf.{extension_type};
    ghost use Rattle.coltypes.specs.Equal.{same_type};
    ghost use Rattle.coltypes.specs.EqualLaws.{type_equiv};

    ghost eq = { λ a b. same_type (extension_type a) (extension_type b) };

    ghost laws = { partial_equiv_from_equiv (on_equiv extension_type type_equiv) };

    fn eq(&self, other: &ExtDType) -> bool {
        self.same(other)
    }
}

impl Eq for ExtDType {
    ghost use Rattle.std.specs.Cmp.{on_equiv};
    ghost use Rattle.coltypes.specs.LogicalTypeOf.{extension_type};
    ghost use Rattle.coltypes.specs.EqualLaws.{type_equiv};

    ghost laws = { on_equiv extension_type type_equiv };
}
