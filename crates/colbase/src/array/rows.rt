// Which rows are null.
ghost use Rattle.std.specs.Prelude.{◌≡◌, ◌<◌, ℕ, is_some};
ghost use Rattle.colbase.specs.Arrays.{dtype, len, row};
ghost use Rattle.colbase.specs.Faults.{lowest, null_at};
ghost use Rattle.colbase.specs.Parts.{own_validity};
ghost use Rattle.coltypes.specs.LogicalType.{nullability_of};
ghost use Rattle.coltypes.specs.Valid.{Covers, valid_at, validity_kind, validity_nullability};

use super::{ArrayRef, Layout};
use coltypes::{Nullability, Validity, ValidityKind};

impl ArrayRef {
    /// Whether the row at `index` is not null.
    pub fn is_valid(&self, index: usize) -> bool
        requires { index < len self.now }
        ensures { result ≡ is_some (row self.now index) }
    {
        let inner = self.inner.get();
        match &inner.layout {
            Layout::Constant(s, _) => s.value().is_some(),
            Layout::Masked(child, v) => v.value(index, inner.len) && child.is_valid(index),
            Layout::Extension(_, storage) => storage.is_valid(index),
            Layout::Primitive(_, v) => v.value(index, inner.len),
            Layout::Bool(_, v) => v.value(index, inner.len),
        }
    }

    /// The lowest null row. Looks at no row where the validity tells that none is null.
    pub fn lowest_null(&self) -> Option<usize>
        ensures { result ≡ lowest (null_at self.now) (len self.now) }
    {
        self.checks();
        if let ValidityKind::NoNulls = self.validity_kind() {
            return None;
        }
        for i in 0..self.len() {
            if !self.is_valid(i) {
                return Some(i);
            }
        }
        None
    }

    /// Which rows are not null, in an owner of its own. That of a constant is `AllInvalid` for a null and else by its
    /// type, that of a masked array its own, and that of an extension its storage's.
    pub fn validity(&self) -> Validity
        ensures own { result ≡ own_validity self.now }
        ensures tells { (i : ℕ) → i < len self.now → valid_at result i ≡ is_some (row self.now i) }
        ensures covers { Covers result (len self.now) }
        ensures nullable { validity_nullability result ≡ Nullability.Nullable → nullability_of (dtype self.now) ≡ Nullability.Nullable }
    {
        self.checks();
        self.own_validity()
    }

    #[cycle(validity)]
    fn own_validity(&self) -> Validity
        ensures { result ≡ own_validity self.now }
    {
        match &self.inner.get().layout {
            Layout::Constant(s, _) => s.validity(),
            Layout::Masked(_, v) => v.share(),
            Layout::Extension(_, storage) => storage.own_validity(),
            Layout::Primitive(_, v) => v.share(),
            Layout::Bool(_, v) => v.share(),
        }
    }

    pub fn validity_kind(&self) -> ValidityKind
        ensures { result ≡ validity_kind (own_validity self.now) }
    {
        match &self.inner.get().layout {
            Layout::Constant(s, _) => s.validity().kind(),
            Layout::Masked(_, v) => v.kind(),
            Layout::Extension(_, storage) => storage.validity_kind(),
            Layout::Primitive(_, v) => v.kind(),
            Layout::Bool(_, v) => v.kind(),
        }
    }
}
