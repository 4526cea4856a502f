// The definition of the text of types and cells, computed on worked values of types that no function of the program answers.
ghost use Rattle.std.specs.Prelude.{◌≡◌, [], ◌∷◌, Some, None, pos, true, false, codes};
ghost use Rattle.coltypes.specs.Cell.{truth, bytes, list_of, number};
ghost use Rattle.coltypes.specs.LogicalType.{null, bool, primitive, utf8, binary, list, fixed_size_list, extension};
ghost use Rattle.coltypes.specs.declared.dtype.PType.TheVariants.{I8, I16, I32, I64, U8, U16, U32, U64};
ghost use Rattle.coltypes.specs.declared.dtype.Nullability.TheVariants.{Nullable, NonNullable};
ghost use Rattle.coltypes.specs.declared.dtype.TimeUnit.TheVariants.{Nanoseconds, Microseconds, Milliseconds, Days};
ghost use Rattle.rowjson.specs.Text.{type_text, cell_text};

#[tactic(auto, unfolding(crate::proofs::OnLiterals::texts_on_literals))]
fn types_have_their_texts()
    ensures null { type_text null ≡ codes "null" }
    ensures bool { type_text (bool Nullable) ≡ codes "bool?" }
    ensures i8 { type_text (primitive I8 NonNullable) ≡ codes "i8" }
    ensures i16 { type_text (primitive I16 Nullable) ≡ codes "i16?" }
    ensures i32 { type_text (primitive I32 NonNullable) ≡ codes "i32" }
    ensures u8 { type_text (primitive U8 Nullable) ≡ codes "u8?" }
    ensures u16 { type_text (primitive U16 NonNullable) ≡ codes "u16" }
    ensures u32 { type_text (primitive U32 Nullable) ≡ codes "u32?" }
    ensures u64 { type_text (primitive U64 NonNullable) ≡ codes "u64" }
    ensures utf8 { type_text (utf8 Nullable) ≡ codes "utf8?" }
    ensures binary { type_text (binary NonNullable) ≡ codes "binary" }
    ensures list { type_text (list (utf8 NonNullable) Nullable) ≡ codes "list(utf8)?" }
    ensures fixed { type_text (fixed_size_list (primitive I64 Nullable) 12 NonNullable) ≡ codes "fixed(12,i64?)" }
    ensures zone { type_text (extension (codes "a\"b") (Some Microseconds) (Some (codes "America/New_York")) (primitive I64 NonNullable)) ≡ codes "ext(\"a\\\"b\",us,\"America/New_York\",i64)" }
    ensures no_unit { type_text (list (extension (codes "n") None None (binary Nullable)) NonNullable) ≡ codes "list(ext(\"n\",none,none,binary?))" }
    ensures nanoseconds { type_text (extension [] (Some Nanoseconds) None null) ≡ codes "ext(\"\",ns,none,null)" }
    ensures milliseconds { type_text (extension [] (Some Milliseconds) None null) ≡ codes "ext(\"\",ms,none,null)" }
    ensures days { type_text (extension [] (Some Days) None null) ≡ codes "ext(\"\",D,none,null)" }
{}

#[tactic(auto, unfolding(crate::proofs::OnLiterals::texts_on_literals))]
fn cells_have_their_texts()
    ensures truth { cell_text (bool Nullable) (Some (truth true)) ≡ codes "true" }
    ensures untruth { cell_text (bool NonNullable) (Some (truth false)) ≡ codes "false" }
    ensures number { cell_text (primitive U64 NonNullable) (Some (number (pos 18446744073709551615))) ≡ codes "18446744073709551615" }
    ensures text { cell_text (utf8 NonNullable) (Some (bytes (104 ∷ 195 ∷ 169 ∷ []))) ≡ 34 ∷ 104 ∷ 195 ∷ 169 ∷ 34 ∷ [] }
    ensures quoted { cell_text (utf8 NonNullable) (Some (bytes (codes "a\"\\\n\u{1f}"))) ≡ codes "\"a\\\"\\\\\\u000a\\u001f\"" }
    ensures unreadable { cell_text (utf8 Nullable) (Some (bytes (97 ∷ 255 ∷ []))) ≡ codes "unreadable" }
    ensures hex { cell_text (binary Nullable) (Some (bytes (0 ∷ 161 ∷ 255 ∷ []))) ≡ codes "x00a1ff" }
    ensures no_bytes { cell_text (binary Nullable) (Some (bytes [])) ≡ codes "x" }
    ensures list { cell_text (list (primitive I64 Nullable) NonNullable) (Some (list_of (Some (number (pos 5)) ∷ None ∷ Some (number (pos 6)) ∷ []))) ≡ codes "[5,null,6]" }
    ensures empty { cell_text (fixed_size_list (utf8 Nullable) 0 Nullable) (Some (list_of [])) ≡ codes "[]" }
    ensures nested { cell_text (list (fixed_size_list (extension (codes "n") None None (utf8 NonNullable)) 1 Nullable) Nullable) (Some (list_of (Some (list_of (Some (bytes (codes "a")) ∷ [])) ∷ None ∷ []))) ≡ codes "[[\"a\"],null]" }
{}

#[test]
fn definitions_give_the_worked_texts() {
    types_have_their_texts();
    cells_have_their_texts();
}
