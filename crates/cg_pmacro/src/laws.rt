ghost use Rattle.std.specs.Prelude.{◌≡◌, ◌↔◌, ℕ, suc, Bool, true, List as Listed, [], ◌∷◌, Ok};
ghost use Rattle.cg_base.specs.declared.form.Form.{Form as Shown};
ghost use Rattle.cg_pmacro_builtin.specs.declared.body.Body.{Body as Written};
ghost use Rattle.cg_pmacro_builtin.specs.declared.body.Body.TheVariants.{Quoted as LeafOf};
ghost use Rattle.cg_pmacro_builtin.specs.declared.body.Macro.{Macro as Known};
ghost use Rattle.cg_pmacro_builtin.specs.Shapes.{same_form, plain as plain_of};
ghost use Rattle.cg_pmacro_expand.specs.Expansion.{expanded, kind_of, macro_call};
ghost use Rattle.cg_pmacro.specs.Laws.{CallLeaves, AtRest};

/// A law of the definitions: a quoted leaf expands to its content and costs nothing.
pub fn quoted_leaf_is_free()
    ensures { (macros : Listed Known) (depth : ℕ) (inner : Listed ℕ) (in_splice : Bool) (content : Shown) (left : ℕ) → expanded macros depth inner in_splice (LeafOf content) left ≡ Ok (content, left) }
{}

/// A law of the definitions: what a call of a macro with arguments leaves is what its arguments and
/// its body left, less one unit and the nodes of its result.
pub fn call_leaves()
    ensures { (macros : Listed Known) (depth : ℕ) (inner : Listed ℕ) (in_splice : Bool) (call : Written) (name : Listed ℕ) (formals : Listed (Listed ℕ)) (body : Written) (args : Listed Written) (left after : ℕ) (answer : Shown) → kind_of macros call ≡ macro_call name formals body args → expanded macros (suc depth) inner in_splice call left ≡ Ok (answer, after) → CallLeaves (expanded macros depth) name formals body args left answer after }
{}

/// A law of the definitions: a form in which no symbol names a macro without arguments, and no head
/// names one with arguments or begins with a dot, expands to itself and costs nothing, where its
/// lists may stand so deep.
pub fn unchanged_at_rest()
    ensures { (macros : Listed Known) (depth : ℕ) (inner : Listed ℕ) (in_splice : Bool) (read : Shown) (left : ℕ) → AtRest macros depth (read ∷ []) → expanded macros depth inner in_splice (plain_of read) left ≡ Ok (read, left) }
{}

/// A law of the definitions: two forms count as the same, as `.eq`, `.ne` and `.case` compare them,
/// exactly where they are equal.
pub fn same_form_is_equality()
    ensures { (one other : Shown) → (same_form one other ≡ true) ↔ (one ≡ other) }
{}
