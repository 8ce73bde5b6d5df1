ghost use Rattle.cg_desc_laws_forms.specs.Forms.{AreForms};
ghost use Rattle.cg_desc_laws_forms.specs.FormSizes.{AreSizes};

/// A law of the definitions: a `define-cpu` without fault has a word of 8, 16, 32 or 64 bits, and the
/// shortest instruction of a `define-isa` without fault has whole bytes, 8 at most; the word that a
/// field without fault names lies on whole bytes and has as many, and its mode is one of values
/// (docs/LANGUAGE.md, "Forms and clauses").
#[tactic(auto, using(crate::proofs::FormSizes::sizes))]
pub fn sizes_are_allowed()
    ensures { AreSizes }
{}

/// A law of the definitions: in the expressions of a form without fault nothing is wrong and nothing left
/// out, its syntax is one, a multi field sets each of its fields, and its bundles are counted from one.
#[tactic(auto, using(crate::proofs::Forms::forms))]
pub fn forms_are_clear()
    ensures { AreForms }
{}
