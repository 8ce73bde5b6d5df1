ghost use Rattle.std.specs.Prelude.{ℕ, List};
ghost use Rattle.cg_syntax_spelling.specs.Laws.{SpellAlike};
ghost use Rattle.cg_syntax_spelling.specs.Lowered.{SameKeywords};

/// A law of the definitions: what a text stands for depends on which texts are keywords, and not on how
/// they are listed.
#[tactic(auto, using(crate::proofs::Alike::alike))]
pub fn same_spellings()
    ensures { (v w : List (List ℕ)) → SameKeywords v w → SpellAlike v w }
{}
