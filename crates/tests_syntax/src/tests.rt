ghost use Rattle.std.specs.Prelude.{◌≡◌, [], ◌∷◌, ◌++◌, codes, pos, Ok, Err};
ghost use Rattle.std.specs.Fmt.{signed_decimal};
ghost use Rattle.cg_model_source.specs.Squeezing.{squeezed};
ghost use Rattle.cg_model_source.specs.Imaging.{image};
ghost use Rattle.cg_model_source.specs.Sourcing.{only_set};
ghost use Rattle.tests_syntax.specs.Examples.{tiny, refused};

/// Blanks stay where both sides join, and once besides.
#[tactic(auto, using(crate::proofs::Worked::once, crate::proofs::Worked::kept))]
fn blanks()
    ensures once { squeezed (codes "  add   r1 , r2 ") ≡ codes "add r1,r2" }
    ensures kept { squeezed (codes "( a) b c (d)") ≡ codes "( a)b c(d)" }
{}

/// Sources and their images.
#[tactic(auto, using(crate::proofs::Worked::loaded, crate::proofs::Worked::labelled, crate::proofs::Worked::too_much, crate::proofs::Worked::unknown, crate::proofs::Worked::twice))]
fn images()
    ensures loaded { image (only_set tiny) 0 (codes "ldi r3,200") ≡ Ok (35 ∷ 200 ∷ []) }
    ensures labelled { image (only_set tiny) 4 (codes "x: LDI R1,x+1 ; note") ≡ Ok (33 ∷ 5 ∷ []) }
    ensures too_much { image (only_set tiny) 0 (codes "ldi r3,256") ≡ Err (refused 602 1 (codes "imm8") (signed_decimal (pos 256))) }
    ensures unknown { image (only_set tiny) 0 (codes "frob r1") ≡ Err (refused 601 1 (codes "frob r1") []) }
    ensures twice { image (only_set tiny) 0 (codes "x: .byte 1" ++ 10 ∷ codes "x: .byte 2") ≡ Err (refused 603 2 (codes "x") []) }
{}
