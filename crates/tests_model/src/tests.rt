ghost use Rattle.std.specs.Prelude.{◌≡◌, [], ◌∷◌, true, false, ◌+◌, ◌-◌, ◌^◌, pos};
ghost use Rattle.std.specs.Prelude.{Some, None, Ok, Err};
ghost use Rattle.cg_base.specs.declared.Mode.TheVariants.{Bi, Qi, Hi, Si, Void};
ghost use Rattle.cg_model.specs.declared.rtl.Op.TheVariants as op;
ghost use Rattle.cg_model.specs.Checked.{mode_in, fault, disagreement};
ghost use Rattle.cg_model_effects.specs.Asking.{trap};
ghost use Rattle.cg_model_effects.specs.Asking.Ask.{Done, Trapped};
ghost use Rattle.cg_model_effects.specs.declared.outcome.Change.TheVariants.{Halt};
ghost use Rattle.cg_model_effects.specs.declared.outcome.Place.TheVariants.{Pc, Cell, Memory};
ghost use Rattle.cg_model.specs.Fields.{bits_at, field_value, multi_value};
ghost use Rattle.cg_model.specs.Matching.{matches};
ghost use Rattle.cg_model.specs.Sound.{IsSound};
ghost use Rattle.tests_model.specs.Examples.{tiny, tiny_little, tiny_forced, add, add_below_15, twin, displacement};
ghost use Rattle.tests_model.specs.Examples.{rtl, number, constant, on_two, cell, guarded, local, memory, set, delay, parallel, with_local, in_order, does, value_of, now, later, made, counted, access};

/// Fields lie where they should, in either order of bytes.
fn fields_of_a_word()
    ensures op { bits_at tiny (record displacement { shift = 12; length = 4 }) (17 ∷ 32 ∷ []) ≡ 1 }
    ensures low { bits_at tiny displacement (17 ∷ 32 ∷ []) ≡ 32 }
    ensures little { bits_at tiny_little displacement (17 ∷ 32 ∷ []) ≡ 17 }
    ensures rd { field_value tiny (17 ∷ 32 ∷ []) 0 (pos 1) ≡ 1 }
    ensures rs { field_value tiny (31 ∷ 32 ∷ []) 0 (pos 1) ≡ 15 }
{}

/// A displacement counts words of two bytes from the instruction, by its sign.
#[tactic(auto, using(crate::proofs::Worked::back, crate::proofs::Worked::here, crate::proofs::Worked::far, crate::proofs::Worked::below))]
fn displacements()
    ensures back { field_value tiny (48 ∷ 255 ∷ []) 2 (pos 4) ≡ 0 }
    ensures here { field_value tiny (48 ∷ 0 ∷ []) 256 (pos 4) ≡ 256 }
    ensures far { field_value tiny (48 ∷ 128 ∷ []) 256 (pos 4) ≡ 0 }
    ensures below { field_value tiny (48 ∷ 255 ∷ []) 0 (pos 4) ≡ 2 ^ 32 - 2 }
{}

/// A multi field's value comes of its two fields.
#[tactic(auto, using(crate::proofs::Worked::extracted))]
fn fields_apart()
    ensures { multi_value tiny (106 ∷ 37 ∷ []) 0 (pos 0) ≡ 165 }
{}

/// An instruction matches bytes that are long enough, hold its constants and meet its assertion.
#[tactic(auto, using(crate::proofs::Worked::asserted, crate::proofs::Worked::denied, crate::proofs::Worked::other, crate::proofs::Worked::neither))]
fn instructions_that_match()
    ensures plain { matches tiny add (17 ∷ 32 ∷ []) ≡ true }
    ensures longer { matches tiny add (17 ∷ 32 ∷ 255 ∷ []) ≡ true }
    ensures short { matches tiny add (17 ∷ []) ≡ false }
    ensures first { matches tiny add (33 ∷ 32 ∷ []) ≡ false }
    ensures last { matches tiny add (17 ∷ 33 ∷ []) ≡ false }
    ensures asserted { matches tiny add_below_15 (17 ∷ 32 ∷ []) ≡ true }
    ensures denied { matches tiny add_below_15 (31 ∷ 32 ∷ []) ≡ false }
    ensures other { matches tiny twin (31 ∷ 32 ∷ []) ≡ true }
    ensures neither { matches tiny twin (17 ∷ 32 ∷ []) ≡ false }
{}

/// Operations at their ends.
#[tactic(auto, using(crate::proofs::Worked::shifted_out, crate::proofs::Worked::signs_stay, crate::proofs::Worked::rotated_by_width, crate::proofs::Worked::borrows))]
fn operations()
    ensures shifted_out { value_of (on_two 10 (Some Si) (number 1) (number 32)) None ≡ 0 }
    ensures signs_stay { value_of (on_two 12 (Some Si) (number (2 ^ 31)) (number 32)) None ≡ 2 ^ 32 - 1 }
    ensures rotated_by_width { value_of (on_two 13 (Some Qi) (number 129) (number 9)) None ≡ 3 }
    ensures borrows { value_of (rtl op.Ternary (Some Si) (pos 4) (number 0 ∷ number 0 ∷ number 1 ∷ [])) None ≡ 1 }
{}

/// Wider values, parts, and an arm that is named modulo the value's bits.
#[tactic(auto, using(crate::proofs::Worked::extends_any_sign, crate::proofs::Worked::one_bit_is_no_sign, crate::proofs::Worked::first_part, crate::proofs::Worked::second_part, crate::proofs::Worked::joined, crate::proofs::Worked::named))]
fn widths_and_arms()
    ensures extends_any_sign { value_of (rtl op.Ext (Some Si) (pos 0) (rtl op.Trunc (Some Qi) (pos 0) (number 128 ∷ []) ∷ [])) None ≡ 2 ^ 32 - 128 }
    ensures one_bit_is_no_sign { value_of (rtl op.Ext (Some Si) (pos 0) (rtl op.Trunc (Some Bi) (pos 0) (number 1 ∷ []) ∷ [])) None ≡ 1 }
    ensures first_part { value_of (rtl op.Subword (Some Qi) (pos 0) (constant Si (2 ^ 24 - 1) ∷ [])) None ≡ 0 }
    ensures second_part { value_of (rtl op.Subword (Some Qi) (pos 1) (constant Si (2 ^ 24 - 1) ∷ [])) None ≡ 255 }
    ensures joined { value_of (rtl op.Join (Some Si) (pos 0) (rtl op.Declare (Some Hi) (pos 0) [] ∷ number 1 ∷ number 2 ∷ [])) None ≡ 2 ^ 16 + 2 }
    ensures named { value_of (rtl op.Case (Some Si) (pos 0) (constant Qi 255 ∷ rtl op.Arm None (pos 2) (number 3 ∷ rtl op.Number None (pos 511) [] ∷ number 7 ∷ []) ∷ rtl op.Arm None (pos 0) (number 8 ∷ []) ∷ [])) None ≡ 7 }
{}

/// A read takes the latest write that comes now. What comes later is not read, and the arms of a `parallel` start from the
/// same entries.
#[tactic(auto, using(crate::proofs::Worked::written, crate::proofs::Worked::read_again, crate::proofs::Worked::delayed, crate::proofs::Worked::not_read, crate::proofs::Worked::at_once, crate::proofs::Worked::at_address, crate::proofs::Worked::pc_again, crate::proofs::Worked::local_at_once, crate::proofs::Worked::stopped))]
fn entries_in_order()
    ensures written { does tiny (set (cell 2) (number 5)) ≡ Done 0 (made (now (Cell 0 2) 5 ∷ [])) }
    ensures read_again { does tiny (in_order (set (cell 2) (number 5) ∷ set (cell 3) (on_two 0 None (cell 2) (cell 4)) ∷ [])) ≡ Done 0 (made (now (Cell 0 2) 5 ∷ now (Cell 0 3) 14 ∷ [])) }
    ensures delayed { does tiny (delay 1 (set (rtl op.Pc None (pos 0) []) (number 64))) ≡ Done 0 (made (later 1 Pc 64 ∷ [])) }
    ensures not_read { does tiny (in_order (delay 1 (set (cell 2) (number 5)) ∷ set (cell 3) (cell 2) ∷ [])) ≡ Done 0 (made (later 1 (Cell 0 2) 5 ∷ now (Cell 0 3) 9 ∷ [])) }
    ensures at_once { does tiny (in_order (set (cell 1) (number 4) ∷ parallel (set (cell 1) (cell 2) ∷ set (cell 2) (cell 1) ∷ []) ∷ [])) ≡ Done 0 (made (now (Cell 0 1) 4 ∷ now (Cell 0 1) 9 ∷ now (Cell 0 2) 4 ∷ [])) }
    ensures at_address { does tiny (set (cell 1) (rtl op.Pc None (pos 0) [])) ≡ Done 0 (made (now (Cell 0 1) 256 ∷ [])) }
    ensures pc_again { does tiny (in_order (set (rtl op.Pc None (pos 0) []) (number 8) ∷ set (cell 1) (rtl op.Pc None (pos 0) []) ∷ [])) ≡ Done 0 (made (now Pc 8 ∷ now (Cell 0 1) 8 ∷ [])) }
    ensures local_at_once { does tiny (with_local Si (set (cell 1) (local 0) ∷ delay 2 (set (local 0) (number 6)) ∷ set (cell 1) (local 0) ∷ [])) ≡ Done 0 (made (now (Cell 0 1) 0 ∷ now (Cell 0 1) 6 ∷ [])) }
    ensures stopped { does tiny (rtl op.Halt None (pos 0) (number 3 ∷ [])) ≡ Done 0 (made (Halt 3 ∷ [])) }
{}

/// The index comes before the value, and a trap ends all.
#[tactic(auto, using(crate::proofs::Worked::no_cell, crate::proofs::Worked::divided, crate::proofs::Worked::raised))]
fn traps_of_expressions()
    ensures no_cell { does tiny (set (cell 16) (on_two 4 None (number 1) (number 0))) ≡ Trapped (trap 6) }
    ensures divided { does tiny (set (cell 1) (on_two 4 None (cell 2) (number 0))) ≡ Trapped (trap 5) }
    ensures raised { does tiny (in_order (set (cell 1) (number 0) ∷ rtl op.Error None (pos 3) [] ∷ [])) ≡ Trapped (record { number = 7; text = 3 }) }
{}

/// A register that is read and set by rules.
#[tactic(auto, using(crate::proofs::Worked::zero_reads, crate::proofs::Worked::one_reads, crate::proofs::Worked::zero_stays, crate::proofs::Worked::one_is_set, crate::proofs::Worked::no_guarded_cell))]
fn rules_in_place()
    ensures zero_reads { does tiny (set (cell 1) (guarded 0)) ≡ Done 0 (made (now (Cell 0 1) 0 ∷ [])) }
    ensures one_reads { does tiny (set (cell 1) (guarded 1)) ≡ Done 0 (made (now (Cell 0 1) 9 ∷ [])) }
    ensures zero_stays { does tiny (set (guarded 0) (number 5)) ≡ Done 0 (made []) }
    ensures one_is_set { does tiny (delay 1 (set (guarded 1) (number 5))) ≡ Done 0 (made (later 1 (Cell 1 1) 5 ∷ [])) }
    ensures no_guarded_cell { does tiny (set (cell 1) (guarded 16)) ≡ Trapped (trap 6) }
{}

/// Memory byte by byte, in either order, and where an access may not be made.
#[tactic(auto, using(crate::proofs::Worked::stored, crate::proofs::Worked::half_written, crate::proofs::Worked::half_written_little, crate::proofs::Worked::askew, crate::proofs::Worked::value_first, crate::proofs::Worked::nowhere, crate::proofs::Worked::straightened))]
fn memory_by_bytes()
    ensures stored { does tiny (set (memory Hi (number 64)) (number 258)) ≡ Done 0 (made (now (Memory 64 2) 258 ∷ [])) }
    ensures half_written { does tiny (in_order (set (memory Hi (number 66)) (number 258) ∷ set (cell 1) (memory Si (number 64)) ∷ [])) ≡ Done 0 (made (now (Memory 66 2) 258 ∷ now (Cell 0 1) 117899522 ∷ [])) }
    ensures half_written_little { does tiny_little (in_order (set (memory Hi (number 66)) (number 258) ∷ set (cell 1) (memory Si (number 64)) ∷ [])) ≡ Done 0 (made (now (Memory 66 2) 258 ∷ now (Cell 0 1) 16910087 ∷ [])) }
    ensures askew { does tiny (set (memory Si (number (2 ^ 21 + 2))) (on_two 4 None (number 1) (number 1))) ≡ Trapped (trap 4) }
    ensures value_first { does tiny (set (memory Si (number 2)) (on_two 4 None (number 1) (number 0))) ≡ Trapped (trap 5) }
    ensures nowhere { does tiny (set (cell 1) (memory Si (number (2 ^ 20)))) ≡ Trapped (trap 3) }
    ensures straightened { does tiny_forced (set (memory Si (number 67)) (number 1)) ≡ Done 0 (made (now (Memory 64 4) 1 ∷ [])) }
{}

/// A device is asked at each read.
#[tactic(auto, using(crate::proofs::Worked::asked, crate::proofs::Worked::failed))]
fn devices()
    ensures asked { counted (in_order (set (memory Si (number (2 ^ 32 - 16))) (number 1) ∷ set (cell 1) (memory Si (number (2 ^ 32 - 16))) ∷ [])) ≡ record { outcome = Ok (now (Memory (2 ^ 32 - 16) 4) 1 ∷ now (Cell 0 1) 5 ∷ []); devices = 6; accesses = access (2 ^ 32 - 16) 4 (Some 5) ∷ [] } }
    ensures failed { counted (set (cell 2) (memory Hi (number (2 ^ 32 - 8)))) ≡ record { outcome = Err (trap 8); devices = 5; accesses = access (2 ^ 32 - 8) 2 None ∷ [] } }
{}

/// Modes of expressions: which operand leads, and the first fault.
#[tactic(auto, using(crate::proofs::Worked::summed, crate::proofs::Worked::led_from_behind, crate::proofs::Worked::too_large_for_it, crate::proofs::Worked::at_odds, crate::proofs::Worked::one_bit, crate::proofs::Worked::no_place, crate::proofs::Worked::no_value, crate::proofs::Worked::no_else))]
fn modes_of_expressions()
    ensures summed { mode_in tiny (on_two 0 None (number 3) (number 4)) [] None ≡ Ok Si }
    ensures led_from_behind { mode_in tiny (on_two 0 None (number 255) (rtl op.Trunc (Some Qi) (pos 0) (number 3 ∷ []))) [] None ≡ Ok Qi }
    ensures too_large_for_it { mode_in tiny (on_two 0 None (number 256) (rtl op.Trunc (Some Qi) (pos 0) (number 3 ∷ []))) [] None ≡ Err (fault 402) }
    ensures at_odds { mode_in tiny (on_two 0 (Some Si) (cell 1) (memory Hi (cell 2))) [] None ≡ Err (disagreement Si Hi) }
    ensures one_bit { mode_in tiny (on_two 15 None (number 3) (number 4)) [] None ≡ Ok Bi }
    ensures no_place { mode_in tiny (set (number 3) (number 4)) [] None ≡ Err (fault 403) }
    ensures no_value { mode_in tiny (on_two 0 (Some Si) (cell 1) (rtl op.Nop None (pos 0) [])) [] None ≡ Err (fault 404) }
    ensures no_else { mode_in tiny (rtl op.If (Some Si) (pos 0) (number 1 ∷ number 2 ∷ [])) [] None ≡ Ok Void }
{}

/// An arm's value, where there is an arm without a test and where there is none.
#[tactic(auto, using(crate::proofs::Worked::arm_dropped, crate::proofs::Worked::arm_taken))]
fn arms()
    ensures arm_dropped { value_of (rtl op.If (Some Si) (pos 0) (number 1 ∷ number 2 ∷ [])) None ≡ 0 }
    ensures arm_taken { value_of (rtl op.If (Some Si) (pos 0) (number 0 ∷ number 2 ∷ number 3 ∷ [])) None ≡ 3 }
{}

/// Some machine is sound.
#[tactic(auto, using(crate::proofs::Soundness::tiny_sound))]
fn a_sound_machine()
    ensures { IsSound tiny }
{}

#[test]
fn the_definitions_hold() {
    a_sound_machine();
    fields_of_a_word();
    displacements();
    fields_apart();
    instructions_that_match();
    modes_of_expressions();
    arms();
    operations();
    widths_and_arms();
    entries_in_order();
    traps_of_expressions();
    rules_in_place();
    memory_by_bytes();
    devices();
}
