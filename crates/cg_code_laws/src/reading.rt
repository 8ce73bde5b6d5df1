ghost use Rattle.cg_code_laws.specs.Laws.{EncodingLaws};
ghost use Rattle.cg_model.specs.Sound.{IsSound};

use cg_model::Machine;

/// Laws of the definitions (docs/LANGUAGE.md, "Encoding and matching"): values have one encoding at
/// most; bytes that `cg_code::encode` put there are matched, and `cg_code::extract` gives their values
/// again; and bytes with 0 in all bits that no part covers are the encoding of their values where each
/// slot's value goes back to the bits that gave it.
#[tactic(auto, using(crate::proofs::Encodings::encoding_laws))]
pub fn encodings_read_back(machine: &Machine)
    requires { IsSound machine.now }
    ensures { EncodingLaws machine.now }
{}
