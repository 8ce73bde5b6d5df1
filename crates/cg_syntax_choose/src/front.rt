//! What a text begins with.

ghost use Rattle.std.specs.Prelude.{◌≡◌, IfOk};
ghost use Rattle.cg_syntax_choose.specs.Fronts as spec;

use cg_base::{NoMemory, Text};
use cg_model_source::Mark;
use cg_syntax_spelling::lower;
use std::alloc::Global;

/// What stands in front of the first blank of a syntax, in small letters. None exactly where a slot
/// stands there.
#[tactic(auto, using(crate::proofs::FrontLemmas::marking))]
pub(crate) fn front_of(alloc: Global, marks: &[Mark]) -> Result<Option<Text>, NoMemory>
    ensures { IfOk result (λ front. front ≡ spec.front_of marks.now) }
{
    let mut front = Text::new(alloc);
    for mark in marks {
        match *mark {
            Mark::Byte(byte) => {
                if byte == b' ' {
                    return Ok(Some(front));
                }
                front.push(lower(byte))?;
            }
            Mark::Slot(_) => return Ok(None),
        }
    }
    Ok(Some(front))
}

/// What stands in front of the first blank of a text, in small letters.
#[tactic(auto, using(crate::proofs::FrontLemmas::texting))]
pub(crate) fn text_front(alloc: Global, text: &[u8]) -> Result<Text, NoMemory>
    ensures { IfOk result (λ front. front ≡ spec.text_front text.now) }
{
    let mut front = Text::new(alloc);
    for byte in text {
        if *byte == b' ' {
            return Ok(front);
        }
        front.push(lower(*byte))?;
    }
    Ok(front)
}
