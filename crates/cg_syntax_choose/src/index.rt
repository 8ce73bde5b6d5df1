//! How the instructions of a machine are written.

ghost use Rattle.std.specs.Prelude.{◌≡◌, IfOk};
ghost use Rattle.cg_syntax_choose.specs.Indexing.{IsIndex, pattern_of, insn_patterns, macro_patterns};
ghost use Rattle.cg_model_faults.specs.E313.{slot_operands};

use crate::front::front_of;
use cg_base::{List, NoMemory, Text};
use cg_model::{Insn, Machine, MacroInsn, Part, Piece};
use cg_model_source::Mark;
use cg_syntax_spelling::{Keywords, keywords_of};
use cg_syntax_split::squeezed_syntax;
use std::alloc::Global;

/// How an instruction or a macro instruction is written.
#[derive(Drop)]
pub struct Pattern {
    /// Its squeezed syntax.
    pub marks: List<Mark>,
    /// The operands of its slots, by their numbers.
    pub operands: List<u16>,
    /// What stands in front of the first blank of its syntax, in small letters, where no slot stands
    /// there: each text that is written so begins with it.
    pub front: Option<Text>,
}

/// How the instructions of a machine are written, and its keywords: what `choose` looks up.
#[derive(Drop)]
pub struct Index {
    /// The keywords of the machine.
    pub keywords: Keywords,
    /// How each instruction is written.
    pub insns: List<Pattern>,
    /// How each macro instruction is written.
    pub macros: List<Pattern>,
}

/// The operands of the slots of a format, by their numbers.
fn slot_operands(alloc: Global, parts: &[Part]) -> Result<List<u16>, NoMemory>
    ensures { IfOk result (λ operands. operands ≡ slot_operands parts.now) }
{
    let mut operands = List::new(alloc);
    for part in parts {
        if let Part::Slot { operand } = *part {
            operands.push(operand)?;
        }
    }
    Ok(operands)
}

/// Numbers once more.
fn copied(alloc: Global, numbers: &[u16]) -> Result<List<u16>, NoMemory>
    ensures { IfOk result (λ copies. copies ≡ numbers.now) }
{
    let copies = Vec::from_slice(alloc, numbers)?;
    Ok(List::from_vec(copies))
}

/// How a syntax is written whose slots have these operands.
fn pattern_of(alloc: Global, pieces: &[Piece], operands: List<u16>) -> Result<Pattern, NoMemory>
    ensures { IfOk result (λ pattern. pattern ≡ pattern_of pieces.now operands) }
{
    let marks = squeezed_syntax(alloc, pieces)?;
    let front = front_of(alloc, marks.as_slice())?;
    Ok(Pattern {
        marks,
        operands,
        front,
    })
}

/// How instructions are written.
#[tactic(auto, using(crate::proofs::IndexLemmas::next_insn))]
fn insn_patterns(alloc: Global, insns: &[Insn]) -> Result<List<Pattern>, NoMemory>
    ensures { IfOk result (λ patterns. patterns ≡ insn_patterns insns.now) }
{
    let mut patterns = List::new(alloc);
    for insn in insns {
        let operands = slot_operands(alloc, insn.parts.as_slice())?;
        patterns.push(pattern_of(alloc, insn.pieces.as_slice(), operands)?)?;
    }
    Ok(patterns)
}

/// How macro instructions are written.
#[tactic(auto, using(crate::proofs::IndexLemmas::next_macro))]
fn macro_patterns(alloc: Global, macros: &[MacroInsn]) -> Result<List<Pattern>, NoMemory>
    ensures { IfOk result (λ patterns. patterns ≡ macro_patterns macros.now) }
{
    let mut patterns = List::new(alloc);
    for each in macros {
        let operands = copied(alloc, each.operands.as_slice())?;
        patterns.push(pattern_of(alloc, each.pieces.as_slice(), operands)?)?;
    }
    Ok(patterns)
}

impl Index {
    /// How the instructions of a machine are written, and its keywords.
    pub fn build(alloc: Global, machine: &Machine) -> Result<Index, NoMemory>
        ensures { IfOk result (IsIndex machine.now) }
    {
        Ok(Index {
            keywords: keywords_of(alloc, machine)?,
            insns: insn_patterns(alloc, machine.insns.as_slice())?,
            macros: macro_patterns(alloc, machine.macros.as_slice())?,
        })
    }
}
