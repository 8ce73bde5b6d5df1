//! Which instruction a text is: the first that it fits.

ghost use Rattle.std.specs.Prelude.{◌≡◌, ◌<◌, [], ◌∷◌, length, slice_get, Some, IfOk};
ghost use Rattle.std.specs.Option.{option_map, option_or};
ghost use Rattle.cg_base.specs.Answering.{Gives};
ghost use Rattle.cg_syntax_choose.specs.Fronts.{front_of, text_front, may_split};
ghost use Rattle.cg_syntax_choose.specs.Indexing.{IsIndex, GivesAll};
ghost use Rattle.cg_syntax_choose.specs.Trying.{outcome, trying, as_choice, choice_at, operands_at, written_at, emitted_at, splitting_squeezed, unfit_refusal, told};
ghost use Rattle.cg_syntax_fit.specs.Misfits.{said};
ghost use Rattle.cg_model_source.specs.Choosing as spec;
ghost use Rattle.cg_model_source.specs.Spelling.{keywords};
ghost use Rattle.cg_model_source.specs.Splitting.{split};
ghost use Rattle.cg_model.specs.Sound.{IsSound, SoundInsn};
ghost use Rattle.cg_model_faults.specs.E313.{slot_operands};
ghost use Rattle.cg_syntax_split.specs.Passing.{filled};

use crate::front::text_front;
use crate::index::{Index, Pattern};
use crate::order::{given_sums, known_all, sums_of};
use cg_base::{List, NoMemory, Refusal, Stop, Text, refusals};
use cg_code::insn_at;
use cg_model::{Insn, Machine};
use cg_syntax_fit::{Misfit, Sums, fit, misfit_refusal};
use cg_syntax_split::{Filled, split, squeezed};
use std::alloc::Global;

/// What is chosen for a text.
#[derive(Drop)]
pub struct Choice {
    /// The instruction, by its number.
    pub insn: u16,
    /// What its slots are given, in the format's order.
    pub sums: Sums,
}

/// A squeezed text that stands at `pc`, and is tried on the instructions of a machine.
#[derive(Clone, Copy)]
struct Attempt<'a> {
    machine: &'a Machine,
    /// The index of the machine.
    index: &'a Index,
    text: &'a [u8],
    /// The front of the text.
    front: &'a [u8],
    pc: u64,
}

/// Whether a text may be written by a pattern, as far as its front tells.
fn may_split(pattern: &Pattern, front: &[u8]) -> bool
    ensures { result ≡ may_split pattern.now.front front.now }
{
    match &pattern.front {
        Some(own) => own.as_slice() == front,
        None => true,
    }
}

/// What a text fills the slots of a pattern with, where it is written so.
#[tactic(auto, using(crate::proofs::FrontLemmas::pruning))]
fn filled_by(
    alloc: Global,
    at: &Attempt,
    pattern: &Pattern,
) -> Result<Option<List<Filled>>, NoMemory>
    requires pattern { pattern.now.front ≡ front_of pattern.now.marks }
    requires front { at.now.front.now ≡ text_front at.now.text.now }
    ensures { IfOk result (λ found. found ≡ option_map filled (split at.now.machine.now at.now.index.now.keywords pattern.now.operands pattern.now.marks at.now.text.now)) }
{
    if !may_split(pattern, at.front) {
        return Ok(None);
    }
    split(
        alloc,
        at.machine,
        &at.index.keywords,
        pattern.operands.as_slice(),
        pattern.marks.as_slice(),
        at.text,
    )
}

/// What keeps an instruction from standing for sums, as far as their numbers are known.
fn judged(
    alloc: Global,
    machine: &Machine,
    insn: &Insn,
    operands: &[u16],
    sums: &Sums,
    pc: u64,
) -> Result<Option<Misfit>, NoMemory>
    requires sound { IsSound machine.now }
    requires insn { SoundInsn machine.now insn.now }
    requires operands { operands.now ≡ slot_operands insn.now.parts }
    requires as_many { length sums.now ≡ length operands.now }
    ensures { IfOk result (λ misfit. option_map (said machine.now) misfit ≡ spec.objection machine.now insn.now (spec.known_all sums.now) pc) }
{
    let numbers = known_all(alloc, sums)?;
    Ok(fit(alloc, machine, insn, operands, numbers.as_slice(), pc)?.misfit)
}

/// Judges what a text may be: answers it where nothing is against it, and else notes what is, where
/// nothing is noted yet.
#[tactic(auto, using(crate::proofs::TryingLemmas::judging))]
fn try_choice(
    alloc: Global,
    machine: &Machine,
    insn: &Insn,
    operands: &[u16],
    choice: Choice,
    pc: u64,
    first: &mut Option<Misfit>,
) -> Result<Option<Choice>, NoMemory>
    requires sound { IsSound machine.now }
    requires insn { SoundInsn machine.now insn.now }
    requires operands { operands.now ≡ slot_operands insn.now.parts }
    requires as_many { length choice.sums ≡ length operands.now }
    ensures { IfOk result (λ r. outcome machine.now r first.new ≡ trying machine.now pc (option_map (said machine.now) first.old) (as_choice choice insn.now ∷ [])) }
{
    match judged(alloc, machine, insn, operands, &choice.sums, pc)? {
        None => Ok(Some(choice)),
        Some(misfit) => {
            note(first, misfit);
            Ok(None)
        }
    }
}

/// Notes what is wrong, where nothing is noted yet.
fn note(first: &mut Option<Misfit>, misfit: Misfit)
    ensures { first.new ≡ option_or first.old (Some misfit) }
{
    if first.is_none() {
        *first = Some(misfit);
    }
}

/// Tries a text on the instruction of a number.
#[tactic(auto, using(crate::proofs::TryingLemmas::insn_trying))]
fn try_insn(
    alloc: Global,
    at: &Attempt,
    k: u16,
    first: &mut Option<Misfit>,
) -> Result<Option<Choice>, NoMemory>
    requires sound { IsSound at.now.machine.now }
    requires index { IsIndex at.now.machine.now at.now.index.now }
    requires within { k < length at.now.machine.now.insns }
    requires front { at.now.front.now ≡ text_front at.now.text.now }
    ensures { IfOk result (λ r. outcome at.now.machine.now r first.new ≡ trying at.now.machine.now at.now.pc (option_map (said at.now.machine.now) first.old) (written_at at.now.machine.now at.now.index.now.keywords at.now.text.now k)) }
{
    let insn = insn_at(at.machine, k);
    let pattern = pattern_at(at.index.insns.as_slice(), k);
    match filled_by(alloc, at, pattern)? {
        Some(found) => {
            let operands = pattern.operands.as_slice();
            let sums = sums_of(alloc, operands, found.as_slice())?;
            let choice = Choice { insn: k, sums };
            Ok(try_choice(alloc, at.machine, insn, operands, choice, at.pc, first)?)
        }
        None => Ok(None),
    }
}

/// The pattern of a number.
fn pattern_at(patterns: &[Pattern], k: u16) -> &Pattern
    requires { k < length patterns.now }
    ensures { slice_get patterns.now k ≡ Some result.now }
{
    &patterns[k as usize]
}

/// Tries a text on the instructions, in order.
#[tactic(auto, using(crate::proofs::TryingLemmas::insns_trying))]
fn try_insns(
    alloc: Global,
    at: &Attempt,
    first: &mut Option<Misfit>,
) -> Result<Option<Choice>, NoMemory>
    requires sound { IsSound at.now.machine.now }
    requires index { IsIndex at.now.machine.now at.now.index.now }
    requires front { at.now.front.now ≡ text_front at.now.text.now }
    ensures { IfOk result (λ r. outcome at.now.machine.now r first.new ≡ trying at.now.machine.now at.now.pc (option_map (said at.now.machine.now) first.old) (spec.insns_splitting at.now.machine.now at.now.index.now.keywords at.now.text.now 0 at.now.machine.now.insns)) }
{
    for k in 0..at.machine.insns.len() {
        if let Some(choice) = try_insn(alloc, at, k as u16, first)? {
            return Ok(Some(choice));
        }
    }
    Ok(None)
}

/// Tries a text on a macro instruction, which stands for the instruction that it emits.
#[tactic(auto, using(crate::proofs::TryingLemmas::macro_trying))]
fn try_macro(
    alloc: Global,
    at: &Attempt,
    k: usize,
    first: &mut Option<Misfit>,
) -> Result<Option<Choice>, NoMemory>
    requires sound { IsSound at.now.machine.now }
    requires given { GivesAll at.now.machine.now }
    requires index { IsIndex at.now.machine.now at.now.index.now }
    requires within { k < length at.now.machine.now.macros }
    requires front { at.now.front.now ≡ text_front at.now.text.now }
    ensures { IfOk result (λ r. outcome at.now.machine.now r first.new ≡ trying at.now.machine.now at.now.pc (option_map (said at.now.machine.now) first.old) (emitted_at at.now.machine.now at.now.index.now.keywords at.now.text.now k)) }
{
    let each = &at.machine.macros.as_slice()[k];
    let pattern = &at.index.macros.as_slice()[k];
    if each.target as usize >= at.machine.insns.len() {
        return Ok(None);
    }
    match filled_by(alloc, at, pattern)? {
        Some(found) => {
            let sums = given_sums(alloc, each.given.as_slice(), found.as_slice())?;
            let choice = Choice {
                insn: each.target,
                sums,
            };
            Ok(try_emitted(alloc, at, choice, first)?)
        }
        None => Ok(None),
    }
}

/// Judges what a macro instruction emits.
#[tactic(auto, using(crate::proofs::TryingLemmas::emitting))]
fn try_emitted(
    alloc: Global,
    at: &Attempt,
    choice: Choice,
    first: &mut Option<Misfit>,
) -> Result<Option<Choice>, NoMemory>
    requires sound { IsSound at.now.machine.now }
    requires index { IsIndex at.now.machine.now at.now.index.now }
    requires within { choice.insn < length at.now.machine.now.insns }
    requires as_many { length choice.sums ≡ length (operands_at at.now.machine.now choice.insn) }
    ensures { IfOk result (λ r. outcome at.now.machine.now r first.new ≡ trying at.now.machine.now at.now.pc (option_map (said at.now.machine.now) first.old) (choice_at at.now.machine.now choice)) }
{
    let insn = insn_at(at.machine, choice.insn);
    let operands = pattern_at(at.index.insns.as_slice(), choice.insn)
        .operands
        .as_slice();
    try_choice(alloc, at.machine, insn, operands, choice, at.pc, first)
}

/// Tries a text on the macro instructions, in order.
#[tactic(auto, using(crate::proofs::TryingLemmas::macros_trying))]
fn try_macros(
    alloc: Global,
    at: &Attempt,
    first: &mut Option<Misfit>,
) -> Result<Option<Choice>, NoMemory>
    requires sound { IsSound at.now.machine.now }
    requires given { GivesAll at.now.machine.now }
    requires index { IsIndex at.now.machine.now at.now.index.now }
    requires front { at.now.front.now ≡ text_front at.now.text.now }
    ensures { IfOk result (λ r. outcome at.now.machine.now r first.new ≡ trying at.now.machine.now at.now.pc (option_map (said at.now.machine.now) first.old) (spec.macros_splitting at.now.machine.now at.now.index.now.keywords at.now.text.now at.now.machine.now.macros)) }
{
    for k in 0..at.machine.macros.len() {
        if let Some(choice) = try_macro(alloc, at, k, first)? {
            return Ok(Some(choice));
        }
    }
    Ok(None)
}

/// Tries a squeezed text on the instructions and then on the macro instructions.
#[tactic(auto, using(crate::proofs::TryingLemmas::all_trying))]
fn try_all(
    alloc: Global,
    machine: &Machine,
    index: &Index,
    text: &[u8],
    pc: u64,
    first: &mut Option<Misfit>,
) -> Result<Option<Choice>, NoMemory>
    requires sound { IsSound machine.now }
    requires given { GivesAll machine.now }
    requires index { IsIndex machine.now index.now }
    ensures { IfOk result (λ r. outcome machine.now r first.new ≡ trying machine.now pc (option_map (said machine.now) first.old) (splitting_squeezed machine.now index.now.keywords text.now)) }
{
    let front = text_front(alloc, text)?;
    let at = Attempt {
        machine,
        index,
        text,
        front: front.as_slice(),
        pc,
    };
    if let Some(choice) = try_insns(alloc, &at, first)? {
        return Ok(Some(choice));
    }
    Ok(try_macros(alloc, &at, first)?)
}

/// Why a squeezed text is no instruction: no syntax splits it, or this is wrong with the first that does.
fn refusal_of(
    alloc: Global,
    machine: &Machine,
    text: Text,
    first: Option<Misfit>,
) -> Result<Refusal, NoMemory>
    ensures { IfOk result (λ refusal. refusal ≡ unfit_refusal (option_map (said machine.now) first) text) }
{
    match first {
        Some(misfit) => Ok(misfit_refusal(alloc, machine, refusals::OUT_OF_RANGE, misfit)?),
        None => Ok(Refusal {
            number: refusals::NO_STATEMENT,
            file: 0,
            line: 0,
            text,
            other: Text::new(alloc),
        }),
    }
}

/// Which instruction a text is that stands at `pc`, and what its slots are given (docs/ASSEMBLY.md,
/// "Choice"): of the instructions, and then of the macro instructions, the first whose syntax splits the
/// text, whose slots without labels are in range, and whose assertion holds where no slot has a label.
/// E601 comes exactly where no syntax splits the text, with the squeezed text. E602 comes exactly where
/// some syntax does and nothing is chosen, with the operand that is out of range and its number for the
/// first that does, or `ifield-assertion`. File and line are 0. `pc` counts modulo 2^bits of the cpu's
/// word. The index was built from the machine.
#[tactic(auto, using(crate::proofs::TryingLemmas::choosing))]
pub fn choose(
    alloc: Global,
    machine: &Machine,
    index: &Index,
    text: &[u8],
    pc: u64,
) -> Result<Choice, Stop>
    requires sound { IsSound machine.now }
    requires given { GivesAll machine.now }
    requires index { IsIndex machine.now index.now }
    ensures { Gives (told (spec.chosen machine.now (keywords machine.now) pc text.now)) result }
{
    let text = squeezed(alloc, text)?;
    let mut first = None;
    match try_all(alloc, machine, index, text.as_slice(), pc, &mut first)? {
        Some(choice) => Ok(choice),
        None => Err(Stop::Refused(refusal_of(alloc, machine, text, first)?)),
    }
}
