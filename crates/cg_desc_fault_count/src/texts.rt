//! E308 of texts that are too long.

ghost use Rattle.std.specs.Prelude.{◌≡◌, ◌∷◌, [], map, IfOk};
ghost use Rattle.std.specs.List.{flat_map};
ghost use Rattle.std.specs.Option.{option_map};
ghost use Rattle.cg_base.specs.Refusing.{first};
ghost use Rattle.cg_desc_fault_count.specs.E308 as spec;
ghost use Rattle.cg_desc_fault_count.specs.Passing.{seen_passed};
ghost use Rattle.cg_desc_scope.specs.Seen.{seen_described};
ghost use Rattle.cg_model.specs.Words.{named_values};
ghost use Rattle.cg_model_faults.specs.E308.{long_text, long_texts};
ghost use Rattle.cg_desc_fault_report.specs.Subject.{described_in, element_in, form_in, insns_in, all_lent};

use crate::passing::{Found, Passed, too_many};
use cg_attrs::{Frame, MachForm};
use cg_base::Text;
use cg_desc_choices::{Written, WrittenPiece};
use cg_desc_data::words;
use cg_desc_elements::Element;
use cg_desc_fault_report::Subject;
use cg_desc_insns::all_pieces;
use cg_desc_scope::{Described, texts_with};
use cg_hw::HardwareForm;
use cg_insn::{InsnForm, MacroForm, NamedPiece};
use cg_model::{Keyword, NamedValue};
use cg_operand::OperandForm;
use std::alloc::Global;

/// The limit of a text that is passed.
fn long_text(text: &Text) -> Option<Passed>
    ensures { option_map seen_passed result ≡ first (long_text text.now) }
{
    too_many(4_194_304, text.len())
}

/// The first of some texts.
#[tactic(auto, using(crate::proofs::Sums::long_rules))]
fn first_long(texts: &[Text]) -> Option<Passed>
    ensures { option_map seen_passed result ≡ first (long_texts texts.now) }
{
    for text in texts {
        if let Some(passed) = long_text(text) {
            return Some(passed);
        }
    }
    None
}

/// The first of the literals among pieces.
#[tactic(auto, using(crate::proofs::Sums::long_rules))]
fn first_literal(pieces: &[WrittenPiece]) -> Option<Passed>
    ensures { option_map seen_passed result ≡ first (long_texts (spec.literals pieces.now)) }
{
    for piece in pieces {
        if let NamedPiece::Literal(text) = &piece.piece {
            if let Some(passed) = long_text(text) {
                return Some(passed);
            }
        }
    }
    None
}

/// The name of an element, or the first of the literals of its syntax.
#[tactic(auto, using(crate::proofs::Sums::long_rules))]
fn first_named(name: &Text, pieces: &[WrittenPiece]) -> Option<Passed>
    ensures { option_map seen_passed result ≡ first (long_texts (name.now ∷ spec.literals pieces.now)) }
{
    if let Some(passed) = long_text(name) {
        return Some(passed);
    }
    first_literal(pieces)
}

/// The first of the texts of instructions.
#[tactic(auto, using(crate::proofs::Sums::long_rules))]
fn first_of_insns(insns: &[&Written]) -> Option<Passed>
    ensures { option_map seen_passed result ≡ first (long_texts (flat_map spec.insn_texts (all_lent insns.now))) }
{
    for written in insns {
        if let Some(passed) = first_named(&written.name, written.pieces.as_slice()) {
            return Some(passed);
        }
    }
    None
}

/// The first of some words.
#[tactic(auto, using(crate::proofs::Sums::long_rules))]
fn first_word(named: &[NamedValue]) -> Option<Passed>
    ensures { option_map seen_passed result ≡ first (long_texts (map spec.word_text named.now)) }
{
    for word in named {
        if let Some(passed) = long_text(&word.word) {
            return Some(passed);
        }
    }
    None
}

/// The first of the words of a keyword that may be absent.
fn first_of_keyword(keyword: &Option<Keyword>) -> Option<Passed>
    ensures { option_map seen_passed result ≡ first (long_texts (map spec.word_text (named_values keyword.now))) }
{
    match keyword {
        Some(keyword) => first_word(keyword.words.as_slice()),
        None => None,
    }
}

/// The name of hardware, or the first of its words.
#[tactic(auto, using(crate::proofs::Sums::long_rules))]
fn first_of_hardware(alloc: Global, described: &Described, form: &HardwareForm) -> Found
    ensures { IfOk result (λ found. option_map seen_passed found ≡ first (long_texts (spec.hardware_texts (seen_described described.now) form.now))) }
{
    if let Some(passed) = long_text(&form.name) {
        return Ok(Some(passed));
    }
    let keyword = words(alloc, &described.selection, form)?;
    Ok(first_of_keyword(&keyword))
}

/// The first of the texts of a macro instruction.
fn first_of_macro(alloc: Global, form: &MacroForm) -> Found
    ensures { IfOk result (λ found. option_map seen_passed found ≡ first (long_texts (spec.macro_texts form.now))) }
{
    let pieces = all_pieces(alloc, &form.syntax)?;
    Ok(first_named(&form.name, pieces.as_slice()))
}

/// The name of the machine, at the form of its `define-mach`.
#[tactic(auto, using(crate::proofs::Sums::long_rules))]
fn first_of_mach(described: &Described, number: usize, mach: &MachForm) -> Option<Passed>
    ensures { option_map seen_passed result ≡ first (long_texts (spec.mach_texts (seen_described described.now) number mach.now)) }
{
    if number == described.selection.form {
        long_text(&mach.name)
    } else {
        None
    }
}

/// The same of one text alone.
#[tactic(auto, using(crate::proofs::Sums::long_rules))]
fn first_of_one(text: &Text) -> Option<Passed>
    ensures { option_map seen_passed result ≡ first (long_texts (text.now ∷ [])) }
{
    long_text(text)
}

/// The first of the texts that a machine keeps of an element, its error texts aside.
fn first_kept(alloc: Global, of: &Subject) -> Found
    ensures { IfOk result (λ found. option_map seen_passed found ≡ first (long_texts (spec.kept_texts (described_in of.now) of.now.number (insns_in of.now) (element_in of.now)))) }
{
    match of.element {
        Element::Field(_) => Ok(first_of_one(of.element.name())),
        Element::Hardware(form) => first_of_hardware(alloc, of.described, form),
        Element::Operand(OperandForm::Plain(form)) => Ok(first_of_one(&form.name)),
        Element::Insn(InsnForm::Instruction(_)) => Ok(first_of_insns(of.insns)),
        Element::Insn(InsnForm::Macro(form)) => first_of_macro(alloc, form),
        Element::Frame(Frame::Mach(form)) => Ok(first_of_mach(of.described, of.number, form)),
        _ => Ok(None),
    }
}

/// The first of the error texts of a form.
fn first_error_text(alloc: Global, of: &Subject) -> Found
    ensures { IfOk result (λ found. option_map seen_passed found ≡ first (long_texts (spec.error_texts (described_in of.now) (insns_in of.now) (element_in of.now) (form_in of.now)))) }
{
    let selection = &of.described.selection;
    let texts = texts_with(alloc, selection, of.element, &of.top.form, of.insns)?;
    Ok(first_long(texts.as_slice()))
}

/// E308: the first of the texts that a machine keeps of a form that is longer than 4,194,304 bytes.
#[tactic(auto, using(crate::proofs::Sums::long_rules))]
pub(crate) fn first_long_text(alloc: Global, of: &Subject) -> Found
    ensures { IfOk result (λ found. option_map seen_passed found ≡ first (spec.of_texts (described_in of.now) of.now.number (insns_in of.now) (element_in of.now) (form_in of.now))) }
{
    if let Some(passed) = first_error_text(alloc, of)? {
        return Ok(Some(passed));
    }
    first_kept(alloc, of)
}
