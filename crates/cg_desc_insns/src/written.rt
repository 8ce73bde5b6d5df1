//! An instruction as its form says it.

ghost use Rattle.std.specs.Prelude.{◌≡◌, [], IfOk};
ghost use Rattle.std.specs.Option.{option_copied, option_map, unwrap_or};
ghost use Rattle.cg_insn.specs.Syntax.{pieces_of};
ghost use Rattle.cg_desc_names.specs.Table.{known};
ghost use Rattle.cg_desc_insns.specs.Written.{only_in, expression_in, pieces_from, all_pieces, written_of};

use crate::parts::{own_spot, parts_of};
use cg_base::{Form, List, NoMemory, Stop, Text, only};
use cg_desc_choices::{Written, WrittenPiece};
use cg_desc_elements::Element;
use cg_desc_names::Names;
use cg_desc_references::Place;
use cg_insn::{InstructionForm, NamedPiece, pieces};
use std::alloc::Global;

/// The one form that stands behind a clause's name. None where the clause is no list, or has none or more
/// behind its name (docs/LANGUAGE.md, "Forms and clauses").
#[tactic(auto, unfolding(crate::specs::Written::only_in))]
pub fn only_in(clause: &Form) -> Option<&Form>
    ensures { option_copied result ≡ only_in clause.now }
{
    only(clause.elements()?)
}

/// The expression that stands behind a clause's name, or the clause as it is where not one form stands
/// there (docs/LANGUAGE.md, "RTL").
pub fn expression_in(clause: &Form) -> &Form
    ensures { result.now ≡ expression_in clause.now }
{
    match only_in(clause) {
        Some(form) => form,
        None => clause,
    }
}

/// The expression of a clause that may be absent.
pub(crate) fn own_expression(clause: Option<&Form>) -> Result<Option<Form>, NoMemory>
    ensures { IfOk result (λ form. form ≡ option_map expression_in (option_copied clause.entry)) }
{
    match clause {
        Some(clause) => Ok(Some(expression_in(clause).clone()?)),
        None => Ok(None),
    }
}

/// The pieces of a syntax, none of what is no syntax.
fn pieces_or_none(alloc: Global, text: &Text) -> Result<List<NamedPiece>, NoMemory>
    ensures { IfOk result (λ list. list ≡ unwrap_or (pieces_of text.now) []) }
{
    match pieces(alloc, text) {
        Ok(list) => Ok(list),
        Err(Stop::Refused(_)) => Ok(List::new(alloc)),
        Err(Stop::NoMemory) => Err(NoMemory),
    }
}

/// The pieces, each with its place among them.
fn placed(alloc: Global, pieces: &[NamedPiece]) -> Result<List<WrittenPiece>, NoMemory>
    ensures { IfOk result (λ list. list ≡ pieces_from 0 pieces.now) }
{
    let mut list = List::new(alloc);
    for (item, piece) in pieces.iter().enumerate() {
        list.push(WrittenPiece {
            piece: piece.clone()?,
            spot: own_spot(item),
        })?;
    }
    Ok(list)
}

/// The pieces of a syntax, each with its place there, and none of a text that is no syntax
/// (docs/LANGUAGE.md, "Instructions"). NoMemory where memory runs out.
pub fn all_pieces(alloc: Global, text: &Text) -> Result<List<WrittenPiece>, NoMemory>
    ensures { IfOk result (λ list. list ≡ all_pieces text.now) }
{
    let pieces = pieces_or_none(alloc, text)?;
    placed(alloc, pieces.as_slice())
}

/// The instruction that the form of this number says, with its anyof operands.
#[tactic(auto, unfolding(crate::specs::Written::written_of))]
pub(crate) fn written_of(
    alloc: Global,
    names: &Names,
    elements: &[Element],
    form: usize,
    instruction: &InstructionForm,
) -> Result<Written, NoMemory>
    ensures { IfOk result (λ written. written ≡ written_of (known names.now) elements.now form instruction.now) }
{
    Ok(Written {
        form,
        name: instruction.name.clone()?,
        pieces: all_pieces(alloc, &instruction.syntax)?,
        parts: parts_of(alloc, names, elements, Place::Part, &instruction.format)?,
        assertion: own_expression(instruction.ifield_assertion.as_ref())?,
        choice_assertions: List::new(alloc),
        semantics: expression_in(&instruction.semantics).clone()?,
    })
}
