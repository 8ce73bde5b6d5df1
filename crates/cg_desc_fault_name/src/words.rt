//! Words of keywords, and literals that meet.

ghost use Rattle.std.specs.Prelude.{◌≡◌, ◌++◌, IfOk, OnOk};
ghost use Rattle.std.specs.List.{flat_map};
ghost use Rattle.std.specs.Option.{option_copied};
ghost use Rattle.cg_attrs.specs.Clauses.{seen_clause};
ghost use Rattle.cg_desc_data.specs.Seen.{seen};
ghost use Rattle.cg_desc_fault_name.specs.Words as spec;
ghost use Rattle.cg_desc_fault_report.specs.Subject.{all_lent};

use cg_attrs::{Clause, KeywordForm};
use cg_base::{List, NoMemory, Text, headed_in, only_symbol};
use cg_desc_check_values::{are_all_words, is_piece};
use cg_desc_choices::{Spot, Written, WrittenPiece};
use cg_desc_data::{Selection, keyword_named, words_of};
use cg_desc_elements::Element;
use cg_desc_fault_report::{Placed, only_text, put_at, put_at_spot};
use cg_insn::NamedPiece;
use cg_model::Piece;
use std::alloc::Global;

/// Whether the words of a keyword are words of hardware.
fn has_words(alloc: Global, form: &KeywordForm) -> Result<bool, NoMemory>
    ensures { IfOk result (λ holds. holds ≡ spec.has_words form.now) }
{
    let keyword = words_of(alloc, form)?;
    Ok(are_all_words(keyword.words.as_slice()))
}

/// Puts the name of a keyword at the end, where a word of it is none of hardware's.
fn put_words(
    alloc: Global,
    list: &mut List<Placed>,
    name: &Text,
    form: Option<&KeywordForm>,
) -> Result<(), NoMemory>
    ensures { OnOk result (list.new ≡ list.old ++ spec.wrong_words name.now (option_copied form.entry)) }
{
    match form {
        Some(form) => {
            if has_words(alloc, form)? {
                return Ok(());
            }
            let mut place = List::new(alloc);
            place.push(0)?;
            put_at(list, place, only_text(alloc, name.as_slice())?)
        }
        None => Ok(()),
    }
}

/// The same of a keyword that may be named.
fn put_keyword(
    alloc: Global,
    list: &mut List<Placed>,
    selection: &Selection,
    name: Option<&Text>,
) -> Result<(), NoMemory>
    ensures { OnOk result (list.new ≡ list.old ++ spec.wrong_keyword (seen selection.now) (option_copied name.entry)) }
{
    match name {
        Some(name) => put_words(alloc, list, name, keyword_named(selection, name)),
        None => Ok(()),
    }
}

/// The keyword that `extern-keyword` names in a clause.
#[tactic(auto, unfolding(crate::specs::Words::extern_in))]
fn extern_in<'a>(clause: Clause<'a>) -> Option<&'a Text>
    ensures { option_copied result ≡ spec.extern_in (seen_clause clause.entry) }
{
    match headed_in(clause.content) {
        Some((word, names)) => {
            if b"extern-keyword".as_slice() == word.as_slice() {
                only_symbol(names)
            } else {
                None
            }
        }
        None => None,
    }
}

/// The same in a clause of hardware that gives its words.
fn put_in_hardware(
    alloc: Global,
    list: &mut List<Placed>,
    selection: &Selection,
    clause: Clause<'_>,
) -> Result<(), NoMemory>
    ensures { OnOk result (list.new ≡ list.old ++ spec.in_hardware (seen selection.now) (seen_clause clause.entry)) }
{
    match clause.name {
        b"indices" => put_keyword(alloc, list, selection, extern_in(clause)),
        b"values" => put_keyword(alloc, list, selection, extern_in(clause)),
        _ => Ok(()),
    }
}

/// Puts the name of the keyword that a clause names at the end, where the clause is one of hardware and a
/// word of the keyword is none of hardware's.
pub(crate) fn put_of_words(
    alloc: Global,
    list: &mut List<Placed>,
    selection: &Selection,
    element: &Element,
    clause: Clause<'_>,
) -> Result<(), NoMemory>
    ensures { OnOk result (list.new ≡ list.old ++ spec.of_words (seen selection.now) element.now (seen_clause clause.entry)) }
{
    match element {
        Element::Hardware(_) => put_in_hardware(alloc, list, selection, clause),
        _ => Ok(()),
    }
}

/// Puts `syntax` at the end, where a literal at a spot is none.
fn put_literal(
    alloc: Global,
    list: &mut List<Placed>,
    spot: Spot,
    text: &Text,
) -> Result<(), NoMemory>
    ensures { OnOk result (list.new ≡ list.old ++ spec.wrong_literal spot text.now) }
{
    if is_piece(&Piece::Literal(text.clone()?)) {
        Ok(())
    } else {
        put_at_spot(alloc, list, spot, only_text(alloc, b"syntax")?)
    }
}

/// The same of a piece.
fn put_piece(alloc: Global, list: &mut List<Placed>, piece: &WrittenPiece) -> Result<(), NoMemory>
    ensures { OnOk result (list.new ≡ list.old ++ spec.wrong_piece piece.now) }
{
    match &piece.piece {
        NamedPiece::Literal(text) => put_literal(alloc, list, piece.spot, text),
        NamedPiece::Slot(_) => Ok(()),
    }
}

/// The same of the syntax of an instruction.
fn put_literals(alloc: Global, list: &mut List<Placed>, written: &Written) -> Result<(), NoMemory>
    ensures { OnOk result (list.new ≡ list.old ++ spec.wrong_literals written.now) }
{
    for piece in written.pieces.as_slice() {
        put_piece(alloc, list, piece)?;
    }
    Ok(())
}

/// The same of the syntaxes of instructions.
fn put_all_literals(
    alloc: Global,
    list: &mut List<Placed>,
    insns: &[&Written],
) -> Result<(), NoMemory>
    ensures { OnOk result (list.new ≡ list.old ++ flat_map spec.wrong_literals (all_lent insns.now)) }
{
    for written in insns {
        put_literals(alloc, list, *written)?;
    }
    Ok(())
}

/// Puts `syntax` at the end for each literal of a form's instructions that is none, in the clause of that
/// name.
pub(crate) fn put_of_literals(
    alloc: Global,
    list: &mut List<Placed>,
    insns: &[&Written],
    name: &[u8],
) -> Result<(), NoMemory>
    ensures { OnOk result (list.new ≡ list.old ++ spec.of_literals (all_lent insns.now) name.now) }
{
    match name {
        b"syntax" => put_all_literals(alloc, list, insns),
        _ => Ok(()),
    }
}
