//! Rules for the names in a clause.

ghost use Rattle.std.specs.Prelude.{◌≡◌, ◌++◌, map, IfOk, OnOk};
ghost use Rattle.cg_attrs.specs.Clauses.{seen_clause};
ghost use Rattle.cg_desc_fault_name.specs.Names as spec;
ghost use Rattle.cg_desc_fault_report.specs.Spots.{place_at};

use cg_attrs::Clause;
use cg_base::{Form, List, NoMemory, Text, only_word};
use cg_desc_choices::{Spot, WrittenPiece};
use cg_desc_elements::Kind;
use cg_desc_fault_report::{Placed, only_text, place_at, put_at};
use cg_desc_insns::{all_pieces, own_spot};
use cg_desc_references::{Finding, Place, Reference, parts_in, put_names, put_part, put_slots};
use std::alloc::Global;

/// A rule for names that stand for other elements.
pub(crate) trait NameRule {
    ghost use Rattle.std.specs.Prelude.{Bool};
    ghost use Rattle.cg_desc_references.specs.declared.finding.Finding.{Finding as Found};
    ghost use Rattle.cg_desc_references.specs.declared.reference.Reference.{Reference as Referred};

    /// Whether a name is at fault where it stands.
    ghost wrong: { Self → Referred → Bool };

    /// Whether a name is at fault that stands for this.
    ghost fault: { Self → Found → Bool };

    /// Whether a name is at fault where it stands.
    fn is_wrong(&self, reference: &Reference) -> bool
        ensures { result ≡ wrong self.now reference.now };

    /// Whether a name is at fault that stands for this.
    fn is_fault(&self, finding: Finding) -> bool
        ensures { result ≡ fault self.now finding };
}

/// Puts the name of a reference at the end, which stands there, where it is at fault.
fn put_name<R: NameRule>(
    alloc: Global,
    rule: &R,
    list: &mut List<Placed>,
    place: List<usize>,
    reference: &Reference,
) -> Result<(), NoMemory>
    ensures { OnOk result (list.new ≡ list.old ++ spec.of_name (R.wrong rule.now) (spec.name_at place reference.now)) }
{
    if rule.is_wrong(reference) {
        put_at(list, place, only_text(alloc, reference.name.as_slice())?)
    } else {
        Ok(())
    }
}

/// Puts those of some names at the end that are at fault, which all stand at a spot.
fn put_names_at<R: NameRule>(
    alloc: Global,
    rule: &R,
    list: &mut List<Placed>,
    spot: Spot,
    references: &[Reference],
) -> Result<(), NoMemory>
    ensures { OnOk result (list.new ≡ list.old ++ spec.of_names (R.wrong rule.now) (map (spec.name_at (place_at spot)) references.now)) }
{
    for reference in references {
        put_name(alloc, rule, list, place_at(alloc, spot)?, reference)?;
    }
    Ok(())
}

/// The place of this number in a clause.
fn place_of(alloc: Global, number: usize) -> Result<List<usize>, NoMemory>
    ensures { IfOk result (λ place. place ≡ spec.place_of number) }
{
    let mut place = List::new(alloc);
    place.push(number)?;
    Ok(place)
}

/// The same of names that stand one behind the other.
fn put_in_turn<R: NameRule>(
    alloc: Global,
    rule: &R,
    list: &mut List<Placed>,
    references: &[Reference],
) -> Result<(), NoMemory>
    ensures { OnOk result (list.new ≡ list.old ++ spec.of_names (R.wrong rule.now) (spec.names_from 0 references.now)) }
{
    for (number, reference) in references.iter().enumerate() {
        put_name(alloc, rule, list, place_of(alloc, number)?, reference)?;
    }
    Ok(())
}

/// Puts the slot of a piece at the end, where it is at fault.
fn put_of_piece<R: NameRule>(
    alloc: Global,
    rule: &R,
    list: &mut List<Placed>,
    piece: &WrittenPiece,
) -> Result<(), NoMemory>
    ensures { OnOk result (list.new ≡ list.old ++ spec.of_names (R.wrong rule.now) (spec.piece_names piece.now)) }
{
    let mut references = List::new(alloc);
    put_slots(
        &mut references,
        Place::Slot,
        std::slice::from_ref(&piece.piece),
    )?;
    put_names_at(alloc, rule, list, piece.spot, references.as_slice())
}

/// The same of pieces.
fn put_of_pieces<R: NameRule>(
    alloc: Global,
    rule: &R,
    list: &mut List<Placed>,
    pieces: &[WrittenPiece],
) -> Result<(), NoMemory>
    ensures { OnOk result (list.new ≡ list.old ++ spec.of_pieces (R.wrong rule.now) pieces.now) }
{
    for piece in pieces {
        put_of_piece(alloc, rule, list, piece)?;
    }
    Ok(())
}

/// The text of a syntax, and no bytes where none stands there.
fn syntax_text(alloc: Global, forms: &[Form]) -> Result<Text, NoMemory>
    ensures { IfOk result (λ text. text ≡ spec.syntax_text forms.now) }
{
    match only_word(forms) {
        Some(text) => Ok(text.clone()?),
        None => Ok(Text::new(alloc)),
    }
}

/// The same of the syntax that stands behind a clause's name.
#[tactic(auto, using(crate::proofs::Joining::joining_rules))]
fn put_of_syntax<R: NameRule>(
    alloc: Global,
    rule: &R,
    list: &mut List<Placed>,
    forms: &[Form],
) -> Result<(), NoMemory>
    ensures { OnOk result (list.new ≡ list.old ++ spec.of_names (R.wrong rule.now) (spec.syntax_names forms.now)) }
{
    let text = syntax_text(alloc, forms)?;
    let pieces = all_pieces(alloc, &text)?;
    put_of_pieces(alloc, rule, list, pieces.as_slice())
}

/// Puts the name in a part at the end, which stands at this place among others, where it is at fault.
fn put_of_part<R: NameRule>(
    alloc: Global,
    rule: &R,
    list: &mut List<Placed>,
    item: usize,
    form: &Form,
) -> Result<(), NoMemory>
    ensures { OnOk result (list.new ≡ list.old ++ spec.of_names (R.wrong rule.now) (spec.part_names item form.now)) }
{
    let mut references = List::new(alloc);
    put_part(&mut references, Place::Part, form)?;
    put_names_at(alloc, rule, list, own_spot(item), references.as_slice())
}

/// The same of the parts of a format.
#[tactic(auto, using(crate::proofs::Joining::joining_rules))]
fn put_of_parts<R: NameRule>(
    alloc: Global,
    rule: &R,
    list: &mut List<Placed>,
    parts: &[Form],
) -> Result<(), NoMemory>
    ensures { OnOk result (list.new ≡ list.old ++ spec.of_names (R.wrong rule.now) (spec.parts_names 0 parts.now)) }
{
    for (item, form) in parts.iter().enumerate() {
        put_of_part(alloc, rule, list, item, form)?;
    }
    Ok(())
}

/// The same of all names in a clause, one behind the other.
fn put_of_clause<R: NameRule>(
    alloc: Global,
    rule: &R,
    list: &mut List<Placed>,
    selected: bool,
    kind: Kind,
    clause: Clause<'_>,
) -> Result<(), NoMemory>
    ensures { OnOk result (list.new ≡ list.old ++ spec.of_names (R.wrong rule.now) (spec.clause_names selected kind (seen_clause clause.entry))) }
{
    let mut references = List::new(alloc);
    put_names(alloc, &mut references, selected, kind, clause)?;
    put_in_turn(alloc, rule, list, references.as_slice())
}

/// The same of a clause of an instruction.
fn put_of_insn<R: NameRule>(
    alloc: Global,
    rule: &R,
    list: &mut List<Placed>,
    selected: bool,
    clause: Clause<'_>,
) -> Result<(), NoMemory>
    ensures { OnOk result (list.new ≡ list.old ++ spec.of_names (R.wrong rule.now) (spec.insn_names selected (seen_clause clause.entry))) }
{
    match clause.name {
        b"syntax" => put_of_syntax(alloc, rule, list, clause.content),
        b"format" => put_of_parts(alloc, rule, list, parts_in(clause.content)),
        _ => put_of_clause(alloc, rule, list, selected, Kind::Insn, clause),
    }
}

/// Puts those names in a clause of a form that gives an element of this kind at the end that are at fault:
/// slots and parts of instructions at their places, all others one behind the other. `selected` says
/// whether the form is that of the selected instruction set.
pub(crate) fn put_of_names<R: NameRule>(
    alloc: Global,
    rule: &R,
    list: &mut List<Placed>,
    selected: bool,
    kind: Kind,
    clause: Clause<'_>,
) -> Result<(), NoMemory>
    ensures { OnOk result (list.new ≡ list.old ++ spec.of_names (R.wrong rule.now) (spec.placed_names selected kind (seen_clause clause.entry))) }
{
    match kind {
        Kind::Insn => put_of_insn(alloc, rule, list, selected, clause),
        other => put_of_clause(alloc, rule, list, selected, other, clause),
    }
}
