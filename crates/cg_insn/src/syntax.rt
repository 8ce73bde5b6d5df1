//! The pieces of a syntax.

ghost use Rattle.std.specs.Prelude.{◌≡◌, [], ◌∷◌, ◌++◌, drop, IfOk, OnOk};
ghost use Rattle.std.specs.Option.{option_map};
ghost use Rattle.std.specs.List.{list_all, position, prefix_len};
ghost use Rattle.cg_base.specs.Refusing.{least};
ghost use Rattle.cg_base.specs.Answering.{GivesForm};
ghost use Rattle.cg_insn.specs.Syntax.{seen_piece, is_name_byte, is_literal_byte, begins_with_bar, has_bars, is_literal, is_closing, slot_named, slot_in_braces, bare_slot, slot, up_to_slot, literal_of, literal, first_piece, pieces_of, is_syntax, syntax_faults, Writes, Rereads};

use cg_base::{Fault, List, NoMemory, Stop, Text, refusals, stop_at};
use std::alloc::Global;

/// A piece of a syntax (docs/LANGUAGE.md, "Instructions").
#[derive(Debug, Drop, Clone, PartialEq, Eq)]
pub enum NamedPiece {
    /// Bytes that stand for themselves, one at least, with no `$` among them.
    Literal(Text),
    /// The name of `$name` or `${name}`, without `$` and braces: one byte at least.
    Slot(Text),
}

/// A piece that lies in the text of its syntax.
#[derive(Clone, Copy, Debug)]
pub(crate) enum LentPiece<'a> {
    /// Bytes that stand for themselves.
    Literal(&'a [u8]),
    /// The name of a slot.
    Slot(&'a [u8]),
}

/// Whether the byte is one of a slot's name.
fn is_name_byte(byte: u8) -> bool
    ensures { result ≡ is_name_byte byte }
{
    matches!(byte, b'0'..=b'9' | b'A'..=b'Z' | b'a'..=b'z' | b'_')
}

/// Whether the byte may stand in a literal.
fn is_literal_byte(byte: u8) -> bool
    ensures { result ≡ is_literal_byte byte }
{
    matches!(byte, b'\t' | b'\n' | b'\r' | b' '..=b'~') && byte != b'"' && byte != b';'
}

/// Whether the text begins with `|`.
fn begins_with_bar(text: &[u8]) -> bool
    ensures { result ≡ begins_with_bar text.now }
{
    match text.split_first() {
        Some((first, _)) => *first == b'|',
        None => false,
    }
}

/// Whether `||` stands in the text.
fn has_bars(text: &[u8]) -> bool
    ensures { result ≡ has_bars text.now }
{
    let mut rest = text;
    while let Some((first, after)) = rest.split_first() {
        if *first == b'|' && begins_with_bar(after) {
            return true;
        }
        rest = after;
    }
    false
}

/// Whether each of the bytes may stand in a literal.
fn are_literal_bytes(text: &[u8]) -> bool
    ensures { result ≡ list_all is_literal_byte text.now }
{
    text.iter().all(|byte| is_literal_byte(*byte))
}

/// Whether the text may be a literal.
fn is_literal(text: &[u8]) -> bool
    ensures { result ≡ is_literal text.now }
{
    are_literal_bytes(text) && !has_bars(text)
}

/// The slot of this name, with as many bytes behind its first. None exactly where the name has no
/// byte.
fn slot_named(name: &[u8], more: usize) -> Option<(LentPiece<'_>, usize)>
    ensures { option_map (λ x. (seen_piece x.0, x.1)) result ≡ slot_named name.now more }
{
    if name.is_empty() {
        None
    } else {
        Some((LentPiece::Slot(name), more))
    }
}

/// The place of the first `}`.
fn closing(text: &[u8]) -> Option<usize>
    ensures { result ≡ position is_closing text.now }
{
    text.iter().position(|byte| *byte == b'}')
}

/// The slot whose `${` stands in front of these bytes.
fn slot_in_braces(text: &[u8]) -> Option<(LentPiece<'_>, usize)>
    ensures { option_map (λ x. (seen_piece x.0, x.1)) result ≡ slot_in_braces text.now }
{
    let count = closing(text)?;
    slot_named(&text[..count], count + 2)
}

/// How many bytes of a name the text begins with.
fn name_length(text: &[u8]) -> usize
    ensures { result ≡ prefix_len is_name_byte text.now }
{
    text.iter().take_while(|byte| is_name_byte(**byte)).count()
}

/// How many bytes there are up to the next slot.
fn up_to_slot(text: &[u8]) -> usize
    ensures { result ≡ up_to_slot text.now }
{
    text.iter().take_while(|byte| **byte != b'$').count()
}

/// The slot whose `$` stands in front of these bytes, without braces.
fn bare_slot(text: &[u8]) -> Option<(LentPiece<'_>, usize)>
    ensures { option_map (λ x. (seen_piece x.0, x.1)) result ≡ bare_slot text.now }
{
    let count = name_length(text);
    slot_named(&text[..count], count)
}

/// The slot whose `$` stands in front of these bytes.
fn slot(text: &[u8]) -> Option<(LentPiece<'_>, usize)>
    ensures { option_map (λ x. (seen_piece x.0, x.1)) result ≡ slot text.now }
{
    match text {
        [] => None,
        [b'{', inner @ ..] => slot_in_braces(inner),
        _ => bare_slot(text),
    }
}

/// The literal that these bytes are.
fn literal_of(text: &[u8]) -> Option<(LentPiece<'_>, usize)>
    ensures { option_map (λ x. (seen_piece x.0, x.1)) result ≡ literal_of text.now }
{
    if is_literal(text) {
        Some((LentPiece::Literal(text), text.len().saturating_sub(1)))
    } else {
        None
    }
}

/// The literal that the text begins with.
fn literal(text: &[u8]) -> Option<(LentPiece<'_>, usize)>
    ensures { option_map (λ x. (seen_piece x.0, x.1)) result ≡ literal text.now }
{
    literal_of(&text[..up_to_slot(text)])
}

/// The piece that the text begins with, and how many bytes it has there behind its first.
fn first_piece(text: &[u8]) -> Option<(LentPiece<'_>, usize)>
    ensures { option_map (λ x. (seen_piece x.0, x.1)) result ≡ first_piece text.now }
{
    match text {
        [] => None,
        [b'$', rest @ ..] => slot(rest),
        _ => literal(text),
    }
}

/// What stands behind so many bytes.
fn behind(text: &[u8], count: usize) -> &[u8]
    ensures { result.now ≡ drop count text.now }
{
    text.get(count..).unwrap_or(&[])
}

/// Whether the text is a syntax: `$name`, with a name of letters, digits and `_`, and `${name}` are
/// slots, and all else is literal. It is none where `$` has neither behind it, or a literal has
/// `;`, `"`, `||` or a byte that a string of a description may not have (docs/LANGUAGE.md,
/// "Instructions").
#[tactic(auto, unfolding(crate::specs::Syntax::pieces_behind), using(crate::proofs::Behind::passed))]
pub fn is_syntax(text: &[u8]) -> bool
    ensures { result ≡ is_syntax text.now }
{
    let mut rest = text;
    while let Some((_, after)) = rest.split_first() {
        match first_piece(rest) {
            Some((_, more)) => rest = behind(after, more),
            None => return false,
        }
    }
    true
}

/// A piece in memory of its own.
fn owned(alloc: Global, piece: LentPiece<'_>) -> Result<NamedPiece, NoMemory>
    ensures { IfOk result (λ owned. owned ≡ seen_piece piece.entry) }
{
    match piece {
        LentPiece::Literal(text) => Ok(NamedPiece::Literal(Text::of(alloc, text)?)),
        LentPiece::Slot(name) => Ok(NamedPiece::Slot(Text::of(alloc, name)?)),
    }
}

/// Puts a piece at the end of others. Where there is no memory for it, they stay as they were.
fn put(alloc: Global, pieces: &mut List<NamedPiece>, piece: LentPiece<'_>) -> Result<(), NoMemory>
    ensures { OnOk result (pieces.new ≡ pieces.old ++ seen_piece piece.entry ∷ []) }
{
    pieces.push(owned(alloc, piece)?)?;
    Ok(())
}

/// The pieces of a syntax. None exactly where the text is none.
#[tactic(auto, unfolding(crate::specs::Syntax::pieces_behind))]
fn split(alloc: Global, text: &[u8]) -> Result<Option<List<NamedPiece>>, NoMemory>
    ensures { IfOk result (λ pieces. pieces ≡ pieces_of text.now) }
{
    let mut pieces = List::new(alloc);
    let mut rest = text;
    while let Some((_, after)) = rest.split_first() {
        match first_piece(rest) {
            Some((piece, more)) => {
                put(alloc, &mut pieces, piece)?;
                rest = behind(after, more);
            }
            None => return Ok(None),
        }
    }
    Ok(Some(pieces))
}

/// The pieces of a syntax, in order: the only ones that are written so, where a literal goes up to
/// the next slot and `$name` as far as a name's bytes do. Otherwise E304 with the text `syntax`,
/// exactly where `is_syntax` doesn't hold; file and line are 0 (docs/REFUSALS.md).
#[tactic(auto, using(crate::proofs::Written::written, crate::proofs::Reread::reread))]
pub fn pieces(alloc: Global, syntax: &Text) -> Result<List<NamedPiece>, Stop>
    ensures written { IfOk result (λ pieces. Writes pieces syntax.now) }
    ensures alone { Rereads syntax.now }
    ensures answer { GivesForm 0 0 (least (syntax_faults syntax.now)) (pieces_of syntax.now) result }
{
    match split(alloc, syntax.as_slice())? {
        Some(pieces) => Ok(pieces),
        None => Err(stop_at(alloc, 0, 0, NO_SYNTAX)),
    }
}

/// The fault of a text that is no syntax.
const NO_SYNTAX: Fault<'static> = Fault {
    number: refusals::WRONG_KIND,
    text: b"syntax",
};
