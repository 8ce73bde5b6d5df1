ghost use Rattle.std.specs.Prelude.{◌≡◌, ◌<◌, ◌≤◌, [], ◌∷◌, ◌++◌, not, map, length, drop, MatchOption, IfOk, OnOk};
ghost use Rattle.std.specs.List.{prefix_len};
ghost use Rattle.cg_model_source.specs.Squeezing as spec;
ghost use Rattle.cg_syntax_split.specs.Gaps.{wants_space, with_space, gap_behind};

use crate::character::Character;
use cg_base::{List, NoMemory, Text};
use cg_model::Piece;
use cg_model_source::Mark;
use std::alloc::Global;

/// Where a space stands in front of the next word.
#[derive(Clone, Copy)]
pub(crate) enum Gap {
    /// Nowhere: no word stands before it.
    Start,
    /// In any case: one word stands before it.
    Space,
    /// Where both sides join: whether the last character before it does.
    Joining(bool),
}

/// How many blanks the text begins with.
#[tactic(auto, using(crate::proofs::Words::at_most))]
fn blanks<C: Character>(text: &[C]) -> usize
    ensures count { result ≡ prefix_len C.blank text.now }
    ensures within { result ≤ length text.now }
{
    text.iter().take_while(|c| c.is_blank()).count()
}

/// How many characters the word has that the text begins with.
#[tactic(auto, using(crate::proofs::Words::at_most))]
fn word_len<C: Character>(text: &[C]) -> usize
    ensures count { result ≡ prefix_len (λ c. not (C.blank c)) text.now }
    ensures within { result ≤ length text.now }
{
    text.iter().take_while(|c| !c.is_blank()).count()
}

/// What stands behind the blanks in front.
fn without_front<C: Character>(text: &[C]) -> &[C]
    ensures { result.now ≡ drop (prefix_len C.blank text.now) text.now }
{
    let (_, rest) = text.split_at(blanks(text));
    rest
}

/// The next word of a text, and what stands behind it.
#[tactic(auto, using(crate::proofs::Words::none_left, crate::proofs::Words::one_word, crate::proofs::Words::shorter))]
fn next_word<C: Character>(text: &[C]) -> Option<(&[C], &[C])>
    ensures word { MatchOption result (spec.words C.blank text.now ≡ []) (λ x. spec.words C.blank text.now ≡ x.0.now ∷ spec.words C.blank x.1.now) }
    ensures less { MatchOption result Unit (λ x. length x.1.now < length text.now) }
{
    let front = without_front(text);
    if front.is_empty() {
        return None;
    }
    Some(front.split_at(word_len(front)))
}

/// Whether the first character of a word joins.
fn begins<C: Character>(word: &[C]) -> bool
    ensures { result ≡ spec.begins C.joining word.now }
{
    match word.first() {
        Some(c) => c.is_joining(),
        None => false,
    }
}

/// Whether the last character of a word joins.
#[tactic(auto, using(crate::proofs::Words::last_joins))]
fn ends<C: Character>(word: &[C]) -> bool
    ensures { result ≡ spec.ends C.joining word.now }
{
    match word.last() {
        Some(c) => c.is_joining(),
        None => false,
    }
}

/// Whether a space stands in front of a word that begins so.
fn wants_space(gap: Gap, joins: bool) -> bool
    ensures { result ≡ wants_space gap joins }
{
    match gap {
        Gap::Start => false,
        Gap::Space => true,
        Gap::Joining(before) => before && joins,
    }
}

/// Where a space stands behind a word that ends so.
fn gap_behind(gap: Gap, joins: bool) -> Gap
    ensures { result ≡ gap_behind gap joins }
{
    match gap {
        Gap::Start => Gap::Space,
        Gap::Space | Gap::Joining(_) => Gap::Joining(joins),
    }
}

/// Puts a word behind others, with a space where one stands.
fn put_word<C: Character>(out: &mut Vec<C>, gap: Gap, word: &[C]) -> Result<(), NoMemory>
    ensures { OnOk result (out.new.items ≡ out.old.items ++ with_space C.joining C.single gap word.now) }
{
    if wants_space(gap, begins(word)) {
        out.push(C::space())?;
    }
    out.extend_from_slice(word)?;
    Ok(())
}

/// The words of a text with single spaces.
#[tactic(auto, using(crate::proofs::Gaps::spacing))]
fn spaced<C: Character>(alloc: Global, text: &[C]) -> Result<Vec<C>, NoMemory>
    ensures { IfOk result (λ out. out.items ≡ spec.spaced C.joining C.single (spec.words C.blank text.now)) }
{
    let mut out = Vec::new(alloc);
    let mut gap = Gap::Start;
    let mut rest = text;
    while let Some((word, behind)) = next_word(rest) {
        put_word(&mut out, gap, word)?;
        gap = gap_behind(gap, ends(word));
        rest = behind;
    }
    Ok(out)
}

/// A text squeezed (docs/ASSEMBLY.md, "Statements"): blanks and tabs at both ends are gone, each run of
/// them is one blank, and each blank is gone but the first that has on one side a character other than
/// letters, digits and `_ . % $ + -`.
pub fn squeezed(alloc: Global, text: &[u8]) -> Result<Text, NoMemory>
    ensures { IfOk result (λ squeezed. squeezed ≡ spec.squeezed text.now) }
{
    let squeezed = spaced(alloc, text)?;
    Text::of(alloc, squeezed.as_slice())
}

/// Puts the characters of a literal behind others.
fn put_literal(marks: &mut Vec<Mark>, text: &[u8]) -> Result<(), NoMemory>
    ensures { OnOk result (marks.new.items ≡ marks.old.items ++ map Mark.Byte text.now) }
{
    for byte in text {
        marks.push(Mark::Byte(*byte))?;
    }
    Ok(())
}

/// Puts a piece of a syntax behind others.
fn put_piece(marks: &mut Vec<Mark>, piece: &Piece) -> Result<(), NoMemory>
    ensures { OnOk result (marks.new.items ≡ marks.old.items ++ spec.marks (piece.now ∷ [])) }
{
    match piece {
        Piece::Literal(text) => put_literal(marks, text.as_slice())?,
        Piece::Slot(slot) => marks.push(Mark::Slot(*slot))?,
    }
    Ok(())
}

/// The characters and slots of a syntax.
fn marks(alloc: Global, pieces: &[Piece]) -> Result<Vec<Mark>, NoMemory>
    ensures { IfOk result (λ marks. marks.items ≡ spec.marks pieces.now) }
{
    let mut marks = Vec::new(alloc);
    for piece in pieces {
        put_piece(&mut marks, piece)?;
    }
    Ok(marks)
}

/// A syntax squeezed as a text is. A slot counts as a letter.
pub fn squeezed_syntax(alloc: Global, pieces: &[Piece]) -> Result<List<Mark>, NoMemory>
    ensures { IfOk result (λ squeezed. squeezed ≡ spec.squeezed_syntax pieces.now) }
{
    let marks = marks(alloc, pieces)?;
    let squeezed = spaced(alloc, marks.as_slice())?;
    Ok(List::from_vec(squeezed))
}
