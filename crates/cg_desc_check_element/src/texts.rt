ghost use Rattle.std.specs.Prelude.{◌≡◌};
ghost use Rattle.cg_base.specs.Refusing.{first};
ghost use Rattle.cg_model_faults.specs.E308 as spec;

use cg_base::Text;
use cg_desc_check_format::first_passing;
use cg_model::{Keyword, NamedValue, Piece};
use cg_model_faults::MachineFault;

/// E308: over 4,194,304 bytes of a text.
pub fn first_long_text(text: &Text) -> Option<MachineFault>
    ensures { result ≡ first (spec.long_text text.now) }
{
    first_passing(4_194_304, 0, text.len() as u64)
}

/// The same of one of some texts.
#[tactic(auto, using(crate::proofs::Firsts::first_rules))]
pub fn first_long_of_all(texts: &[Text]) -> Option<MachineFault>
    ensures { result ≡ first (spec.long_texts texts.now) }
{
    for text in texts {
        if let Some(fault) = first_long_text(text) {
            return Some(fault);
        }
    }
    None
}

/// The same of one of some words.
#[tactic(auto, using(crate::proofs::Firsts::first_rules))]
fn first_long_of_words(words: &[NamedValue]) -> Option<MachineFault>
    ensures { result ≡ first (spec.long_words words.now) }
{
    for named in words {
        if let Some(fault) = first_long_text(&named.word) {
            return Some(fault);
        }
    }
    None
}

/// The same of the words of hardware, where it has words.
pub fn first_long_word(keyword: &Option<Keyword>) -> Option<MachineFault>
    ensures { result ≡ first (spec.long_words_where keyword.now) }
{
    match keyword {
        Some(keyword) => first_long_of_words(keyword.words.as_slice()),
        None => None,
    }
}

/// The same of a piece of a syntax.
fn first_long_piece(piece: &Piece) -> Option<MachineFault>
    ensures { result ≡ first (spec.long_piece piece.now) }
{
    match piece {
        Piece::Literal(text) => first_long_text(text),
        Piece::Slot(_) => None,
    }
}

/// The same of the literals of a syntax.
#[tactic(auto, using(crate::proofs::Firsts::first_rules))]
pub fn first_long_literal(pieces: &[Piece]) -> Option<MachineFault>
    ensures { result ≡ first (spec.long_literals pieces.now) }
{
    for piece in pieces {
        if let Some(fault) = first_long_piece(piece) {
            return Some(fault);
        }
    }
    None
}
