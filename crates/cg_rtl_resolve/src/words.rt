//! The words for modes, and what they stand for.

ghost use Rattle.std.specs.Prelude.{◌≡◌, map};
ghost use Rattle.cg_base.specs.Modes.{word_mode, address_mode};
ghost use Rattle.cg_rtl_resolve.specs.Names.{found_under, mode_words, meant, mode_named, mode_first};
ghost use Rattle.cg_rtl_resolve.specs.Read.{seen_word};

use cg_base::{Form, Mode, address_mode, word_mode};
use cg_rtl::first_symbol;

/// What a word for a mode says.
#[derive(Clone, Copy)]
pub enum Wording {
    /// This mode.
    Plain(Mode),
    /// The mode of the cpu's word.
    Word,
    /// The mode of an address.
    Address,
}

/// A word for a mode.
struct ModeWord {
    word: &'static [u8],
    wording: Wording,
}

/// Says what a word stands for.
macro_rules! says {
    ($word:expr, $wording:expr) => {
        ModeWord {
            word: $word,
            wording: $wording,
        }
    };
}

/// The words for modes.
static MODE_WORDS: [ModeWord; 16] = [
    says!(b"BI", Wording::Plain(Mode::Bi)),
    says!(b"QI", Wording::Plain(Mode::Qi)),
    says!(b"HI", Wording::Plain(Mode::Hi)),
    says!(b"SI", Wording::Plain(Mode::Si)),
    says!(b"DI", Wording::Plain(Mode::Di)),
    says!(b"UQI", Wording::Plain(Mode::Uqi)),
    says!(b"UHI", Wording::Plain(Mode::Uhi)),
    says!(b"USI", Wording::Plain(Mode::Usi)),
    says!(b"UDI", Wording::Plain(Mode::Udi)),
    says!(b"INT", Wording::Plain(Mode::Si)),
    says!(b"UINT", Wording::Plain(Mode::Usi)),
    says!(b"WI", Wording::Word),
    says!(b"UWI", Wording::Address),
    says!(b"AI", Wording::Address),
    says!(b"IAI", Wording::Address),
    says!(b"VOID", Wording::Plain(Mode::Void)),
];

/// The words for modes.
#[tactic(auto, unfolding(crate::specs::Names::mode_words))]
fn mode_words() -> &'static [ModeWord]
    ensures { map seen_word result.now ≡ mode_words }
{
    MODE_WORDS.as_slice()
}

/// What a word stands for among these.
fn wording_among(words: &[ModeWord], word: &[u8]) -> Option<Wording>
    ensures { result ≡ found_under word.now (map seen_word words.now) }
{
    for each in words {
        if each.word == word {
            return Some(each.wording);
        }
    }
    None
}

/// The mode that is meant where the cpu's word has so many bits.
fn meant(bits: u8, wording: Wording) -> Mode
    ensures { result ≡ meant bits wording }
{
    match wording {
        Wording::Plain(mode) => mode,
        Wording::Word => word_mode(bits),
        Wording::Address => address_mode(bits),
    }
}

/// The mode that a word stands for, where the cpu's word has so many bits (docs/LANGUAGE.md, "Modes").
/// `DFLT` stands for none.
pub fn mode_named(bits: u8, word: &[u8]) -> Option<Mode>
    ensures { result ≡ mode_named bits word.now }
{
    match wording_among(mode_words(), word) {
        Some(wording) => Some(meant(bits, wording)),
        None => None,
    }
}

/// The mode that is written first.
pub fn mode_first(bits: u8, forms: &[Form]) -> Option<Mode>
    ensures { result ≡ mode_first bits forms.now }
{
    match first_symbol(forms) {
        Some(word) => mode_named(bits, word.as_slice()),
        None => None,
    }
}
