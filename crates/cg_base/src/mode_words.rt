//! The words for modes (docs/LANGUAGE.md, "Modes").

ghost use Rattle.std.specs.Prelude.{◌≡◌, map};
ghost use Rattle.cg_base.specs.Texts.{seen_text, is_among};
ghost use Rattle.cg_base.specs.ModeWords.{is_value_mode, gives_mode, is_mode};

/// The words for the modes that a value may have.
static VALUE_MODES: [&[u8]; 15] = [
    b"BI", b"QI", b"HI", b"SI", b"DI", b"UQI", b"UHI", b"USI", b"UDI", b"INT", b"UINT", b"WI",
    b"UWI", b"AI", b"IAI",
];

/// Whether the text is one of these.
pub fn is_among(texts: &[&[u8]], text: &[u8]) -> bool
    ensures { result ≡ is_among (map seen_text texts.now) text.now }
{
    for each in texts {
        if *each == text {
            return true;
        }
    }
    false
}

/// Whether a word is a mode that a value may have, which neither `VOID` nor `DFLT` is.
pub fn is_value_mode(word: &[u8]) -> bool
    ensures { result ≡ is_value_mode word.now }
{
    is_among(VALUE_MODES.as_slice(), word)
}

/// Whether a word gives a mode: one that a value may have, or `VOID`.
pub fn gives_mode(word: &[u8]) -> bool
    ensures { result ≡ gives_mode word.now }
{
    word == b"VOID".as_slice() || is_value_mode(word)
}

/// Whether a word is a mode. `DFLT` is one that is as no mode written.
pub fn is_mode(word: &[u8]) -> bool
    ensures { result ≡ is_mode word.now }
{
    word == b"DFLT".as_slice() || gives_mode(word)
}
