ghost use Rattle.std.specs.Prelude.{◌≡◌};
ghost use Rattle.cg_base.specs.Grammar.{kind_of, is_string_byte, next_line};

use cg_base::Kind;

/// What a byte does outside strings and comments.
pub fn kind_at(byte: u8) -> Kind
    ensures { result ≡ kind_of byte }
{
    match byte {
        9 | 10 | 12 | 13 | 32 => Kind::Blank,
        b'"' => Kind::Quote,
        b'(' => Kind::Opening,
        b')' => Kind::Closing,
        b';' => Kind::Semicolon,
        33..=126 => Kind::Letter,
        _ => Kind::Foreign,
    }
}

/// Whether the byte may stand in a string.
pub fn is_string_byte(byte: u8) -> bool
    ensures { result ≡ is_string_byte byte }
{
    matches!(byte, 9 | 10 | 13 | 32..=126)
}

/// The line behind a byte.
pub fn next_line(line: u32, byte: u8) -> u32
    ensures { result ≡ next_line line byte }
{
    if byte == b'\n' {
        line.saturating_add(1)
    } else {
        line
    }
}
