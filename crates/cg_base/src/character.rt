ghost use Rattle.std.specs.Prelude.{◌≡◌};
ghost use Rattle.cg_base.specs.Characters as spec;

/// Whether a word of hardware may have a character, as it is written in source: letters, digits and
/// `_ . % $` (docs/ASSEMBLY.md, "Statements").
pub fn is_in_word(byte: u8) -> bool
    ensures { result ≡ spec.is_in_word byte }
{
    byte.is_ascii_alphanumeric() || byte == b'_' || byte == b'.' || byte == b'%' || byte == b'$'
}

/// Whether a sum of numbers and labels may have a character: letters, digits and `_ . + -`
/// (docs/ASSEMBLY.md, "Sums").
pub fn is_in_sum(byte: u8) -> bool
    ensures { result ≡ spec.is_in_sum byte }
{
    byte.is_ascii_alphanumeric() || byte == b'_' || byte == b'.' || byte == b'+' || byte == b'-'
}
