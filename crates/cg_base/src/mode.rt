ghost use Rattle.std.specs.Prelude.{◌≡◌};
ghost use Rattle.cg_base.specs.Modes as spec;
ghost use Rattle.cg_base.specs.Modes.{bits_of, is_signed};

/// The mode of a value: how many bits it has, and whether the highest is a sign
/// (docs/LANGUAGE.md, "Modes").
#[derive(Clone, Copy, Debug, PartialEq, Eq)]
pub enum Mode {
    /// One bit.
    Bi,
    /// 8 bits with a sign.
    Qi,
    /// 16 bits with a sign.
    Hi,
    /// 32 bits with a sign.
    Si,
    /// 64 bits with a sign.
    Di,
    /// 8 bits without a sign.
    Uqi,
    /// 16 bits without a sign.
    Uhi,
    /// 32 bits without a sign.
    Usi,
    /// 64 bits without a sign.
    Udi,
    /// No value.
    Void,
}

/// The order of the bytes of a number.
#[derive(Clone, Copy, Debug, PartialEq, Eq)]
pub enum Endian {
    /// The most significant byte comes first.
    Big,
    /// The least significant byte comes first.
    Little,
}

/// How many bits a value of the mode has, from 1 to 64, and 0 for `Void`.
pub fn bits(mode: Mode) -> u8
    ensures { result ≡ bits_of mode }
{
    match mode {
        Mode::Bi => 1,
        Mode::Qi | Mode::Uqi => 8,
        Mode::Hi | Mode::Uhi => 16,
        Mode::Si | Mode::Usi => 32,
        Mode::Di | Mode::Udi => 64,
        Mode::Void => 0,
    }
}

/// Whether the highest bit of a value of the mode is its sign.
pub fn signed(mode: Mode) -> bool
    ensures { result ≡ is_signed mode }
{
    matches!(mode, Mode::Qi | Mode::Hi | Mode::Si | Mode::Di)
}

/// The mode of the cpu's word, with a sign: that of 8, 16, 32 or 64 bits, and of 64 for any other number.
pub fn word_mode(bits: u8) -> Mode
    ensures { result ≡ spec.word_mode bits }
{
    match bits {
        8 => Mode::Qi,
        16 => Mode::Hi,
        32 => Mode::Si,
        _ => Mode::Di,
    }
}

/// The mode of an address, where the cpu's word has so many bits: the word's, without a sign.
pub fn address_mode(bits: u8) -> Mode
    ensures { result ≡ spec.address_mode bits }
{
    match bits {
        8 => Mode::Uqi,
        16 => Mode::Uhi,
        32 => Mode::Usi,
        _ => Mode::Udi,
    }
}

/// The place of a mode among all modes, from 0: as table files number them.
pub fn mode_place(mode: Mode) -> u8
    ensures { result ≡ spec.mode_place mode }
{
    match mode {
        Mode::Bi => 0,
        Mode::Qi => 1,
        Mode::Hi => 2,
        Mode::Si => 3,
        Mode::Di => 4,
        Mode::Uqi => 5,
        Mode::Uhi => 6,
        Mode::Usi => 7,
        Mode::Udi => 8,
        Mode::Void => 9,
    }
}

/// The word for a mode, as refusals name it (docs/LANGUAGE.md, "Modes").
pub fn mode_word(mode: Mode) -> &'static [u8]
    ensures { result.now ≡ spec.mode_word mode }
{
    match mode {
        Mode::Bi => b"BI",
        Mode::Qi => b"QI",
        Mode::Hi => b"HI",
        Mode::Si => b"SI",
        Mode::Di => b"DI",
        Mode::Uqi => b"UQI",
        Mode::Uhi => b"UHI",
        Mode::Usi => b"USI",
        Mode::Udi => b"UDI",
        Mode::Void => b"VOID",
    }
}
