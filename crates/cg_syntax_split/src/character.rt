//! The characters of a text, and those of a syntax.

ghost use Rattle.std.specs.Prelude.{◌≡◌, Bool};
ghost use Rattle.cg_model_source.specs.Squeezing as spec;
ghost use Rattle.cg_model_source.specs.declared.written.Mark.TheVariants.{Byte};

use cg_model_source::Mark;

/// A character, of which some are blanks.
pub(crate) trait Character: Copy {
    ghost blank: { Self → Bool };

    ghost joining: { Self → Bool };

    ghost single: { Self };

    /// Whether it is a blank.
    fn is_blank(self) -> bool
        ensures { result ≡ blank self };

    /// Whether a blank keeps it apart from another such character.
    fn is_joining(self) -> bool
        ensures { result ≡ joining self };

    /// The blank that stands for all blanks between two characters.
    fn space() -> Self
        ensures { result ≡ single };
}

impl Character for u8 {
    ghost blank = { spec.is_blank };

    ghost joining = { spec.is_joining };

    ghost single = { 32 };

    fn is_blank(self) -> bool {
        self == b' ' || self == b'\t'
    }

    fn is_joining(self) -> bool {
        self.is_ascii_alphanumeric() || matches!(self, b'_' | b'.' | b'%' | b'$' | b'+' | b'-')
    }

    fn space() -> Self {
        b' '
    }
}

impl Character for Mark {
    ghost blank = { spec.is_blank_mark };

    ghost joining = { spec.is_joining_mark };

    ghost single = { Byte 32 };

    fn is_blank(self) -> bool {
        match self {
            Mark::Byte(byte) => byte.is_blank(),
            Mark::Slot(_) => false,
        }
    }

    fn is_joining(self) -> bool {
        match self {
            Mark::Byte(byte) => byte.is_joining(),
            Mark::Slot(_) => true,
        }
    }

    fn space() -> Self {
        Mark::Byte(b' ')
    }
}
