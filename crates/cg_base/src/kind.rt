/// What a byte of a text does outside strings and comments (docs/LANGUAGE.md, "Texts and forms").
#[derive(Clone, Copy, Debug, PartialEq, Eq)]
pub enum Kind {
    /// A blank, a tab or the end of a line: it stands between forms.
    Blank,
    /// A byte of a token.
    Letter,
    /// `(`.
    Opening,
    /// `)`.
    Closing,
    /// `"`: a string begins.
    Quote,
    /// `;`: a comment begins.
    Semicolon,
    /// A byte that may stand in no text.
    Foreign,
}

/// Why a token stands for no form (docs/LANGUAGE.md, "Texts and forms").
#[derive(Clone, Copy, Debug, PartialEq, Eq)]
pub enum NoToken {
    /// It is none of the tokens that there are: E101.
    Unknown,
    /// A number outside -2^63 to 2^63 - 1: E104.
    OutOfRange,
}
