//! Blanks and comments.

ghost use Rattle.std.specs.Prelude.{◌≡◌, ◌≤◌, false, not, length};
ghost use Rattle.std.specs.List.{prefix_len};
ghost use Rattle.cg_model_source.specs.Lining as spec;
ghost use Rattle.cg_model_source.specs.Squeezing as blanks;

/// Whether a character is a blank or a tab.
pub fn is_blank(byte: u8) -> bool
    ensures { result ≡ blanks.is_blank byte }
{
    byte == b' ' || byte == b'\t'
}

/// How many blanks a text begins with.
#[tactic(auto, using(crate::proofs::Blanks::at_most))]
fn blank_len(text: &[u8]) -> usize
    ensures count { result ≡ prefix_len blanks.is_blank text.now }
    ensures within { result ≤ length text.now }
{
    text.iter().take_while(|byte| is_blank(**byte)).count()
}

/// How many characters the word has that a text begins with.
#[tactic(auto, using(crate::proofs::Blanks::at_most))]
fn word_len(text: &[u8]) -> usize
    ensures count { result ≡ prefix_len (λ b. not (blanks.is_blank b)) text.now }
    ensures within { result ≤ length text.now }
{
    text.iter().take_while(|byte| !is_blank(**byte)).count()
}

/// What stands behind the blanks in front.
pub(crate) fn without_front(text: &[u8]) -> &[u8]
    ensures { result.now ≡ spec.without_front text.now }
{
    let (_, rest) = text.split_at(blank_len(text));
    rest
}

/// What stands in front of the blanks at the end.
#[tactic(auto, using(crate::proofs::Blanks::ending))]
fn without_end(text: &[u8]) -> &[u8]
    ensures { result.now ≡ spec.without_end text.now }
{
    let mut rest = text;
    while let Some((last, front)) = rest.split_last() {
        if !is_blank(*last) {
            return rest;
        }
        rest = front;
    }
    rest
}

/// A text without the blanks in front and at the end.
pub fn trimmed(text: &[u8]) -> &[u8]
    ensures { result.now ≡ spec.trimmed text.now }
{
    without_end(without_front(text))
}

/// The first word of a text.
pub(crate) fn first_word(text: &[u8]) -> &[u8]
    ensures { result.now ≡ spec.first_word text.now }
{
    let front = without_front(text);
    let (word, _) = front.split_at(word_len(front));
    word
}

/// A line up to its comment, which begins at the first `;` outside a string.
#[tactic(auto, using(crate::proofs::Blanks::commenting))]
pub(crate) fn uncommented(text: &[u8]) -> &[u8]
    ensures { result.now ≡ spec.uncommented false text.now }
{
    let mut in_string = false;
    for (i, byte) in text.iter().enumerate() {
        if *byte == b';' && !in_string {
            let (front, _) = text.split_at(i);
            return front;
        }
        if *byte == b'"' {
            in_string = !in_string;
        }
    }
    text
}
