//! What a line says.

ghost use Rattle.std.specs.Prelude.{◌≡◌, ◌≤◌, length, drop};
ghost use Rattle.std.specs.List.{list_all, prefix_len};
ghost use Rattle.cg_base.specs.Texts.{is_among};
ghost use Rattle.cg_syntax_lines.specs.Parts.{data_directives, room_directives};
ghost use Rattle.cg_syntax_lines.specs.Seen.{seen_labelled, seen_statement, seen_line};
ghost use Rattle.cg_model_source.specs.Lining as spec;
ghost use Rattle.cg_model_source.specs.Spelling.{is_in_label};

use crate::blank::{first_word, is_blank, trimmed, uncommented, without_front};
use cg_syntax_spelling::{is_in_label, is_label};

/// The statement of a line (docs/ASSEMBLY.md, "Sources").
#[derive(Clone, Copy)]
pub enum Statement<'a> {
    /// There is none.
    Nothing,
    /// A directive.
    Directive {
        /// Its name, with its dot.
        name: &'a [u8],
        /// What stands behind its name, without the blanks around.
        rest: &'a [u8],
    },
    /// Instructions joined by `||`, without the blanks around.
    Bundle(&'a [u8]),
}

/// What a line says (docs/ASSEMBLY.md, "Sources").
#[derive(Clone, Copy)]
pub struct Line<'a> {
    /// The label that it defines.
    pub label: Option<&'a [u8]>,
    /// Its statement.
    pub statement: Statement<'a>,
}

/// A label in front of a line, and what stands behind it.
#[derive(Clone, Copy)]
pub(crate) struct Labelled<'a> {
    pub(crate) label: Option<&'a [u8]>,
    pub(crate) rest: &'a [u8],
}

/// Whether a byte may stand in a line.
fn is_line_byte(byte: u8) -> bool
    ensures { result ≡ spec.is_line_byte byte }
{
    byte == b'\t' || byte == b'\r' || (b' ' <= byte && byte <= b'~')
}

/// Whether each byte of a line may stand in one.
fn are_line_bytes(line: &[u8]) -> bool
    ensures { result ≡ list_all spec.is_line_byte line.now }
{
    line.iter().all(|byte| is_line_byte(*byte))
}

/// Whether a line may be read: it has bytes 9, 13 and 32 to 126 alone, and at most `longest` of them
/// (docs/ASSEMBLY.md, "Sources"). Otherwise it is refused as E608.
pub fn is_readable(longest: usize, line: &[u8]) -> bool
    ensures { result ≡ spec.is_readable longest line.now }
{
    are_line_bytes(line) && line.len() <= longest
}

/// How many characters of a label a text begins with.
#[tactic(auto, using(crate::proofs::Blanks::at_most))]
fn label_len(text: &[u8]) -> usize
    ensures count { result ≡ prefix_len is_in_label text.now }
    ensures within { result ≤ length text.now }
{
    text.iter().take_while(|byte| is_in_label(**byte)).count()
}

/// Whether a label may stand in front of what stands behind its `:`.
fn ends_label(rest: &[u8]) -> bool
    ensures { result ≡ spec.ends_label rest.now }
{
    match rest.first() {
        Some(byte) => is_blank(*byte),
        None => true,
    }
}

/// A line whose label may be this, in front of `behind`.
fn label_before<'a>(line: &'a [u8], name: &'a [u8], behind: &'a [u8]) -> Labelled<'a>
    ensures { seen_labelled result ≡ spec.label_before line.now name.now behind.now }
{
    match behind {
        [b':', rest @ ..] if is_label(name) && ends_label(rest) => Labelled {
            label: Some(name),
            rest,
        },
        _ => Labelled {
            label: None,
            rest: line,
        },
    }
}

/// The label of a line, and what stands behind it.
fn with_label(line: &[u8]) -> Labelled<'_>
    ensures { seen_labelled result ≡ spec.labelled line.now }
{
    let front = without_front(line);
    let (name, behind) = front.split_at(label_len(front));
    label_before(line, name, behind)
}

/// Whether a name is that of a directive that lays down what stands behind it.
fn is_data_directive(name: &[u8]) -> bool
    ensures { result ≡ is_among data_directives name.now }
{
    name == b".byte".as_slice()
        || name == b".half".as_slice()
        || name == b".word".as_slice()
        || name == b".ascii".as_slice()
}

/// Whether a name is that of a directive that lays down zeros or nothing.
fn is_room_directive(name: &[u8]) -> bool
    ensures { result ≡ is_among room_directives name.now }
{
    name == b".space".as_slice()
        || name == b".org".as_slice()
        || name == b".align".as_slice()
        || name == b".isa".as_slice()
}

/// Whether a name is that of a directive.
#[tactic(auto, using(crate::proofs::Named::naming))]
fn is_directive(name: &[u8]) -> bool
    ensures { result ≡ is_among spec.directives name.now }
{
    is_data_directive(name) || is_room_directive(name)
}

/// What stands behind so many characters.
fn behind(text: &[u8], count: usize) -> &[u8]
    ensures { result.now ≡ drop count text.now }
{
    text.get(count..).unwrap_or(&[])
}

/// The statement of a text that begins with this word.
fn with_name<'a>(text: &'a [u8], name: &'a [u8]) -> Statement<'a>
    ensures { seen_statement result ≡ spec.with_name text.now name.now }
{
    if !is_directive(name) {
        return Statement::Bundle(text);
    }
    Statement::Directive {
        name,
        rest: trimmed(behind(text, name.len())),
    }
}

/// The statement that a text is, which has no blanks around.
fn statement_in(text: &[u8]) -> Statement<'_>
    ensures { seen_statement result ≡ spec.statement_in text.now }
{
    if text.is_empty() {
        return Statement::Nothing;
    }
    with_name(text, first_word(text))
}

/// What a line says: its label, and its statement, which ends at the first `;` outside a string
/// (docs/ASSEMBLY.md, "Sources").
#[tactic(auto, unfolding(cg_model_source::specs::Lining::read_line))]
pub fn read_line(line: &[u8]) -> Line<'_>
    ensures { seen_line result ≡ spec.read_line line.now }
{
    let labelled = with_label(line);
    Line {
        label: labelled.label,
        statement: statement_in(trimmed(uncommented(labelled.rest))),
    }
}
