//! The parts of bundles, of directives and of sources.

ghost use Rattle.std.specs.Prelude.{◌≡◌, ◌≤◌, ◌==◌, not, map, length, IfOk};
ghost use Rattle.std.specs.List.{prefix_len};
ghost use Rattle.cg_base.specs.Texts.{seen_text};
ghost use Rattle.cg_syntax_lines.specs.Parts.{bars_at};
ghost use Rattle.cg_model.specs.Formed.{begins_with_bar};
ghost use Rattle.cg_model_source.specs.Lining as spec;

use crate::blank::trimmed;
use cg_base::NoMemory;
use std::alloc::Global;

/// How many characters stand in front of the first `byte`, or how many there are.
#[tactic(auto, using(crate::proofs::Blanks::at_most))]
fn len_up_to(byte: u8, text: &[u8]) -> usize
    ensures count { result ≡ prefix_len (λ b. not (b == byte)) text.now }
    ensures within { result ≤ length text.now }
{
    text.iter().take_while(|b| **b != byte).count()
}

/// A text parted at each `byte`.
fn parted_at(alloc: Global, byte: u8, text: &[u8]) -> Result<Vec<&[u8]>, NoMemory>
    ensures { IfOk result (λ parts. map seen_text parts.items ≡ spec.parted_at byte text.now) }
{
    let mut parts = Vec::new(alloc);
    let mut rest = text;
    'parts: loop {
        let (part, behind) = rest.split_at(len_up_to(byte, rest));
        parts.push(part)?;
        match behind {
            [_, after @ ..] => rest = after,
            _ => return Ok(parts),
        }
    }
}

/// Whether a text begins with `|`.
fn begins_with_bar(text: &[u8]) -> bool
    ensures { result ≡ begins_with_bar text.now }
{
    match text.first() {
        Some(byte) => *byte == b'|',
        None => false,
    }
}

/// How many characters stand in front of the first `||`, or how many there are.
#[tactic(auto, using(crate::proofs::Parted::barring))]
fn len_up_to_bars(text: &[u8]) -> usize
    ensures count { result ≡ bars_at text.now }
    ensures within { result ≤ length text.now }
{
    let mut count = 0;
    let mut rest = text;
    while let [first, after @ ..] = rest {
        if *first == b'|' && begins_with_bar(after) {
            return count;
        }
        count += 1;
        rest = after;
    }
    count
}

/// A text parted at each `||`, from the left on.
fn parted_at_bars(alloc: Global, text: &[u8]) -> Result<Vec<&[u8]>, NoMemory>
    ensures { IfOk result (λ parts. map seen_text parts.items ≡ spec.parted_at_bars text.now) }
{
    let mut parts = Vec::new(alloc);
    let mut rest = text;
    'parts: loop {
        let (part, behind) = rest.split_at(len_up_to_bars(rest));
        parts.push(part)?;
        match behind {
            [_, _, after @ ..] => rest = after,
            _ => return Ok(parts),
        }
    }
}

/// Texts without the blanks around each.
fn trimmed_all<'a>(alloc: Global, texts: &[&'a [u8]]) -> Result<Vec<&'a [u8]>, NoMemory>
    ensures { IfOk result (λ trimmed. map seen_text trimmed.items ≡ spec.trimmed_all (map seen_text texts.now)) }
{
    let mut all = Vec::new(alloc);
    for text in texts {
        all.push(trimmed(*text))?;
    }
    Ok(all)
}

/// The texts of the instructions of a bundle, between the `||`, without the blanks around each
/// (docs/ASSEMBLY.md, "Sources").
pub fn bundle_texts(alloc: Global, text: &[u8]) -> Result<Vec<&[u8]>, NoMemory>
    ensures { IfOk result (λ texts. map seen_text texts.items ≡ spec.trimmed_all (spec.parted_at_bars text.now)) }
{
    let texts = parted_at_bars(alloc, text)?;
    trimmed_all(alloc, texts.as_slice())
}

/// The texts between commas, without the blanks around each.
pub fn comma_texts(alloc: Global, text: &[u8]) -> Result<Vec<&[u8]>, NoMemory>
    ensures { IfOk result (λ texts. map seen_text texts.items ≡ spec.trimmed_all (spec.parted_at 44 text.now)) }
{
    let texts = parted_at(alloc, b',', text)?;
    trimmed_all(alloc, texts.as_slice())
}

/// The lines of a source. Each ends in front of a byte 10, or at the end.
pub fn line_texts(alloc: Global, source: &[u8]) -> Result<Vec<&[u8]>, NoMemory>
    ensures { IfOk result (λ lines. map seen_text lines.items ≡ spec.parted_at 10 source.now) }
{
    parted_at(alloc, b'\n', source)
}
