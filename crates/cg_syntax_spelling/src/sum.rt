//! Sums of numbers and labels.

ghost use Rattle.std.specs.Prelude.{◌≡◌, ◌-◌, ◌^◌, ◌≤◌, not, pos, neg_ℤ, ◌≤ℤ◌, ◌+ℤ◌, ◌-ℤ◌, if◌then◌else◌, length, IfOk};
ghost use Rattle.std.specs.Option.{option_map};
ghost use Rattle.std.specs.List.{prefix_len};
ghost use Rattle.cg_model_source.specs.Spelling as spec;
ghost use Rattle.cg_syntax_spelling.specs.Adding.{first_part, next_part, Adds};

use crate::character::is_label;
use crate::keyword::Keywords;
use cg_base::{List, NoMemory, Text, read_number};
use cg_model_source::{Sum, Term};
use std::alloc::Global;

/// Whether a character is a sign.
fn is_sign(byte: u8) -> bool
    ensures { result ≡ spec.is_sign byte }
{
    byte == b'+' || byte == b'-'
}

/// How many characters the part has that a text begins with.
#[tactic(auto, using(crate::proofs::Parting::at_most))]
fn part_len(text: &[u8]) -> usize
    ensures count { result ≡ prefix_len (λ b. not (spec.is_sign b)) text.now }
    ensures within { result ≤ length text.now }
{
    text.iter().take_while(|b| !is_sign(**b)).count()
}

/// A part of a sum and all behind it: whether it is taken off, and the text.
fn first_part(text: &[u8]) -> (bool, &[u8])
    ensures { (result.0, result.1.now) ≡ first_part text.now }
{
    match text {
        [sign, rest @ ..] if is_sign(*sign) => (*sign == b'-', rest),
        _ => (false, text),
    }
}

/// The same of what stands behind a part.
fn next_part(text: &[u8]) -> Option<(bool, &[u8])>
    ensures { option_map (λ x. (x.0, x.1.now)) result ≡ next_part text.now }
{
    match text {
        [sign, rest @ ..] => Some((*sign == b'-', rest)),
        [] => None,
    }
}

/// A number and another one, which is added or taken off.
fn plus_number(sum: i128, minus: bool, number: u64) -> i128
    requires high { sum ≤ℤ pos (2 ^ 127 - 2 ^ 64) }
    requires low { neg_ℤ (pos (2 ^ 127 - 2 ^ 64)) ≤ℤ sum }
    ensures { result ≡ (if minus then sum -ℤ pos number else sum +ℤ pos number) }
{
    if minus {
        sum - number as i128
    } else {
        sum + number as i128
    }
}

/// Puts a part to a sum, where it is a number or a label: whether it is.
#[tactic(auto, using(crate::proofs::Adding::part_adding))]
fn add_part(
    alloc: Global,
    keywords: &Keywords,
    sum: &mut Sum,
    minus: bool,
    part: &[u8],
) -> Result<bool, NoMemory>
    requires high { sum.old.number ≤ℤ pos (2 ^ 127 - 2 ^ 64) }
    requires low { neg_ℤ (pos (2 ^ 127 - 2 ^ 64)) ≤ℤ sum.old.number }
    ensures adds { IfOk result (λ is. Adds keywords.now sum.old (record { minus = minus; text = part.now }) is sum.new) }
    ensures high { sum.new.number ≤ℤ (sum.old.number +ℤ pos (2 ^ 64)) }
    ensures low { (sum.old.number -ℤ pos (2 ^ 64)) ≤ℤ sum.new.number }
{
    if let Some(number) = read_number(part) {
        sum.number = plus_number(sum.number, minus, number);
        return Ok(true);
    }
    if !is_label(part) || keywords.has(alloc, part)? {
        return Ok(false);
    }
    let label = Text::of(alloc, part)?;
    sum.terms.push(Term { label, minus })?;
    Ok(true)
}

/// The sum that a text writes (docs/ASSEMBLY.md, "Sums"): numbers and labels with signs between them, and
/// a sign in front if need be. None exactly where the text is no sum: no label may be a keyword.
#[tactic(auto, using(crate::proofs::Adding::adding), unfolding(cg_model_source::specs::Spelling::sum_of))]
pub fn sum_of(alloc: Global, keywords: &Keywords, text: &[u8]) -> Result<Option<Sum>, NoMemory>
    ensures { IfOk result (λ sum. sum ≡ spec.sum_of keywords.now text.now) }
{
    let mut sum = Sum {
        number: 0,
        terms: List::new(alloc),
    };
    let (mut minus, mut rest) = first_part(text);
    'parts: loop {
        let (part, behind) = rest.split_at(part_len(rest));
        if !add_part(alloc, keywords, &mut sum, minus, part)? {
            return Ok(None);
        }
        match next_part(behind) {
            Some((sign, after)) => {
                minus = sign;
                rest = after;
            }
            None => return Ok(Some(sum)),
        }
    }
}
