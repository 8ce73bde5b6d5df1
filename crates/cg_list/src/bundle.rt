//! The bundle that bytes begin with, as it is shown.

ghost use Rattle.std.specs.List.{list_any};
ghost use Rattle.std.specs.Prelude.{◌≡◌, ℕ, ◌+◌, ◌*◌, ◌%◌, ◌^◌, ◌<◌, ◌≤◌, ◌==◌, true, length, slice_get, IfOk, IfSome, IsSomeAnd, MatchOption, ⊤};
ghost use Rattle.std.specs.Option.{option_copied, option_map};
ghost use Rattle.cg_code.specs.Coded.{matches_at, values_at};
ghost use Rattle.cg_list.specs.Seen.{seen};
ghost use Rattle.cg_model.specs.Encoding.{own_pc};
ghost use Rattle.cg_model_source.specs.Listing as spec;
ghost use Rattle.cg_model.specs.Sound.{IsSound, SoundField};
ghost use Rattle.cg_syntax.specs.Laying.{HasBundleBit};
ghost use Rattle.cg_syntax.specs.Showing.{shown_at};
ghost use Rattle.cg_tree.specs.Finding.{found};

use cg_base::{NoMemory, Text};
use cg_code::{extract, length};
use cg_model::{Field, Machine, field_bits};
use cg_syntax::show;
use cg_tree::{Steps, Tree};
use std::alloc::Global;

/// A bundle as it is shown.
#[derive(Drop)]
pub(crate) struct Shown {
    pub(crate) text: Text,
    /// How many bytes it has.
    pub(crate) size: usize,
}

/// The instruction that bytes are decoded to by the tree.
fn decoded(machine: &Machine, tree: &Tree, bytes: &[u8]) -> Option<u16>
    requires { IsSound machine.now }
    ensures { result ≡ found tree.now machine.now bytes.now }
{
    let mut steps = Steps::new();
    tree.find(machine, bytes, &mut steps)
}

/// The field of a number, where the machine has it.
#[tactic(auto, using(crate::proofs::Bundled::fields))]
fn field_at(machine: &Machine, k: u16) -> Option<&Field>
    requires { IsSound machine.now }
    ensures value { option_copied result ≡ slice_get machine.now.fields k }
    ensures sound { MatchOption result ⊤ (λ f. SoundField machine.now f.now) }
{
    machine.fields.get(k as usize)
}

/// Whether the bundle's bit says that another instruction follows.
#[tactic(auto, using(crate::proofs::Bundled::going))]
fn goes_on(machine: &Machine, bytes: &[u8]) -> bool
    requires sound { IsSound machine.now }
    requires bit { HasBundleBit machine.now }
    requires long { machine.now.base_bits ≤ 8 * length bytes.now }
    ensures { result ≡ spec.goes_on_by machine.now bytes.now machine.now.bundle }
{
    match machine.bundle {
        Some(k) => match field_at(machine, k) {
            Some(field) => field_bits(machine, field, bytes) == 1,
            None => false,
        },
        None => false,
    }
}

/// How an instruction that bytes match is shown, where it stands at an address.
#[tactic(auto, using(crate::proofs::Bundled::showing))]
fn shown_one(
    alloc: Global,
    machine: &Machine,
    k: u16,
    bytes: &[u8],
    address: u64,
) -> Result<Option<Text>, NoMemory>
    requires sound { IsSound machine.now }
    requires within { k < length machine.now.insns }
    requires matching { matches_at machine.now k bytes.now ≡ true }
    ensures { IfOk result (λ text. text ≡ shown_at machine.now k (values_at machine.now k bytes.now (own_pc machine.now address))) }
{
    let values = extract(machine, k, bytes, address);
    show(alloc, machine, k, &values)
}

/// An instruction in front of the rest of its bundle.
fn joined(text: Text, size: usize, rest: Option<Shown>) -> Result<Option<Shown>, NoMemory>
    requires fits { IfSome rest (λ s. size + s.size < 2 ^ 64) }
    ensures shown { IfOk result (λ s. option_map seen s ≡ spec.bars_before text size (option_map seen rest)) }
    ensures sized { IfOk result (λ o. IfSome o (λ s. IsSomeAnd rest (λ r. s.size ≡ size + r.size))) }
{
    match rest {
        Some(rest) => {
            let mut text = text;
            text.append(b" || ")?;
            text.append(rest.text.as_slice())?;
            Ok(Some(Shown {
                text,
                size: size + rest.size,
            }))
        }
        None => Ok(None),
    }
}

/// The bundle that bytes at an address begin with, of so many instructions at most. None where one of
/// them isn't decoded within the bytes or can't be shown, or where the last that is allowed says that
/// another one follows. The address counts modulo 2^64.
#[tactic(auto, using(crate::proofs::Bundled::bundling))]
pub(crate) fn bundle_from(
    alloc: Global,
    machine: &Machine,
    tree: &Tree,
    most: u8,
    address: u64,
    bytes: &[u8],
) -> Result<Option<Shown>, NoMemory>
    requires sound { IsSound machine.now }
    requires bit { HasBundleBit machine.now }
    ensures shown { IfOk result (λ s. (a : ℕ) → a % 2 ^ 64 ≡ address → option_map seen s ≡ spec.bundle_from machine.now (found tree.now machine.now) most a bytes.now) }
    ensures within { IfOk result (λ o. IfSome o (λ s. s.size ≤ length bytes.now)) }
{
    if most == 0 {
        return Ok(None);
    }
    let k = match decoded(machine, tree, bytes) {
        Some(k) => k,
        None => return Ok(None),
    };
    let size = length(machine, k) as usize;
    let text = match shown_one(alloc, machine, k, bytes, address)? {
        Some(text) => text,
        None => return Ok(None),
    };
    if !goes_on(machine, &bytes[..size]) {
        return Ok(Some(Shown { text, size }));
    }
    let behind = address.wrapping_add(size as u64);
    let rest = bundle_from(alloc, machine, tree, most - 1, behind, &bytes[size..])?;
    Ok(joined(text, size, rest)?)
}

/// Whether a text has an end of a line in it.
fn has_line_end(text: &[u8]) -> bool
    ensures { result ≡ list_any (λ b. b == 10) text.now }
{
    text.iter().any(|byte| *byte == 10)
}

/// Whether a text can be shown: it has no end of a line in it, and at most 3,800 bytes.
#[tactic(auto, using(crate::proofs::Bundled::showable_tests))]
fn is_showable(text: &[u8]) -> bool
    ensures { result ≡ spec.is_showable text.now }
{
    text.len() <= 3800 && !has_line_end(text)
}

/// The bundle that bytes at an address begin with, where it can be shown. The address counts modulo
/// 2^64.
#[tactic(auto, using(crate::proofs::Bundled::showable_rules))]
pub(crate) fn bundle_at(
    alloc: Global,
    machine: &Machine,
    tree: &Tree,
    address: u64,
    bytes: &[u8],
) -> Result<Option<Shown>, NoMemory>
    requires sound { IsSound machine.now }
    requires bit { HasBundleBit machine.now }
    ensures shown { IfOk result (λ s. (a : ℕ) → a % 2 ^ 64 ≡ address → option_map seen s ≡ spec.bundle_at machine.now (found tree.now machine.now) a bytes.now) }
    ensures within { IfOk result (λ o. IfSome o (λ s. s.size ≤ length bytes.now)) }
{
    match bundle_from(alloc, machine, tree, machine.width, address, bytes)? {
        Some(shown) => {
            if is_showable(shown.text.as_slice()) {
                Ok(Some(shown))
            } else {
                Ok(None)
            }
        }
        None => Ok(None),
    }
}
