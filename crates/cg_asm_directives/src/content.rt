//! What lines lay down.

ghost use Rattle.std.specs.Prelude.{◌≡◌, ◌<◌, ◌^◌, IfOk};
ghost use Rattle.cg_asm_directives.specs.Telling.{content_at, content_size, order_size, parts_size};
ghost use Rattle.cg_syntax_choose.specs.Indexing.{IsIndex, GivesAll};
ghost use Rattle.cg_syntax_lines.specs.Seen.{seen_statement};
ghost use Rattle.cg_model.specs.Sound.{IsSound};
ghost use Rattle.cg_model_source.specs.Sourcing as sourcing;

use crate::order::{Order, Width, order_of};
use cg_base::{List, NoMemory};
use cg_model::Machine;
use cg_syntax::{Part, part_size, parts_at};
use cg_syntax_choose::Index;
use cg_syntax_lines::bundle_texts;
use std::alloc::Global;

/// What a line lays down.
#[derive(Drop)]
pub enum Content {
    /// What its directive says.
    Directive(Order),
    /// The instructions of a bundle, of which an empty line has none.
    Bundle(List<Part>),
}

/// What a statement lays down at an address.
#[tactic(auto, using(crate::proofs::ContentLemmas::reading))]
pub fn content_of(
    alloc: Global,
    machine: &Machine,
    index: &Index,
    address: u128,
    statement: cg_syntax_lines::Statement<'_>,
) -> Result<Content, NoMemory>
    requires sound { IsSound machine.now }
    requires given { GivesAll machine.now }
    requires index { IsIndex machine.now index.now }
    ensures { IfOk result (λ content. content ≡ content_at machine.now address (seen_statement statement.entry)) }
{
    match statement {
        cg_syntax_lines::Statement::Nothing => Ok(Content::Bundle(List::new(alloc))),
        cg_syntax_lines::Statement::Directive { name, rest } => {
            let order = order_of(alloc, &index.keywords, name, rest)?;
            Ok(Content::Directive(order))
        }
        cg_syntax_lines::Statement::Bundle(text) => {
            let texts = bundle_texts(alloc, text)?;
            let at = (address % (1 << 64)) as u64;
            let parts = parts_at(alloc, machine, index, texts.as_slice(), at)?;
            Ok(Content::Bundle(parts))
        }
    }
}

/// How far it is from an address to the next multiple of a number.
#[tactic(auto, using(crate::proofs::ContentLemmas::multiples))]
fn up_to_multiple(number: u64, address: u128) -> u128
    ensures value { result ≡ sourcing.up_to_multiple number address }
    ensures small { result < 2 ^ 64 }
{
    if number == 0 {
        return 0;
    }
    let number = number as u128;
    (number - address % number) % number
}

/// How many bytes a directive lays down at an address.
pub fn order_size(address: u128, order: &Order) -> u128
    ensures value { result ≡ order_size address order.now }
    ensures small { result < 2 ^ 66 }
{
    match order {
        Order::Data { width, sums, .. } => match width {
            Width::Byte => sums.len() as u128,
            Width::Half => 2 * (sums.len() as u128),
            Width::Word => 4 * (sums.len() as u128),
        },
        Order::Bytes(text) => text.len() as u128,
        Order::Space(number) => *number as u128,
        Order::Origin(number) => (*number as u128).saturating_sub(address),
        Order::Align(number) => up_to_multiple(*number, address),
        Order::Malformed(_) => 0,
    }
}

/// How many bytes the parts of a bundle have.
#[tactic(auto, using(crate::proofs::ContentLemmas::sizing))]
fn parts_size(machine: &Machine, parts: &[Part]) -> u128
    requires { IsSound machine.now }
    ensures value { result ≡ parts_size machine.now parts.now }
    ensures small { result < 2 ^ 72 }
{
    let mut size: u128 = 0;
    for part in parts {
        size += part_size(machine, part) as u128;
    }
    size
}

/// How many bytes a line lays down at an address.
pub fn content_size(machine: &Machine, address: u128, content: &Content) -> u128
    requires { IsSound machine.now }
    ensures value { result ≡ content_size machine.now address content.now }
    ensures small { result < 2 ^ 72 }
{
    match content {
        Content::Directive(order) => order_size(address, order),
        Content::Bundle(parts) => parts_size(machine, parts.as_slice()),
    }
}
