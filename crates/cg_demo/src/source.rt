ghost use Rattle.std.specs.Prelude.{◌≡◌, ◌≤◌, ◌++◌, IfOk, OnOk, codes};
ghost use Rattle.cg_demo.specs.Demo.{next, value, statement, drawn_statement, statements};

use crate::draws::Draws;
use cg_base::{NoMemory, Text};
use std::alloc::Global;

/// The line of a statement.
fn statement(alloc: Global, k: u64, d: u64, a: u64, value: i64) -> Result<Text, NoMemory>
    ensures { IfOk result (λ text. text ≡ statement k d a value) }
{
    let line = format!(in alloc; "i{k} r{d},r{a},{value}\n")?;
    Text::of(alloc, line.as_bytes())
}

/// The constant of a statement, from -2,048 to 2,047.
fn value(draw: u64) -> i64
    ensures { result ≡ value draw }
{
    (draw % 4096) as i64 - 2048
}

/// A statement of one of `count` instructions.
fn drawn_statement(alloc: Global, draws: &mut Draws, count: u64) -> Result<Text, NoMemory>
    requires { 1 ≤ count }
    ensures text { IfOk result (λ text. text ≡ drawn_statement count draws.old.state) }
    ensures draws { draws.new.state ≡ next (next (next (next draws.old.state))) }
{
    let k = draws.draw() % count;
    let d = draws.draw() % 16;
    let a = draws.draw() % 16;
    let value = value(draws.draw());
    statement(alloc, k, d, a, value)
}

/// Puts so many statements at the end of a text.
#[tactic(auto, using(crate::proofs::Walks::statement_rules))]
fn put_statements(
    alloc: Global,
    text: &mut Text,
    draws: &mut Draws,
    count: u64,
    lines: u64,
) -> Result<(), NoMemory>
    requires { 1 ≤ count }
    ensures { OnOk result (text.new ≡ text.old ++ statements count draws.old.state lines) }
{
    for _i in 0..lines {
        let line = drawn_statement(alloc, draws, count)?;
        text.append(line.as_slice())?;
    }
    Ok(())
}

/// A source of 4,096 statements and `halt`.
pub(crate) fn source(alloc: Global, draws: &mut Draws, count: u64) -> Result<Text, NoMemory>
    requires { 1 ≤ count }
    ensures { IfOk result (λ text. text ≡ statements count draws.old.state 4096 ++ codes "halt\n") }
{
    let mut text = Text::new(alloc);
    put_statements(alloc, &mut text, draws, count, 4096)?;
    text.append(b"halt\n")?;
    Ok(text)
}
