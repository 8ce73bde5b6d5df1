ghost use Rattle.std.specs.Prelude.{◌≡◌, IfOk};
ghost use Rattle.cg_demo.specs.Demo as made;

use crate::description::description;
use crate::draws::Draws;
use crate::source::source;
use cg_base::{NoMemory, Text};
use std::alloc::Global;

/// A made description, and a source for its machine `l32`.
#[derive(Drop)]
pub struct Example {
    /// From 65 to 1,025 instructions: `i0`, `i1` and so on, and last `halt`.
    pub description: Text,
    /// 4,096 statements, and last `halt`.
    pub source: Text,
}

/// The example of a number. docs/RUNNING.md, "The made example", says what is in it.
pub fn demo(alloc: Global, number: u64) -> Result<Example, NoMemory>
    ensures description { IfOk result (λ example. example.description ≡ made.description number) }
    ensures source { IfOk result (λ example. example.source ≡ made.source number) }
{
    let count = 64 + number % 961;
    let mut draws = Draws { state: number };
    let description = description(alloc, &mut draws, count)?;
    let source = source(alloc, &mut draws, count)?;
    Ok(Example {
        description,
        source,
    })
}
