ghost use Rattle.std.specs.Prelude.{◌≡◌, ◌++◌, IfOk, OnOk};
ghost use Rattle.cg_demo.specs.Demo.{head, operation, instruction_line, instructions, halt_line, drawn, after};

use crate::draws::Draws;
use cg_base::{NoMemory, Text};
use std::alloc::Global;

/// The lines in front of the instructions.
fn head() -> &'static [u8]
    ensures { result.now ≡ head }
{
    b"(include \"simplify.inc\")
(define-arch (name l32) (insn-lsb0? #t) (machs l32) (isas l32))
(define-isa (name l32) (base-insn-bitsize 32))
(define-cpu (name l32c) (endian little) (word-bitsize 32))
(define-mach (name l32) (cpu l32c))
(dnf f-k \"\" () 31 12)
(dnf f-rd \"\" () 19 4)
(dnf f-ra \"\" () 15 4)
(df f-imm \"\" () 11 12 INT #f #f)
(dnh h-gr \"\" () (register SI (16)) (keyword \"\" (.map (.pmacro (n) (.list (.sym r n) n)) (.iota 16))) () ())
(dnop rd \"\" () h-gr f-rd)
(dnop ra \"\" () h-gr f-ra)
(dnop imm \"\" () h-sint f-imm)
"
}

/// The operation of an instruction.
fn operation(draw: u64) -> &'static str
    ensures { result.now ≡ operation draw }
{
    match draw % 8 {
        0 => "add",
        1 => "sub",
        2 => "mul",
        3 => "and",
        4 => "or",
        5 => "xor",
        6 => "sll",
        _ => "srl",
    }
}

/// The line of the k-th instruction.
fn instruction_line(alloc: Global, k: u64, operation: &str) -> Result<Text, NoMemory>
    ensures { IfOk result (λ text. text ≡ instruction_line k operation.now) }
{
    let line = format!(in alloc;
        "(dni i{k} \"\" () \"i{k} $rd,$ra,$imm\" (+ (f-k {k}) rd ra imm) (set rd ({operation} ra imm)) ())\n"
    )?;
    Text::of(alloc, line.as_bytes())
}

/// Puts the lines of `count` instructions at the end of a text.
#[tactic(auto, using(crate::proofs::Walks::instruction_rules))]
fn put_instructions(
    alloc: Global,
    text: &mut Text,
    draws: &mut Draws,
    count: u64,
) -> Result<(), NoMemory>
    ensures text { OnOk result (text.new ≡ text.old ++ instructions draws.old.state count) }
    ensures draws { OnOk result (draws.new.state ≡ after count draws.old.state) }
{
    for k in 0..count {
        let line = instruction_line(alloc, k, operation(draws.draw()))?;
        text.append(line.as_slice())?;
    }
    Ok(())
}

/// The description of a machine with `count` instructions and `halt`.
pub(crate) fn description(alloc: Global, draws: &mut Draws, count: u64) -> Result<Text, NoMemory>
    ensures text { IfOk result (λ text. text ≡ head ++ instructions draws.old.state count ++ halt_line) }
    ensures draws { OnOk result (draws.new.state ≡ after count draws.old.state) }
{
    let mut text = Text::of(alloc, head())?;
    put_instructions(alloc, &mut text, draws, count)?;
    text.append(b"(dni halt \"\" () \"halt\" (+ (f-k 4095)) (c-call VOID \"cgen_halt\" 0) ())\n")?;
    Ok(text)
}
