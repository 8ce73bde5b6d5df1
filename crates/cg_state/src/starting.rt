ghost use Rattle.std.specs.Prelude.{◌≡◌, ◌+◌, ◌++◌, ◌∷◌, [], true, IfOk, replicate};
ghost use Rattle.cg_model.specs.Formed.{is_cpu_word};
ghost use Rattle.cg_model_effects.specs.Effects.{ram_size};
ghost use Rattle.cg_state.specs.Starting.{cells_in, registers_from, all_cells};

use crate::register::Register;
use cg_base::NoMemory;
use cg_model::{Hardware, HwKind};
use std::alloc::Global;

/// The registers of hardware, and how many cells they have in all.
pub(crate) fn registers_of(
    alloc: Global,
    hardware: &[Hardware],
) -> Result<(Vec<Register>, u32), NoMemory>
    ensures { IfOk result (λ r.
        (r.0.items ≡ registers_from 0 hardware.now) × (r.1 ≡ all_cells hardware.now)) }
{
    let mut registers = Vec::new(alloc);
    let mut first = 0u32;
    for h in hardware {
        let count = cells_in(h);
        registers.push(Register { first, count })?;
        first = first.checked_add(count).ok_or(NoMemory)?;
    }
    Ok((registers, first))
}

/// How many cells hardware has.
fn cells_in(hardware: &Hardware) -> u32
    ensures { result ≡ cells_in hardware.now }
{
    match hardware.kind {
        HwKind::Register => hardware.count,
        _ => 0,
    }
}

/// How many bytes of RAM there are.
pub(crate) fn ram_size(word_bits: u8) -> usize
    requires { is_cpu_word word_bits ≡ true }
    ensures { result ≡ ram_size word_bits }
{
    if word_bits == 8 {
        128
    } else if word_bits == 16 {
        32_768
    } else {
        1_048_576
    }
}
