ghost use Rattle.std.specs.Prelude.{◌≡◌, ◌+◌, IfOk};
ghost use Rattle.cg_model_faults.specs.E308 as spec;

use cg_base::NoMemory;
use cg_model::{Field, Hardware, Insn, Multi, Rtl};

/// Two counts together. More than a u64 counts is in no memory.
pub fn add(a: u64, b: u64) -> Result<u64, NoMemory>
    ensures { IfOk result (λ sum. sum ≡ a + b) }
{
    match a.checked_add(b) {
        Some(sum) => Ok(sum),
        None => Err(NoMemory),
    }
}

/// How many nodes an expression has.
#[tactic(auto, using(crate::proofs::Firsts::node_rules))]
pub fn nodes(rtl: &Rtl) -> Result<u64, NoMemory>
    ensures { IfOk result (λ count. count ≡ spec.nodes rtl.now) }
{
    let mut count = 1;
    for item in rtl.items.as_slice() {
        count = add(count, nodes(item)?)?;
    }
    Ok(count)
}

/// The nodes of an expression, where there is one.
fn nodes_where(rtl: &Option<Rtl>) -> Result<u64, NoMemory>
    ensures { IfOk result (λ count. count ≡ spec.nodes_where rtl.now) }
{
    match rtl {
        Some(rtl) => Ok(nodes(rtl)?),
        None => Ok(0),
    }
}

/// The nodes of several.
#[tactic(auto, using(crate::proofs::Firsts::node_rules))]
fn nodes_of_all(rtls: &[Rtl]) -> Result<u64, NoMemory>
    ensures { IfOk result (λ count. count ≡ spec.nodes_of_all rtls.now) }
{
    let mut count = 0;
    for rtl in rtls {
        count = add(count, nodes(rtl)?)?;
    }
    Ok(count)
}

/// The nodes of the expressions of a field.
pub fn field_nodes(field: &Field) -> Result<u64, NoMemory>
    ensures { IfOk result (λ count. count ≡ spec.field_nodes field.now) }
{
    let encode = nodes_where(&field.encode)?;
    let decode = nodes_where(&field.decode)?;
    Ok(add(encode, decode)?)
}

/// The nodes of the expressions of a multi field.
pub fn multi_nodes(multi: &Multi) -> Result<u64, NoMemory>
    ensures { IfOk result (λ count. count ≡ spec.multi_nodes multi.now) }
{
    let insert = nodes_of_all(multi.insert.as_slice())?;
    let extract = nodes(&multi.extract)?;
    Ok(add(insert, extract)?)
}

/// The nodes of the expressions of hardware.
pub fn hardware_nodes(hardware: &Hardware) -> Result<u64, NoMemory>
    ensures { IfOk result (λ count. count ≡ spec.hardware_nodes hardware.now) }
{
    let get = nodes_where(&hardware.get)?;
    let set = nodes_where(&hardware.set)?;
    Ok(add(get, set)?)
}

/// The nodes of the expressions of an instruction.
pub fn insn_nodes(insn: &Insn) -> Result<u64, NoMemory>
    ensures { IfOk result (λ count. count ≡ spec.insn_nodes insn.now) }
{
    let assertion = nodes_where(&insn.assertion)?;
    let semantics = nodes(&insn.semantics)?;
    Ok(add(assertion, semantics)?)
}
