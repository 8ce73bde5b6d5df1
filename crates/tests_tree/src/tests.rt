ghost use Rattle.std.specs.Prelude.{◌≡◌, true};
ghost use Rattle.cg_model.specs.Sound.{IsSound};

use crate::machine::{Constant, add_operand, asserting, empty, insn};
use bumpalo::Bump;
use cg_base::NoMemory;
use cg_desc_check::check;
use cg_desc_check_values::is_formed;
use cg_model::Machine;
use cg_model_laws::faultless_is_sound;
use cg_tree::{Steps, Tree, build};
use std::alloc::Global;
use std::test::Fail;

/// Whether a machine is accepted, and so its instructions may be matched.
fn is_accepted(alloc: Global, machine: &Machine) -> bool
    ensures { result ≡ true → IsSound machine.now }
{
    if !is_formed(machine) {
        return false;
    }
    match check(alloc, machine) {
        Ok(()) => {
            faultless_is_sound(machine);
            true
        }
        Err(_) => false,
    }
}

/// Fields of four bits each, the highest first.
static FOUR: [(u8, u8); 4] = [(12, 4), (8, 4), (4, 4), (0, 4)];

/// Instructions by an operation code, and a constant more where they have one. The last is like the
/// first, and nothing is decoded to it.
static FORMATS: [(Constant, Option<Constant>); 10] = [
    ((0, 1), Some((3, 0))),
    ((0, 1), Some((3, 1))),
    ((0, 1), Some((3, 2))),
    ((0, 1), Some((3, 3))),
    ((0, 1), Some((3, 4))),
    ((0, 2), None),
    ((0, 3), Some((1, 0))),
    ((0, 3), Some((1, 1))),
    ((0, 4), Some((1, 0))),
    ((0, 1), Some((3, 0))),
];

/// A machine with the first of these instructions.
fn machine(alloc: Global, count: usize) -> Result<Machine, NoMemory> {
    let mut made = empty(alloc, &FOUR)?;
    for (k, (code, more)) in FORMATS.iter().enumerate() {
        if k < count {
            let insn = match more {
                Some(more) => insn(alloc, &[*code, *more], k < 9)?,
                None => insn(alloc, &[*code], k < 9)?,
            };
            made.insns.push(insn)?;
        }
    }
    Ok(made)
}

/// Bytes, the instruction that is found in them, and in how many steps.
static CASES: [(&'static [u8], Option<u16>, u64); 14] = [
    (b"\x11\x20", Some(0), 6),
    (b"\x11\x21", Some(1), 5),
    (b"\x1f\x23", Some(3), 5),
    (b"\x11\x24", Some(4), 6),
    (b"\x11\x25", None, 5),
    (b"\x23\xc8", Some(5), 3),
    (b"\x30\xff", Some(6), 4),
    (b"\x31\x03", Some(7), 4),
    (b"\x32\x00", None, 4),
    (b"\x40\x25", Some(8), 4),
    (b"\x41\x25", None, 4),
    (b"\x00\x00", None, 4),
    (b"\x11", None, 6),
    (
        b"\x11\x20\xff\xff\xff\xff\xff\xff\xff\xff\xff\xff\xff\xff\xff\xff\xff\xff",
        Some(0),
        6,
    ),
];

/// The instruction that a tree finds, and in how many steps.
fn found(tree: &Tree, machine: &Machine, bytes: &[u8]) -> (Option<u16>, u64)
    requires { IsSound machine.now }
{
    let mut steps = Steps::new();
    let found = tree.find(machine, bytes, &mut steps);
    (found, steps.count())
}

#[test]
fn instructions_are_found_by_trees(rt: HostRuntime) -> Result<(), Fail> {
    let alloc = rt.alloc();
    let arena = Bump::new(alloc);
    let ten = machine(alloc, 10)?;
    let one = machine(alloc, 1)?;
    assert!(rt; is_accepted(alloc, &ten));
    assert!(rt; is_accepted(alloc, &one));
    let own = build(alloc, &arena, &ten)?;
    let other = build(alloc, &arena, &one)?;
    assert_eq!(rt; other.nodes(), 1);
    for (bytes, want, steps) in CASES {
        assert_eq!(rt; found(&own, &ten, bytes), (want, steps));
        // A leaf that lists the first alone, and numbers that the machine doesn't have.
        let first = want.filter(|k| *k == 0);
        assert_eq!(rt; found(&other, &ten, bytes), (first, 1));
        let (by_first, _) = found(&own, &one, bytes);
        assert_eq!(rt; by_first, first);
    }
    Ok(())
}

#[test]
fn a_leaf_lists_what_no_constant_tells_apart(rt: HostRuntime) -> Result<(), Fail> {
    let alloc = rt.alloc();
    let arena = Bump::new(alloc);
    let mut two = empty(alloc, &FOUR)?;
    add_operand(alloc, &mut two, 1)?;
    // Its second field isn't 15, or is.
    two.insns.push(asserting(alloc, (0, 6), 16, 1)?)?;
    two.insns.push(asserting(alloc, (0, 6), 15, 1)?)?;
    assert!(rt; is_accepted(alloc, &two));
    let tree = build(alloc, &arena, &two)?;
    assert_eq!(rt; tree.nodes(), 1);
    assert_eq!(rt; tree.longest_leaf(), 2);
    assert_eq!(rt; found(&tree, &two, b"\x61\x00"), (Some(0), 1));
    assert_eq!(rt; found(&tree, &two, b"\x6f\x00"), (Some(1), 2));
    assert_eq!(rt; found(&tree, &two, b"\x71\x00"), (None, 2));
    Ok(())
}

#[test]
fn as_many_instructions_as_there_may_be(rt: HostRuntime) -> Result<(), Fail> {
    let alloc = rt.alloc();
    let arena = Bump::new(alloc);
    let mut all = empty(alloc, &[(4, 12)])?;
    for code in 0..4096 {
        all.insns.push(insn(alloc, &[(0, code)], true)?)?;
    }
    assert!(rt; is_accepted(alloc, &all));
    let tree = build(alloc, &arena, &all)?;
    // Each bit halves the candidates.
    assert_eq!(rt; tree.nodes(), 8191);
    assert_eq!(rt; tree.longest_leaf(), 1);
    assert_eq!(rt; found(&tree, &all, b"\x00\x0f"), (Some(0), 13));
    assert_eq!(rt; found(&tree, &all, b"\x5a\xb0"), (Some(0x5ab), 13));
    assert_eq!(rt; found(&tree, &all, b"\xff\xf7"), (Some(4095), 13));
    Ok(())
}
