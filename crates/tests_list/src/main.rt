//! Prints the listing of an image on a machine made by hand: by the machine's own decision tree, and by that of a
//! machine that has its first instruction alone. Then in how many steps instructions are found at most in all words
//! of 16 bits, on a machine of 1,024.
#![tactic(auto)]

mod machine;

ghost use Rattle.std.specs.Prelude.{◌≡◌, true};
ghost use Rattle.cg_model.specs.Sound.{IsSound};
ghost use Rattle.cg_model_faults.specs.Accepted.{IsAccepted};

use crate::machine::{machine, many};
use bumpalo::Bump;
use cg_base::{NoMemory, Text, decimal};
use cg_desc_check::check;
use cg_desc_check_values::is_formed;
use cg_io::{HostSink, Sink};
use cg_list::list;
use cg_model::Machine;
use cg_model_laws::accepted_is_sound;
use cg_syntax::{Index, accepted_is_ready};
use cg_tree::{Steps, Tree, build};
use std::alloc::Global;
use std::process::ExitCode;

/// The image that is listed.
static IMAGE: &'static [u8] = b"\x23\x07\x43\x00\x43\x01\x00\x00\x24";

/// Whether a machine is accepted.
fn is_accepted(alloc: Global, machine: &Machine) -> bool
    ensures { result ≡ true → IsAccepted machine.now }
{
    is_formed(machine) && check(alloc, machine).is_ok()
}

/// The tree of a machine that is accepted.
fn tree_of<'a>(alloc: Global, arena: &'a Bump, machine: &Machine) -> Result<Tree<'a>, NoMemory>
    requires { IsAccepted machine.now }
{
    accepted_is_sound(machine);
    build(alloc, arena, machine)
}

/// The listing by a tree.
fn listed(alloc: Global, machine: &Machine, tree: &Tree) -> Result<Text, NoMemory>
    requires { IsAccepted machine.now }
{
    accepted_is_sound(machine);
    accepted_is_ready(machine);
    let index = Index::build(alloc, machine)?;
    list(alloc, machine, &index, tree, 0, IMAGE)
}

/// The listings by both trees, or None where a machine isn't accepted.
fn listings(alloc: Global) -> Result<Option<Text>, NoMemory> {
    let arena = Bump::new(alloc);
    let own = machine(alloc, 2)?;
    let other = machine(alloc, 1)?;
    if !is_accepted(alloc, &own) {
        return Ok(None);
    }
    if !is_accepted(alloc, &other) {
        return Ok(None);
    }
    let tree = tree_of(alloc, &arena, &own)?;
    let other_tree = tree_of(alloc, &arena, &other)?;
    let mut text = listed(alloc, &own, &tree)?;
    text.append(b"\n")?;
    text.append(listed(alloc, &own, &other_tree)?.as_slice())?;
    Ok(Some(text))
}

/// The most steps in which an instruction is sought in a word of 16 bits.
fn most_steps(machine: &Machine, tree: &Tree) -> u64
    requires { IsSound machine.now }
{
    let mut most = 0;
    for word in 0..65_536u32 {
        let bytes = [(word / 256) as u8, (word % 256) as u8];
        let mut steps = Steps::new();
        let _found = tree.find(machine, &bytes, &mut steps);
        most = most.max(steps.count());
    }
    most
}

/// Puts a word and a number at the end of a text.
fn append_count(alloc: Global, text: &mut Text, word: &[u8], count: u64) -> Result<(), NoMemory> {
    text.append(word)?;
    text.append(decimal(alloc, i128::from(count))?.as_slice())
}

/// Puts at the end in how many steps instructions are found at most, and how many the longest leaf lists.
fn append_steps(alloc: Global, text: &mut Text) -> Result<(), NoMemory> {
    let arena = Bump::new(alloc);
    let many = many(alloc)?;
    if !is_accepted(alloc, &many) {
        return Ok(());
    }
    let tree = tree_of(alloc, &arena, &many)?;
    accepted_is_sound(&many);
    append_count(alloc, text, b"\nmost steps ", most_steps(&many, &tree))?;
    append_count(alloc, text, b"\nlongest leaf ", tree.longest_leaf() as u64)?;
    text.append(b"\n")
}

/// Prints all that, and ends with 1 where it can't.
fn main(rt: HostRuntime) -> ExitCode {
    let alloc = rt.alloc();
    let Ok(Some(mut text)) = listings(alloc) else {
        return ExitCode::from(1);
    };
    if append_steps(alloc, &mut text).is_err() {
        return ExitCode::from(1);
    }
    match HostSink::new(rt.stdout()).put(text.as_slice()) {
        Ok(()) => ExitCode::from(0),
        Err(_) => ExitCode::from(1),
    }
}
