ghost use Rattle.std.specs.Prelude.{◌≡◌, ◌≤◌, Some, IfOk};
ghost use Rattle.cg_base.specs.Counts.{Rose};
ghost use Rattle.cg_io.specs.Held.{Held};
ghost use Rattle.cg_top_include.specs.Fetching.{IsFetched, files_asked, HasAsked, HasAskedFront};
ghost use Rattle.cg_top_include.specs.declared.gathering.Fetched.{Fetched as Given};

use crate::gathering::{Fetched, Sources, open};
use crate::pending::Pending;
use cg_base::{List, NoMemory, Text};
use cg_io::Files;
use std::alloc::Global;

/// Reads the description's file and its includes, each of at most 4 MiB
/// (docs/LANGUAGE.md, "Includes").
pub fn fetch<F: Files>(alloc: Global, desc: &Text, files: &mut F) -> Result<Fetched, NoMemory>
    ensures fetched { IfOk result (λ fetched. IsFetched desc.now (F.held files.old) (Rose (F.faults files.old) (F.faults files.new)) fetched) }
    ensures asked { IfOk result (λ fetched. HasAsked (F.asked files.old) (files_asked fetched) (F.asked files.new)) }
    ensures front { (held : Held) (fetched : Given) → F.held files.old ≡ Some held → IsFetched desc.now (Some held) ⊥ fetched → HasAskedFront (F.asked files.old) fetched (F.asked files.new) }
    ensures held { F.held files.new ≡ F.held files.old }
    ensures later { F.faults files.old ≤ F.faults files.new }
{
    let sources = Sources::new(alloc);
    let passed = List::new(alloc);
    let pending = Pending::new(alloc);
    Ok(open(alloc, desc, sources, passed, pending, files)?)
}
