ghost use Rattle.std.specs.Prelude.{◌≡◌, ◌⊎◌, ◌≤◌, ◌++◌, ◌∷◌, [], map, Some, IfOk, IfSome, IfNone, true};
ghost use Rattle.cg_base.specs.Counts.{Rose};
ghost use Rattle.cg_io.specs.Held.{Held, appended};
ghost use Rattle.cg_top_include.specs.Fetching.{asking, AsksOn, AsksFront};
ghost use Rattle.cg_top_include.specs.Gathering.{no_sources, may_include, too_many, placed, IsLacking, HasText, IsShortFormsAt, Opens, Gathers, ComesBehind};

use crate::including::{Include, is_short, pass};
use crate::pending::Pending;
use cg_base::{Fault, Forms, List, NoMemory, Refusal, Stop, Text, Top, refusal_at, refusals};
use cg_io::{FileFault, Files};
use cg_pmacro::SHORT_FORMS;
use cg_sexp::read;
use std::alloc::Global;

/// The most bytes that one of a description's files may have.
const TEXT_LIMIT: u64 = 4_194_304;

/// How many includes a description may have.
const INCLUDES: usize = 64;

/// What reading a description gives.
#[derive(Debug, Drop)]
pub enum Fetched {
    /// Its forms, those of each include in its place, and the names of its files by their numbers.
    Read(Forms, List<Text>),
    /// The first fault of its texts, and the names of the files so far.
    Refused(Refusal, List<Text>),
    /// The name of a file that can't be read, and the names of the files before it.
    Unread(Text, List<Text>),
}

/// What was read of a description so far.
#[derive(Debug, Drop)]
pub struct Sources {
    /// The names of its files, in the order of reading.
    pub names: List<Text>,
    /// Whether the short forms stand among its forms.
    pub short: bool,
}

impl Sources {
    /// No file was read yet.
    pub fn new(alloc: Global) -> Sources
        ensures { result ≡ no_sources }
    {
        Sources {
            names: List::new(alloc),
            short: false,
        }
    }
}

/// The bytes of a file, or None where it can't be read.
fn text_of<F: Files>(alloc: Global, name: &Text, files: &mut F) -> Result<Option<Vec<u8>>, NoMemory>
    ensures text { IfOk result (λ text. IfSome text (λ bytes. HasText (F.held files.old) name.now bytes.items)) }
    ensures lacking { IfOk result (λ text. IfNone text (IsLacking (F.held files.old) name.now ⊎ Rose (F.faults files.old) (F.faults files.new))) }
    ensures asked { F.asked files.new ≡ appended (F.asked files.old) (asking name.now ∷ []) }
    ensures held { F.held files.new ≡ F.held files.old }
    ensures later { F.faults files.old ≤ F.faults files.new }
{
    match files.read(alloc, name, TEXT_LIMIT) {
        Ok(bytes) => Ok(Some(bytes)),
        Err(FileFault::Missing) => Ok(None),
        Err(FileFault::TooLong) => Ok(None),
        Err(FileFault::Failed) => Ok(None),
        Err(FileFault::NoMemory) => Err(NoMemory),
    }
}

/// Reads a file, whose forms come in front of those that are pending, and goes on with them.
#[cycle(reading)]
pub fn open<F: Files>(
    alloc: Global,
    name: &Text,
    mut sources: Sources,
    passed: List<Top>,
    mut pending: Pending,
    files: &mut F,
) -> Result<Fetched, NoMemory>
    requires { may_include sources ≡ true }
    ensures fetched { IfOk result (λ fetched. ComesBehind passed (Opens (F.held files.old) (Rose (F.faults files.old) (F.faults files.new)) sources name.now pending) fetched) }
    ensures asked { IfOk result (AsksOn sources.names (F.asked files.old) (F.asked files.new)) }
    ensures front { (held : Held) → F.held files.old ≡ Some held → AsksFront sources.names (F.asked files.old) (F.asked files.new) (Opens (Some held) ⊥ sources name.now pending) }
    ensures held { F.held files.new ≡ F.held files.old }
    ensures later { F.faults files.old ≤ F.faults files.new }
{
    let Some(bytes) = text_of(alloc, name, files)? else {
        return Ok(Fetched::Unread(name.clone()?, sources.names));
    };
    let number = sources.names.len() as u16;
    sources.names.push(name.clone()?)?;
    match read(alloc, bytes.as_slice(), number) {
        Ok(forms) => {
            pending.put_in_front(forms.tops)?;
            Ok(gather(alloc, sources, passed, pending, files)?)
        }
        Err(Stop::Refused(refusal)) => Ok(Fetched::Refused(refusal, sources.names)),
        Err(Stop::NoMemory) => Err(NoMemory),
    }
}

/// Passes the forms that are pending, each include with its own.
#[cycle(reading)]
fn gather<F: Files>(
    alloc: Global,
    mut sources: Sources,
    mut passed: List<Top>,
    mut pending: Pending,
    files: &mut F,
) -> Result<Fetched, NoMemory>
    ensures fetched { IfOk result (λ fetched. ComesBehind passed (Gathers (F.held files.old) (Rose (F.faults files.old) (F.faults files.new)) sources pending) fetched) }
    ensures asked { IfOk result (AsksOn sources.names (F.asked files.old) (F.asked files.new)) }
    ensures front { (held : Held) → F.held files.old ≡ Some held → AsksFront sources.names (F.asked files.old) (F.asked files.new) (Gathers (Some held) ⊥ sources pending) }
    ensures held { F.held files.new ≡ F.held files.old }
    ensures later { F.faults files.old ≤ F.faults files.new }
{
    let Some(include) = pass(sources.short, &mut pending, &mut passed)? else {
        return Ok(Fetched::Read(Forms { tops: passed }, sources.names));
    };
    if is_short(&include.name) {
        pending.put_in_front(short_forms(alloc, &include)?)?;
        sources.short = true;
        return Ok(gather(alloc, sources, passed, pending, files)?);
    }
    if sources.names.len() <= INCLUDES {
        Ok(open(alloc, &include.name, sources, passed, pending, files)?)
    } else {
        Ok(Fetched::Refused(too_many(alloc, &include)?, sources.names))
    }
}

/// `E106`: the include is the 65th.
fn too_many(alloc: Global, include: &Include) -> Result<Refusal, NoMemory>
    ensures { IfOk result (λ refusal. refusal ≡ too_many include.now) }
{
    let fault = Fault {
        number: refusals::MANY_INCLUDES,
        text: include.name.as_slice(),
    };
    refusal_at(alloc, include.file, include.line, fault)
}

/// The short forms, with the file and line of their include.
fn short_forms(alloc: Global, include: &Include) -> Result<List<Top>, NoMemory>
    ensures { IfOk result (λ tops. IsShortFormsAt include.now tops) }
{
    match read(alloc, SHORT_FORMS, 0) {
        Ok(forms) => place(alloc, forms, include),
        Err(Stop::Refused(_)) => unreachable!(),
        Err(Stop::NoMemory) => Err(NoMemory),
    }
}

/// Forms with the file and line of an include.
fn place(alloc: Global, forms: Forms, include: &Include) -> Result<List<Top>, NoMemory>
    ensures { IfOk result (λ tops. tops ≡ map (placed include.now) forms.tops) }
{
    let mut tops = List::new(alloc);
    for top in forms.tops.into_vec() {
        tops.push(Top {
            form: top.form,
            file: include.file,
            line: include.line,
        })?;
    }
    Ok(tops)
}
