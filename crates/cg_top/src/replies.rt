ghost use Rattle.std.specs.Prelude.{◌≡◌, ◌≤◌, IfOk, OnOk, ◌++◌, ◌∷◌, [], Some, List as Listed};
ghost use Rattle.cg_base.specs.Counts.{Rose};
ghost use Rattle.cg_io.specs.Asking.{Asking};
ghost use Rattle.cg_io.specs.Held.{Held, appended, AppendsFront};
ghost use Rattle.cg_model_faults.specs.Accepted.{IsAccepted};
ghost use Rattle.cg_top.specs.Replies.{reply, decimal_of, behind_blank, refusal_line, name_of, refused, cannot_read, cannot_write, bad_words, count_line, performed, IsDescribed, RepliesTo};
ghost use Rattle.cg_top.specs.declared.replies.Reply.{Reply as Replied};
ghost use Rattle.cg_top.specs.Answer.{Answer, IsReply, IsReplyTo};
ghost use Rattle.cg_top.specs.Own.{seen_own};

use crate::asking::{Asked, Command, ask_of};
use crate::decoding::decoded;
use crate::image::assembled;
use crate::listing::listed;
use crate::loading::load;
use crate::own::{Own, fetch_own};
use cg_base::{Forms, List, NoMemory, Refusal, Stop, Text, decimal};
use cg_io::Files;
use cg_model::Machine;
use cg_model_laws::accepted_is_sound;
use cg_top_include::{Fetched, fetch};
use std::alloc::Global;

/// What a command is answered: the lines to print, each with its end, and the status.
#[derive(Debug, Drop)]
pub struct Reply {
    /// docs/RUNNING.md, "Statuses".
    pub status: u8,
    /// In order.
    pub lines: List<Text>,
    /// The file that is written before the lines are printed.
    pub file: Option<NewFile>,
}

/// A file that is written.
#[derive(Debug, Drop)]
pub struct NewFile {
    /// Its name.
    pub name: Text,
    /// Its bytes.
    pub bytes: Text,
}

/// A reply of one line, without a file.
pub(crate) fn one_line(alloc: Global, status: u8, line: Text) -> Result<Reply, NoMemory>
    ensures { IfOk result (λ answer. answer ≡ reply status (line ∷ [])) }
{
    let mut lines = List::new(alloc);
    lines.push(line)?;
    Ok(Reply {
        status,
        lines,
        file: None,
    })
}

/// Puts bytes behind a blank at the end, where there are any.
fn append_other(text: &mut Text, other: &[u8]) -> Result<(), NoMemory>
    ensures { OnOk result (text.new ≡ text.old ++ behind_blank other.now) }
{
    if other.is_empty() {
        return Ok(());
    }
    text.push(b' ')?;
    text.append(other)?;
    Ok(())
}

/// Puts the decimal digits of a number at the end.
pub(crate) fn append_number(alloc: Global, text: &mut Text, number: u64) -> Result<(), NoMemory>
    ensures { OnOk result (text.new ≡ text.old ++ decimal_of number) }
{
    let digits = decimal(alloc, i128::from(number))?;
    text.append(digits.as_slice())?;
    Ok(())
}

/// `E<number> <name>:<line> <text>`, then a blank and the other text where it isn't empty.
pub(crate) fn refusal_line(alloc: Global, name: &Text, refusal: &Refusal) -> Result<Text, NoMemory>
    ensures { IfOk result (λ line. line ≡ refusal_line name.now refusal.now) }
{
    let mut line = Text::of(alloc, b"E".as_slice())?;
    append_number(alloc, &mut line, u64::from(refusal.number))?;
    line.push(b' ')?;
    line.append(name.as_slice())?;
    line.push(b':')?;
    append_number(alloc, &mut line, u64::from(refusal.line))?;
    line.push(b' ')?;
    line.append(refusal.text.as_slice())?;
    append_other(&mut line, refusal.other.as_slice())?;
    line.push(b'\n')?;
    Ok(line)
}

/// The name of a description's file by its number, and that of the description where there is
/// none of that number.
fn name_of<'a>(desc: &'a Text, names: &'a List<Text>, file: u16) -> &'a Text
    ensures { result.now ≡ name_of desc.now names.now file }
{
    match names.get(usize::from(file)) {
        Some(name) => name,
        None => desc,
    }
}

fn refused(
    alloc: Global,
    desc: &Text,
    names: &List<Text>,
    refusal: &Refusal,
) -> Result<Reply, NoMemory>
    ensures { IfOk result (λ answer. answer ≡ refused desc.now names.now refusal.now) }
{
    let line = refusal_line(alloc, name_of(desc, names, refusal.file), refusal)?;
    one_line(alloc, 1, line)
}

fn cannot_read(alloc: Global, name: &Text) -> Result<Reply, NoMemory>
    ensures { IfOk result (λ answer. answer ≡ cannot_read name.now) }
{
    let mut line = Text::of(alloc, b"cannot read ".as_slice())?;
    line.append(name.as_slice())?;
    line.push(b'\n')?;
    one_line(alloc, 3, line)
}

/// A file that can't be written.
pub(crate) fn cannot_write(alloc: Global, name: &Text) -> Result<Reply, NoMemory>
    ensures { IfOk result (λ answer. answer ≡ cannot_write name.now) }
{
    let mut line = Text::of(alloc, b"cannot write ".as_slice())?;
    line.append(name.as_slice())?;
    line.push(b'\n')?;
    one_line(alloc, 3, line)
}

fn bad_words(alloc: Global) -> Result<Reply, NoMemory>
    ensures { IfOk result (λ answer. answer ≡ bad_words) }
{
    let line = Text::of(alloc, b"bad words\n".as_slice())?;
    one_line(alloc, 2, line)
}

/// `ok N instructions`.
fn ok_line(alloc: Global, count: u64) -> Result<Text, NoMemory>
    ensures { IfOk result (λ line. line ≡ count_line count) }
{
    let mut line = Text::of(alloc, b"ok ".as_slice())?;
    append_number(alloc, &mut line, count)?;
    line.append(b" instructions\n".as_slice())?;
    Ok(line)
}

/// What a command does with its machine and the bytes of its own file.
fn perform(
    alloc: Global,
    command: &Command,
    machine: &Machine,
    own: &[u8],
) -> Result<Reply, NoMemory>
    requires { IsAccepted machine.now }
    ensures { IfOk result (λ answer. answer ≡ performed command.now machine.now own.now) }
{
    accepted_is_sound(machine);
    match command {
        Command::Check => one_line(alloc, 0, ok_line(alloc, machine.insns.len() as u64)?),
        Command::Decode(bytes) => one_line(alloc, 0, decoded(alloc, machine, bytes.as_slice())?),
        Command::Assemble(it) => assembled(alloc, machine, it, own),
        Command::ListImage(it) => listed(alloc, machine, it, own),
    }
}

/// What is answered where the description has these forms, from files of these names, and the command's
/// own file these bytes.
#[tactic(auto, using(crate::proofs::Loaded::replying))]
fn describe(
    alloc: Global,
    asked: &Asked,
    forms: &Forms,
    names: &List<Text>,
    own: &[u8],
) -> Result<Reply, NoMemory>
    ensures { IfOk result (IsDescribed asked.now forms.now names.now own.now) }
{
    match load(alloc, forms, &asked.mach) {
        Ok(machine) => perform(alloc, &asked.command, &machine, own),
        Err(Stop::Refused(refusal)) => refused(alloc, &asked.desc, names, &refusal),
        Err(Stop::NoMemory) => Err(NoMemory),
    }
}

/// What is answered where the description has these forms, from files of these names, by what reading the
/// command's own file gave.
fn reply_read(
    alloc: Global,
    asked: &Asked,
    forms: &Forms,
    names: &List<Text>,
    own: &Own,
) -> Result<Reply, NoMemory>
    ensures { IfOk result (RepliesTo asked.now (Fetched.Read forms.now names.now) (seen_own own.now)) }
{
    match own {
        Own::Bytes(bytes) => describe(alloc, asked, forms, names, bytes.as_slice()),
        Own::Unread(name) => cannot_read(alloc, name),
    }
}

/// What is answered by what reading the description and the command's own file gave.
fn reply_to(alloc: Global, asked: &Asked, fetched: &Fetched, own: &Own) -> Result<Reply, NoMemory>
    ensures { IfOk result (RepliesTo asked.now fetched.now (seen_own own.now)) }
{
    match fetched {
        Fetched::Read(forms, names) => reply_read(alloc, asked, forms, names, own),
        Fetched::Refused(refusal, names) => refused(alloc, &asked.desc, names, refusal),
        Fetched::Unread(name, _) => cannot_read(alloc, name),
    }
}

/// What the words are answered.
pub fn answer<F: Files>(alloc: Global, words: &[Text], files: &mut F) -> Result<Reply, NoMemory>
    ensures answer { IfOk result (IsReplyTo words.now (F.held files.old) (Rose (F.faults files.old) (F.faults files.new)) (F.asked files.old) (F.asked files.new)) }
    ensures front { (held : Held) (reads : Listed Asking) (reply : Replied) → F.held files.old ≡ Some held → Answer words.now (Some held) ⊥ reads reply → AppendsFront (F.asked files.old) (F.asked files.new) reads }
    ensures held { F.held files.new ≡ F.held files.old }
    ensures later { F.faults files.old ≤ F.faults files.new }
{
    match ask_of(alloc, words)? {
        None => Ok(bad_words(alloc)?),
        Some(asked) => Ok(answer_asked(alloc, &asked, files)?),
    }
}

fn answer_asked<F: Files>(alloc: Global, asked: &Asked, files: &mut F) -> Result<Reply, NoMemory>
    ensures answer { IfOk result (λ reply. (reads : Listed Asking) × IsReply asked.now (F.held files.old) (Rose (F.faults files.old) (F.faults files.new)) reads reply × (F.asked files.new ≡ appended (F.asked files.old) reads)) }
    ensures front { (held : Held) (reads : Listed Asking) (reply : Replied) → F.held files.old ≡ Some held → IsReply asked.now (Some held) ⊥ reads reply → AppendsFront (F.asked files.old) (F.asked files.new) reads }
    ensures held { F.held files.new ≡ F.held files.old }
    ensures later { F.faults files.old ≤ F.faults files.new }
{
    let fetched = fetch(alloc, &asked.desc, files)?;
    let own = fetch_own(alloc, &asked.command, &fetched, files)?;
    Ok(reply_to(alloc, asked, &fetched, &own)?)
}
