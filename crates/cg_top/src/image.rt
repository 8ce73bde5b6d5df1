ghost use Rattle.std.specs.Prelude.{◌≡◌, ◌∷◌, [], Ok, IfOk};
ghost use Rattle.cg_asm.specs.Placing.{seen_refusal};
ghost use Rattle.cg_model_source.specs.Imaging.{image};
ghost use Rattle.cg_model_source.specs.Sourcing.{only_set};
ghost use Rattle.cg_model_faults.specs.Accepted.{IsAccepted};
ghost use Rattle.cg_top.specs.Replies.{assembled, image_line, refusal_line, reply, source_refusal};

use crate::asking::Assembly;
use crate::replies::{NewFile, Reply, append_number, one_line, refusal_line};
use cg_asm::{AsmStop, SourceRefusal, assemble};
use cg_base::{List, NoMemory, Refusal, Text};
use cg_model::Machine;
use cg_model_laws::accepted_is_sound;
use cg_syntax::accepted_is_ready;
use cg_syntax_choose::Index;
use std::alloc::Global;

/// `image N bytes`.
fn image_line(alloc: Global, count: u64) -> Result<Text, NoMemory>
    ensures { IfOk result (λ line. line ≡ image_line count) }
{
    let mut line = Text::of(alloc, b"image ".as_slice())?;
    append_number(alloc, &mut line, count)?;
    line.append(b" bytes\n".as_slice())?;
    Ok(line)
}

/// The image goes to its file.
fn image_reply(alloc: Global, it: &Assembly, bytes: &[u8]) -> Result<Reply, NoMemory>
    ensures { IfOk result (λ answer. answer ≡ assembled it.now (Ok bytes.now)) }
{
    let mut lines = List::new(alloc);
    lines.push(image_line(alloc, bytes.len() as u64)?)?;
    Ok(Reply {
        status: 0,
        lines,
        file: Some(NewFile {
            name: it.image.clone()?,
            bytes: Text::of(alloc, bytes)?,
        }),
    })
}

/// The one line of a source that is refused.
fn source_refused(alloc: Global, name: &Text, refusal: SourceRefusal) -> Result<Reply, NoMemory>
    ensures { IfOk result (λ answer. answer ≡ reply 1 (refusal_line name.now (source_refusal (seen_refusal refusal)) ∷ [])) }
{
    let refusal = Refusal {
        number: refusal.number,
        file: 0,
        line: refusal.line,
        text: refusal.text,
        other: refusal.other,
    };
    one_line(alloc, 1, refusal_line(alloc, name, &refusal)?)
}

/// What is answered of the image of a source.
pub fn assembled(
    alloc: Global,
    machine: &Machine,
    it: &Assembly,
    source: &[u8],
) -> Result<Reply, NoMemory>
    requires { IsAccepted machine.now }
    ensures { IfOk result (λ answer. answer ≡ assembled it.now (image (only_set machine.now) it.now.base source.now)) }
{
    accepted_is_sound(machine);
    accepted_is_ready(machine);
    let index = Index::build(alloc, machine)?;
    match assemble(alloc, machine, &index, it.base, source) {
        Ok(bytes) => image_reply(alloc, it, bytes.as_slice()),
        Err(AsmStop::Refused(refusal)) => source_refused(alloc, &it.source, refusal),
        Err(AsmStop::NoMemory) => Err(NoMemory),
    }
}
