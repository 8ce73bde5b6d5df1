ghost use Rattle.std.specs.Prelude.{◌≡◌, ◌∷◌, [], ◌++◌, map, IfOk, OnOk};
ghost use Rattle.cg_base.specs.Texts.{seen_text};
ghost use Rattle.cg_top.specs.Lines.{line_before, lines_of, rest_of};

use cg_base::{List, NoMemory, Text};
use cg_syntax_lines::line_texts;
use std::alloc::Global;

/// A line with its end.
fn ended(alloc: Global, text: &[u8]) -> Result<Text, NoMemory>
    ensures { IfOk result (λ line. line ≡ text.now ++ 10 ∷ []) }
{
    let mut line = Text::of(alloc, text)?;
    line.push(b'\n')?;
    Ok(line)
}

/// Puts at the end what stands behind the last end of a line, where there is anything.
fn push_rest(alloc: Global, lines: &mut List<Text>, part: &[u8]) -> Result<(), NoMemory>
    ensures { OnOk result (lines.new ≡ lines.old ++ rest_of part.now) }
{
    match part {
        [] => Ok(()),
        _ => lines.push(Text::of(alloc, part)?),
    }
}

/// Puts a part of a text at the end, with its end where another part follows.
fn push_line(
    alloc: Global,
    lines: &mut List<Text>,
    part: &[u8],
    rest: &[&[u8]],
) -> Result<(), NoMemory>
    ensures { OnOk result (lines.new ≡ lines.old ++ line_before part.now (map seen_text rest.now)) }
{
    match rest {
        [] => push_rest(alloc, lines, part),
        _ => lines.push(ended(alloc, part)?),
    }
}

/// The lines of a text, each with its end.
pub fn lines_of(alloc: Global, text: &[u8]) -> Result<List<Text>, NoMemory>
    ensures { IfOk result (λ lines. lines ≡ lines_of text.now) }
{
    let parts = line_texts(alloc, text)?;
    let mut lines = List::new(alloc);
    let mut rest = parts.as_slice();
    while let [part, after @ ..] = rest {
        push_line(alloc, &mut lines, *part, after)?;
        rest = after;
    }
    Ok(lines)
}
