ghost use Rattle.std.specs.Prelude.{◌≡◌, ◌++◌, ◌∷◌, [], ℕ, IfOk, OnOk};
ghost use Rattle.cg_base.specs.Printing.{printed, quoted_bytes, Readable};
ghost use Rattle.cg_base.specs.Reading.{top, Reads};

use cg_base::{Form, NoMemory, Text, decimal};
use std::alloc::Global;

fn push_quoted(out: &mut Text, bytes: &[u8]) -> Result<(), NoMemory>
    ensures { OnOk result (out.new ≡ out.old ++ quoted_bytes bytes.now) }
{
    for byte in bytes {
        if *byte == b'"' || *byte == b'\\' {
            out.push(b'\\')?;
        }
        out.push(*byte)?;
    }
    Ok(())
}

/// Puts a form at the end of a text.
fn push_form(alloc: Global, out: &mut Text, form: &Form) -> Result<(), NoMemory>
    ensures { OnOk result (out.new ≡ out.old ++ printed form.now) }
{
    match form {
        Form::Number(number) => out.append(decimal(alloc, i128::from(*number))?.as_slice()),
        Form::Symbol(text) => out.append(text.as_slice()),
        Form::Str(text) => {
            out.push(b'"')?;
            push_quoted(out, text.as_slice())?;
            out.push(b'"')
        }
        Form::Flag(true) => out.append(b"#t".as_slice()),
        Form::Flag(false) => out.append(b"#f".as_slice()),
        Form::Items(items) => {
            out.push(b'(')?;
            let mut is_first = true;
            for item in items.as_slice() {
                if !is_first {
                    out.push(b' ')?;
                }
                push_form(alloc, out, item)?;
                is_first = false;
            }
            out.push(b')')
        }
    }
}

/// A form as it is written: numbers in decimal, the elements of a list one blank apart, in
/// strings `\` before each `"` and `\` and all other bytes as they are (docs/LANGUAGE.md, "Texts
/// and forms").
///
/// Where each symbol is a token, strings hold bytes that may stand in one, and lists are at most
/// 200 deep, the text reads as the form again. A form that an expansion made need not be so.
#[tactic(auto, using(crate::proofs::Printed::printed_reads))]
pub fn print(alloc: Global, form: &Form) -> Result<Text, NoMemory>
    ensures text { IfOk result (λ text. text ≡ printed form.now) }
    ensures reads_again { (file : ℕ) → Readable 200 (form.now ∷ []) → Reads (printed form.now) file (record { tops = top file (form.now, 1) ∷ [] }) }
{
    let mut out = Text::new(alloc);
    push_form(alloc, &mut out, form)?;
    Ok(out)
}
