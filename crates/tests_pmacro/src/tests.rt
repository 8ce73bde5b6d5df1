use crate::cases::{CALLS, CHOICES, Case, DEFINITIONS, LISTS, NUMBERS, RULES, TESTS, TEXTS};
use crate::short::SHORT;
use cg_base::{Forms, NoMemory, Refusal, Stop, Text, decimal};
use cg_pmacro::{expand, short_forms};
use cg_sexp::{print, read};
use std::alloc::Global;
use std::test::Fail;

/// Each form behind its line.
fn shown(alloc: Global, forms: &Forms) -> Result<Text, NoMemory> {
    let mut out = Text::new(alloc);
    for top in forms.tops.as_slice() {
        out.append(decimal(alloc, i128::from(top.line))?.as_slice())?;
        out.push(b' ')?;
        out.append(print(alloc, &top.form)?.as_slice())?;
        out.push(b';')?;
    }
    Ok(out)
}

/// The number, the line and the text of a refusal.
fn refused(alloc: Global, refusal: &Refusal) -> Result<Text, NoMemory> {
    let mut out = Text::of(alloc, b"E")?;
    out.append(decimal(alloc, i128::from(refusal.number))?.as_slice())?;
    out.push(b' ')?;
    out.append(decimal(alloc, i128::from(refusal.line))?.as_slice())?;
    out.push(b' ')?;
    out.append(refusal.text.as_slice())?;
    Ok(out)
}

/// What a text expands to, or its refusal.
fn outcome(alloc: Global, text: &[u8]) -> Result<Text, Stop> {
    match expand(alloc, &read(alloc, text, 0)?) {
        Ok(forms) => Ok(shown(alloc, &forms)?),
        Err(Stop::Refused(refusal)) => Ok(refused(alloc, &refusal)?),
        Err(Stop::NoMemory) => Err(Stop::NoMemory),
    }
}

/// The first case that isn't as it is said, behind these definitions: what it comes to.
fn first_wrong(alloc: Global, before: &[u8], cases: &[Case]) -> Result<Option<Text>, Stop> {
    for (text, wanted) in cases {
        let mut whole = Text::of(alloc, before)?;
        whole.append(text)?;
        let got = outcome(alloc, whole.as_slice())?;
        if got.as_slice() != *wanted {
            return Ok(Some(got));
        }
    }
    Ok(None)
}

#[test]
fn macros_are_expanded(rt: HostRuntime) -> Result<(), Fail> {
    let alloc = rt.alloc();
    let tables: [&[Case]; 7] = [
        &TEXTS,
        &LISTS,
        &CALLS,
        &CHOICES,
        &NUMBERS,
        &TESTS,
        &DEFINITIONS,
    ];
    for cases in tables {
        let wrong = first_wrong(alloc, b"", cases)?;
        assert!(rt; wrong.is_none(), "{:?}", wrong);
    }
    Ok(())
}

#[test]
fn cost_and_depth_are_kept(rt: HostRuntime) -> Result<(), Fail> {
    let wrong = first_wrong(rt.alloc(), b"", &RULES)?;
    assert!(rt; wrong.is_none(), "{:?}", wrong);
    Ok(())
}

#[test]
fn short_forms_are_written_out(rt: HostRuntime) -> Result<(), Fail> {
    let wrong = first_wrong(rt.alloc(), short_forms(), &SHORT)?;
    assert!(rt; wrong.is_none(), "{:?}", wrong);
    Ok(())
}
