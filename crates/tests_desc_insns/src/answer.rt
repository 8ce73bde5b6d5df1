use crate::showing::put_written;
use cg_base::{Form, Forms, List, NoMemory, Stop, Text, Top, decimal};
use cg_desc_choices::Written;
use cg_desc_elements::{Element, elements, selected_arch, selected_isa, selected_mach};
use cg_desc_insns::{expanded, form_over};
use cg_desc_names::Names;
use std::alloc::Global;

/// The most instructions that are printed of one case.
const SHOWN: usize = 8;

/// The forms behind a machine's name.
fn forms_of(alloc: Global, written: &[Form]) -> Result<Forms, NoMemory> {
    let mut tops = List::new(alloc);
    for form in written {
        tops.push(Top {
            form: form.clone()?,
            file: 0,
            line: 0,
        })?;
    }
    Ok(Forms { tops })
}

/// The instructions of elements, none where no machine is selected.
fn instructions(
    alloc: Global,
    machine: &Text,
    elements: &[Element],
) -> Result<List<Written>, NoMemory> {
    match selected_mach(elements, machine) {
        Some((_, mach)) => {
            let isa = selected_isa(mach, selected_arch(elements, machine));
            let names = Names::of(alloc, machine, isa, elements)?;
            expanded(alloc, &names, machine, isa, elements)
        }
        None => Ok(List::new(alloc)),
    }
}

/// Puts how many instructions there are at the end, and the form with which they are too many.
fn put_count(alloc: Global, list: &[Written], printed: &mut Text) -> Result<(), NoMemory> {
    printed.append(b" ")?;
    printed.append(decimal(alloc, list.len() as i128)?.as_slice())?;
    if let Some(form) = form_over(list) {
        printed.append(b" over ")?;
        printed.append(decimal(alloc, form as i128)?.as_slice())?;
    }
    printed.append(b"\n")
}

/// Puts the instructions at the end, a line each.
fn put_all(alloc: Global, list: &[Written], printed: &mut Text) -> Result<(), NoMemory> {
    for written in list.iter().take(SHOWN) {
        put_written(alloc, written, printed)?;
    }
    Ok(())
}

/// Puts the instructions of a description at the end.
fn put_case(
    alloc: Global,
    machine: &Text,
    written: &[Form],
    printed: &mut Text,
) -> Result<(), NoMemory> {
    let forms = forms_of(alloc, written)?;
    match elements(alloc, &forms) {
        Ok(elements) => {
            let list = instructions(alloc, machine, elements.as_slice())?;
            put_count(alloc, list.as_slice(), printed)?;
            put_all(alloc, list.as_slice(), printed)
        }
        Err(Stop::Refused(_)) => printed.append(b" refused\n"),
        Err(Stop::NoMemory) => Err(NoMemory),
    }
}

/// Puts the number of a case's line and its instructions at the end of a text.
pub fn put_answer(alloc: Global, top: &Top, printed: &mut Text) -> Result<(), NoMemory> {
    printed.append(decimal(alloc, i128::from(top.line))?.as_slice())?;
    match top.form.headed() {
        Some((machine, written)) => put_case(alloc, machine, written, printed),
        None => printed.append(b" refused\n"),
    }
}
