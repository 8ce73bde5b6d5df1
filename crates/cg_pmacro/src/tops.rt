ghost use Rattle.std.specs.Prelude.{◌≡◌, ◌++◌, map, drop, OnOk};
ghost use Rattle.std.specs.Option.{option_copied};
ghost use Rattle.cg_base.specs.Answering.{Stops, Gives};
ghost use Rattle.cg_pmacro_builtin.specs.Outcome.{each_joined};
ghost use Rattle.cg_pmacro.specs.Definitions as defining;
ghost use Rattle.cg_pmacro.specs.Splitting as splitting;
ghost use Rattle.cg_pmacro_builtin.specs.Reports.{Comes, IsHalt};
ghost use Rattle.cg_pmacro.specs.Steps.{LeavesTop, AnswersTop, Refuses};
ghost use Rattle.cg_pmacro_builtin.specs.Shapes.{plain as plain_of};
ghost use Rattle.cg_pmacro.specs.ShortForms as short;
ghost use Rattle.cg_pmacro.specs.Tops as meant;

use cg_base::{Fault, Form, Forms, List, NoMemory, Stop, Text, Top, refusals, stop_at};
use cg_pmacro_builtin::{
    Body, Halt, Macro, Value, begins_with_dot, copy, elements, faulty, form_depth, form_elements,
    form_symbol, head_name, is_list, is_named, levels, macro_named, names_of, own_symbol, plain,
};
use cg_pmacro_expand::expand as expand_form;
use std::alloc::Global;

/// What `(include "simplify.inc")` reads: the short forms of definitions
/// (docs/LANGUAGE.md, "Macros").
pub const SHORT_FORMS: &[u8] =
    b"(define-pmacro (df n c a s l m e d) (define-ifield (name n) (comment c) (.splice attrs (.unsplice a)) (start s) (length l) (mode m) (encode e) (decode d)))\n\
(define-pmacro (dnf n c a s l) (define-ifield (name n) (comment c) (.splice attrs (.unsplice a)) (start s) (length l)))\n\
(define-pmacro (dnmf n c a m s i e) (define-multi-ifield (name n) (comment c) (.splice attrs (.unsplice a)) (mode m) (.splice subfields (.unsplice s)) (insert i) (extract e)))\n\
(define-pmacro (dnop n c a t i) (define-operand (name n) (comment c) (.splice attrs (.unsplice a)) (type t) (index i)))\n\
(define-pmacro (dnh n c a t i v h) (define-hardware (name n) (comment c) (.splice attrs (.unsplice a)) (.splice type (.unsplice t)) (.splice indices (.unsplice i)) (.splice values (.unsplice v)) (.splice handlers (.unsplice h))))\n\
(define-pmacro (dsh n c a t) (define-hardware (name n) (comment c) (.splice attrs (.unsplice a)) (.splice type (.unsplice t))))\n\
(define-pmacro (dni n c a s f m t) (define-insn (name n) (comment c) (.splice attrs (.unsplice a)) (syntax s) (format f) (semantics m) (.splice timing (.unsplice t))))\n\
(define-pmacro (dnmi n c a s e) (define-macro-insn (name n) (comment c) (.splice attrs (.unsplice a)) (syntax s) (expansions e)))\n\
";

/// The same text.
pub fn short_forms() -> &'static [u8]
    ensures { result.now ≡ short.short_forms }
{
    SHORT_FORMS
}

/// How many units the expansions of a description cost at most.
const BUDGET: u64 = 4_000_000;

/// How deep expansions may stand one within another.
const DEPTH: u32 = 1_000;

/// The forms that the top forms of a description stand for, each with the file and line of the
/// top form that it came from (docs/LANGUAGE.md, "Macros"). Definitions are gone, and a `begin`
/// is split into its elements. A description is refused with the first of the faults E201 to E207
/// and E307 in the order of expansion, at the top form where it comes (docs/REFUSALS.md).
#[tactic(auto, using(crate::proofs::TopRules::top_rules))]
pub fn expand(alloc: Global, forms: &Forms) -> Result<Forms, Stop>
    ensures { Gives (meant.expansion forms.now) result }
{
    let mut macros = List::new(alloc);
    let mut left = BUDGET;
    let mut tops = List::new(alloc);
    for top in forms.tops.as_slice() {
        let parts = expand_top(alloc, &mut macros, &mut left, top)?;
        place(parts, top, &mut tops)?;
    }
    Ok(Forms { tops })
}

/// The forms that a top form stands for, or what stops at it.
#[tactic(auto, using(crate::proofs::TopRules::refused_at_top))]
fn expand_top(
    alloc: Global,
    macros: &mut List<Macro>,
    left: &mut u64,
    top: &Top,
) -> Result<List<Form>, Stop>
    ensures { AnswersTop top.now (meant.topped (plain_of top.now.form) (meant.state macros.old left.old)) result macros.new left.new }
{
    match forms_of(alloc, macros, left, &top.form) {
        Ok(forms) => Ok(forms),
        Err(halt) => Err(stopped(alloc, top, halt)),
    }
}

/// What came to a halt in a top form stops with its refusal.
fn stopped(alloc: Global, top: &Top, halt: Halt) -> Stop
    ensures { Stops (Refuses top.now halt) result }
{
    match halt {
        Halt::Faulty { number, text } => {
            let fault = Fault {
                number,
                text: text.as_slice(),
            };
            stop_at(alloc, top.file, top.line, fault)
        }
        Halt::NoMemory => Stop::NoMemory,
    }
}

/// Puts forms, each with the place of the top form that it came from, behind what is done.
fn place(forms: List<Form>, top: &Top, tops: &mut List<Top>) -> Result<(), NoMemory>
    ensures { OnOk result (tops.new ≡ tops.old ++ map (meant.placed top.now) forms) }
{
    for form in forms.into_vec() {
        tops.push(Top {
            form,
            file: top.file,
            line: top.line,
        })?;
    }
    Ok(())
}

/// The forms that a form stands for as a top form.
fn forms_of(
    alloc: Global,
    macros: &mut List<Macro>,
    left: &mut u64,
    form: &Form,
) -> Result<List<Form>, Halt>
    ensures { LeavesTop (meant.topped (plain_of form.now) (meant.state macros.old left.old)) result macros.new left.new }
{
    let body = plain(alloc, form)?;
    let depth = levels(&body)?;
    Ok(expand_part(alloc, depth, macros, left, &body)?)
}

/// The forms that a top form as read stands for.
#[cycle(tops)]
#[tactic(auto, using(crate::proofs::TopRules::top_rules))]
fn expand_part(
    alloc: Global,
    depth: u64,
    macros: &mut List<Macro>,
    left: &mut u64,
    body: &Body,
) -> Result<List<Form>, Halt>
    ensures { LeavesTop (meant.top_to depth body.now (meant.state macros.old left.old)) result macros.new left.new }
{
    let Some(items) = elements(body) else {
        return Ok(expand_result(alloc, macros, left, body)?);
    };
    let head = head_name(items);
    if is_named(b"begin", head) {
        if depth == 0 {
            return Ok(List::new(alloc));
        }
        return Ok(expand_parts(alloc, depth - 1, macros, left, items)?);
    }
    if is_named(b"define-pmacro", head) {
        let new = definition(alloc, macros.as_slice(), items)?;
        macros.push(new)?;
        return Ok(List::new(alloc));
    }
    if is_named(b"include", head) {
        return Err(faulty(alloc, refusals::LEFT_OUT, b"include"));
    }
    Ok(expand_result(alloc, macros, left, body)?)
}

/// The forms that the elements of a `begin` stand for.
#[cycle(tops)]
#[tactic(auto, using(crate::proofs::TopRules::top_rules))]
fn expand_parts(
    alloc: Global,
    depth: u64,
    macros: &mut List<Macro>,
    left: &mut u64,
    items: &[Body],
) -> Result<List<Form>, Halt>
    ensures { LeavesTop (each_joined (meant.top_to depth) (drop 1 items.now) (meant.state macros.old left.old)) result macros.new left.new }
{
    let mut done = List::new(alloc);
    for item in behind_head(items) {
        let parts = expand_part(alloc, depth, macros, left, item)?;
        append(&mut done, parts)?;
    }
    Ok(done)
}

fn behind_head(items: &[Body]) -> &[Body]
    ensures { result.now ≡ drop 1 items.now }
{
    if items.is_empty() { items } else { &items[1..] }
}

/// Puts forms behind what is done.
fn append(done: &mut List<Form>, parts: List<Form>) -> Result<(), NoMemory>
    ensures { OnOk result (done.new ≡ done.old ++ parts) }
{
    for part in parts.into_vec() {
        done.push(part)?;
    }
    Ok(())
}

/// The forms that an expansion's result stands for.
fn expand_result(
    alloc: Global,
    macros: &List<Macro>,
    left: &mut u64,
    body: &Body,
) -> Result<List<Form>, Halt>
    ensures { LeavesTop (meant.top_expanded body.now (meant.state macros.now left.old)) result macros.now left.new }
{
    let value = expand_form(alloc, macros.as_slice(), DEPTH, b"", false, body, left)?;
    let depth = form_depth(&value)?;
    Ok(split(alloc, depth, &value)?)
}

/// The forms that a form which an expansion gave stands for.
#[cycle(splitting)]
#[tactic(auto, using(crate::proofs::TopRules::top_rules))]
fn split(alloc: Global, depth: u64, value: &Value) -> Result<List<Form>, Halt>
    ensures { Comes (splitting.split_to depth value.now) result }
{
    let head = form_head(value);
    if is_named(b"begin", head) {
        if depth == 0 {
            return Ok(List::new(alloc));
        }
        return Ok(split_parts(alloc, depth - 1, value)?);
    }
    if is_named(b"include", head) {
        return Err(faulty(alloc, refusals::LEFT_OUT, b"include"));
    }
    if is_named(b"define-pmacro", head) {
        return Err(faulty(alloc, refusals::LEFT_OUT, b"define-pmacro"));
    }
    let mut done = List::new(alloc);
    done.push(value.form(alloc)?)?;
    Ok(done)
}

#[cycle(splitting)]
#[tactic(auto, using(crate::proofs::TopRules::top_rules))]
fn split_parts(alloc: Global, depth: u64, value: &Value) -> Result<List<Form>, Halt>
    ensures { Comes (splitting.split_each (splitting.split_to depth) (splitting.behind_head value.now)) result }
{
    let mut done = List::new(alloc);
    for item in form_behind_head(value) {
        let parts = split(alloc, depth, item)?;
        append(&mut done, parts)?;
    }
    Ok(done)
}

fn form_behind_head(value: &Value) -> &[Value]
    ensures { result.now ≡ splitting.behind_head value.now }
{
    match form_elements(value) {
        Some(items) => { if items.is_empty() { items } else { &items[1..] } }
        None => &[],
    }
}

fn form_head(value: &Value) -> Option<&Text>
    ensures { option_copied result ≡ splitting.form_head value.now }
{
    match form_elements(value) {
        Some([]) => None,
        Some([head, ..]) => form_symbol(head),
        None => None,
    }
}

/// The macro of a definition.
fn definition(alloc: Global, macros: &[Macro], items: &[Body]) -> Result<Macro, Halt>
    ensures { Comes (defining.definition macros.now items.now) result }
{
    match items {
        [_, named, body] => Ok(define(alloc, macros, named, body)?),
        [_, named, note, body] => {
            if is_list(named) && is_string(note) {
                Ok(define(alloc, macros, named, body)?)
            } else {
                Err(misdefined(alloc, defined_name(named)))
            }
        }
        [_, named, ..] => Err(misdefined(alloc, defined_name(named))),
        _ => Err(misdefined(alloc, None)),
    }
}

fn is_string(body: &Body) -> bool
    ensures { result ≡ defining.is_string body.now }
{
    matches!(body, Body::Str(_))
}

fn misdefined(alloc: Global, name: Option<&Text>) -> Halt
    ensures { IsHalt (202, defining.name_or_word (option_copied name.entry)) result }
{
    match name {
        Some(name) => faulty(alloc, refusals::ARGUMENT_KIND, name.as_slice()),
        None => faulty(alloc, refusals::ARGUMENT_KIND, b"define-pmacro"),
    }
}

/// The name in the second place of a definition.
fn defined_name(named: &Body) -> Option<&Text>
    ensures { option_copied result ≡ defining.defined_name named.now }
{
    match elements(named) {
        Some([]) => None,
        Some([name, ..]) => own_symbol(name),
        None => own_symbol(named),
    }
}

fn define(alloc: Global, macros: &[Macro], named: &Body, body: &Body) -> Result<Macro, Halt>
    ensures { Comes (defining.defined_as macros.now named.now body.now) result }
{
    let Some(name) = defined_name(named) else {
        return Err(misdefined(alloc, None));
    };
    if macro_named(macros, name.as_slice()).is_some() || begins_with_dot(name.as_slice()) {
        return Err(faulty(alloc, refusals::MACRO_NAME, name.as_slice()));
    }
    Ok(macro_of(alloc, name, named, body)?)
}

fn macro_of(alloc: Global, name: &Text, named: &Body, body: &Body) -> Result<Macro, Halt>
    ensures { Comes (defining.macro_of name.now named.now body.now) result }
{
    match elements(named) {
        Some(items) => match names_of(alloc, behind_head(items))? {
            Some(names) => Ok(Macro {
                name: name.clone()?,
                formals: Some(names),
                body: copy(alloc, body)?,
            }),
            None => Err(faulty(alloc, refusals::ARGUMENT_KIND, name.as_slice())),
        },
        None => Ok(Macro {
            name: name.clone()?,
            formals: None,
            body: copy(alloc, body)?,
        }),
    }
}
