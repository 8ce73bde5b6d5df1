//! Where names stand.

ghost use Rattle.std.specs.Prelude.{◌≡◌, ℕ, List, IfOk, OnOk};
ghost use Rattle.std.specs.Option.{option_copied, option_or};
ghost use Rattle.indexmap.specs.IndexMap.{get};
ghost use Rattle.cg_base.specs.Texts.{same_text, is_among};
ghost use Rattle.cg_desc_names.specs.Table.{counts_among, counted_name, at_name, Keeps, constant_kind, first_item, first_constant_in, built_in_hardware, built_in, KeepsTwo, KeepsFrames, KeepsWords, KeepsElements, KeepsConstants, KeepsOthers, KeepsFrameNames, KeepsElementNames, KeepsAll, table_of, kept, known, gives_isa};

use crate::items::{Item, constants_in};
use cg_base::{NoMemory, Text};
use cg_desc_elements::{Element, Kind, Namespace};
use indexmap::IndexMap;
use std::alloc::Global;

/// Where the first with a name stands, and what it is.
#[derive(Clone, Copy)]
pub struct Standing {
    /// The number of its form, counted from 1; 0 for what is built in.
    pub form: usize,
    /// The place of a constant among those of its form, counted from 1; 0 for the form's own name.
    pub item: usize,
    /// What it is.
    pub kind: Kind,
    /// The value of a constant; 0 of all else.
    pub value: i64,
}

/// Where the elements of two kinds stand that share their names, by their names.
#[derive(Drop)]
pub(crate) struct Two {
    pub(crate) first: IndexMap<Text, Standing>,
    pub(crate) second: IndexMap<Text, Standing>,
}

/// The same of four kinds.
#[derive(Drop)]
pub(crate) struct Four {
    pub(crate) first: Two,
    pub(crate) second: Two,
}

/// The names of the forms that frame a machine.
#[derive(Drop)]
pub(crate) struct FrameNames {
    /// Archs and machines, instruction sets and cpus.
    pub(crate) frames: Four,
    /// Models and attributes, enums and keywords.
    pub(crate) words: Four,
}

/// The names of all else.
#[derive(Drop)]
pub(crate) struct ElementNames {
    /// Fields and hardware, operands and instructions.
    pub(crate) elements: Four,
    /// Macro instructions and constants.
    pub(crate) others: Two,
}

/// The names that a machine knows.
#[derive(Drop)]
pub struct Names {
    pub(crate) frames: FrameNames,
    pub(crate) elements: ElementNames,
}

/// Whether an element takes part and is one of these.
#[tactic(auto, unfolding(crate::specs::Table::counts_among))]
fn counts_among(machine: &Text, isa: Option<&Text>, among: Namespace, element: &Element) -> bool
    ensures { result ≡ counts_among machine.now (option_copied isa.entry) among element.now }
{
    element.takes_part(machine, isa) && among == element.kind().namespace()
}

/// The name under which an element counts: its own, but all archs count under one
/// (docs/LANGUAGE.md, "Names").
#[tactic(auto, unfolding(crate::specs::Table::counted_name))]
pub fn counted_name(alloc: Global, element: &Element) -> Result<Text, NoMemory>
    ensures { IfOk result (λ name. name ≡ counted_name element.now) }
{
    match element.kind() {
        Kind::Arch => Ok(Text::new(alloc)),
        _ => Ok(element.name().clone()?),
    }
}

/// Says where a name stands, where that isn't said yet.
fn add(names: &mut IndexMap<Text, Standing>, name: Text, at: Standing) -> Result<(), NoMemory>
    ensures { OnOk result ((other : List ℕ) → get same_text names.new other ≡ option_or (get same_text names.old other) (at_name name at other)) }
{
    if names.get(&name).is_none() {
        names.insert(name, at)?;
    }
    Ok(())
}

/// Where the elements stand that take part and are of these, by their names.
#[tactic(auto, unfolding(crate::specs::Table::Keeps))]
fn names_of(
    alloc: Global,
    machine: &Text,
    isa: Option<&Text>,
    among: Namespace,
    elements: &[Element],
) -> Result<IndexMap<Text, Standing>, NoMemory>
    ensures { IfOk result (λ names. Keeps machine.now (option_copied isa.entry) among elements.now (get same_text names)) }
{
    let mut names = IndexMap::new(alloc);
    for (place, element) in elements.iter().enumerate() {
        if counts_among(machine, isa, among, element) {
            let at = Standing {
                form: place + 1,
                item: 0,
                kind: element.kind(),
                value: 0,
            };
            add(&mut names, counted_name(alloc, element)?, at)?;
        }
    }
    Ok(names)
}

/// What the constants of an element of this kind are.
fn constant_kind(kind: Kind) -> Kind
    ensures { result ≡ constant_kind kind }
{
    match kind {
        Kind::InsnEnum => Kind::FieldConstant,
        _ => Kind::Constant,
    }
}

/// Adds the constants of a form.
fn add_items(
    names: &mut IndexMap<Text, Standing>,
    form: usize,
    kind: Kind,
    items: &[Item],
) -> Result<(), NoMemory>
    ensures { OnOk result ((other : List ℕ) → get same_text names.new other ≡ option_or (get same_text names.old other) (first_item form kind other 1 items.now)) }
{
    for (place, item) in items.iter().enumerate() {
        let at = Standing {
            form,
            item: place + 1,
            kind,
            value: item.value,
        };
        add(names, item.name.clone()?, at)?;
    }
    Ok(())
}

/// Adds the constants of the element that a form gives.
#[tactic(auto, unfolding(crate::specs::Table::first_constant_in))]
fn add_constants(
    alloc: Global,
    names: &mut IndexMap<Text, Standing>,
    form: usize,
    element: &Element,
) -> Result<(), NoMemory>
    ensures { OnOk result ((other : List ℕ) → get same_text names.new other ≡ option_or (get same_text names.old other) (first_constant_in form other element.now)) }
{
    let items = constants_in(alloc, element)?;
    add_items(names, form, constant_kind(element.kind()), items.as_slice())
}

/// Where constants stand, by their names.
#[tactic(auto, unfolding(crate::specs::Table::KeepsConstants))]
fn constants_of(
    alloc: Global,
    machine: &Text,
    isa: Option<&Text>,
    elements: &[Element],
) -> Result<IndexMap<Text, Standing>, NoMemory>
    ensures { IfOk result (λ names. KeepsConstants machine.now (option_copied isa.entry) elements.now (get same_text names)) }
{
    let mut names = IndexMap::new(alloc);
    for (place, element) in elements.iter().enumerate() {
        if element.takes_part(machine, isa) {
            add_constants(alloc, &mut names, place + 1, element)?;
        }
    }
    Ok(names)
}

/// Where the elements of two kinds stand, by their names.
#[tactic(auto, unfolding(crate::specs::Table::KeepsTwo))]
fn two_of(
    alloc: Global,
    machine: &Text,
    isa: Option<&Text>,
    first: Namespace,
    second: Namespace,
    elements: &[Element],
) -> Result<Two, NoMemory>
    ensures { IfOk result (λ two. KeepsTwo machine.now (option_copied isa.entry) first second elements.now two) }
{
    Ok(Two {
        first: names_of(alloc, machine, isa, first, elements)?,
        second: names_of(alloc, machine, isa, second, elements)?,
    })
}

/// The names of archs, machines, instruction sets and cpus.
#[tactic(auto, unfolding(crate::specs::Table::KeepsFrames))]
fn frames_of(
    alloc: Global,
    machine: &Text,
    isa: Option<&Text>,
    elements: &[Element],
) -> Result<Four, NoMemory>
    ensures { IfOk result (λ names. KeepsFrames machine.now (option_copied isa.entry) elements.now names) }
{
    Ok(Four {
        first: two_of(
            alloc,
            machine,
            isa,
            Namespace::Archs,
            Namespace::Machs,
            elements,
        )?,
        second: two_of(
            alloc,
            machine,
            isa,
            Namespace::Isas,
            Namespace::Cpus,
            elements,
        )?,
    })
}

/// The names of models, attributes, enums and keywords.
#[tactic(auto, unfolding(crate::specs::Table::KeepsWords))]
fn words_of(
    alloc: Global,
    machine: &Text,
    isa: Option<&Text>,
    elements: &[Element],
) -> Result<Four, NoMemory>
    ensures { IfOk result (λ names. KeepsWords machine.now (option_copied isa.entry) elements.now names) }
{
    Ok(Four {
        first: two_of(
            alloc,
            machine,
            isa,
            Namespace::Models,
            Namespace::Attrs,
            elements,
        )?,
        second: two_of(
            alloc,
            machine,
            isa,
            Namespace::Enums,
            Namespace::Keywords,
            elements,
        )?,
    })
}

/// The names of fields, hardware, operands and instructions.
#[tactic(auto, unfolding(crate::specs::Table::KeepsElements))]
fn elements_of(
    alloc: Global,
    machine: &Text,
    isa: Option<&Text>,
    elements: &[Element],
) -> Result<Four, NoMemory>
    ensures { IfOk result (λ names. KeepsElements machine.now (option_copied isa.entry) elements.now names) }
{
    Ok(Four {
        first: two_of(
            alloc,
            machine,
            isa,
            Namespace::Fields,
            Namespace::Hardwares,
            elements,
        )?,
        second: two_of(
            alloc,
            machine,
            isa,
            Namespace::Operands,
            Namespace::Insns,
            elements,
        )?,
    })
}

/// Whether the name is that of hardware that is built in.
fn is_built_in_hardware(name: &[u8]) -> bool
    ensures { result ≡ is_among built_in_hardware name.now }
{
    matches!(
        name,
        b"h-memory" | b"h-sint" | b"h-uint" | b"h-addr" | b"h-iaddr"
    )
}

/// What is built in under this name.
fn built_in(among: Namespace, name: &[u8]) -> Option<Standing>
    ensures { result ≡ built_in among name.now }
{
    match among {
        Namespace::Hardwares if is_built_in_hardware(name) => Some(BUILT_IN_HARDWARE),
        Namespace::Operands if name == b"pc".as_slice() => Some(THE_PC),
        _ => None,
    }
}

/// Where hardware stands that is built in.
const BUILT_IN_HARDWARE: Standing = Standing {
    form: 0,
    item: 0,
    kind: Kind::Hardware,
    value: 0,
};

/// Where the operand `pc` stands.
const THE_PC: Standing = Standing {
    form: 0,
    item: 0,
    kind: Kind::Pc,
    value: 0,
};

/// The names of macro instructions and constants.
#[tactic(auto, unfolding(crate::specs::Table::KeepsOthers))]
fn others_of(
    alloc: Global,
    machine: &Text,
    isa: Option<&Text>,
    elements: &[Element],
) -> Result<Two, NoMemory>
    ensures { IfOk result (λ names. KeepsOthers machine.now (option_copied isa.entry) elements.now names) }
{
    Ok(Two {
        first: names_of(alloc, machine, isa, Namespace::Macros, elements)?,
        second: constants_of(alloc, machine, isa, elements)?,
    })
}

/// The names of the forms that frame a machine.
#[tactic(auto, unfolding(crate::specs::Table::KeepsFrameNames))]
fn frame_names_of(
    alloc: Global,
    machine: &Text,
    isa: Option<&Text>,
    elements: &[Element],
) -> Result<FrameNames, NoMemory>
    ensures { IfOk result (λ names. KeepsFrameNames machine.now (option_copied isa.entry) elements.now names) }
{
    Ok(FrameNames {
        frames: frames_of(alloc, machine, isa, elements)?,
        words: words_of(alloc, machine, isa, elements)?,
    })
}

/// The names of all else.
#[tactic(auto, unfolding(crate::specs::Table::KeepsElementNames))]
fn element_names_of(
    alloc: Global,
    machine: &Text,
    isa: Option<&Text>,
    elements: &[Element],
) -> Result<ElementNames, NoMemory>
    ensures { IfOk result (λ names. KeepsElementNames machine.now (option_copied isa.entry) elements.now names) }
{
    Ok(ElementNames {
        elements: elements_of(alloc, machine, isa, elements)?,
        others: others_of(alloc, machine, isa, elements)?,
    })
}

/// All names that a machine knows.
#[tactic(auto, unfolding(crate::specs::Table::KeepsAll))]
fn all_of(
    alloc: Global,
    machine: &Text,
    isa: Option<&Text>,
    elements: &[Element],
) -> Result<Names, NoMemory>
    ensures { IfOk result (λ names. KeepsAll machine.now (option_copied isa.entry) elements.now names) }
{
    Ok(Names {
        frames: frame_names_of(alloc, machine, isa, elements)?,
        elements: element_names_of(alloc, machine, isa, elements)?,
    })
}

impl Names {
    /// The names that a machine knows when it is selected with this instruction set: what is built in,
    /// then those of the elements that take part, in order (docs/LANGUAGE.md, "Names").
    #[tactic(auto, using(crate::proofs::Known::known_is))]
    pub fn of(
        alloc: Global,
        machine: &Text,
        isa: Option<&Text>,
        elements: &[Element],
    ) -> Result<Names, NoMemory>
        ensures { IfOk result (λ names. known names ≡ table_of machine.now (option_copied isa.entry) elements.now) }
    {
        Ok(all_of(alloc, machine, isa, elements)?)
    }

    /// Where the first with this name stands that the table of the program keeps.
    fn kept(&self, among: Namespace, name: &Text) -> Option<Standing>
        ensures { result ≡ kept self.now among name.now }
    {
        match among {
            Namespace::Archs => self.frames.frames.first.first.get(name).copied(),
            Namespace::Isas => self.frames.frames.second.first.get(name).copied(),
            Namespace::Cpus => self.frames.frames.second.second.get(name).copied(),
            Namespace::Machs => self.frames.frames.first.second.get(name).copied(),
            Namespace::Models => self.frames.words.first.first.get(name).copied(),
            Namespace::Attrs => self.frames.words.first.second.get(name).copied(),
            Namespace::Enums => self.frames.words.second.first.get(name).copied(),
            Namespace::Keywords => self.frames.words.second.second.get(name).copied(),
            Namespace::Fields => self.elements.elements.first.first.get(name).copied(),
            Namespace::Hardwares => self.elements.elements.first.second.get(name).copied(),
            Namespace::Operands => self.elements.elements.second.first.get(name).copied(),
            Namespace::Insns => self.elements.elements.second.second.get(name).copied(),
            Namespace::Macros => self.elements.others.first.get(name).copied(),
            Namespace::Constants => self.elements.others.second.get(name).copied(),
        }
    }

    /// Where the first with this name stands among those that share their names. None exactly where
    /// none of them has it.
    #[tactic(auto, unfolding(crate::specs::Table::known))]
    pub fn first(&self, among: Namespace, name: &Text) -> Option<Standing>
        ensures { result ≡ known self.now among name.now }
    {
        match built_in(among, name.as_slice()) {
            Some(at) => Some(at),
            None => self.kept(among, name),
        }
    }

    /// Whether the form of this number gives the instruction set that the machine is selected with.
    /// Forms are numbered from 1.
    pub fn gives_isa(&self, isa: Option<&Text>, form: usize) -> bool
        ensures { result ≡ gives_isa (known self.now) (option_copied isa.entry) form }
    {
        match isa {
            Some(name) => match self.first(Namespace::Isas, name) {
                Some(at) => at.form == form,
                None => false,
            },
            None => false,
        }
    }
}
