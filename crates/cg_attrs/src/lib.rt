//! Reading the attributes of a form and the forms that frame a machine, and judging the clauses of
//! any form by a table.
#![tactic(auto)]

mod attr;
mod clauses;
mod content;
mod frame;
mod judge;
mod lookup;
mod read;
mod table;

pub use attr::{Attr, AttrValue, attrs_among, is_bitset, is_known_flag, read_attrs};
pub use clauses::{Clause, ContentKind, Role, Row, content_at, standing};
pub use content::{
    Content, are_items, is_item_name, is_small, item_value, misfit, next_value, only_elements,
};
pub use frame::{
    ArchForm, AttrForm, CpuForm, EnumForm, Frame, InsnEnumForm, IsaForm, KeywordForm, MachForm,
    ModelForm,
};
pub use judge::{FormKind, Named, Table, judged, kind_among};
pub use lookup::{
    attrs_at, is_named, list_of, optional_flag, optional_form, optional_number, optional_symbol,
    optional_symbols, optional_word, wanted_form, wanted_number, wanted_symbol, wanted_symbols,
    wanted_word,
};
pub use read::read_frame;
pub use table::Kind;
