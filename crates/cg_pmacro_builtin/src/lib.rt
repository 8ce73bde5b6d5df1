//! What macros are made of: forms in which arguments were put, values that share their parts, and what the built-in
//! macros give of arguments that are expanded (docs/LANGUAGE.md, "Macros").
#![tactic(auto)]

mod arguments;
mod body;
mod built_in;
mod calls;
mod fault;
mod replacing;
mod shapes;
mod sizes;
mod texts;
mod value;

pub use arguments::{form_elements, is_false, miscounted, misfit};
pub use body::{Binding, Body, Macro};
pub use built_in::{BuiltIn, Manner, built_in_of};
pub use calls::{iota, ordinary};
pub use fault::{Halt, faulty};
pub use replacing::{replaced, without, without_name};
pub use shapes::{
    begins_with_dot, called, copy, elements, form_symbol, head_name, is_among, is_list, is_named,
    is_value, macro_named, names_of, own_symbol, pair_of, plain, pmacro_form, same_form, written,
};
pub use sizes::{form_depth, is_within, levels, without_nodes};
pub use value::{Node, Value};
