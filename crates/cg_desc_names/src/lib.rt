//! Which names a machine knows: where the first with a name stands, among those that share their names
//! (docs/LANGUAGE.md, "Names").
#![tactic(auto)]

mod items;
mod names;

pub use items::{Item, constants_in, items_of};
pub use names::{Names, Standing, counted_name};
