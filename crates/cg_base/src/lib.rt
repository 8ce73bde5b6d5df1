//! What all layers share: texts, lists, forms, refusals, modes and numbers.
#![tactic(auto)]

mod arithmetic;
mod bytes;
mod character;
mod fault;
mod form;
mod front;
mod kind;
mod list;
mod mode;
mod mode_words;
mod number;
mod operation;
mod parts;
mod refusal;
pub mod refusals;
mod text;

pub use bytes::{number_at, put_number};
pub use character::{is_in_sum, is_in_word};
pub use fault::{Fault, refusal_at, stop_at};
pub use form::{Form, Forms, Top};
pub use front::{front_u8, front_u16, front_u32, front_u64, front_u128};
pub use kind::{Kind, NoToken};
pub use list::List;
pub use mode::{Endian, Mode, address_mode, bits, mode_place, mode_word, signed, word_mode};
pub use mode_words::{gives_mode, is_among, is_mode, is_value_mode};
pub use number::{decimal, hex, read_digits, read_number};
pub use operation::{BinaryOp, DivideByZero, TernaryOp, UnaryOp, binary, convert, ternary, unary};
pub use parts::{
    are_symbols, headed_in, only, only_flag, only_natural, only_number, only_symbol, only_word,
};
pub use refusal::{NoMemory, Refusal, Stop};
pub use text::Text;
