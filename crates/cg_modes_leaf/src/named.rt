ghost use Rattle.std.specs.Prelude.{◌≡◌};
ghost use Rattle.cg_model.specs.Operators.{at_number, kind_of, unary_ops, binary_ops, ternary_ops};

use cg_base::{BinaryOp, TernaryOp, UnaryOp};
use cg_model::Kind;

const UNARY: [UnaryOp; 4] = [UnaryOp::Neg, UnaryOp::Inv, UnaryOp::Not, UnaryOp::Abs];

const TERNARY: [TernaryOp; 6] = [
    TernaryOp::Addc,
    TernaryOp::Subc,
    TernaryOp::AddCflag,
    TernaryOp::AddOflag,
    TernaryOp::SubCflag,
    TernaryOp::SubOflag,
];

const BINARY: [BinaryOp; 25] = [
    BinaryOp::Add,
    BinaryOp::Sub,
    BinaryOp::Mul,
    BinaryOp::Div,
    BinaryOp::Udiv,
    BinaryOp::Mod,
    BinaryOp::Umod,
    BinaryOp::And,
    BinaryOp::Or,
    BinaryOp::Xor,
    BinaryOp::Sll,
    BinaryOp::Srl,
    BinaryOp::Sra,
    BinaryOp::Rol,
    BinaryOp::Ror,
    BinaryOp::Eq,
    BinaryOp::Ne,
    BinaryOp::Lt,
    BinaryOp::Le,
    BinaryOp::Gt,
    BinaryOp::Ge,
    BinaryOp::Ltu,
    BinaryOp::Leu,
    BinaryOp::Gtu,
    BinaryOp::Geu,
];

/// The element that a number names.
pub fn at<T: Copy>(items: &[T], number: i64) -> Option<T>
    ensures { result ≡ at_number items.now number }
{
    if number < 0 {
        None
    } else {
        items.get(number as usize).copied()
    }
}

/// The operation on one value of a number, counted in the order of docs/LANGUAGE.md, "Operations".
pub fn unary(number: i64) -> Option<UnaryOp>
    ensures { result ≡ at_number unary_ops number }
{
    at(&UNARY, number)
}

/// The operation on two values of a number, counted in the order of docs/LANGUAGE.md, "Operations".
pub fn binary(number: i64) -> Option<BinaryOp>
    ensures { result ≡ at_number binary_ops number }
{
    at(&BINARY, number)
}

/// The operation on two values and a carry of a number, counted in the order of docs/LANGUAGE.md, "Operations".
pub fn ternary(number: i64) -> Option<TernaryOp>
    ensures { result ≡ at_number ternary_ops number }
{
    at(&TERNARY, number)
}

/// Which kind an operation is of.
#[tactic(auto, unfolding(cg_model::specs::Operators::kind_of))]
pub fn kind(op: BinaryOp) -> Kind
    ensures { result ≡ kind_of op }
{
    match op {
        BinaryOp::Sll | BinaryOp::Srl | BinaryOp::Sra | BinaryOp::Rol | BinaryOp::Ror => {
            Kind::Shift
        }
        BinaryOp::Eq
        | BinaryOp::Ne
        | BinaryOp::Lt
        | BinaryOp::Le
        | BinaryOp::Gt
        | BinaryOp::Ge
        | BinaryOp::Ltu
        | BinaryOp::Leu
        | BinaryOp::Gtu
        | BinaryOp::Geu => Kind::Comparison,
        _ => Kind::Arithmetic,
    }
}
