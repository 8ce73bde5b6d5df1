//! How each function of RTL is read.

ghost use Rattle.std.specs.Prelude.{◌≡◌, map};
ghost use Rattle.cg_rtl_resolve.specs.Names.{found_under, function_of, readings};
ghost use Rattle.cg_rtl_resolve.specs.Read.{seen_named};

use cg_model::Op;

/// How a function is read.
#[derive(Clone, Copy)]
pub enum Function {
    /// An operation of this kind and number, whose items are expressions.
    Operation(Op, u8),
    /// The same with an item in front that stands for nothing.
    Behind(Op),
    /// `const`: a number.
    Constant,
    /// `subword`: an expression and a number.
    Subword,
    /// `join`: the mode of its parts, and the parts.
    Join,
    /// `cond`: arms.
    Cond,
    /// `case`: an expression, and arms with values.
    Case,
    /// `sequence`: locals and expressions.
    Sequence,
    /// `delay`: a number and an expression.
    Delay,
    /// `error`: a text.
    Error,
    /// `ifield`: the name of a field or multi field.
    FieldNamed,
    /// `reg` or `raw-reg`: the name of hardware, and an index or none.
    Register(Op),
    /// `index-of`: the name of an operand.
    IndexOf,
}

/// A function with its name.
struct Named {
    name: &'static [u8],
    function: Function,
}

/// Names a function.
macro_rules! named {
    ($name:expr, $function:expr) => {
        Named {
            name: $name,
            function: $function,
        }
    };
}

/// All functions.
static FUNCTIONS: [Named; 59] = [
    named!(b"neg", Function::Operation(Op::Unary, 0)),
    named!(b"inv", Function::Operation(Op::Unary, 1)),
    named!(b"not", Function::Operation(Op::Unary, 2)),
    named!(b"abs", Function::Operation(Op::Unary, 3)),
    named!(b"add", Function::Operation(Op::Binary, 0)),
    named!(b"sub", Function::Operation(Op::Binary, 1)),
    named!(b"mul", Function::Operation(Op::Binary, 2)),
    named!(b"div", Function::Operation(Op::Binary, 3)),
    named!(b"udiv", Function::Operation(Op::Binary, 4)),
    named!(b"mod", Function::Operation(Op::Binary, 5)),
    named!(b"umod", Function::Operation(Op::Binary, 6)),
    named!(b"and", Function::Operation(Op::Binary, 7)),
    named!(b"or", Function::Operation(Op::Binary, 8)),
    named!(b"xor", Function::Operation(Op::Binary, 9)),
    named!(b"sll", Function::Operation(Op::Binary, 10)),
    named!(b"srl", Function::Operation(Op::Binary, 11)),
    named!(b"sra", Function::Operation(Op::Binary, 12)),
    named!(b"rol", Function::Operation(Op::Binary, 13)),
    named!(b"ror", Function::Operation(Op::Binary, 14)),
    named!(b"eq", Function::Operation(Op::Binary, 15)),
    named!(b"ne", Function::Operation(Op::Binary, 16)),
    named!(b"lt", Function::Operation(Op::Binary, 17)),
    named!(b"le", Function::Operation(Op::Binary, 18)),
    named!(b"gt", Function::Operation(Op::Binary, 19)),
    named!(b"ge", Function::Operation(Op::Binary, 20)),
    named!(b"ltu", Function::Operation(Op::Binary, 21)),
    named!(b"leu", Function::Operation(Op::Binary, 22)),
    named!(b"gtu", Function::Operation(Op::Binary, 23)),
    named!(b"geu", Function::Operation(Op::Binary, 24)),
    named!(b"addc", Function::Operation(Op::Ternary, 0)),
    named!(b"subc", Function::Operation(Op::Ternary, 1)),
    named!(b"add-cflag", Function::Operation(Op::Ternary, 2)),
    named!(b"add-oflag", Function::Operation(Op::Ternary, 3)),
    named!(b"sub-cflag", Function::Operation(Op::Ternary, 4)),
    named!(b"sub-oflag", Function::Operation(Op::Ternary, 5)),
    named!(b"andif", Function::Operation(Op::AndIf, 0)),
    named!(b"orif", Function::Operation(Op::OrIf, 0)),
    named!(b"ext", Function::Operation(Op::Ext, 0)),
    named!(b"zext", Function::Operation(Op::Zext, 0)),
    named!(b"trunc", Function::Operation(Op::Trunc, 0)),
    named!(b"if", Function::Operation(Op::If, 0)),
    named!(b"set", Function::Operation(Op::Set, 0)),
    named!(b"set-quiet", Function::Operation(Op::Set, 0)),
    named!(b"mem", Function::Operation(Op::Mem, 0)),
    named!(b"nop", Function::Operation(Op::Nop, 0)),
    named!(b"const", Function::Constant),
    named!(b"subword", Function::Subword),
    named!(b"join", Function::Join),
    named!(b"cond", Function::Cond),
    named!(b"case", Function::Case),
    named!(b"sequence", Function::Sequence),
    named!(b"parallel", Function::Behind(Op::Parallel)),
    named!(b"delay", Function::Delay),
    named!(b"error", Function::Error),
    named!(b"c-call", Function::Behind(Op::Halt)),
    named!(b"ifield", Function::FieldNamed),
    named!(b"reg", Function::Register(Op::Reg)),
    named!(b"raw-reg", Function::Register(Op::RawReg)),
    named!(b"index-of", Function::IndexOf),
];

/// How the function of this name among these is read.
fn function_among(functions: &[Named], name: &[u8]) -> Option<Function>
    ensures { result ≡ found_under name.now (map seen_named functions.now) }
{
    for each in functions {
        if each.name == name {
            return Some(each.function);
        }
    }
    None
}

/// All functions.
#[tactic(auto, unfolding(crate::specs::Names::readings))]
fn all_functions() -> &'static [Named]
    ensures { map seen_named result.now ≡ readings }
{
    FUNCTIONS.as_slice()
}

/// How the function of this name is read. None exactly where there is none.
#[tactic(auto, unfolding(crate::specs::Names::function_of))]
pub fn function_of(name: &[u8]) -> Option<Function>
    ensures { result ≡ function_of name.now }
{
    function_among(all_functions(), name)
}
