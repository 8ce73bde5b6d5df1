//! The functions of RTL, and the shape of each.

ghost use Rattle.std.specs.Prelude.{◌≡◌, ◌<◌, map};
ghost use Rattle.std.specs.Option.{option_map};
ghost use Rattle.cg_rtl.specs.Functions.{seen_shape, seen_alike, functions, shape_among, shape_of, as_last, item_at, is_within, allows};
ghost use Rattle.cg_rtl.specs.Shapes.{may_be_else, is_choice};

use cg_base::is_among;

/// What may stand at a place of a function's list.
#[derive(Clone, Copy, Debug, PartialEq, Eq)]
pub enum Item {
    /// An expression.
    Expression,
    /// A number.
    Number,
    /// A symbol.
    Name,
    /// A string.
    Str,
    /// A mode other than `DFLT`.
    Mode,
    /// Locals, as `((SI a) (QI b))`.
    Locals,
    /// An empty list.
    NoLocals,
    /// An arm `(TEST EXPRESSION ..)`.
    Arm,
    /// An arm, or `(else EXPRESSION ..)`.
    LastArm,
    /// An arm `((VALUE ..) EXPRESSION ..)`.
    Choice,
    /// Such an arm, or `(else EXPRESSION ..)`.
    LastChoice,
}

/// What may stand behind a function's name and mode.
#[derive(Clone, Copy, Debug)]
pub(crate) struct Shape {
    /// Whether a mode other than `DFLT` is wanted. To every other function one may be written.
    pub wants_mode: bool,
    /// The least count of items.
    pub least: usize,
    /// The greatest count of items, if there is one.
    pub most: Option<usize>,
    /// What the items in front are.
    pub front: &'static [Item],
    /// What all others are.
    pub rest: Item,
}

/// Functions of one shape.
struct Alike {
    names: &'static [&'static [u8]],
    shape: Shape,
}

/// A shape of operands that are expressions.
macro_rules! operands {
    ($least:expr, $most:expr) => {
        Shape {
            wants_mode: false,
            least: $least,
            most: $most,
            front: &[],
            rest: Item::Expression,
        }
    };
}

/// A shape of items in front and others behind them.
macro_rules! items {
    ($least:expr, $most:expr, $front:expr, $rest:expr) => {
        Shape {
            wants_mode: false,
            least: $least,
            most: $most,
            front: $front,
            rest: $rest,
        }
    };
}

/// The same of a function that wants a mode.
macro_rules! with_mode {
    ($least:expr, $most:expr, $front:expr) => {
        Shape {
            wants_mode: true,
            least: $least,
            most: $most,
            front: $front,
            rest: Item::Expression,
        }
    };
}

/// All functions (docs/LANGUAGE.md, "RTL").
static FUNCTIONS: [Alike; 19] = [
    Alike {
        names: &[
            b"add",
            b"sub",
            b"mul",
            b"div",
            b"mod",
            b"udiv",
            b"umod",
            b"and",
            b"or",
            b"xor",
            b"sll",
            b"srl",
            b"sra",
            b"rol",
            b"ror",
            b"eq",
            b"ne",
            b"lt",
            b"le",
            b"gt",
            b"ge",
            b"ltu",
            b"leu",
            b"gtu",
            b"geu",
            b"set",
            b"set-quiet",
        ],
        shape: operands!(2, Some(2)),
    },
    Alike {
        names: &[b"neg", b"inv", b"not", b"abs"],
        shape: operands!(1, Some(1)),
    },
    Alike {
        names: &[
            b"addc",
            b"subc",
            b"add-cflag",
            b"add-oflag",
            b"sub-cflag",
            b"sub-oflag",
        ],
        shape: operands!(3, Some(3)),
    },
    Alike {
        names: &[b"andif", b"orif"],
        shape: operands!(2, None),
    },
    Alike {
        names: &[b"nop"],
        shape: operands!(0, Some(0)),
    },
    Alike {
        names: &[b"if"],
        shape: operands!(2, Some(3)),
    },
    Alike {
        names: &[b"ext", b"zext", b"trunc", b"mem"],
        shape: with_mode!(1, Some(1), &[]),
    },
    Alike {
        names: &[b"subword"],
        shape: with_mode!(2, Some(2), &[Item::Expression, Item::Number]),
    },
    Alike {
        names: &[b"join"],
        shape: with_mode!(2, None, &[Item::Mode]),
    },
    Alike {
        names: &[b"cond"],
        shape: items!(1, None, &[], Item::Arm),
    },
    Alike {
        names: &[b"case"],
        shape: items!(2, None, &[Item::Expression], Item::Choice),
    },
    Alike {
        names: &[b"sequence"],
        shape: items!(2, None, &[Item::Locals], Item::Expression),
    },
    Alike {
        names: &[b"parallel"],
        shape: items!(2, None, &[Item::NoLocals], Item::Expression),
    },
    Alike {
        names: &[b"reg", b"raw-reg"],
        shape: items!(1, Some(2), &[Item::Name], Item::Expression),
    },
    Alike {
        names: &[b"ifield", b"index-of"],
        shape: items!(1, Some(1), &[Item::Name], Item::Expression),
    },
    Alike {
        names: &[b"const"],
        shape: items!(1, Some(1), &[], Item::Number),
    },
    Alike {
        names: &[b"delay"],
        shape: items!(2, Some(2), &[Item::Number], Item::Expression),
    },
    Alike {
        names: &[b"error"],
        shape: items!(1, Some(1), &[], Item::Str),
    },
    Alike {
        names: &[b"c-call"],
        shape: items!(2, Some(2), &[Item::Str], Item::Expression),
    },
];

/// The shape of the functions of this name among these. None exactly where there is none.
fn shape_among(functions: &[Alike], name: &[u8]) -> Option<Shape>
    ensures { option_map seen_shape result ≡ shape_among name.now (map seen_alike functions.now) }
{
    for each in functions {
        if is_among(each.names, name) {
            return Some(each.shape);
        }
    }
    None
}

/// All functions.
#[tactic(auto, unfolding(crate::specs::Functions::functions))]
fn all_functions() -> &'static [Alike]
    ensures { map seen_alike result.now ≡ functions }
{
    FUNCTIONS.as_slice()
}

/// The shape of a function. None exactly where there is no function of this name.
#[tactic(auto, unfolding(crate::specs::Functions::shape_of))]
pub(crate) fn shape_of(name: &[u8]) -> Option<Shape>
    ensures { option_map seen_shape result ≡ shape_of name.now }
{
    shape_among(all_functions(), name)
}

impl Item {
    /// The same where it stands last.
    fn as_last(self) -> Item
        ensures { result ≡ as_last self }
    {
        match self {
            Item::Arm => Item::LastArm,
            Item::Choice => Item::LastChoice,
            other => other,
        }
    }

    /// Whether it is an arm that may be headed by `else`.
    pub fn may_be_else(self) -> bool
        ensures { result ≡ may_be_else self }
    {
        matches!(self, Item::LastArm | Item::LastChoice)
    }

    /// Whether it is an arm of a `case`.
    pub fn is_choice(self) -> bool
        ensures { result ≡ is_choice self }
    {
        matches!(self, Item::Choice | Item::LastChoice)
    }
}

impl Shape {
    /// What the item at place `k`, counted from 0, of so many is.
    pub fn item_at(&self, count: usize, k: usize) -> Item
        requires { k < count }
        ensures { result ≡ item_at (seen_shape self.now) count k }
    {
        let item = match self.front.get(k) {
            Some(item) => *item,
            None => self.rest,
        };
        if k + 1 == count { item.as_last() } else { item }
    }

    /// Whether so many items may stand behind a mode, if that is wanted.
    pub fn allows(&self, has_mode: bool, count: usize) -> bool
        ensures { result ≡ allows (seen_shape self.now) has_mode count }
    {
        (has_mode || !self.wants_mode) && self.least <= count && self.is_within(count)
    }

    /// Whether so many items are not too many.
    fn is_within(&self, count: usize) -> bool
        ensures { result ≡ is_within (seen_shape self.now).most count }
    {
        match self.most {
            Some(most) => count <= most,
            None => true,
        }
    }
}
