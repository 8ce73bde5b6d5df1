ghost use Rattle.std.specs.Prelude.{◌≡◌};
ghost use Rattle.cg_pmacro_builtin.specs.BuiltIns.{name_of as its_name, first_named as first_with, built_in as named, is_lazy as takes_what_it_expands};
ghost use Rattle.cg_pmacro_builtin.specs.Manners.{manner as how_called, is_apply as applies, is_for_each as goes_over_each};

/// A macro of the language's own (docs/LANGUAGE.md, "Macros").
#[derive(Clone, Copy, Debug, PartialEq, Eq)]
pub enum BuiltIn {
    /// `.sym`
    Sym,
    /// `.str`
    Str,
    /// `.hex`
    Hex,
    /// `.upcase`
    Upcase,
    /// `.downcase`
    Downcase,
    /// `.substring`
    Substring,
    /// `.splice`
    Splice,
    /// `.unsplice`
    Unsplice,
    /// `.iota`
    Iota,
    /// `.map`
    Map,
    /// `.for-each`
    ForEach,
    /// `.apply`
    Apply,
    /// `.pmacro`
    Pmacro,
    /// `.let`
    Let,
    /// `.let*`
    LetStar,
    /// `.if`
    If,
    /// `.cond`
    Cond,
    /// `.case`
    Case,
    /// `.list`
    List,
    /// `.ref`
    Ref,
    /// `.length`
    Length,
    /// `.add`
    Add,
    /// `.sub`
    Sub,
    /// `.mul`
    Mul,
    /// `.eq`
    Eq,
    /// `.ne`
    Ne,
    /// `.lt`
    Lt,
    /// `.gt`
    Gt,
    /// `.le`
    Le,
    /// `.ge`
    Ge,
    /// `.not`
    Not,
    /// `.error`
    Error,
}

/// How a built-in is called.
#[derive(Clone, Copy, Debug, PartialEq, Eq)]
pub enum Manner {
    /// It takes one of its arguments.
    Choice,
    /// `.let`
    Let,
    /// `.let*`
    LetStar,
    /// `.pmacro`, which is a head or an argument only.
    Pmacro,
    /// It calls its first argument on lists.
    Over,
    /// `.splice`
    Splice,
    /// `.iota`, whose cost is known before.
    Iota,
    /// All arguments are expanded before.
    Ordinary,
}

const ALL: [BuiltIn; 32] = [
    BuiltIn::Sym,
    BuiltIn::Str,
    BuiltIn::Hex,
    BuiltIn::Upcase,
    BuiltIn::Downcase,
    BuiltIn::Substring,
    BuiltIn::Splice,
    BuiltIn::Unsplice,
    BuiltIn::Iota,
    BuiltIn::Map,
    BuiltIn::ForEach,
    BuiltIn::Apply,
    BuiltIn::Pmacro,
    BuiltIn::Let,
    BuiltIn::LetStar,
    BuiltIn::If,
    BuiltIn::Cond,
    BuiltIn::Case,
    BuiltIn::List,
    BuiltIn::Ref,
    BuiltIn::Length,
    BuiltIn::Add,
    BuiltIn::Sub,
    BuiltIn::Mul,
    BuiltIn::Eq,
    BuiltIn::Ne,
    BuiltIn::Lt,
    BuiltIn::Gt,
    BuiltIn::Le,
    BuiltIn::Ge,
    BuiltIn::Not,
    BuiltIn::Error,
];

impl BuiltIn {
    /// The name that calls it.
    pub fn name(self) -> &'static [u8]
        ensures { result.now ≡ its_name self }
    {
        match self {
            BuiltIn::Sym => b".sym",
            BuiltIn::Str => b".str",
            BuiltIn::Hex => b".hex",
            BuiltIn::Upcase => b".upcase",
            BuiltIn::Downcase => b".downcase",
            BuiltIn::Substring => b".substring",
            BuiltIn::Splice => b".splice",
            BuiltIn::Unsplice => b".unsplice",
            BuiltIn::Iota => b".iota",
            BuiltIn::Map => b".map",
            BuiltIn::ForEach => b".for-each",
            BuiltIn::Apply => b".apply",
            BuiltIn::Pmacro => b".pmacro",
            BuiltIn::Let => b".let",
            BuiltIn::LetStar => b".let*",
            BuiltIn::If => b".if",
            BuiltIn::Cond => b".cond",
            BuiltIn::Case => b".case",
            BuiltIn::List => b".list",
            BuiltIn::Ref => b".ref",
            BuiltIn::Length => b".length",
            BuiltIn::Add => b".add",
            BuiltIn::Sub => b".sub",
            BuiltIn::Mul => b".mul",
            BuiltIn::Eq => b".eq",
            BuiltIn::Ne => b".ne",
            BuiltIn::Lt => b".lt",
            BuiltIn::Gt => b".gt",
            BuiltIn::Le => b".le",
            BuiltIn::Ge => b".ge",
            BuiltIn::Not => b".not",
            BuiltIn::Error => b".error",
        }
    }

    /// How it is called.
    pub fn manner(self) -> Manner
        ensures { result ≡ how_called self }
    {
        match self {
            BuiltIn::If | BuiltIn::Cond | BuiltIn::Case => Manner::Choice,
            BuiltIn::Let => Manner::Let,
            BuiltIn::LetStar => Manner::LetStar,
            BuiltIn::Pmacro => Manner::Pmacro,
            BuiltIn::Map | BuiltIn::ForEach | BuiltIn::Apply => Manner::Over,
            BuiltIn::Splice => Manner::Splice,
            BuiltIn::Iota => Manner::Iota,
            _ => Manner::Ordinary,
        }
    }

    /// Whether it is `.apply`.
    pub fn is_apply(self) -> bool
        ensures { result ≡ applies self }
    {
        matches!(self, BuiltIn::Apply)
    }

    /// Whether it is `.for-each`.
    pub fn is_for_each(self) -> bool
        ensures { result ≡ goes_over_each self }
    {
        matches!(self, BuiltIn::ForEach)
    }

    /// It expands only what it takes, and can't be mapped or applied.
    pub fn is_lazy(self) -> bool
        ensures { result ≡ takes_what_it_expands self }
    {
        matches!(
            self,
            BuiltIn::If
                | BuiltIn::Cond
                | BuiltIn::Case
                | BuiltIn::Let
                | BuiltIn::LetStar
                | BuiltIn::Pmacro
        )
    }
}

/// The built-in that has that name.
#[tactic(auto, unfolding(crate::specs::BuiltIns::built_in))]
pub fn built_in_of(name: &[u8]) -> Option<BuiltIn>
    ensures { result ≡ named name.now }
{
    first_named(&ALL, name)
}

fn first_named(all: &[BuiltIn], name: &[u8]) -> Option<BuiltIn>
    ensures { result ≡ first_with all.now name.now }
{
    for each in all {
        if each.name() == name {
            return Some(*each);
        }
    }
    None
}
