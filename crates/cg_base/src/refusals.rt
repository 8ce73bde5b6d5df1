//! The numbers of refusals, each by its meaning (docs/REFUSALS.md says when each comes, and what to do).

/// A byte or a token that a description can't have.
pub const STRANGE_TOKEN: u16 = 101;
/// The text ends in a string or a list.
pub const CUT_OFF: u16 = 102;
/// A `)` stands where no list is open.
pub const NO_LIST_OPEN: u16 = 103;
/// A number has no place in 64 bits with a sign.
pub const WIDE_NUMBER: u16 = 104;
/// A list would be the 201st in depth.
pub const DEEP_LIST: u16 = 105;
/// An include is the 65th.
pub const MANY_INCLUDES: u16 = 106;

/// A macro's call has a wrong count of arguments.
pub const ARGUMENT_COUNT: u16 = 201;
/// A macro's argument or definition isn't of its kind.
pub const ARGUMENT_KIND: u16 = 202;
/// Expansion takes more than its budget.
pub const BUDGET_PASSED: u16 = 203;
/// An expansion is the 1,001st in depth, or its result has lists 201 deep.
pub const DEEP_EXPANSION: u16 = 204;
/// `.error` is reached.
pub const ERROR_REACHED: u16 = 205;
/// A macro's name is defined twice, or begins with a dot.
pub const MACRO_NAME: u16 = 206;
/// No built-in macro has this name.
pub const NO_BUILT_IN: u16 = 207;

/// A form has no name that is known.
pub const NO_FORM: u16 = 301;
/// A clause isn't one of its form, or stands twice.
pub const STRANGE_CLAUSE: u16 = 302;
/// A clause or an argument that is wanted is absent.
pub const ABSENT: u16 = 303;
/// A content, or what a name stands for, is of another kind than its place takes.
pub const WRONG_KIND: u16 = 304;
/// A name stands twice.
pub const REPEATED_NAME: u16 = 305;
/// A name isn't defined for the machine.
pub const UNDEFINED_NAME: u16 = 306;
/// A form, a clause, a function or a type is left out of the language.
pub const LEFT_OUT: u16 = 307;
/// A count is passed.
pub const COUNT_PASSED: u16 = 308;
/// A field leaves its word, is empty, or is longer than its mode.
pub const MISPLACED_FIELD: u16 = 309;
/// Two parts of a format have a bit in common.
pub const OVERLAP: u16 = 310;
/// A constant doesn't fit its field.
pub const WIDE_CONSTANT: u16 = 311;
/// A slot of a syntax isn't delimited.
pub const UNDELIMITED_SLOT: u16 = 312;
/// The slots of a syntax and a format differ, or one stands twice.
pub const SLOTS_DIFFER: u16 = 313;
/// A get or set rule needs itself.
pub const CIRCULAR_RULE: u16 = 314;
/// A rule or an assertion does or names what it may not.
pub const IMPURE: u16 = 315;
/// The bundle field isn't one bit of the first word, or overlaps a format.
pub const BUNDLE_FIELD: u16 = 316;
/// A machine has over 4,096 instructions after choices.
pub const MANY_INSTRUCTIONS: u16 = 317;
/// There is no machine of this name.
pub const NO_MACHINE: u16 = 318;

/// Two modes don't agree.
pub const MODES_DIFFER: u16 = 401;
/// A mode or a number is none that may stand there.
pub const WRONG_MODE: u16 = 402;
/// A local isn't declared here.
pub const NO_LOCAL: u16 = 403;
/// A value is wanted where there is none.
pub const NO_VALUE: u16 = 404;
/// A value, an index or a new value is named outside of its rule.
pub const OUTSIDE_RULE: u16 = 405;
/// An expression with its rules put in place is too large.
pub const LARGE_EXPRESSION: u16 = 406;

/// Two instructions match the same bytes.
pub const CLASH: u16 = 501;

/// A statement is no instruction's.
pub const NO_STATEMENT: u16 = 601;
/// A number is out of range.
pub const OUT_OF_RANGE: u16 = 602;
/// A label is defined twice, or is a keyword.
pub const LABEL_TAKEN: u16 = 603;
/// A label isn't defined.
pub const NO_LABEL: u16 = 604;
/// A number with labels is out of range.
pub const LABEL_OUT_OF_RANGE: u16 = 605;
/// `.org` goes back.
pub const ORG_BACK: u16 = 606;
/// The image is too large, or leaves memory.
pub const LARGE_IMAGE: u16 = 607;
/// A line isn't one of source.
pub const STRANGE_LINE: u16 = 608;
/// A bundle has more parts than it may.
pub const WIDE_BUNDLE: u16 = 609;
