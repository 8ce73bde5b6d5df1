//! The least fault of a form, by the kinds of form that its reader reads.

ghost use Rattle.std.specs.Prelude.{◌≡◌, ℕ, List, Option, map, slice_get, Some};
ghost use Rattle.std.specs.Option.{option_copied, option_map};
ghost use Rattle.cg_base.specs.Refusing.{first, seen_fault, least};
ghost use Rattle.cg_attrs.specs.Clauses.{seen};
ghost use Rattle.cg_attrs.specs.Judging.{seen_named, kind_among, seen_table, heading, extra, missing, wrong_arguments, argument_faults, table_faults, own_faults, recognized_in, recognized, Judged};

use crate::clauses::{Clause, ContentKind, Row, clause_fault};
use cg_base::{Fault, Form, refusals};

/// What may stand behind the head of a form.
#[derive(Drop)]
pub enum Table<C: 'static> {
    /// Clauses in any order, the wanted ones in the order in which they are missed.
    Clauses(&'static [Row<C>]),
    /// Arguments by their places, all of them wanted.
    Arguments(&'static [Row<C>]),
}

/// The forms of a reader.
pub trait FormKind: Copy {
    ghost use Rattle.cg_attrs.specs.Judging.{Table};

    /// What may stand behind the names of their clauses.
    type Content: ContentKind + 'static;

    /// The form that a symbol heads.
    ghost named: { List ℕ → Option Self };

    /// What may stand behind the head of a form.
    ghost table: { Self → Table Self.Content };

    /// The form that this symbol heads. None exactly where it heads no form of this reader.
    fn named(head: &[u8]) -> Option<Self>
        ensures { result ≡ named head.now };

    /// What may stand behind the head of this form.
    fn table(self) -> Table<Self::Content>
        ensures { seen_table result ≡ table self };
}

/// A word, and what it names: as a symbol, and the form that it heads.
#[derive(Clone, Copy, Debug)]
pub struct Named<K> {
    /// The word.
    pub name: &'static [u8],
    /// What it names.
    pub kind: K,
}

/// A word, and what it names.
#[macro_export]
macro_rules! named {
    ($name:expr, $kind:expr) => {
        Named {
            name: $name,
            kind: $kind,
        }
    };
}

/// What this word names among these. None exactly where it names none of them.
pub fn kind_among<K: Copy>(names: &[Named<K>], name: &[u8]) -> Option<K>
    ensures { result ≡ kind_among name.now (map seen_named names.now) }
{
    for each in names {
        if each.name == name {
            return Some(each.kind);
        }
    }
    None
}

/// The symbol that heads a list, else `clause`.
fn heading(form: &Form) -> &[u8]
    ensures { result.now ≡ heading form.now }
{
    match form.headed() {
        Some((name, _)) => name.as_slice(),
        None => b"clause",
    }
}

/// The item at place `i`, counted from 0. None exactly past the end.
pub(crate) fn nth<T>(items: &[T], i: usize) -> Option<&T>
    ensures { option_copied result ≡ slice_get items.now i }
{
    items.get(i)
}

/// The first text of E302 where arguments stand by their places: the symbol that heads the first
/// of them that has no row, else `clause`.
#[tactic(auto, using(crate::proofs::Arguments::first_extra))]
fn first_extra<'a, C>(rows: &[Row<C>], arguments: &'a [Form]) -> Option<&'a [u8]>
    ensures { option_copied result ≡ first (extra (map seen rows.now) arguments.now) }
{
    match nth(arguments, rows.len()) {
        Some(argument) => Some(heading(argument)),
        None => None,
    }
}

/// The first text of E303 where arguments stand by their places: the name of the first row that
/// has none.
#[tactic(auto, using(crate::proofs::Arguments::first_missing))]
fn first_missing<C>(rows: &[Row<C>], arguments: &[Form]) -> Option<&'static [u8]>
    ensures { option_copied result ≡ first (missing (map seen rows.now) arguments.now) }
{
    match nth(rows, arguments.len()) {
        Some(row) => Some(row.name),
        None => None,
    }
}

/// The first text of E304 where arguments stand by their places.
#[tactic(auto, using(crate::proofs::Firsts::first_append))]
fn first_wrong_argument<'a, C: ContentKind>(
    rows: &[Row<C>],
    arguments: &'a [Form],
) -> Option<&'a [u8]>
    ensures { option_copied result ≡ first (wrong_arguments C.wrong (map seen rows.now) arguments.now) }
{
    for (row, argument) in rows.iter().zip(arguments) {
        let clause = Clause {
            name: row.name,
            content: std::slice::from_ref(argument),
            elements: &[],
        };
        if let Some(text) = row.content.first_wrong(clause) {
            return Some(text);
        }
    }
    None
}

/// The least fault of arguments that stand by their places.
fn argument_fault<'a, C: ContentKind>(rows: &[Row<C>], arguments: &'a [Form]) -> Option<Fault<'a>>
    ensures { option_map seen_fault result ≡ least (argument_faults C.wrong (map seen rows.now) arguments.now) }
{
    if let Some(text) = first_extra(rows, arguments) {
        return Some(Fault {
            number: refusals::STRANGE_CLAUSE,
            text,
        });
    }
    if let Some(text) = first_missing(rows, arguments) {
        return Some(Fault {
            number: refusals::ABSENT,
            text,
        });
    }
    if let Some(text) = first_wrong_argument(rows, arguments) {
        return Some(Fault {
            number: refusals::WRONG_KIND,
            text,
        });
    }
    None
}

/// The least fault of the elements behind the head of a form that has this table.
fn table_fault<C: ContentKind + 'static>(table: Table<C>, elements: &[Form]) -> Option<Fault<'_>>
    ensures { option_map seen_fault result ≡ least (table_faults C.wrong C.left_out (seen_table table.entry) elements.now) }
{
    match table {
        Table::Clauses(rows) => clause_fault(rows, elements),
        Table::Arguments(rows) => argument_fault(rows, elements),
    }
}

/// The form that this symbol heads, and the elements behind it, where it has no fault.
fn judged_headed<'a, K: FormKind>(
    head: &'a [u8],
    elements: &'a [Form],
) -> Result<(K, &'a [Form]), Fault<'a>>
    ensures { Judged (own_faults K.Content.wrong K.Content.left_out K.table) (recognized_in K.named (Some (head.now, elements.now))) result }
{
    match head {
        b"if" => Err(Fault {
            number: refusals::LEFT_OUT,
            text: b"if",
        }),
        _ => match K::named(head) {
            Some(kind) => match table_fault(kind.table(), elements) {
                Some(fault) => Err(fault),
                None => Ok((kind, elements)),
            },
            None => Err(Fault {
                number: refusals::NO_FORM,
                text: head,
            }),
        },
    }
}

/// Which form of a reader this is, and the elements behind its head, where it has no fault.
/// Otherwise its least fault, by number and then by place (docs/REFUSALS.md).
pub fn judged<K: FormKind>(form: &Form) -> Result<(K, &[Form]), Fault<'_>>
    ensures { Judged (own_faults K.Content.wrong K.Content.left_out K.table) (recognized K.named form.now) result }
{
    match form.headed() {
        Some((head, elements)) => judged_headed(head.as_slice(), elements),
        None => Err(Fault {
            number: refusals::NO_FORM,
            text: b"form",
        }),
    }
}
