//! The clauses of a form, judged by a table that has a row for each.

ghost use Rattle.std.specs.Prelude.{◌≡◌, ℕ, Bool, List, Option, map, not};
ghost use Rattle.cg_base.specs.declared.form.Form.{Form};
ghost use Rattle.std.specs.Option.{option_copied, option_map};
ghost use Rattle.std.specs.List.{find, list_any};
ghost use Rattle.cg_base.specs.Parts.{only_flag};
ghost use Rattle.cg_base.specs.Refusing.{first, seen_fault, least};
ghost use Rattle.cg_base.specs.Texts.{passes};
ghost use Rattle.cg_attrs.specs.Attrs.{wrong_attrs};
ghost use Rattle.cg_attrs.specs.Clauses.{seen, seen_clause, seen_role, row_named, holds_rule, is_besides, counts_absent, name_by, counts_as, stands_as, stands_for, standing, content_of, content_at, is_repeated, may_stand, misplaced_at, misplaced_among, misplaced, is_wanted, absent, wrong_standing, wrong, left_out_standing, left_out, clause_faults};

use crate::attr::are_attrs;
use cg_base::{Fault, Form, only_flag, refusals};

/// A clause as it stands in a form.
#[derive(Clone, Copy, Debug)]
pub struct Clause<'a> {
    /// Its name, as written.
    pub name: &'a [u8],
    /// What stands behind the name.
    pub content: &'a [Form],
    /// The elements behind the form's head, this clause among them. An argument that stands by its
    /// place is seen without them.
    pub elements: &'a [Form],
}

/// What has to stand behind the name of a clause: each reader of forms has a type of its own for
/// it (docs/LANGUAGE.md, "Forms and clauses").
pub trait ContentKind {
    ghost use Rattle.cg_attrs.specs.Clauses.{Clause};

    /// The texts of E304 of a clause of this kind, in the order of their places in the form: its
    /// own name where it isn't of the kind, then what is at fault inside it.
    ghost wrong: { Self → Clause → List (List ℕ) };

    /// The texts of E307, in the order of their places in the form.
    ghost left_out: { Self → Clause → List (List ℕ) };

    /// The first text of E304 of a clause, and None exactly where it has none.
    fn first_wrong<'a>(&self, clause: Clause<'a>) -> Option<&'a [u8]>
        ensures { option_copied result ≡ first (wrong self.now (seen_clause clause.entry)) };

    /// The first text of E307 of a clause, and None exactly where it has none.
    fn first_left_out<'a>(&self, clause: Clause<'a>) -> Option<&'a [u8]>
        ensures { option_copied result ≡ first (left_out self.now (seen_clause clause.entry)) };
}

/// What a clause is to its form (docs/LANGUAGE.md, "Forms and clauses").
#[derive(Clone, Copy, Debug)]
pub enum Role {
    /// It has to stand, once.
    Wanted,
    /// It may stand, once, and has to where the clause of this name stands.
    WantedBeside(&'static [u8]),
    /// It may stand, once.
    Optional,
    /// It may stand, and again.
    Repeated,
    /// It may stand, once, and has no effect.
    Plain,
    /// It is a clause that is left out of this language.
    LeftOut,
    /// It is another spelling of the clause of this name, and counts as that one.
    SpellingOf(&'static [u8]),
}

/// A clause that a form may have: a row of the form's table. It counts as absent where nothing
/// stands behind its name, or `#f` where a rule is meant. `comment` and `attrs`, which every form
/// may have, stand in no table.
#[derive(Clone, Copy, Debug)]
pub struct Row<C> {
    /// The clause's name.
    pub name: &'static [u8],
    /// What it is to its form.
    pub role: Role,
    /// What has to stand behind its name, judged whatever its role.
    pub content: C,
}

/// A row of a form's table: a clause's name, what it is to its form, what has to stand behind it.
#[macro_export]
macro_rules! row {
    ($name:expr, $role:expr, $content:expr) => {
        Row {
            name: $name,
            role: $role,
            content: $content,
        }
    };
}

/// The row of the clause with this name. None exactly where no row has it.
fn row_named<'a, C>(rows: &'a [Row<C>], name: &[u8]) -> Option<&'a Row<C>>
    ensures { option_map (λ r. seen r.now) result ≡ row_named (map seen rows.now) name.now }
{
    for row in rows {
        if row.name == name {
            return Some(row);
        }
    }
    None
}

/// Whether the clause of this name holds a rule.
fn holds_rule(name: &[u8]) -> bool
    ensures { result ≡ holds_rule name.now }
{
    matches!(
        name,
        b"encode" | b"decode" | b"insert" | b"extract" | b"get" | b"set"
    )
}

/// Whether every form may have the clause of this name.
fn is_besides(name: &[u8]) -> bool
    ensures { result ≡ is_besides name.now }
{
    matches!(name, b"comment" | b"attrs")
}

/// Whether the content is `#f`, which is no rule.
fn is_no_rule(content: &[Form]) -> bool
    ensures { result ≡ passes not (only_flag content.now) }
{
    match only_flag(content) {
        Some(flag) => !flag,
        None => false,
    }
}

/// Whether a clause counts as absent: nothing stands behind its name, or `#f` where a rule is
/// meant.
fn counts_absent(name: &[u8], content: &[Form]) -> bool
    ensures { result ≡ counts_absent name.now content.now }
{
    content.is_empty() || (holds_rule(name) && is_no_rule(content))
}

/// Whether the form is a clause of this name, as written, that doesn't count as absent.
pub(crate) fn stands_as(form: &Form, name: &[u8]) -> bool
    ensures { result ≡ stands_as name.now form.now }
{
    match form.headed() {
        Some((head, content)) => head.as_slice() == name
            && !counts_absent(head.as_slice(), content),
        None => false,
    }
}

/// The first clause of this name, as written, that doesn't count as absent.
fn first_clause<'a>(forms: &'a [Form], name: &[u8]) -> Option<&'a Form>
    ensures { option_copied result ≡ find (stands_as name.now) forms.now }
{
    forms.iter().find(|form| stands_as(form, name))
}

/// What stands behind the name of a clause.
#[tactic(auto, unfolding(crate::specs::Clauses::content_of))]
pub(crate) fn content(form: &Form) -> Option<&[Form]>
    ensures { option_copied result ≡ content_of form.now }
{
    let (_, content) = form.headed()?;
    Some(content)
}

/// What stands behind the name of the first clause of this name that doesn't count as absent.
/// None exactly where there is no such clause.
#[tactic(auto, unfolding(crate::specs::Clauses::content_at))]
pub fn content_at<'a>(forms: &'a [Form], name: &[u8]) -> Option<&'a [Form]>
    ensures { option_copied result ≡ content_at name.now forms.now }
{
    content(first_clause(forms, name)?)
}

/// The name under which a clause counts.
fn name_by<'a>(name: &'a [u8], role: Role) -> &'a [u8]
    ensures { result.now ≡ name_by name.now (seen_role role) }
{
    match role {
        Role::SpellingOf(other) => other,
        _ => name,
    }
}

/// The name under which the clause of this name counts.
fn counts_as<'a, C>(rows: &[Row<C>], name: &'a [u8]) -> &'a [u8]
    ensures { result.now ≡ counts_as (map seen rows.now) name.now }
{
    match row_named(rows, name) {
        Some(row) => name_by(name, row.role),
        None => name,
    }
}

/// Whether the form is a clause that counts under this name, and doesn't count as absent.
fn stands_for<C>(rows: &[Row<C>], form: &Form, name: &[u8]) -> bool
    ensures { result ≡ stands_for (map seen rows.now) name.now form.now }
{
    match form.headed() {
        Some((head, content)) => counts_as(rows, head.as_slice()) == name
            && !counts_absent(head.as_slice(), content),
        None => false,
    }
}

/// Whether one of the forms is a clause that counts under this name, and doesn't count as absent.
fn stands_among<C>(rows: &[Row<C>], forms: &[Form], name: &[u8]) -> bool
    ensures { result ≡ list_any (stands_for (map seen rows.now) name.now) forms.now }
{
    for form in forms {
        if stands_for(rows, form, name) {
            return true;
        }
    }
    false
}

/// Whether a clause may be repeated.
fn is_repeated(role: Role) -> bool
    ensures { result ≡ is_repeated (seen_role role) }
{
    matches!(role, Role::Repeated)
}

/// Whether a clause may stand behind those before it.
fn may_stand<C>(rows: &[Row<C>], before: &[Form], name: &[u8]) -> bool
    ensures { result ≡ may_stand (map seen rows.now) before.now name.now }
{
    if is_besides(name) {
        return !stands_among(rows, before, name);
    }
    match row_named(rows, name) {
        Some(row) => is_repeated(row.role) || !stands_among(rows, before, name_by(name, row.role)),
        None => false,
    }
}

/// How an element is misplaced behind those before it.
fn misplaced_at<'a, C>(rows: &[Row<C>], before: &[Form], form: &'a Form) -> Option<&'a [u8]>
    ensures { option_copied result ≡ misplaced_at (map seen rows.now) before.now form.now }
{
    match form.headed() {
        Some((name, content)) => {
            let name = name.as_slice();
            if counts_absent(name, content) || may_stand(rows, before, name) {
                None
            } else {
                Some(name)
            }
        }
        None => Some(b"clause"),
    }
}

/// The first text of E302: the name of the first clause that has no row or stands twice, or
/// `clause` where the first such element is no list that a symbol heads (docs/REFUSALS.md).
fn first_misplaced<'a, C>(rows: &[Row<C>], elements: &'a [Form]) -> Option<&'a [u8]>
    ensures { option_copied result ≡ first (misplaced (map seen rows.now) elements.now) }
{
    for (i, element) in elements.iter().enumerate() {
        if let Some(text) = misplaced_at(rows, &elements[..i], element) {
            return Some(text);
        }
    }
    None
}

/// Whether a clause is wanted in a form of these elements.
fn is_wanted<C>(rows: &[Row<C>], elements: &[Form], role: Role) -> bool
    ensures { result ≡ is_wanted (map seen rows.now) elements.now (seen_role role) }
{
    match role {
        Role::Wanted => true,
        Role::WantedBeside(other) => stands_among(rows, elements, other),
        _ => false,
    }
}

/// The first text of E303: the name of the first row whose clause is wanted and absent
/// (docs/REFUSALS.md).
fn first_absent<C>(rows: &[Row<C>], elements: &[Form]) -> Option<&'static [u8]>
    ensures { option_copied result ≡ first (absent (map seen rows.now) elements.now) }
{
    for row in rows {
        if is_wanted(rows, elements, row.role) && !stands_among(rows, elements, row.name) {
            return Some(row.name);
        }
    }
    None
}

/// The clause that an element behind a form's head is, where it doesn't count as absent. None
/// exactly where it does, or where it is no list that a symbol heads.
#[tactic(auto, unfolding(crate::specs::Clauses::standing))]
pub fn standing<'a>(elements: &'a [Form], form: &'a Form) -> Option<Clause<'a>>
    ensures { option_map seen_clause result ≡ standing elements.now form.now }
{
    let (name, content) = form.headed()?;
    let name = name.as_slice();
    if counts_absent(name, content) {
        return None;
    }
    Some(Clause {
        name,
        content,
        elements,
    })
}

/// `attrs`, where what stands behind that name isn't attributes alone.
fn wrong_attrs(content: &[Form]) -> Option<&'static [u8]>
    ensures { option_copied result ≡ first (wrong_attrs content.now) }
{
    if are_attrs(content) {
        None
    } else {
        Some(b"attrs")
    }
}

/// The first text of E304 of a clause.
fn wrong_standing<'a, C: ContentKind>(rows: &[Row<C>], clause: Clause<'a>) -> Option<&'a [u8]>
    ensures { option_copied result ≡ first (wrong_standing C.wrong (map seen rows.now) (seen_clause clause.entry)) }
{
    match clause.name {
        b"attrs" => wrong_attrs(clause.content),
        _ => match row_named(rows, clause.name) {
            Some(row) => row.content.first_wrong(clause),
            None => None,
        },
    }
}

/// The first text of E304 (docs/REFUSALS.md).
#[tactic(auto, using(crate::proofs::Firsts::first_append))]
fn first_wrong<'a, C: ContentKind>(rows: &[Row<C>], elements: &'a [Form]) -> Option<&'a [u8]>
    ensures { option_copied result ≡ first (wrong C.wrong (map seen rows.now) elements.now) }
{
    for element in elements {
        if let Some(clause) = standing(elements, element) {
            if let Some(text) = wrong_standing(rows, clause) {
                return Some(text);
            }
        }
    }
    None
}

/// The first text of E307 of a clause.
fn left_out_standing<'a, C: ContentKind>(rows: &[Row<C>], clause: Clause<'a>) -> Option<&'a [u8]>
    ensures { option_copied result ≡ first (left_out_standing C.left_out (map seen rows.now) (seen_clause clause.entry)) }
{
    match row_named(rows, clause.name) {
        Some(row) => match row.role {
            Role::LeftOut => Some(row.name),
            _ => row.content.first_left_out(clause),
        },
        None => None,
    }
}

/// The first text of E307 (docs/REFUSALS.md).
#[tactic(auto, using(crate::proofs::Firsts::first_append))]
fn first_left_out<'a, C: ContentKind>(rows: &[Row<C>], elements: &'a [Form]) -> Option<&'a [u8]>
    ensures { option_copied result ≡ first (left_out C.left_out (map seen rows.now) elements.now) }
{
    for element in elements {
        if let Some(clause) = standing(elements, element) {
            if let Some(text) = left_out_standing(rows, clause) {
                return Some(text);
            }
        }
    }
    None
}

/// The least fault of the clauses of a form, which are the elements behind its head, by the
/// form's table: E302, E303, E304 or E307, by number and then by place. None exactly where they
/// have no such fault (docs/REFUSALS.md).
pub(crate) fn clause_fault<'a, C: ContentKind>(
    rows: &[Row<C>],
    elements: &'a [Form],
) -> Option<Fault<'a>>
    ensures { option_map seen_fault result ≡ least (clause_faults C.wrong C.left_out (map seen rows.now) elements.now) }
{
    if let Some(text) = first_misplaced(rows, elements) {
        return Some(Fault {
            number: refusals::STRANGE_CLAUSE,
            text,
        });
    }
    if let Some(text) = first_absent(rows, elements) {
        return Some(Fault {
            number: refusals::ABSENT,
            text,
        });
    }
    if let Some(text) = first_wrong(rows, elements) {
        return Some(Fault {
            number: refusals::WRONG_KIND,
            text,
        });
    }
    if let Some(text) = first_left_out(rows, elements) {
        return Some(Fault {
            number: refusals::LEFT_OUT,
            text,
        });
    }
    None
}
