ghost use Rattle.std.specs.Prelude.{◌≡◌, ◌≤◌, true};
ghost use Rattle.std.specs.List.{list_all};
ghost use Rattle.std.specs.Str.Parse.{digits_value};
ghost use Rattle.cg_base.specs.Grammar.{token, marked, based, positive, negative, are_digits};
ghost use Rattle.cg_base.specs.Faults.{refused_as};
ghost use Rattle.cg_base.specs.Numerals.{is_digit_of};

use cg_base::{Form, NoToken, Text, read_digits, refusals};

fn all_are_digits(base: u32, bytes: &[u8]) -> bool
    requires { (2 ≤ base) × (base ≤ 36) }
    ensures { result ≡ list_all (is_digit_of base) bytes.now }
{
    bytes.iter().all(|byte| char::from(*byte).is_digit(base))
}

fn are_digits(base: u32, bytes: &[u8]) -> bool
    requires { (2 ≤ base) × (base ≤ 36) }
    ensures { result ≡ are_digits base bytes.now }
{
    !bytes.is_empty() && all_are_digits(base, bytes)
}

fn positive_form(value: u64) -> Result<Form, NoToken>
    ensures { result ≡ positive value }
{
    if value < 1 << 63 {
        Ok(Form::Number(value as i64))
    } else {
        Err(NoToken::OutOfRange)
    }
}

fn negative_form(value: u64) -> Result<Form, NoToken>
    ensures { result ≡ negative value }
{
    if value == 0 {
        Ok(Form::Number(0))
    } else if value <= 1 << 63 {
        Ok(Form::Number(-((value - 1) as i64) - 1))
    } else {
        Err(NoToken::OutOfRange)
    }
}

fn positive(base: u32, digits: &[u8]) -> Result<Form, NoToken>
    requires base { (2 ≤ base) × (base ≤ 36) }
    requires digits { are_digits base digits.now ≡ true }
    ensures { result ≡ positive (digits_value base digits.now) }
{
    match read_digits(base, digits) {
        Some(value) => positive_form(value),
        None => Err(NoToken::OutOfRange),
    }
}

fn negative(base: u32, digits: &[u8]) -> Result<Form, NoToken>
    requires base { (2 ≤ base) × (base ≤ 36) }
    requires digits { are_digits base digits.now ≡ true }
    ensures { result ≡ negative (digits_value base digits.now) }
{
    match read_digits(base, digits) {
        Some(value) => negative_form(value),
        None => Err(NoToken::OutOfRange),
    }
}

/// What stands behind `#x`, `#o` or `#b`.
fn based(base: u32, bytes: &[u8]) -> Result<Form, NoToken>
    requires { (2 ≤ base) × (base ≤ 36) }
    ensures { result ≡ based base bytes.now }
{
    let Some((first, rest)) = bytes.split_first() else {
        return Err(NoToken::Unknown);
    };
    if *first == b'-' && are_digits(base, rest) {
        return negative(base, rest);
    }
    if are_digits(base, bytes) {
        return positive(base, bytes);
    }
    Err(NoToken::Unknown)
}

/// What stands behind `#`.
fn marked(bytes: &[u8]) -> Result<Form, NoToken>
    ensures { result ≡ marked bytes.now }
{
    let Some((first, rest)) = bytes.split_first() else {
        return Err(NoToken::Unknown);
    };
    match *first {
        b'x' => based(16, rest),
        b'o' => based(8, rest),
        b'b' => based(2, rest),
        b't' if rest.len() == 0 => Ok(Form::Flag(true)),
        b'f' if rest.len() == 0 => Ok(Form::Flag(false)),
        _ => Err(NoToken::Unknown),
    }
}

/// What a token stands for.
#[tactic(auto, unfolding(cg_base::specs::Grammar::token))]
pub fn form_of(word: Text) -> Result<Form, NoToken>
    ensures { result ≡ token word }
{
    let bytes = word.as_slice();
    let Some((first, rest)) = bytes.split_first() else {
        return Err(NoToken::Unknown);
    };
    if *first == b'\'' || *first == b'`' || *first == b',' {
        return Err(NoToken::Unknown);
    }
    if *first == b'#' {
        return marked(rest);
    }
    if *first == b'+' && are_digits(10, rest) {
        return positive(10, rest);
    }
    if *first == b'-' && are_digits(10, rest) {
        return negative(10, rest);
    }
    if are_digits(10, bytes) {
        return positive(10, bytes);
    }
    Ok(Form::Symbol(word))
}

/// The number of the refusal of a token.
pub fn refused_as(fault: NoToken) -> u16
    ensures { result ≡ refused_as fault }
{
    match fault {
        NoToken::Unknown => refusals::STRANGE_TOKEN,
        NoToken::OutOfRange => refusals::WIDE_NUMBER,
    }
}
