ghost use Rattle.std.specs.Prelude.{◌≡◌, ℕ, if◌then◌else◌, ◌==◌, ◌/◌, Ok};
ghost use Rattle.cg_model.specs.declared.rtl.Rtl.{out-Rtl};
ghost use Rattle.cg_model.specs.Checked as checked;
ghost use Rattle.cg_base.specs.Modes.{bits_of, word_mode, address_mode};

use cg_base::{Mode, address_mode, bits, refusals, word_mode};
use cg_model::{Machine, ModeFault, Op, Rtl};

/// A mode, or why there is none.
pub type Verdict = Result<Mode, ModeFault>;

/// A fault that names no modes.
pub fn fault(number: u16) -> ModeFault
    ensures { result ≡ checked.fault number }
{
    ModeFault {
        number,
        first: None,
        second: None,
    }
}

/// The fault 304 of a shape that the language doesn't have.
pub fn no_shape() -> ModeFault
    ensures { result ≡ checked.no_shape }
{
    fault(refusals::WRONG_KIND)
}

/// A mode where a value is needed.
pub fn valued(mode: Mode) -> Verdict
    ensures { result ≡ checked.valued mode }
{
    if bits(mode) == 0 {
        Err(fault(refusals::NO_VALUE))
    } else {
        Ok(mode)
    }
}

/// A mode that may be written where a value is meant, and none.
pub fn given(written: Option<Mode>) -> Verdict
    ensures { result ≡ checked.given written }
{
    match written {
        None => Ok(Mode::Void),
        Some(mode) => {
            if bits(mode) == 0 {
                Err(fault(refusals::WRONG_MODE))
            } else {
                Ok(mode)
            }
        }
    }
}

/// A mode that is written where one must be.
pub fn stated(written: Option<Mode>) -> Verdict
    ensures { result ≡ checked.stated written }
{
    match written {
        None => Err(no_shape()),
        Some(mode) => given(Some(mode)),
    }
}

/// Two modes agree where they have as many bits.
pub fn agrees(first: Mode, second: Mode) -> Verdict
    ensures { result ≡ checked.agrees first second }
{
    if bits(first) == bits(second) {
        Ok(first)
    } else if bits(second) == 0 {
        Err(fault(refusals::NO_VALUE))
    } else {
        Err(ModeFault {
            number: refusals::MODES_DIFFER,
            first: Some(first),
            second: Some(second),
        })
    }
}

/// The value of an arm meets the mode that leads.
pub fn meets(written: Option<Mode>, lead: Mode, own: Mode) -> Verdict
    ensures { result ≡ checked.meets written lead own }
{
    match written {
        Some(_) => agrees(lead, own),
        None => {
            if bits(lead) == 0 && bits(own) != 0 {
                Err(fault(refusals::NO_VALUE))
            } else {
                agrees(lead, own)
            }
        }
    }
}

/// The mode of a shift is that of what is shifted, whatever its count's is. What is shifted has the first
/// fault.
pub fn shifted(value: Verdict, count: Verdict) -> Verdict
    ensures { result ≡ checked.and_then value (λ mode. checked.and_then count (λ of-count. Ok mode)) }
{
    let (mode, _) = (value?, count?);
    Ok(mode)
}

/// An `if` without `else` has no value. Its test has the first fault.
pub fn without_else(test: Verdict, value: Verdict) -> Verdict
    ensures { result ≡ checked.and_then test (λ of-test. checked.and_then value (λ mode. Ok Mode.Void)) }
{
    test?;
    match value {
        Ok(_) => Ok(Mode::Void),
        Err(fault) => Err(fault),
    }
}

/// A part that is joined with others is of their mode.
pub fn same_bits(part: Mode, own: Mode) -> Verdict
    ensures { result ≡ checked.same_bits part own }
{
    if bits(part) == bits(own) {
        Ok(part)
    } else {
        Err(fault(refusals::WRONG_MODE))
    }
}

/// A number stands in a mode with a sign or without.
pub fn fits(mode: Mode, number: i64) -> Verdict
    ensures { result ≡ checked.fits mode number }
{
    let fits = match mode {
        Mode::Bi => -1 <= number && number <= 1,
        Mode::Qi | Mode::Uqi => -0x80 <= number && number <= 0xff,
        Mode::Hi | Mode::Uhi => -0x8000 <= number && number <= 0xffff,
        Mode::Si | Mode::Usi => -0x8000_0000 <= number && number <= 0xffff_ffff,
        Mode::Di | Mode::Udi => true,
        Mode::Void => false,
    };
    if fits {
        Ok(mode)
    } else {
        Err(fault(refusals::WRONG_MODE))
    }
}

/// The mode of the cpu's word.
pub fn word(machine: &Machine) -> Mode
    ensures { result ≡ word_mode machine.now.word_bits }
{
    word_mode(machine.word_bits)
}

/// The mode of an address.
pub fn address(machine: &Machine) -> Mode
    ensures { result ≡ address_mode machine.now.word_bits }
{
    address_mode(machine.word_bits)
}

/// A loose expression is a number without a mode of its own.
pub fn is_loose(rtl: &Rtl) -> bool
    ensures { result ≡ checked.is_loose (out-Rtl rtl.now) }
{
    match (rtl.op, rtl.mode) {
        (Op::Number, None) => true,
        _ => false,
    }
}

/// The mode wanted of an expression of which any mode will do.
pub fn any_mode(rtl: &Rtl) -> Option<Mode>
    ensures { result ≡ checked.any_mode (out-Rtl rtl.now) }
{
    if is_loose(rtl) { Some(Mode::Usi) } else { None }
}

/// Wider, or as wide.
pub fn wider(to: Mode, from: Mode) -> Verdict
    ensures { result ≡ checked.wider to from }
{
    if bits(from) <= bits(to) {
        Ok(to)
    } else {
        Err(fault(refusals::WRONG_MODE))
    }
}

/// Narrower, or as wide.
pub fn narrower(to: Mode, from: Mode) -> Verdict
    ensures { result ≡ checked.narrower to from }
{
    wider(from, to)?;
    Ok(to)
}

/// A mode that memory has.
pub fn memory(mode: Mode) -> Verdict
    ensures { result ≡ checked.memory_mode mode }
{
    if bits(mode) <= 1 {
        Err(fault(refusals::WRONG_MODE))
    } else {
        Ok(mode)
    }
}

/// How many values of one mode fill one of another.
#[tactic(auto, using(crate::proofs::Places::part_rules))]
pub fn parts(to: Mode, part: Mode) -> u8
    ensures { result ≡ bits_of to / bits_of part }
{
    if bits(part) == 0 {
        return 0;
    }
    bits(to) / bits(part)
}

/// The mode of one part of a value.
#[tactic(auto, using(crate::proofs::Places::part_rules))]
pub fn part(rtl: &Rtl, to: Mode, from: Mode) -> Verdict
    ensures { result ≡ checked.part_mode (out-Rtl rtl.now).number to from }
{
    if rtl.number >= 0 && rtl.number.unsigned_abs() < parts(from, to) as u64 {
        Ok(to)
    } else {
        Err(fault(refusals::WRONG_MODE))
    }
}
