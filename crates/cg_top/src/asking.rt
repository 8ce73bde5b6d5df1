ghost use Rattle.std.specs.Prelude.{◌≡◌, ◌<◌, IfOk, IfSome};
ghost use Rattle.std.specs.Option.{option_map};
ghost use Rattle.cg_top.specs.Asking.{digit_of, bytes_of, hex_bytes, decode_asked, check_asked, asm_asked, list_asked, asked, five};

use cg_base::{NoMemory, Text, read_number};
use cg_top_include::{four, three, two};
use std::alloc::Global;

/// What a machine is asked for.
#[derive(Debug, Drop)]
pub enum Command {
    /// How many instructions there are, where nothing is at fault.
    Check,
    /// The instruction that these bytes are decoded to.
    Decode(Text),
    /// The image of a source, which is written to a file.
    Assemble(Assembly),
    /// The listing of an image.
    ListImage(Listing),
}

/// An image that is asked for.
#[derive(Debug, Drop)]
pub struct Assembly {
    /// The name of the source's file.
    pub source: Text,
    /// The address of the image's first byte.
    pub base: u64,
    /// The name of the file that the image is written to.
    pub image: Text,
}

/// A listing that is asked for.
#[derive(Debug, Drop)]
pub struct Listing {
    /// The name of the image's file.
    pub image: Text,
    /// The address of the image's first byte.
    pub base: u64,
}

/// What the words of a command ask (docs/RUNNING.md, "Commands").
#[derive(Debug, Drop)]
pub struct Asked {
    /// The name of the description's file.
    pub desc: Text,
    /// The name of the machine.
    pub mach: Text,
    /// What the machine is asked for.
    pub command: Command,
}

/// What the words ask, or None exactly where they ask nothing.
pub fn ask_of(alloc: Global, words: &[Text]) -> Result<Option<Asked>, NoMemory>
    ensures { IfOk result (λ answer. answer ≡ asked words.now) }
{
    let Some((command, rest)) = words.split_first() else {
        return Ok(None);
    };
    if command.as_slice() == b"decode".as_slice() {
        Ok(decode_asked(alloc, rest)?)
    } else if command.as_slice() == b"check".as_slice() {
        Ok(check_asked(rest)?)
    } else if command.as_slice() == b"asm".as_slice() {
        Ok(asm_asked(rest)?)
    } else if command.as_slice() == b"list".as_slice() {
        Ok(list_asked(rest)?)
    } else {
        Ok(None)
    }
}

/// What `DESC MACH HEX` ask behind `decode`.
#[tactic(auto, unfolding(crate::specs::Asking::decode_asked))]
fn decode_asked(alloc: Global, words: &[Text]) -> Result<Option<Asked>, NoMemory>
    ensures { IfOk result (λ answer. answer ≡ decode_asked words.now) }
{
    let Some((desc, mach, hex)) = three(words) else {
        return Ok(None);
    };
    let Some(bytes) = hex_bytes(alloc, hex.as_slice())? else {
        return Ok(None);
    };
    Ok(Some(Asked {
        desc: desc.clone()?,
        mach: mach.clone()?,
        command: Command::Decode(bytes),
    }))
}

/// What `DESC MACH` ask behind `check`.
#[tactic(auto, unfolding(crate::specs::Asking::check_asked))]
fn check_asked(words: &[Text]) -> Result<Option<Asked>, NoMemory>
    ensures { IfOk result (λ answer. answer ≡ check_asked words.now) }
{
    let Some((desc, mach)) = two(words) else {
        return Ok(None);
    };
    Ok(Some(Asked {
        desc: desc.clone()?,
        mach: mach.clone()?,
        command: Command::Check,
    }))
}

/// What `DESC MACH SOURCE BASE IMAGE` ask behind `asm`.
#[tactic(auto, unfolding(crate::specs::Asking::asm_asked))]
fn asm_asked(words: &[Text]) -> Result<Option<Asked>, NoMemory>
    ensures { IfOk result (λ answer. answer ≡ asm_asked words.now) }
{
    let Some((desc, mach, source, base, image)) = five(words) else {
        return Ok(None);
    };
    let Some(base) = read_number(base.as_slice()) else {
        return Ok(None);
    };
    Ok(Some(Asked {
        desc: desc.clone()?,
        mach: mach.clone()?,
        command: Command::Assemble(Assembly {
            source: source.clone()?,
            base,
            image: image.clone()?,
        }),
    }))
}

/// What `DESC MACH IMAGE BASE` ask behind `list`.
#[tactic(auto, unfolding(crate::specs::Asking::list_asked))]
fn list_asked(words: &[Text]) -> Result<Option<Asked>, NoMemory>
    ensures { IfOk result (λ answer. answer ≡ list_asked words.now) }
{
    let Some((desc, mach, image, base)) = four(words) else {
        return Ok(None);
    };
    let Some(base) = read_number(base.as_slice()) else {
        return Ok(None);
    };
    Ok(Some(Asked {
        desc: desc.clone()?,
        mach: mach.clone()?,
        command: Command::ListImage(Listing {
            image: image.clone()?,
            base,
        }),
    }))
}

/// The elements of a list of just five.
#[tactic(auto, using(crate::proofs::AskingLemmas::five_by_four))]
fn five<T>(items: &[T]) -> Option<(&T, &T, &T, &T, &T)>
    ensures { option_map (λ x. (x.0.now, x.1.now, x.2.now, x.3.now, x.4.now)) result ≡ five items.now }
{
    let (first, rest) = items.split_first()?;
    let (second, third, fourth, fifth) = four(rest)?;
    Some((first, second, third, fourth, fifth))
}

/// The bytes of 2 to 32 hexadecimal digits, an even count.
fn hex_bytes(alloc: Global, digits: &[u8]) -> Result<Option<Text>, NoMemory>
    ensures { IfOk result (λ answer. answer ≡ hex_bytes digits.now) }
{
    if digits.len() < 2 || digits.len() > 32 {
        Ok(None)
    } else {
        Ok(bytes_of(alloc, digits)?)
    }
}

/// The bytes that hexadecimal digits write, two digits a byte.
fn bytes_of(alloc: Global, digits: &[u8]) -> Result<Option<Text>, NoMemory>
    ensures { IfOk result (λ answer. answer ≡ bytes_of digits.now) }
{
    let mut bytes = Text::new(alloc);
    let mut rest = digits;
    while let Some((first, after)) = rest.split_first() {
        let Some((second, after)) = after.split_first() else {
            return Ok(None);
        };
        let Some(high) = digit(*first) else {
            return Ok(None);
        };
        let Some(low) = digit(*second) else {
            return Ok(None);
        };
        bytes.push(16 * high + low)?;
        rest = after;
    }
    Ok(Some(bytes))
}

/// The number that a hexadecimal digit stands for.
fn digit(byte: u8) -> Option<u8>
    ensures value { result ≡ digit_of byte }
    ensures small { IfSome result (λ number. number < 16) }
{
    match byte {
        b'0'..=b'9' => Some(byte - b'0'),
        b'A'..=b'F' => Some(byte - b'A' + 10),
        b'a'..=b'f' => Some(byte - b'a' + 10),
        _ => None,
    }
}
