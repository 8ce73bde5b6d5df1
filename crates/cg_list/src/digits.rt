//! Bytes in hexadecimal digits.

ghost use Rattle.std.specs.Prelude.{◌≡◌, ◌<◌, ◌++◌, OnOk};
ghost use Rattle.std.specs.Char.{digit_char};
ghost use Rattle.std.specs.List.{flat_map};
ghost use Rattle.cg_base.specs.Faults.{hex_byte};
ghost use Rattle.cg_model_source.specs.Listing.{byte_text, byte_texts};
ghost use Rattle.cg_list.specs.Bundles.{texts_behind};

use cg_base::{NoMemory, Text};

/// A hexadecimal digit, in lower case.
fn digit(value: u8) -> u8
    requires { value < 16 }
    ensures { result ≡ digit_char value }
{
    if value < 10 {
        b'0' + value
    } else {
        b'a' + (value - 10)
    }
}

/// Puts a byte in two such digits behind a text.
fn put_byte(byte: u8, text: &mut Text) -> Result<(), NoMemory>
    ensures { OnOk result (text.new ≡ text.old ++ hex_byte byte) }
{
    text.append(&[digit(byte / 16), digit(byte % 16)])
}

/// Puts bytes in two digits each behind a text.
#[tactic(auto, using(crate::proofs::Written::digit_rules))]
pub(crate) fn put_bytes(bytes: &[u8], text: &mut Text) -> Result<(), NoMemory>
    ensures { OnOk result (text.new ≡ text.old ++ flat_map hex_byte bytes.now) }
{
    for byte in bytes {
        put_byte(*byte, text)?;
    }
    Ok(())
}

/// Puts `0x` and a byte in two digits behind a text.
#[tactic(auto, using(crate::proofs::Written::digit_rules))]
fn put_number(byte: u8, text: &mut Text) -> Result<(), NoMemory>
    ensures { OnOk result (text.new ≡ text.old ++ byte_text byte) }
{
    text.append(b"0x")?;
    put_byte(byte, text)
}

/// Puts bytes so behind others.
#[tactic(auto, using(crate::proofs::Written::digit_rules))]
fn put_more(bytes: &[u8], text: &mut Text) -> Result<(), NoMemory>
    ensures { OnOk result (text.new ≡ text.old ++ texts_behind bytes.now) }
{
    for byte in bytes {
        text.append(b", ")?;
        put_number(*byte, text)?;
    }
    Ok(())
}

/// Puts bytes so, joined by `, `.
#[tactic(auto, using(crate::proofs::Written::digit_rules))]
pub(crate) fn put_numbers(bytes: &[u8], text: &mut Text) -> Result<(), NoMemory>
    ensures { OnOk result (text.new ≡ text.old ++ byte_texts bytes.now) }
{
    match bytes {
        [] => Ok(()),
        [first, rest @ ..] => {
            put_number(*first, text)?;
            put_more(rest, text)
        }
    }
}
