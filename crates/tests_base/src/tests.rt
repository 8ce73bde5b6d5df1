ghost use Rattle.std.specs.Prelude.{◌≡◌, ◌^◌, ◌<◌, nat_lt, IsTrue, false};
ghost use Rattle.cg_base.specs.Modes.{bits_of};
ghost use Rattle.cg_base.specs.Operations.{takes_count};

use cg_base::{
    BinaryOp, DivideByZero, Endian, List, Mode, TernaryOp, Text, UnaryOp, binary, bits, convert,
    decimal, hex, number_at, put_number, read_number, ternary, unary,
};
use std::process::Abort;
use std::test::Fail;

/// The highest number of 64 bits, and the least with a sign.
const ALL: u64 = 0xffff_ffff_ffff_ffff;

const LEAST: u64 = 0x8000_0000_0000_0000;

/// Whether the number is a value of the mode.
fn is_value(mode: Mode, a: u64) -> bool
    ensures { result ≡ nat_lt a (2 ^ bits_of mode) }
{
    (a as u128) < 1 << bits(mode)
}

/// Whether the operation takes the second number: any where it is a count, else a value of the mode.
fn is_allowed(op: BinaryOp, mode: Mode, b: u64) -> bool
    ensures { IsTrue result → takes_count op ≡ false → b < 2 ^ bits_of mode }
{
    match op {
        BinaryOp::Sll | BinaryOp::Srl | BinaryOp::Sra | BinaryOp::Rol | BinaryOp::Ror => true,
        _ => is_value(mode, b),
    }
}

static UNARY: [(UnaryOp, Mode, u64, u64); 16] = [
    (UnaryOp::Neg, Mode::Qi, 0, 0),
    (UnaryOp::Neg, Mode::Qi, 0x80, 0x80),
    (UnaryOp::Neg, Mode::Bi, 1, 1),
    (UnaryOp::Neg, Mode::Di, 1, ALL),
    (UnaryOp::Inv, Mode::Qi, 0x0f, 0xf0),
    (UnaryOp::Inv, Mode::Bi, 1, 0),
    (UnaryOp::Inv, Mode::Di, 0, ALL),
    (UnaryOp::Not, Mode::Qi, 0, 1),
    (UnaryOp::Not, Mode::Bi, 1, 0),
    (UnaryOp::Not, Mode::Di, LEAST, 0),
    (UnaryOp::Abs, Mode::Qi, 0x7f, 0x7f),
    (UnaryOp::Abs, Mode::Qi, 0xff, 1),
    (UnaryOp::Abs, Mode::Qi, 0x80, 0x80),
    (UnaryOp::Abs, Mode::Uqi, 0xff, 1),
    (UnaryOp::Abs, Mode::Bi, 1, 1),
    (UnaryOp::Abs, Mode::Di, LEAST, LEAST),
];

#[test]
fn operations_on_one_value(rt: HostRuntime) {
    for (op, mode, a, want) in UNARY {
        assert!(rt; mode != Mode::Void);
        assert!(rt; is_value(mode, a));
        assert_eq!(rt; unary(op, mode, a), want, "{op:?} {mode:?} {a}");
    }
}

static BINARY: [(BinaryOp, Mode, u64, u64, u64); 78] = [
    (BinaryOp::Add, Mode::Qi, 0xff, 1, 0),
    (BinaryOp::Add, Mode::Bi, 1, 1, 0),
    (BinaryOp::Add, Mode::Uhi, 0xffff, 0xffff, 0xfffe),
    (BinaryOp::Add, Mode::Di, ALL, 1, 0),
    (BinaryOp::Sub, Mode::Qi, 0, 1, 0xff),
    (BinaryOp::Sub, Mode::Bi, 0, 1, 1),
    (BinaryOp::Sub, Mode::Di, 0, 1, ALL),
    (BinaryOp::Mul, Mode::Qi, 0x80, 2, 0),
    (BinaryOp::Mul, Mode::Si, 0xffff_ffff, 0xffff_ffff, 1),
    (BinaryOp::Mul, Mode::Di, LEAST, 3, LEAST),
    (
        BinaryOp::Div,
        Mode::Si,
        0x8000_0000,
        0xffff_ffff,
        0x8000_0000,
    ),
    (BinaryOp::Div, Mode::Qi, 0x80, 0xff, 0x80),
    (BinaryOp::Div, Mode::Di, LEAST, ALL, LEAST),
    (BinaryOp::Div, Mode::Qi, 0xf9, 2, 0xfd),
    (BinaryOp::Div, Mode::Qi, 7, 0xfe, 0xfd),
    (BinaryOp::Div, Mode::Uqi, 0xf9, 2, 0xfd),
    (BinaryOp::Div, Mode::Bi, 1, 1, 1),
    (BinaryOp::Mod, Mode::Si, 0x8000_0000, 0xffff_ffff, 0),
    (BinaryOp::Mod, Mode::Di, LEAST, ALL, 0),
    (BinaryOp::Mod, Mode::Qi, 0xf9, 2, 0xff),
    (BinaryOp::Mod, Mode::Qi, 7, 0xfe, 1),
    (BinaryOp::Mod, Mode::Qi, 0xf9, 0xfe, 0xff),
    (BinaryOp::Mod, Mode::Bi, 1, 1, 0),
    (BinaryOp::Udiv, Mode::Qi, 0xf9, 2, 0x7c),
    (BinaryOp::Udiv, Mode::Si, 0x8000_0000, 0xffff_ffff, 0),
    (BinaryOp::Umod, Mode::Qi, 0xf9, 2, 1),
    (
        BinaryOp::Umod,
        Mode::Si,
        0x8000_0000,
        0xffff_ffff,
        0x8000_0000,
    ),
    (BinaryOp::And, Mode::Qi, 0xf0, 0x3c, 0x30),
    (BinaryOp::Or, Mode::Qi, 0xf0, 0x3c, 0xfc),
    (BinaryOp::Xor, Mode::Qi, 0xf0, 0x3c, 0xcc),
    (BinaryOp::Sll, Mode::Si, 1, 31, 0x8000_0000),
    (BinaryOp::Sll, Mode::Si, 1, 32, 0),
    (BinaryOp::Sll, Mode::Si, 1, ALL, 0),
    (BinaryOp::Sll, Mode::Qi, 0x81, 1, 2),
    (BinaryOp::Sll, Mode::Di, 1, 63, LEAST),
    (BinaryOp::Sll, Mode::Di, 1, 64, 0),
    (BinaryOp::Sll, Mode::Bi, 1, 0, 1),
    (BinaryOp::Sll, Mode::Bi, 1, 1, 0),
    (BinaryOp::Srl, Mode::Si, 0x8000_0000, 31, 1),
    (BinaryOp::Srl, Mode::Si, 0x8000_0000, 32, 0),
    (BinaryOp::Srl, Mode::Di, ALL, 63, 1),
    (BinaryOp::Srl, Mode::Di, ALL, 64, 0),
    (BinaryOp::Sra, Mode::Si, 0x8000_0000, 31, 0xffff_ffff),
    (BinaryOp::Sra, Mode::Si, 0x8000_0000, 32, 0xffff_ffff),
    (BinaryOp::Sra, Mode::Si, 0x4000_0000, 32, 0),
    (BinaryOp::Sra, Mode::Qi, 0x80, 1, 0xc0),
    (BinaryOp::Sra, Mode::Uqi, 0x80, 8, 0xff),
    (BinaryOp::Sra, Mode::Di, LEAST, ALL, ALL),
    (BinaryOp::Sra, Mode::Bi, 1, 0, 1),
    (BinaryOp::Sra, Mode::Bi, 1, 1, 0),
    (BinaryOp::Rol, Mode::Qi, 0x81, 1, 0x03),
    (BinaryOp::Rol, Mode::Qi, 0x81, 8, 0x81),
    (BinaryOp::Rol, Mode::Qi, 0x81, 9, 0x03),
    (BinaryOp::Rol, Mode::Di, LEAST, 1, 1),
    (BinaryOp::Rol, Mode::Di, LEAST, 64, LEAST),
    (BinaryOp::Rol, Mode::Bi, 1, 5, 1),
    (BinaryOp::Ror, Mode::Qi, 0x81, 1, 0xc0),
    (BinaryOp::Ror, Mode::Qi, 0x81, 8, 0x81),
    (BinaryOp::Ror, Mode::Qi, 0x81, 9, 0xc0),
    (BinaryOp::Ror, Mode::Si, 1, 1, 0x8000_0000),
    (BinaryOp::Ror, Mode::Di, 1, ALL, 2),
    (BinaryOp::Eq, Mode::Qi, 0xff, 0xff, 1),
    (BinaryOp::Ne, Mode::Qi, 0xff, 0xff, 0),
    (BinaryOp::Lt, Mode::Qi, 0x80, 0x7f, 1),
    (BinaryOp::Lt, Mode::Uqi, 0xff, 0, 1),
    (BinaryOp::Lt, Mode::Bi, 1, 0, 0),
    (BinaryOp::Le, Mode::Si, 0x8000_0000, 0x8000_0000, 1),
    (BinaryOp::Le, Mode::Di, 0, ALL, 0),
    (BinaryOp::Gt, Mode::Qi, 0x7f, 0x80, 1),
    (BinaryOp::Gt, Mode::Bi, 1, 0, 1),
    (BinaryOp::Ge, Mode::Qi, 0xff, 0, 0),
    (BinaryOp::Ge, Mode::Si, 5, 5, 1),
    (BinaryOp::Ltu, Mode::Qi, 0x80, 0x7f, 0),
    (BinaryOp::Ltu, Mode::Di, 0, ALL, 1),
    (BinaryOp::Leu, Mode::Qi, 0x80, 0x7f, 0),
    (BinaryOp::Leu, Mode::Qi, 0x80, 0x80, 1),
    (BinaryOp::Gtu, Mode::Qi, 0x80, 0x7f, 1),
    (BinaryOp::Geu, Mode::Qi, 0x7f, 0x80, 0),
];

#[test]
fn operations_on_two_values(rt: HostRuntime) {
    for (op, mode, a, b, want) in BINARY {
        assert!(rt; mode != Mode::Void);
        assert!(rt; is_value(mode, a));
        assert!(rt; is_allowed(op, mode, b));
        assert_eq!(rt; binary(op, mode, a, b), Ok(want), "{op:?} {mode:?} {a} {b}");
    }
}

#[test]
fn divisions_by_zero(rt: HostRuntime) {
    for op in [BinaryOp::Div, BinaryOp::Udiv, BinaryOp::Mod, BinaryOp::Umod] {
        assert_eq!(rt; binary(op, Mode::Si, 1, 0), Err(DivideByZero), "{op:?}");
    }
}

static TERNARY: [(TernaryOp, Mode, u64, u64, u64, u64); 26] = [
    (TernaryOp::Addc, Mode::Qi, 0xff, 0xff, 1, 0xff),
    (TernaryOp::Addc, Mode::Bi, 1, 1, 1, 1),
    (TernaryOp::Addc, Mode::Di, ALL, ALL, 1, ALL),
    (TernaryOp::Subc, Mode::Qi, 0, 0, 1, 0xff),
    (TernaryOp::Subc, Mode::Qi, 0, 0xff, 1, 0),
    (TernaryOp::Subc, Mode::Di, 0, ALL, 1, 0),
    (TernaryOp::AddCflag, Mode::Qi, 0xff, 0, 0, 0),
    (TernaryOp::AddCflag, Mode::Qi, 0xff, 0, 1, 1),
    (TernaryOp::AddCflag, Mode::Bi, 1, 0, 1, 1),
    (TernaryOp::AddCflag, Mode::Di, ALL, ALL, 1, 1),
    (TernaryOp::AddOflag, Mode::Si, 0x7fff_ffff, 0, 1, 1),
    (TernaryOp::AddOflag, Mode::Qi, 0x7f, 0x80, 1, 0),
    (TernaryOp::AddOflag, Mode::Qi, 0x80, 0xff, 0, 1),
    (TernaryOp::AddOflag, Mode::Qi, 0x80, 0xff, 1, 0),
    (TernaryOp::AddOflag, Mode::Bi, 0, 1, 0, 0),
    (TernaryOp::AddOflag, Mode::Bi, 1, 1, 0, 1),
    (TernaryOp::AddOflag, Mode::Di, LEAST - 1, 0, 1, 1),
    (TernaryOp::SubCflag, Mode::Si, 0, 0, 1, 1),
    (TernaryOp::SubCflag, Mode::Qi, 0xff, 0xff, 0, 0),
    (TernaryOp::SubCflag, Mode::Di, ALL, ALL, 1, 1),
    (TernaryOp::SubOflag, Mode::Qi, 0x80, 0, 1, 1),
    (TernaryOp::SubOflag, Mode::Qi, 0x7f, 0xff, 0, 1),
    (TernaryOp::SubOflag, Mode::Qi, 0x7f, 0xff, 1, 0),
    (TernaryOp::SubOflag, Mode::Bi, 0, 1, 0, 1),
    (TernaryOp::SubOflag, Mode::Bi, 1, 1, 0, 0),
    (TernaryOp::SubOflag, Mode::Di, LEAST, 0, 1, 1),
];

#[test]
fn operations_with_a_carry(rt: HostRuntime) {
    for (op, mode, a, b, c, want) in TERNARY {
        assert!(rt; mode != Mode::Void);
        assert!(rt; is_value(mode, a));
        assert!(rt; is_value(mode, b));
        assert!(rt; c <= 1);
        assert_eq!(rt;
            ternary(op, mode, a, b, c),
            want,
            "{op:?} {mode:?} {a} {b} {c}"
        );
    }
}

static CONVERSIONS: [(Mode, Mode, u64, u64); 7] = [
    (Mode::Qi, Mode::Si, 0x80, 0xffff_ff80),
    (Mode::Qi, Mode::Uhi, 0x80, 0xff80),
    (Mode::Qi, Mode::Udi, 0xff, ALL),
    (Mode::Uqi, Mode::Si, 0x80, 0x80),
    (Mode::Si, Mode::Qi, 0x1234_56ff, 0xff),
    (Mode::Bi, Mode::Si, 1, 1),
    (Mode::Di, Mode::Bi, 3, 1),
];

#[test]
fn values_in_other_modes(rt: HostRuntime) {
    for (from, to, a, want) in CONVERSIONS {
        assert!(rt; from != Mode::Void);
        assert!(rt; to != Mode::Void);
        assert!(rt; is_value(from, a));
        assert_eq!(rt; convert(from, to, a), want, "{from:?} {to:?} {a}");
    }
}

#[test]
fn numbers_in_bytes(rt: HostRuntime) {
    let mut bytes = [9u8; 5];
    put_number(&mut bytes, 1, 3, Endian::Big, 0x01_0203);
    assert_eq!(rt; bytes, [9, 1, 2, 3, 9]);
    assert_eq!(rt; number_at(&bytes, 1, 3, Endian::Little), 0x03_0201);
    put_number(&mut bytes, 2, 2, Endian::Little, 0x0708);
    assert_eq!(rt; bytes, [9, 1, 8, 7, 9]);
    assert_eq!(rt; number_at(&bytes, 2, 2, Endian::Little), 0x0708);
}

static TEXTS: [(&[u8], Option<u64>); 18] = [
    (b"0", Some(0)),
    (b"007", Some(7)),
    (b"18446744073709551615", Some(ALL)),
    (b"18446744073709551616", None),
    (b"99999999999999999999x", None),
    (b"0x0", Some(0)),
    (b"0xfF", Some(255)),
    (b"0xffffffffffffffff", Some(ALL)),
    (b"0x00000000000000000001", Some(1)),
    (b"0x10000000000000000", None),
    (b"", None),
    (b"0x", None),
    (b"0XfF", None),
    (b"ff", None),
    (b"+1", None),
    (b"-1", None),
    (b"1 ", None),
    (b"0x1g", None),
];

#[test]
fn numbers_in_text(rt: HostRuntime) -> Result<(), Fail> {
    for (text, want) in TEXTS {
        assert_eq!(rt; read_number(text), want, "{text:?}");
    }
    assert_eq!(rt; decimal(rt.alloc(), -120)?.as_slice(), b"-120".as_slice());
    assert_eq!(rt; hex(rt.alloc(), 0)?.as_slice(), b"0x0".as_slice());
    assert_eq!(rt; hex(rt.alloc(), 0x10ab)?.as_slice(), b"0x10ab".as_slice());
    Ok(())
}

#[test]
fn lists_and_texts(rt: HostRuntime) -> Result<(), Fail> {
    let mut list = List::new(rt.alloc());
    list.push(7u8)?;
    list.push(8)?;
    assert_eq!(rt; list.clone()?.as_slice(), [7, 8].as_slice());
    assert_eq!(rt; list.get(1).copied(), Some(8));
    assert_eq!(rt; list.fitted()?.as_slice(), [7, 8].as_slice());
    let mut text = Text::of(rt.alloc(), b"add")?;
    text.push(b'i')?;
    text.append(b" r1")?;
    assert_eq!(rt; text.clone()?.as_slice(), b"addi r1".as_slice());
    Ok(())
}
