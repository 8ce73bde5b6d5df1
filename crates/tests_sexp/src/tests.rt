use cg_base::{Form, NoMemory, Stop, Text};
use cg_sexp::{clause, print, read};
use std::alloc::Global;
use std::test::Fail;

/// Texts of one form, the line on which it begins, and how it is printed.
static PRINTED: [(&[u8], u32, &[u8]); 35] = [
    (b"0", 1, b"0"),
    (b"-0", 1, b"0"),
    (b"+05", 1, b"5"),
    (b"9223372036854775807", 1, b"9223372036854775807"),
    (b"-9223372036854775808", 1, b"-9223372036854775808"),
    (b"#x7fFF", 1, b"32767"),
    (b"#x-8000000000000000", 1, b"-9223372036854775808"),
    (b"#x-0", 1, b"0"),
    (b"#o17", 1, b"15"),
    (b"#o-10", 1, b"-8"),
    (b"#b101", 1, b"5"),
    (b"#b-1", 1, b"-1"),
    (b"+", 1, b"+"),
    (b"-", 1, b"-"),
    (b"+-5", 1, b"+-5"),
    (b"1a", 1, b"1a"),
    (b"1.5", 1, b"1.5"),
    (b"m32rx,m32r2", 1, b"m32rx,m32r2"),
    (b"a'b`c", 1, b"a'b`c"),
    (b"a#t", 1, b"a#t"),
    (b"F-RD", 1, b"F-RD"),
    (b"\\n", 1, b"\\n"),
    (b"~", 1, b"~"),
    (b"\n#t", 2, b"#t"),
    (b"#f;#t", 1, b"#f"),
    (b"\"\"", 1, b"\"\""),
    (b"\"b (c);\"", 1, b"\"b (c);\""),
    (b"\"a\\\"b\\\\c\\nd\\te\\\n\"", 1, b"\"a\\\"b\\\\c\nd\te\""),
    (b"\"a\\\nb\"", 1, b"\"ab\""),
    (b"\"a\nb\r\t\"", 1, b"\"a\nb\r\t\""),
    (b"()", 1, b"()"),
    (
        b"( (r0\n0)(r1 1);\n(r2 +02) )",
        1,
        b"((r0 0) (r1 1) (r2 2))",
    ),
    (b"(#x-ff #f #t ())", 1, b"(-255 #f #t ())"),
    (
        b"\n;((\x00\xff\r(\r\n((a\t-2); )\n\"b\n\")\x0c;",
        3,
        b"((a -2) \"b\n\")",
    ),
    (b"\n\n\n(a\n\n(b))", 4, b"(a (b))"),
];

/// Whether the text is one form, which begins on this line and is printed so, and what is printed
/// reads as the form again.
fn is_printed(alloc: Global, text: &[u8], line: u32, printed: &[u8]) -> Result<bool, Stop> {
    let forms = read(alloc, text, 3)?;
    let [top] = forms.tops.as_slice() else {
        return Ok(false);
    };
    let again = print(alloc, &top.form)?;
    let forms = read(alloc, again.as_slice(), 3)?;
    let [other] = forms.tops.as_slice() else {
        return Ok(false);
    };
    Ok(again.as_slice() == printed && top.form == other.form && top.line == line && top.file == 3)
}

#[test]
fn forms_are_read_and_printed(rt: HostRuntime) -> Result<(), Fail> {
    for (text, line, printed) in PRINTED {
        assert!(rt; is_printed(rt.alloc(), text, line, printed)?, "{text:?}");
    }
    Ok(())
}

/// A text of so many lists, one within another.
fn nested(alloc: Global, depth: usize) -> Result<Text, NoMemory> {
    let mut text = Text::new(alloc);
    for _ in 0..depth {
        text.push(b'(')?;
    }
    for _ in 0..depth {
        text.push(b')')?;
    }
    Ok(text)
}

#[test]
fn several_forms_and_deep_ones(rt: HostRuntime) -> Result<(), Fail> {
    let alloc = rt.alloc();
    assert_eq!(rt; read(alloc, b"", 0)?.tops.len(), 0);
    assert_eq!(rt; read(alloc, b"ab\"c\"d(e)f;g", 0)?.tops.len(), 5);
    assert_eq!(rt;
        read(alloc, nested(alloc, 200)?.as_slice(), 0)?.tops.len(),
        1
    );
    let forms = read(alloc, b"(a\n\nb) \"\n\\\n\" c\nd", 0)?;
    for (top, line) in forms.tops.as_slice().iter().zip([1, 3, 5, 6]) {
        assert_eq!(rt; top.line, line);
    }
    Ok(())
}

/// The clause of this name of a form with several clauses, as it is printed, or nothing.
fn printed_clause(alloc: Global, name: &[u8]) -> Result<Text, Stop> {
    let text = b"((name a) name \"name\" () (name b) (name c) (length 4))";
    let forms = read(alloc, text, 0)?;
    let [top] = forms.tops.as_slice() else {
        return Ok(Text::new(alloc));
    };
    match clause(&top.form, name) {
        Some(found) => Ok(print(alloc, found)?),
        None => Ok(Text::new(alloc)),
    }
}

#[test]
fn clauses_of_a_form(rt: HostRuntime) -> Result<(), Fail> {
    let clauses = [
        (b"name".as_slice(), b"(name b)".as_slice()),
        (b"length", b"(length 4)"),
        (b"nam", b""),
        (b"start", b""),
    ];
    for (name, wanted) in clauses {
        assert_eq!(rt;
            printed_clause(rt.alloc(), name)?.as_slice(),
            wanted,
            "{name:?}"
        );
    }
    assert!(rt; clause(&Form::Flag(true), b"name").is_none());
    Ok(())
}
