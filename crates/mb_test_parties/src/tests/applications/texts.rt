//! Texts and codes, checked against what another program makes of them.

use crate::tests::pieces::{bytes_of, text_of};
use Assembled::{Code, Line};
use Listed::{At, Text};
use mb_appvm::{AsmEnd, DisasmEnd, assemble, disassemble};
use std::alloc::Global;
use std::test::Fail;

/// The code of a text in hexadecimal, or its first bad line.
#[derive(Clone, Copy)]
enum Assembled {
    Code(&'static str),
    Line(u32),
}

/// Texts, and what each assembles to.
const TEXTS: &[(&[u8], Assembled)] = &[
    (b"", Code("")),
    (b"halt", Code("00")),
    (b"halt\n", Code("00")),
    (b"\n", Line(1)),
    (b"# note\n", Line(1)),
    (b"label a\n", Code("")),
    (b"label a\nlabel a\n", Line(2)),
    (b"jump a\n", Line(1)),
    (b"jump a\nlabel a\n", Code("200003")),
    (b"label a\njump a\n", Code("200000")),
    (b"label 1a\n", Line(1)),
    (b"jump 1a\n", Line(1)),
    (b"jump 65535\n", Code("20ffff")),
    (b"jump 65536\n", Line(1)),
    (b"jump 01\n", Line(1)),
    (b"push 4294967295\n", Code("01ffffffff")),
    (b"push 4294967296\n", Line(1)),
    (b"push -1\n", Line(1)),
    (b"push\n", Line(1)),
    (b"push 1 2\n", Line(1)),
    (b"halt 1\n", Line(1)),
    (b"Halt\n", Line(1)),
    (b" halt\n", Line(1)),
    (b"halt \n", Line(1)),
    (b"push  1\n", Line(1)),
    (b"get a\n", Code("430161")),
    (
        b"get nnnnnnnnnnnnnnnnnnnnnnnnnnnnnnnn\n",
        Code("43206e6e6e6e6e6e6e6e6e6e6e6e6e6e6e6e6e6e6e6e6e6e6e6e6e6e6e6e6e6e6e6e"),
    ),
    (b"get nnnnnnnnnnnnnnnnnnnnnnnnnnnnnnnnn\n", Line(1)),
    (b"get\n", Line(1)),
    (b"get a b\n", Line(1)),
    (b"label halt\njump halt\n", Code("200000")),
    (b"label label\ncall label\n", Code("220000")),
    (b"label a b\n", Line(1)),
    (b"label\n", Line(1)),
    (b"jumpzero ~\nlabel ~\n", Code("210003")),
    (b"jump b\nbad\nlabel b\n", Line(2)),
    (b"jump b\nbad\n", Line(1)),
    (b"bad\njump b\n", Line(1)),
    (b"label a\nbad\nlabel a\n", Line(2)),
    (
        b"call end\npush 7\nlabel end\nreturn",
        Code("220008010000000723"),
    ),
    (b"halt\r\n", Line(1)),
    (b"get \x7F\n", Line(1)),
    (b"get \xC3\xA9\n", Line(1)),
    (b"label a\nlabel b\njump a\njump b\n", Code("200000200000")),
];

/// Whether a text assembles to this.
fn is_assembled(alloc: Global, text: &[u8], wanted: Assembled) -> Result<bool, Fail> {
    if text.len() > 1_000 {
        return Ok(false);
    }
    match wanted {
        Code(code) => {
            let wanted_code = bytes_of(alloc, code)?;
            Ok(assemble(alloc, text)?.as_slice() == wanted_code.as_slice())
        }
        Line(wanted_line) => Ok(match assemble(alloc, text) {
            Ok(_) => false,
            Err(end) => end == AsmEnd::BadLine { line: wanted_line },
        }),
    }
}

#[test]
fn texts_are_assembled(rt: HostRuntime) -> Result<(), Fail> {
    for (text, wanted) in TEXTS {
        assert!(rt; is_assembled(rt.alloc(), text, *wanted)?, "{text:?}");
    }
    Ok(())
}

/// This many lines `push 7`, then this many `halt`, then a line; and the size of their code, or the first bad line.
const LONG_TEXTS: &[(usize, usize, &str, Result<usize, u32>)] = &[
    (6_553, 3, "", Ok(32_768)),
    (6_553, 3, "halt\n", Err(6_557)),
    (6_553, 2, "halt\n", Ok(32_768)),
    (6_553, 1, "jump 0\n", Err(6_555)),
    (6_553, 0, "jump 0\n", Ok(32_768)),
    (6_552, 4, "get a\n", Ok(32_767)),
    (6_552, 4, "get abc\n", Err(6_557)),
    (6_552, 5, "label end\n", Ok(32_765)),
];

/// Whether a long text has a code of this size, or this first bad line.
fn is_measured(
    alloc: Global,
    pieces: &[(&str, usize)],
    wanted: Result<usize, u32>,
) -> Result<bool, Fail> {
    let text = text_of(alloc, pieces)?;
    Ok(match assemble(alloc, text.as_slice()) {
        Ok(code) => wanted == Ok(code.as_slice().len()),
        Err(AsmEnd::BadLine { line }) => wanted == Err(line),
        Err(AsmEnd::NoMemory) => false,
    })
}

#[test]
fn long_texts_are_bounded(rt: HostRuntime) -> Result<(), Fail> {
    for (pushes, halts, last, wanted) in LONG_TEXTS {
        let pieces = [("push 7\n", *pushes), ("halt\n", *halts), (*last, 1)];
        assert!(rt; is_measured(rt.alloc(), &pieces, *wanted)?, "{last}");
    }
    Ok(())
}

/// The text of a code, or the first place where no instruction stands.
#[derive(Clone, Copy)]
enum Listed {
    Text(&'static [u8]),
    At(u32),
}

/// Codes in hexadecimal, and what is listed of each.
const CODES: &[(&str, Listed)] = &[
    ("", Text(b"")),
    ("00", Text(b"halt\n")),
    ("01000000414200", Text(b"push 65\nemit\nhalt\n")),
    ("20000c200000", Text(b"jump 12\njump 0\n")),
    ("4305746f6b656e", Text(b"get token\n")),
    ("4301", At(0)),
    ("0001000000", At(1)),
    ("2000", At(0)),
    ("06", At(0)),
    ("00ff", At(1)),
    ("430120", At(0)),
    ("4300", At(0)),
    ("43", At(0)),
    (
        "4321616161616161616161616161616161616161616161616161616161616161616161",
        At(0),
    ),
    (
        "43206161616161616161616161616161616161616161616161616161616161616161",
        Text(b"get aaaaaaaaaaaaaaaaaaaaaaaaaaaaaaaa\n"),
    ),
    ("4302610a", At(0)),
];

/// Whether a code is listed like this.
fn is_listed(alloc: Global, code: &str, wanted: Listed) -> Result<bool, Fail> {
    let code = bytes_of(alloc, code)?;
    Ok(match disassemble(alloc, code.as_slice()) {
        Ok(text) => match wanted {
            Text(wanted_text) => text.as_slice() == wanted_text,
            At(_) => false,
        },
        Err(DisasmEnd::NoInstruction { at }) => match wanted {
            Text(_) => false,
            At(place) => at == place,
        },
        Err(DisasmEnd::NoMemory) => false,
    })
}

#[test]
fn codes_are_listed(rt: HostRuntime) -> Result<(), Fail> {
    for (code, wanted) in CODES {
        assert!(rt; is_listed(rt.alloc(), code, *wanted)?, "{code}");
    }
    Ok(())
}
