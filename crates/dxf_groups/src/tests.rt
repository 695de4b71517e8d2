ghost use Rattle.std.specs.Prelude.{◌≡◌, None, is_some};
ghost use Rattle.dxf_groups.specs.Steps.{gives_pair};

use crate::{Found, GroupError, Groups};
use anyhow::{Result, bail, ensure};
use std::alloc::Global;
use std::fmt::Write;
use std::{mem, str};

/// A bound on the bytes that a reader takes.
const MANY: u32 = 1 << 26;

/// Tells a pair as `CODE=VALUE:LINE `, with the length of a long value in its place.
fn tell_pair(told: &mut String, code: i32, value: &[u8], line: u32) -> Result<()> {
    if value.len() > 60 {
        let length = value.len();
        write!(told, "{code}=<{length}>:{line} ")?;
    } else {
        let text = str::from_utf8(value)?;
        write!(told, "{code}={text}:{line} ")?;
    }
    Ok(())
}

/// Tells an answer: nothing of `More`, and of `Refused` the fault.
fn tell(told: &mut String, groups: &Groups, found: Found) -> Result<()>
    requires { is_some groups.now.value ≡ gives_pair found }
{
    match (found, groups.fault()) {
        (Found::More, None) => {}
        (Found::Pair { code, line }, None) => tell_pair(told, code, groups.value(), line)?,
        (Found::Done, None) => write!(told, "Done")?,
        (Found::Refused, Some(fault)) => write!(told, "{fault:?}")?,
        _ => bail!("{found:?} with another fault"),
    }
    Ok(())
}

/// A reader, how many bytes it took, and what it told.
#[derive(Drop)]
struct Listener {
    groups: Groups,
    taken: u32,
    told: String,
    /// The answer that stays, once it has come, with its fault.
    last: Option<(Found, Option<GroupError>)>,
    ghost counted: { groups.taken ≡ taken },
    ghost not_ended: { groups.answer ≡ None },
}

impl Listener {
    fn new(alloc: Global) -> Result<Listener> {
        Ok(Listener {
            groups: Groups::new(alloc)?,
            taken: 0,
            told: String::new(alloc),
            last: None,
        })
    }

    /// Takes a byte, and tells behind `Done` or `Refused` how many came.
    fn take(&mut self, byte: u8) -> Result<()> {
        ensure!(self.taken < MANY);
        let found = self.groups.take(byte);
        self.taken += 1;
        let answer = (found, self.groups.fault());
        if self.last.is_some() {
            ensure!(self.last == Some(answer));
            return Ok(());
        }
        tell(&mut self.told, &self.groups, found)?;
        if matches!(found, Found::Done | Found::Refused) {
            let count = self.taken;
            write!(self.told, "@{count}")?;
            self.last = Some(answer);
        }
        Ok(())
    }

    /// Ends the input, and answers what was told.
    fn end(self) -> Result<String> {
        let Listener {
            mut groups,
            mut told,
            last,
            ..
        } = self;
        let mut found = groups.end();
        if matches!(found, Found::Pair { .. }) {
            tell(&mut told, &groups, found)?;
            found = groups.end();
        }
        ensure!(matches!(found, Found::Done | Found::Refused));
        let answer = (found, groups.fault());
        if last.is_none() {
            tell(&mut told, &groups, found)?;
            write!(told, "@end")?;
        } else {
            ensure!(last == Some(answer));
        }
        ensure!(groups.end() == found && groups.end() == found);
        ensure!(groups.fault() == answer.1);
        Ok(told)
    }
}

/// What is told of these bytes in pieces of this length.
fn told_of(alloc: Global, bytes: &[u8], length: usize) -> Result<String> {
    let mut listener = Listener::new(alloc)?;
    for piece in bytes.chunks(length.max(1)) {
        for byte in piece {
            listener.take(*byte)?;
        }
    }
    listener.end()
}

/// Whether this is told of the bytes, whole and in pieces.
fn tells(alloc: Global, bytes: &[u8], expected: &str) -> Result<()> {
    for length in [1, 2, 3, 7, bytes.len()] {
        let told = told_of(alloc, bytes, length)?;
        ensure!(told.as_str() == expected, "{told}");
    }
    Ok(())
}

/// One byte many times between two texts.
fn spelled(alloc: Global, front: &str, byte: u8, count: usize, rear: &str) -> Result<Vec<u8>> {
    let mut text = Vec::from_slice(alloc, front.as_bytes())?;
    for _ in 0..count {
        text.push(byte)?;
    }
    text.extend_from_slice(rear.as_bytes())?;
    Ok(text)
}

/// Whether each text tells what stands beside it.
fn all_tell(alloc: Global, cases: &[(&str, &str)]) -> Result<()> {
    for (text, expected) in cases {
        tells(alloc, text.as_bytes(), expected)?;
    }
    Ok(())
}

/// The first seven lines of the square's file.
const SQUARE_FRONT: &str = "0\nSECTION\n2\nENTITIES\n0\nLINE\n8\n";

/// The other lines behind line 8, which is `0`.
const SQUARE_REST: &str = "\n10\n0.0\n20\n0.0\n11\n10.0\n21\n0.0\n\
    0\nLINE\n8\n0\n10\n10.0\n20\n0.0\n11\n10.0\n21\n10.0\n\
    0\nLINE\n8\n0\n10\n10.0\n20\n10.0\n11\n0.0\n21\n10.0\n\
    0\nLINE\n8\n0\n10\n0.0\n20\n10.0\n11\n0.0\n21\n0.0\n\
    0\nENDSEC\n0\nEOF\n";

/// The pairs of the square's file before the last one.
const SQUARE_PAIRS: &str = "0=SECTION:2 2=ENTITIES:4 \
    0=LINE:6 8=0:8 10=0.0:10 20=0.0:12 11=10.0:14 21=0.0:16 \
    0=LINE:18 8=0:20 10=10.0:22 20=0.0:24 11=10.0:26 21=10.0:28 \
    0=LINE:30 8=0:32 10=10.0:34 20=10.0:36 11=0.0:38 21=10.0:40 \
    0=LINE:42 8=0:44 10=0.0:46 20=10.0:48 11=0.0:50 21=0.0:52 \
    0=ENDSEC:54 ";

#[test]
fn the_square_and_its_cuts(rt: HostRuntime) -> Result<()> {
    let whole = spelled(rt.alloc(), SQUARE_FRONT, b'0', 1, SQUARE_REST)?;
    let cases = [
        (0, "0=EOF:56 Done@end"),
        (1, "0=EOF:56 Done@end"),
        (6, "Truncated(55)@end"),
    ];
    for (cut, end) in cases {
        let length = whole.len().saturating_sub(cut);
        let expected = format!(in rt.alloc(); "{SQUARE_PAIRS}{end}")?;
        tells(rt.alloc(), &whole[..length], expected.as_str())?;
    }
    let long = spelled(rt.alloc(), SQUARE_FRONT, b'0', 4_097, SQUARE_REST)?;
    tells(
        rt.alloc(),
        &long,
        "0=SECTION:2 2=ENTITIES:4 0=LINE:6 LineTooLong(8)@4127",
    )?;
    let front = "0\nSECTION\n2\nENTITIES\n0\nLINE\n1x\n";
    let bad = spelled(rt.alloc(), front, b'0', 1, SQUARE_REST)?;
    tells(
        rt.alloc(),
        &bad,
        "0=SECTION:2 2=ENTITIES:4 0=LINE:6 BadCode(7)@31",
    )
}

#[test]
fn binary_drawings(rt: HostRuntime) -> Result<()> {
    all_tell(
        rt.alloc(),
        &[
            ("AutoCAD Binary DXF", "Binary@18"),
            ("AutoCAD Binary DXF\r\n\x1a\0\n0\nEOF\n", "Binary@18"),
            ("AutoCAD Binary DX", "BadCode(1)@end"),
            ("AutoCAD Binary DX\n", "BadCode(1)@18"),
            ("AutoCAD Binary DXf\n", "BadCode(1)@19"),
            ("autoCAD Binary DXF\n", "BadCode(1)@19"),
            (" AutoCAD Binary DXF\n", "BadCode(1)@20"),
            ("AAutoCAD Binary DXF\n", "BadCode(1)@20"),
            ("\nAutoCAD Binary DXF\n", "BadCode(1)@1"),
            ("AutoCAD Binary\nDXF\n", "BadCode(1)@15"),
            ("AutoCAD AutoCAD Binary DXF\n", "BadCode(1)@27"),
            (
                "0\nAutoCAD Binary DXF\n",
                "0=AutoCAD Binary DXF:2 Truncated(3)@end",
            ),
        ],
    )
}

#[test]
fn group_codes(rt: HostRuntime) -> Result<()> {
    all_tell(
        rt.alloc(),
        &[
            ("0\nV\n", "0=V:2 Truncated(3)@end"),
            ("-0\nV\n", "0=V:2 Truncated(3)@end"),
            ("00\nV\n", "0=V:2 Truncated(3)@end"),
            ("0000\nV\n", "0=V:2 Truncated(3)@end"),
            ("7\nV\n", "7=V:2 Truncated(3)@end"),
            ("0007\nV\n", "7=V:2 Truncated(3)@end"),
            ("-0012\nV\n", "-12=V:2 Truncated(3)@end"),
            ("1071\nV\n", "1071=V:2 Truncated(3)@end"),
            ("9999\nV\n", "9999=V:2 Truncated(3)@end"),
            ("-9999\nV\n", "-9999=V:2 Truncated(3)@end"),
            ("  8\nV\n", "8=V:2 Truncated(3)@end"),
            ("\t -62 \t\nV\n", "-62=V:2 Truncated(3)@end"),
            ("+0\nV\n", "BadCode(1)@3"),
            ("00000\nV\n", "BadCode(1)@6"),
            ("12345\nV\n", "BadCode(1)@6"),
            ("-12345\nV\n", "BadCode(1)@7"),
            ("-\nV\n", "BadCode(1)@2"),
            ("\nV\n", "BadCode(1)@1"),
            (" \t\nV\n", "BadCode(1)@3"),
            ("- 1\nV\n", "BadCode(1)@4"),
            ("1 1\nV\n", "BadCode(1)@4"),
            ("--1\nV\n", "BadCode(1)@4"),
            ("1-\nV\n", "BadCode(1)@3"),
            ("1.0\nV\n", "BadCode(1)@4"),
            ("/\nV\n", "BadCode(1)@2"),
            (":\nV\n", "BadCode(1)@2"),
            ("1x\nV\n", "BadCode(1)@3"),
            ("\r1\nV\n", "BadCode(1)@3"),
            ("1\r\r\nV\n", "BadCode(1)@4"),
            ("1\0\nV\n", "BadCode(1)@3"),
            ("0\nV\n1x\n0\nEOF\n", "0=V:2 BadCode(3)@7"),
            ("0\nV\n\n0\nEOF\n", "0=V:2 BadCode(3)@5"),
        ],
    )
}

#[test]
fn comments_are_dropped(rt: HostRuntime) -> Result<()> {
    all_tell(
        rt.alloc(),
        &[
            ("999\nc\n0\nEOF\n", "0=EOF:4 Done@end"),
            ("0999\nc\n0\nEOF\n", "0=EOF:4 Done@end"),
            (" 999\t\nc\n0\nEOF\n", "0=EOF:4 Done@end"),
            ("999\n1x\n999\n\n0\nEOF\n", "0=EOF:6 Done@end"),
            ("0\nV\n999\n0\n1\nW\n", "0=V:2 1=W:6 Truncated(7)@end"),
            ("999\nEOF\n", "Truncated(3)@end"),
            ("999\nc", "Truncated(3)@end"),
            ("999\n", "Truncated(2)@end"),
            ("999\nc\n1x\n", "BadCode(3)@9"),
            ("-999\nc\n", "-999=c:2 Truncated(3)@end"),
            ("998\nc\n", "998=c:2 Truncated(3)@end"),
            ("9990\nc\n", "9990=c:2 Truncated(3)@end"),
        ],
    )
}

#[test]
fn values_and_ends(rt: HostRuntime) -> Result<()> {
    all_tell(
        rt.alloc(),
        &[
            ("", "Truncated(1)@end"),
            ("1", "Truncated(2)@end"),
            ("1\n", "Truncated(2)@end"),
            ("1\r", "BadCode(1)@end"),
            ("1\nA", "1=A:2 Truncated(3)@end"),
            ("1\nA\n2", "1=A:2 Truncated(4)@end"),
            ("1\nA\n2x", "1=A:2 BadCode(3)@end"),
            ("1\n\n", "1=:2 Truncated(3)@end"),
            ("1\r\n\r\n", "1=:2 Truncated(3)@end"),
            ("1\n A\tB \n", "1= A\tB :2 Truncated(3)@end"),
            ("1\n\u{e9}\0\n", "1=\u{e9}\0:2 Truncated(3)@end"),
            ("1\nA\rB\n", "1=A\rB:2 Truncated(3)@end"),
            ("1\n\rA\r\r\n", "1=\rA\r:2 Truncated(3)@end"),
            ("1\nA\r", "1=A\r:2 Truncated(3)@end"),
            ("0\nEOF\n", "0=EOF:2 Done@end"),
            ("0\nEOF", "0=EOF:2 Done@end"),
            ("0\nEOF\r\n", "0=EOF:2 Done@end"),
            ("0\nEOF\r", "0=EOF\r:2 Truncated(3)@end"),
            (" 0\t\n\tEOF \n", "0=\tEOF :2 Done@end"),
            (" 0\n EOF ", "0= EOF :2 Done@end"),
            ("-0\nEOF\n", "0=EOF:2 Done@end"),
            ("0000\nEOF\n", "0=EOF:2 Done@end"),
            ("0\neof\n", "0=eof:2 Truncated(3)@end"),
            ("0\nEO\n", "0=EO:2 Truncated(3)@end"),
            ("0\nEOFS\n", "0=EOFS:2 Truncated(3)@end"),
            ("0\nE OF\n", "0=E OF:2 Truncated(3)@end"),
            ("1\nEOF\n", "1=EOF:2 Truncated(3)@end"),
            ("1\nA\n0\nEOF\n", "1=A:2 0=EOF:4 Done@end"),
            ("0\nEOF\n\n", "0=EOF:2 Done@7"),
            ("0\nEOF\n1x\n0\nV\n", "0=EOF:2 Done@7"),
            ("0\nEOF\n0\nEOF\n", "0=EOF:2 Done@7"),
            ("0\nEOF\r\nAutoCAD Binary DXF", "0=EOF:2 Done@8"),
        ],
    )
}

/// The text with these two ends in turn in the place of each `|`.
fn with_ends(alloc: Global, text: &str, ends: [&str; 2]) -> Result<Vec<u8>> {
    let mut bytes = Vec::new(alloc);
    let [mut next, mut other] = ends;
    for byte in text.as_bytes() {
        if *byte == b'|' {
            bytes.extend_from_slice(next.as_bytes())?;
            mem::swap(&mut next, &mut other);
        } else {
            bytes.push(*byte)?;
        }
    }
    Ok(bytes)
}

#[test]
fn line_ends(rt: HostRuntime) -> Result<()> {
    let text = "  0|SECTION|999|note| 40| 2.5 |1||0|EOF|";
    let pairs = "0=SECTION:2 40= 2.5 :6 1=:8 0=EOF:10 Done@end";
    let cases = [
        (["\n", "\n"], pairs),
        (["\r\n", "\r\n"], pairs),
        (["\n", "\r\n"], pairs),
        (["\r\n", "\n"], pairs),
        (["\r", "\r"], "BadCode(1)@end"),
        // The CR stands at the front of each line.
        (["\n\r", "\n\r"], "0=\rSECTION:2 BadCode(3)@18"),
    ];
    for (ends, expected) in cases {
        let bytes = with_ends(rt.alloc(), text, ends)?;
        tells(rt.alloc(), &bytes, expected)?;
    }
    Ok(())
}

#[test]
fn long_lines(rt: HostRuntime) -> Result<()> {
    let cases = [
        ("1\n", b'a', 4_095, "\n", "1=<4095>:2 Truncated(3)@end"),
        ("1\n", b'a', 4_095, "\r\n", "1=<4095>:2 Truncated(3)@end"),
        ("1\n", b'a', 4_095, "", "1=<4095>:2 Truncated(3)@end"),
        ("1\n", b'a', 4_096, "\n", "1=<4096>:2 Truncated(3)@end"),
        ("1\n", b'a', 4_096, "\r\n", "1=<4096>:2 Truncated(3)@end"),
        ("1\n", b'a', 4_096, "", "1=<4096>:2 Truncated(3)@end"),
        ("1\n", b'a', 4_097, "\n", "LineTooLong(2)@4099"),
        ("1\n", b'a', 4_097, "\r\n", "LineTooLong(2)@4099"),
        ("1\n", b'a', 4_097, "", "LineTooLong(2)@4099"),
        ("1\n", b'a', 4_098, "\n", "LineTooLong(2)@4099"),
        ("1\n", b'a', 4_098, "\r\n", "LineTooLong(2)@4099"),
        ("1\n", b'a', 4_098, "", "LineTooLong(2)@4099"),
        // A CR that belongs to no end.
        ("1\n", b'a', 4_095, "\r", "1=<4096>:2 Truncated(3)@end"),
        ("1\n", b'a', 4_095, "\r\r\n", "1=<4096>:2 Truncated(3)@end"),
        ("1\n", b'a', 4_096, "\r", "LineTooLong(2)@end"),
        ("1\n", b'a', 4_096, "\r\r\n", "LineTooLong(2)@4100"),
        ("1\n", b'a', 4_096, "\rb\n", "LineTooLong(2)@4100"),
        ("1\n", b'\r', 4_097, "\n", "1=<4096>:2 Truncated(3)@end"),
        // Lines of a code, of a comment and of the last pair.
        ("", b' ', 4_095, "1\nV\n", "1=V:2 Truncated(3)@end"),
        ("", b' ', 4_095, "1\r\nV\n", "1=V:2 Truncated(3)@end"),
        ("1", b'\t', 4_095, "", "Truncated(2)@end"),
        ("", b' ', 4_096, "1\nV\n", "LineTooLong(1)@4097"),
        ("", b'x', 4_096, "\nV\n", "BadCode(1)@4097"),
        ("", b'x', 4_096, "", "BadCode(1)@end"),
        ("", b'x', 4_096, "\r", "LineTooLong(1)@end"),
        ("", b'x', 4_097, "\nV\n", "LineTooLong(1)@4097"),
        ("999\n", b'c', 4_096, "\n", "Truncated(3)@end"),
        ("999\n", b'c', 4_097, "\n", "LineTooLong(2)@4101"),
        ("0\nEOF", b' ', 4_093, "\r\n", "0=<4096>:2 Done@end"),
        ("0\nEOF", b' ', 4_094, "\r\n", "LineTooLong(2)@4099"),
        ("0\nEOF\n", b'x', 5_000, "\n", "0=EOF:2 Done@7"),
    ];
    for (front, byte, count, rear, expected) in cases {
        let bytes = spelled(rt.alloc(), front, byte, count, rear)?;
        tells(rt.alloc(), &bytes, expected)?;
    }
    Ok(())
}

#[test]
fn files_without_an_end_of_line(rt: HostRuntime) -> Result<()> {
    let cases = [
        ("", b'a', "LineTooLong(1)@4097"),
        ("", b'\r', "LineTooLong(1)@4098"),
        ("0\n", b'a', "LineTooLong(2)@4099"),
        ("0\n", b'\r', "LineTooLong(2)@4100"),
    ];
    for (front, byte, expected) in cases {
        let bytes = spelled(rt.alloc(), front, byte, 1 << 20, "")?;
        let told = told_of(rt.alloc(), &bytes, 4_096)?;
        ensure!(told.as_str() == expected, "{told}");
    }
    Ok(())
}
