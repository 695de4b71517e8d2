use crate::NumberError::{NotANumber, TooFar};
use crate::{put_micron, read_equals, read_integer, read_micron};
use anyhow::{Result, ensure};
use nest_base::Text;

/// The limit that drawings have: 100,000 mm.
const LIMIT: i64 = 100_000_000;

#[test]
fn micrometres_are_written_in_millimetres(rt: HostRuntime) -> Result<()> {
    let cases = [
        (0, "0.000"),
        (1, "0.001"),
        (-1, "-0.001"),
        (999, "0.999"),
        (4_000, "4.000"),
        (-1_500, "-1.500"),
        (12_050, "12.050"),
        (100_000_000, "100000.000"),
        (i64::MAX, "9223372036854775.807"),
        (i64::MIN, "-9223372036854775.808"),
    ];
    for (value, expected) in cases {
        let mut text = Text::new(rt.alloc());
        put_micron(value, &mut text)?;
        ensure!(text.as_slice() == expected.as_bytes());
    }
    Ok(())
}

#[test]
fn millimetres_are_read_to_the_nearest_micrometre(_rt: HostRuntime) -> Result<()> {
    let cases = [
        ("0.0005", Ok(1)),
        ("-0.0005", Ok(-1)),
        ("+0.0005", Ok(1)),
        ("0.00049", Ok(0)),
        ("-0.00049", Ok(0)),
        ("0.00051", Ok(1)),
        ("0.0015", Ok(2)),
        ("-0.0015", Ok(-2)),
        ("0.0025", Ok(3)),
        ("-0.0025", Ok(-3)),
        ("0.0024999999999999999999999999999999999999", Ok(2)),
        ("0.0025000000000000000000000000000000000001", Ok(3)),
        ("-0.0024999999999999999999999999999999999999", Ok(-2)),
        ("1.2344999999", Ok(1_234)),
        ("-1.2345", Ok(-1_235)),
        ("0.9994999", Ok(999)),
        ("0.9995", Ok(1_000)),
        ("9.9995", Ok(10_000)),
        ("-0", Ok(0)),
        ("-0.0", Ok(0)),
        ("-0E9", Ok(0)),
        ("12", Ok(12_000)),
        ("00012.340", Ok(12_340)),
        (".5", Ok(500)),
        ("+.5", Ok(500)),
        ("-.5", Ok(-500)),
        ("5.", Ok(5_000)),
        ("-5.", Ok(-5_000)),
        ("1.5E+1", Ok(15_000)),
        ("1.5e1", Ok(15_000)),
        ("15E-1", Ok(1_500)),
        ("15e-01", Ok(1_500)),
        ("5.E1", Ok(50_000)),
        (".5E1", Ok(5_000)),
        ("1E0", Ok(1_000)),
        ("1E-0", Ok(1_000)),
        ("1E+00002", Ok(100_000)),
        ("1E-3", Ok(1)),
        ("5E-4", Ok(1)),
        ("4E-4", Ok(0)),
        ("50E-5", Ok(1)),
        ("5E-5", Ok(0)),
        ("9E-5", Ok(0)),
        ("0.00000005E+4", Ok(1)),
        ("0.00001E10", Ok(100_000_000)),
        ("0.0000000000000000000000000000000000000001E40", Ok(1_000)),
        ("1234567890123456789012345678901234567890E-39", Ok(1_235)),
        ("1000000000000000000000000000000000000000E-39", Ok(1_000)),
        ("0.1234567890123456789012345678901234567890", Ok(123)),
        ("0E400", Ok(0)),
        ("1E-400", Ok(0)),
        ("1E400", Err(TooFar)),
        ("-1E400", Err(TooFar)),
        ("1E18446744073709551616", Err(TooFar)),
        ("1E-18446744073709551616", Ok(0)),
        ("0E18446744073709551616", Ok(0)),
        ("1E340282366920938463463374607431768211456", Err(TooFar)),
        ("1E-340282366920938463463374607431768211456", Ok(0)),
        ("99999.9994", Ok(99_999_999)),
        ("99999.9995", Ok(100_000_000)),
        ("100000", Ok(100_000_000)),
        ("-100000", Ok(-100_000_000)),
        ("100000.0004", Ok(100_000_000)),
        ("100000.0005", Err(TooFar)),
        ("-100000.0005", Err(TooFar)),
        ("100000.001", Err(TooFar)),
        ("1E5", Ok(100_000_000)),
        ("1E6", Err(TooFar)),
        (" 1 ", Ok(1_000)),
        ("\t1\t", Ok(1_000)),
        (" \t -1.5 \t ", Ok(-1_500)),
    ];
    for (text, expected) in cases {
        ensure!(read_micron(text.as_bytes(), LIMIT) == expected, "{text}");
    }
    Ok(())
}

#[test]
fn the_limit_itself_is_read(_rt: HostRuntime) -> Result<()> {
    ensure!(read_micron(b"-0.0004", 0) == Ok(0));
    ensure!(read_micron(b"0.0005", 0) == Err(TooFar));
    ensure!(read_micron(b"-0.001", 1) == Ok(-1));
    ensure!(read_micron(b"-0.0015", 1) == Err(TooFar));
    ensure!(read_micron(b"2000000", 2_000_000_000) == Ok(2_000_000_000));
    ensure!(read_micron(b"2000000.0005", 2_000_000_000) == Err(TooFar));
    Ok(())
}

#[test]
fn other_texts_are_no_numbers(_rt: HostRuntime) -> Result<()> {
    let cases = [
        "", " ", "\t", "+", "-", ".", "+.", "-.", "e", "E5", "-E5", ".E1", "1e", "1E+", "1E-",
        "1E1.0", "1E.1", "1E--1", "1e5e5", "1E5E", "1.2.3", "1..2", "..1", "1 2", "- 1", "1. 5",
        "1 E5", "1E 5", "1,5", "0x10", "++1", "+-1", "1-", "1+1", "NaN", "inf", "1_000", "\n1",
        "1\r", "1\0", "\u{661}",
    ];
    for text in cases {
        ensure!(
            read_micron(text.as_bytes(), LIMIT) == Err(NotANumber),
            "{text}"
        );
        ensure!(read_equals(text.as_bytes(), 1) == Err(NotANumber), "{text}");
        ensure!(read_integer(text.as_bytes()) == Err(NotANumber), "{text}");
    }
    Ok(())
}

#[test]
fn long_texts_are_read(rt: HostRuntime) -> Result<()> {
    let cases = [
        ("", "0", 4_093, "1.5", Ok(1_500)),
        ("-", "0", 4_096, "", Ok(0)),
        ("", "9", 4_096, "", Err(TooFar)),
        ("0.000", "9", 4_091, "", Ok(1)),
        ("0.0004", "9", 4_090, "", Ok(0)),
        ("-0.0005", "0", 4_089, "1", Ok(-1)),
        ("0.", "0", 4_088, "5E4085", Ok(1)),
        ("0.", "0", 4_088, "5E4084", Ok(0)),
        ("0.", "0", 4_088, "5E4089", Ok(5_000)),
        ("0.", "0", 4_088, "5E4094", Err(TooFar)),
        ("1", "0", 4_089, "E-4089", Ok(1_000)),
        ("1", "0", 4_088, "E-4092", Ok(0)),
        ("1E", "9", 4_000, "", Err(TooFar)),
        ("0E", "9", 4_000, "", Ok(0)),
        ("1E-", "9", 4_000, "", Ok(0)),
        ("1E", "0", 4_000, "1", Ok(10_000)),
        ("1E-", "0", 4_000, "3", Ok(1)),
        ("", " ", 4_095, "7", Ok(7_000)),
        ("7", "\t", 4_095, "", Ok(7_000)),
        ("", " ", 4_096, "", Err(NotANumber)),
        ("1", ".", 4_095, "", Err(NotANumber)),
        ("1E", "9", 4_000, "e", Err(NotANumber)),
    ];
    for (front, piece, count, rear, expected) in cases {
        let middle = piece.repeat(rt.alloc(), count)?;
        let text = format!(in rt.alloc(); "{front}{middle}{rear}")?;
        ensure!(
            read_micron(text.as_bytes(), LIMIT) == expected,
            "{front} {count} {rear}"
        );
    }
    Ok(())
}

#[test]
fn decimals_are_compared_exactly(_rt: HostRuntime) -> Result<()> {
    let zeros = [
        ("0", true),
        ("-0.000", true),
        ("0E99", true),
        ("0E-99", true),
        ("0.0001", false),
        ("1E-400", false),
        ("1E-99999999999999999999999", false),
    ];
    for (text, expected) in zeros {
        ensure!(read_equals(text.as_bytes(), 0) == Ok(expected), "{text}");
    }
    let ones = [
        ("1", true),
        (" +1.0\t", true),
        ("10E-1", true),
        ("0.1E1", true),
        ("100E-2", true),
        ("-1", false),
        ("0", false),
        ("10", false),
        ("1E400", false),
        ("1.00000000000000000000000000000000000000001", false),
        ("0.99999999999999999999", false),
    ];
    for (text, expected) in ones {
        ensure!(read_equals(text.as_bytes(), 1) == Ok(expected), "{text}");
    }
    ensure!(read_equals(b"-1E3", -1_000) == Ok(true));
    ensure!(read_equals(b"1E3", -1_000) == Ok(false));
    ensure!(read_equals(b"1E3", 1_000) == Ok(true));
    Ok(())
}

#[test]
fn integers_are_read(_rt: HostRuntime) -> Result<()> {
    let cases = [
        ("0", Ok(0)),
        ("-0", Ok(0)),
        ("+7", Ok(7)),
        ("-7", Ok(-7)),
        (" 64\t", Ok(64)),
        ("000000001", Ok(1)),
        ("999999999", Ok(999_999_999)),
        ("-999999999", Ok(-999_999_999)),
        ("1234567890", Err(NotANumber)),
        ("0000000001", Err(NotANumber)),
        ("1.0", Err(NotANumber)),
        ("1E1", Err(NotANumber)),
    ];
    for (text, expected) in cases {
        ensure!(read_integer(text.as_bytes()) == expected, "{text}");
    }
    Ok(())
}
