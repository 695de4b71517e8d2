mod counts;
mod leads;
mod loops;
mod names;
mod nests;
mod planned;
mod refused;
mod replays;
mod shared;
mod splits;

use crate::run::run;
use crate::status::Status;
use anyhow::{Result, ensure};
use cut_desk::MemoryDesk;
use drawing_samples::Ends;
use std::alloc::{AllocError, Global};
use std::str;

/// How an ENTITIES section begins.
const HEAD: &str = "0=SECTION|2=ENTITIES";

/// How it ends, and the drawing with it.
const TAIL: &str = "0=ENDSEC|0=EOF";

/// A square of four lines.
const SQUARE: &str = "0=LINE|8=0|10=0.0|20=0.0|11=10.0|21=0.0|\
    0=LINE|8=0|10=10.0|20=0.0|11=10.0|21=10.0|\
    0=LINE|8=0|10=10.0|20=10.0|11=0.0|21=10.0|\
    0=LINE|8=0|10=0.0|20=10.0|11=0.0|21=0.0";

const SQUARE_CODE: &str = "G21 G90\nF1000 S1\nG0 X4.000 Y12.000\nM3\nG1 X0.000 Y10.000\n\
    G1 X10.000 Y10.000\nG1 X10.000 Y0.000\nG1 X0.000 Y0.000\nG1 X0.000 Y10.000\nM5\nM2\n";

const SQUARE_REPORT: &str =
    "component 1 edges 4 odd 0 bound 1 limit 1 pierces 1\ntotal pierces 1 bound 1\nfewest\n";

/// Stands in the place of a reason where a drawing isn't refused.
const ACCEPTED: &str = "accepted";

fn words_of(alloc: Global, texts: &[&str]) -> Result<Vec<String>, AllocError> {
    let mut words = Vec::new(alloc);
    for text in texts {
        words.push(String::from_str(alloc, text)?)?;
    }
    Ok(words)
}

/// Appends a text with this end of a line in the place of each `=` and `|`.
fn put_lines(text: &str, end: &str, out: &mut Vec<u8>) -> Result<(), AllocError> {
    for byte in text.as_bytes() {
        if *byte == b'=' || *byte == b'|' {
            out.extend_from_slice(end.as_bytes())?;
        } else {
            out.push(*byte)?;
        }
    }
    Ok(())
}

/// The file of these pairs, each written as `CODE=VALUE`, with `|` between two of them.
fn file_of(alloc: Global, pieces: &[&str], end: &str) -> Result<Vec<u8>, AllocError> {
    let mut file = Vec::new(alloc);
    for pairs in pieces {
        put_lines(pairs, end, &mut file)?;
        file.extend_from_slice(end.as_bytes())?;
    }
    Ok(file)
}

/// The file of the square.
fn square_file(alloc: Global) -> Result<Vec<u8>, AllocError> {
    file_of(alloc, &[HEAD, SQUARE, TAIL], "\n")
}

/// Appends the twelve lines of a name, given as x and y of its place and its text.
fn put_name(name: &str, file: &mut Vec<u8>) -> Result<(), AllocError> {
    put_lines("0=TEXT|8=0|40=1", "\n", file)?;
    for (code, value) in ["\n10\n", "\n20\n", "\n1\n"].iter().zip(name.split(' ')) {
        file.extend_from_slice(code.as_bytes())?;
        file.extend_from_slice(value.as_bytes())?;
    }
    file.push(b'\n')?;
    Ok(())
}

/// The file of a drawing, with its coordinates as whole millimetres, and with these names behind its lines.
fn named_drawing_of(
    alloc: Global,
    segments: &[Ends],
    names: &[&str],
) -> Result<Vec<u8>, AllocError> {
    let mut file = file_of(alloc, &[HEAD], "\n")?;
    for [ax, ay, bx, by] in segments {
        let line = format!(in alloc;
            "0\nLINE\n8\n0\n10\n{ax}.000\n20\n{ay}.000\n11\n{bx}.000\n21\n{by}.000\n"
        )?;
        file.extend_from_slice(line.as_bytes())?;
    }
    for name in names {
        put_name(name, &mut file)?;
    }
    put_lines(TAIL, "\n", &mut file)?;
    file.push(b'\n')?;
    Ok(file)
}

/// The file of a drawing, with its coordinates as whole millimetres.
fn drawing_of(alloc: Global, segments: &[Ends]) -> Result<Vec<u8>, AllocError> {
    named_drawing_of(alloc, segments, &[])
}

/// A place in whole millimetres.
type Place = (u32, u32);

/// A chain: where its lead-in begins, as words of the code, or none where it is pierced on its line; and the places along it.
#[derive(Drop)]
struct Led<'a> {
    lead: Option<&'a str>,
    chain: &'a [Place],
}

/// Appends the code of a chain.
fn put_chain(alloc: Global, led: &Led, code: &mut String) -> Result<(), AllocError> {
    if let Some(place) = led.lead {
        code.push_str(format!(in alloc; "G0 {place}\nM3\n")?.as_str())?;
    }
    for (k, (x, y)) in led.chain.iter().enumerate() {
        let line = if k == 0 && led.lead.is_none() {
            format!(in alloc; "G0 X{x}.000 Y{y}.000\nM3\n")?
        } else {
            format!(in alloc; "G1 X{x}.000 Y{y}.000\n")?
        };
        code.push_str(line.as_str())?;
    }
    code.push_str("M5\n")
}

/// The code of these chains.
fn code_of(alloc: Global, chains: &[Led]) -> Result<String, AllocError> {
    let mut code = String::from_str(alloc, "G21 G90\nF1000 S1\n")?;
    for led in chains {
        put_chain(alloc, led, &mut code)?;
    }
    code.push_str("M2\n")?;
    Ok(code)
}

/// A part: what is printed of its name, and its rank.
type Part<'a> = (&'a str, usize);

/// The report on components with so many edges and odd vertices, each with one pierce, and on parts.
fn parts_report_of(
    alloc: Global,
    components: &[(usize, usize)],
    parts: &[Part],
) -> Result<String, AllocError> {
    let mut report = String::from_str(alloc, "")?;
    for (k, (edges, odd)) in components.iter().enumerate() {
        let line = format!(in alloc;
            "component {} edges {edges} odd {odd} bound 1 limit 1 pierces 1\n",
            k + 1
        )?;
        report.push_str(line.as_str())?;
    }
    for (text, rank) in parts {
        report.push_str(format!(in alloc; "part {text} rank {rank}\n")?.as_str())?;
    }
    let total = components.len();
    report.push_str(format!(in alloc; "total pierces {total} bound {total}\nfewest\n")?.as_str())?;
    Ok(report)
}

/// The report on components with so many edges and odd vertices, each with one pierce.
fn report_of(alloc: Global, components: &[(usize, usize)]) -> Result<String, AllocError> {
    parts_report_of(alloc, components, &[])
}

/// How many bytes of code most drawings here give at the most.
const ROOM: usize = 1_000_000;

/// A desk with the drawing in `a.dxf`, and so much room for the code.
fn desk_with(alloc: Global, drawing: &[u8], room: usize) -> Result<MemoryDesk> {
    let mut desk = MemoryDesk::new(alloc);
    desk.put_file("a.dxf", drawing)?;
    desk.reserve("a.ngc", room)?;
    Ok(desk)
}

/// Runs `plan a.dxf a.ngc`.
fn plan(alloc: Global, desk: &mut MemoryDesk) -> Result<Status> {
    let words = words_of(alloc, &["plan", "a.dxf", "a.ngc"])?;
    Ok(run(alloc, &words, desk))
}

/// The desk after the drawing was planned on it; there is so much room for the code.
fn planned_desk(alloc: Global, what: &str, drawing: &[u8], room: usize) -> Result<MemoryDesk> {
    let mut desk = desk_with(alloc, drawing, room)?;
    let status = plan(alloc, &mut desk)?;
    ensure!(matches!(status, Status::Done), "{what}: {status:?}");
    ensure!(status.code() == 0, "{what}");
    Ok(desk)
}

/// Whether the drawing gives this code and this report.
fn is_planned(alloc: Global, what: &str, drawing: &[u8], code: &str, report: &str) -> Result<()> {
    let desk = planned_desk(alloc, what, drawing, ROOM)?;
    let printed = str::from_utf8(desk.printed())?;
    ensure!(printed == report, "{what}: {printed}");
    ensure!(desk.file("a.ngc") == Some(code.as_bytes()), "{what}");
    Ok(())
}

/// Whether the drawing is planned with this report, whatever its code is.
fn is_reported(alloc: Global, what: &str, drawing: &[u8], report: &str) -> Result<()> {
    let desk = planned_desk(alloc, what, drawing, ROOM)?;
    let printed = str::from_utf8(desk.printed())?;
    ensure!(printed == report, "{what}: {printed}");
    Ok(())
}

/// Whether the drawing is planned, whatever its code and its report are; there is so much room for the code.
fn is_planned_at_all(alloc: Global, what: &str, drawing: &[u8], room: usize) -> Result<()> {
    let desk = planned_desk(alloc, what, drawing, room)?;
    ensure!(desk.printed().starts_with(b"component 1 edges "), "{what}");
    let is_code = match desk.file("a.ngc") {
        Some(code) => code.starts_with(b"G21 G90\nF1000 S1\nG0 ") && code.ends_with(b"M5\nM2\n"),
        None => false,
    };
    ensure!(is_code, "{what}");
    Ok(())
}

/// Whether the drawing is refused, with this behind the printed word `refused`.
fn is_refused(alloc: Global, what: &str, drawing: &[u8], why: &str) -> Result<()> {
    let mut desk = desk_with(alloc, drawing, ROOM)?;
    let status = plan(alloc, &mut desk)?;
    let expected = format!(in alloc; "refused {why}\n")?;
    let printed = str::from_utf8(desk.printed())?;
    ensure!(printed == expected.as_str(), "{what}: {printed}");
    ensure!(desk.file("a.ngc").is_none(), "{what}");
    ensure!(matches!(status, Status::Drawing(_)), "{what}: {status:?}");
    ensure!(status.code() == 4, "{what}");
    Ok(())
}

/// Whether the drawing is refused for this reason, or planned where that is `ACCEPTED`.
fn is_answered(alloc: Global, what: &str, drawing: &[u8], why: &str) -> Result<()> {
    if why == ACCEPTED {
        is_planned_at_all(alloc, what, drawing, 4_000_000)
    } else {
        is_refused(alloc, what, drawing, why)
    }
}

#[test]
fn other_words_print_the_usage_and_call_nothing_else(rt: HostRuntime) -> Result<()> {
    let alloc = rt.alloc();
    let cases: [&[&str]; 13] = [
        &[],
        &["plan"],
        &["plan", "a.dxf"],
        &["plan", "a.dxf", "a.dxf"],
        &["plan", "a.dxf", ""],
        &["plan", "", "a.ngc"],
        &["plan", "a.dxf", "-o"],
        &["plan", "-", "a.ngc"],
        &["plan", "a.dxf", "a.ngc", "b.ngc"],
        &["Plan", "a.dxf", "a.ngc"],
        &["replay", "a.dxf"],
        &["replay", "a.dxf", "-o"],
        &["Replay", "a.dxf", "a.ngc"],
    ];
    for texts in cases {
        let mut desk = desk_with(alloc, &square_file(alloc)?, ROOM)?;
        // The print of the usage is the first call. The second one is to fail, and comes only with the plan below.
        desk.fail_call(2)?;
        let status = run(alloc, &words_of(alloc, texts)?, &mut desk);
        ensure!(matches!(status, Status::Words) && status.code() == 2);
        ensure!(desk.printed() == b"usage: plan IN OUT | replay IN CODE\n".as_slice());
        ensure!(desk.faults() == 0);
        let status = plan(alloc, &mut desk)?;
        ensure!(matches!(status, Status::ReadFault));
        ensure!(desk.faults() == 1);
        ensure!(desk.file("a.ngc").is_none());
    }
    Ok(())
}

#[test]
fn each_call_of_the_desk_fails_in_turn(rt: HostRuntime) -> Result<()> {
    let alloc = rt.alloc();
    let drawing = square_file(alloc)?;
    // The calls are two reads, the write and the print.
    let cases = [
        (1, Status::ReadFault, "read fault\n", None),
        (2, Status::ReadFault, "read fault\n", None),
        (3, Status::WriteFault, "write fault\n", None),
        (4, Status::PrintFault, "", Some(SQUARE_CODE.as_bytes())),
        (5, Status::Done, SQUARE_REPORT, Some(SQUARE_CODE.as_bytes())),
    ];
    for (number, expected, printed, code) in cases {
        let mut desk = desk_with(alloc, &drawing, ROOM)?;
        desk.fail_call(number)?;
        let status = plan(alloc, &mut desk)?;
        ensure!(status.code() == expected.code(), "{number}: {status:?}");
        ensure!(desk.printed() == printed.as_bytes(), "{number}");
        ensure!(desk.file("a.ngc") == code, "{number}");
    }
    Ok(())
}

#[test]
fn faults_of_reading_and_of_the_fault_line(rt: HostRuntime) -> Result<()> {
    let alloc = rt.alloc();
    let mut desk = desk_with(alloc, b"", ROOM)?;
    let words = words_of(alloc, &["plan", "absent.dxf", "a.ngc"])?;
    let status = run(alloc, &words, &mut desk);
    ensure!(matches!(status, Status::ReadFault) && status.code() == 3);
    ensure!(desk.printed() == b"read fault\n".as_slice());
    // The empty file is refused. Two more calls read it, and the print of its line fails.
    desk.fail_call(4)?;
    let status = plan(alloc, &mut desk)?;
    ensure!(matches!(status, Status::Drawing(_)) && status.code() == 4);
    ensure!(desk.printed() == b"read fault\n".as_slice());
    ensure!(desk.file("a.ngc").is_none());
    // The next print is heard again.
    plan(alloc, &mut desk)?;
    ensure!(desk.printed() == b"read fault\nrefused E4 line 1 missing\n".as_slice());
    Ok(())
}

#[test]
fn a_file_of_one_byte_too_many_is_too_long(rt: HostRuntime) -> Result<()> {
    let alloc = rt.alloc();
    let mut desk = MemoryDesk::new(alloc);
    let bytes = vec![in alloc; b'0'; 67_108_865]?;
    desk.put_file("a.dxf", &bytes)?;
    desk.reserve("a.ngc", 1_000)?;
    let status = plan(alloc, &mut desk)?;
    ensure!(matches!(status, Status::TooLong) && status.code() == 3);
    ensure!(desk.printed() == b"file too long\n".as_slice());
    ensure!(desk.file("a.ngc").is_none());
    Ok(())
}
