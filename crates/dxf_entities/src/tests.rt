use crate::{DrawingError, EntityBuilder, Kind, Space};
use anyhow::{Result, ensure};
use nest_base::Point;
use std::alloc::Global;

/// The entity with this name on line 2 and these groups, each with its value on line 4.
fn entity(alloc: Global, name: &str, groups: &[(i32, &str)]) -> Result<EntityBuilder> {
    let mut builder = EntityBuilder::begin(alloc, name.as_bytes(), 2);
    for (code, text) in groups {
        builder.take(*code, text.as_bytes(), 4)?;
    }
    Ok(builder)
}

/// A number for each kind of refusal, with a line.
fn number(refusal: Option<DrawingError>) -> (u32, u32) {
    match refusal {
        Some(DrawingError::NotANumber(line)) => (5, line),
        Some(DrawingError::TooFar(line)) => (6, line),
        Some(DrawingError::Missing(line, _)) => (7, line),
        Some(DrawingError::Unsupported(line, Kind::Flags(_))) => (80, line),
        Some(DrawingError::Unsupported(line, Kind::Bulge)) => (81, line),
        Some(DrawingError::Unsupported(line, _)) => (82, line),
        _ => (0, 0),
    }
}

#[test]
fn a_line_has_its_ends(rt: HostRuntime) -> Result<()> {
    let line = entity(
        rt.alloc(),
        "LINE",
        &[
            (10, "1.5"),
            (20, "-2"),
            (30, "x"),
            (11, " 3E1 "),
            (21, ".0005"),
            (10, "7"),
        ],
    )?;
    ensure!(number(line.refusal()) == (0, 0));
    ensure!(
        line.start()
            == Point {
                x: 1_500,
                y: -2_000
            }
    );
    ensure!(line.end() == Point { x: 30_000, y: 1 });
    Ok(())
}

#[test]
fn a_text_keeps_its_bytes(rt: HostRuntime) -> Result<()> {
    let text = entity(
        rt.alloc(),
        " TEXT\t",
        &[(10, "5"), (20, "5"), (1, " BRACKET "), (1, "LID")],
    )?;
    ensure!(number(text.refusal()) == (0, 0));
    ensure!(text.into_text().as_slice() == b" BRACKET ".as_slice());
    Ok(())
}

#[test]
fn refusals_have_an_order(rt: HostRuntime) -> Result<()> {
    let cases = [
        (
            "VERTEX",
            [(42, "0.5"), (10, "100000.001"), (20, "x")],
            (6, 4),
        ),
        ("LINE", [(21, "4"), (10, "1"), (20, "2,5")], (5, 4)),
        ("LINE", [(10, "100000.0004"), (20, "2"), (21, "4")], (7, 2)),
        ("POLYLINE", [(210, "1"), (70, "16"), (70, "0")], (80, 2)),
        ("VERTEX", [(10, "1"), (20, "2"), (42, "0.5")], (81, 2)),
        ("POLYLINE", [(70, "1"), (210, "0"), (230, "-1")], (82, 2)),
        ("ARC", [(10, "x"), (20, "y"), (40, "z")], (0, 0)),
    ];
    for (name, groups, expected) in cases {
        let builder = entity(rt.alloc(), name, &groups)?;
        ensure!(number(builder.refusal()) == expected);
    }
    Ok(())
}

#[test]
fn a_section_opens_at_once(rt: HostRuntime) -> Result<()> {
    let section = entity(
        rt.alloc(),
        "SECTION",
        &[(2, "ENTITIES "), (67, "1"), (67, "0")],
    )?;
    ensure!(section.opens_section() && !section.closes_section());
    ensure!(section.space() == Space::Paper);
    Ok(())
}
