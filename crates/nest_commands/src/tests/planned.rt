//! Drawings that are read and planned, in all the forms that a drawing may have.

use super::{HEAD, SQUARE, SQUARE_CODE, SQUARE_REPORT, TAIL, file_of, is_planned, parts_report_of};
use anyhow::Result;

/// The lower and the right side of the square, and the two others.
const LOWER_RIGHT: &str = "0=LINE|10=0|20=0|11=10|21=0|0=LINE|10=10|20=0|11=10|21=10";

const UPPER_LEFT: &str = "0=LINE|10=10|20=10|11=0|21=10|0=LINE|10=0|20=10|11=0|21=0";

/// The square's corners as the vertices of a polyline.
const CORNERS: &str =
    "0=VERTEX|10=0|20=0|0=VERTEX|10=10|20=0|0=VERTEX|10=10|20=10|0=VERTEX|10=0|20=10";

/// Files that give the square, and nothing else.
const SQUARES: [(&str, &[&str]); 32] = [
    ("four lines", &[HEAD, SQUARE, TAIL]),
    (
        "a closed polyline",
        &[HEAD, "0=POLYLINE|66=1|70=1", CORNERS, "0=SEQEND", TAIL],
    ),
    (
        "a closed polyline that the end of its section ends",
        &[HEAD, "0=POLYLINE|70=1", CORNERS, TAIL],
    ),
    (
        "a closed polyline that the end of the file ends",
        &[HEAD, "0=POLYLINE|70=1", CORNERS, "0=EOF"],
    ),
    (
        "a closed polyline that an entity in paper space ends",
        &[HEAD, "0=POLYLINE|70=1", CORNERS, "0=ARC|67=1", TAIL],
    ),
    (
        "a closed polyline that comes back itself",
        &[HEAD, "0=POLYLINE|70=1", CORNERS, "0=VERTEX|10=0|20=0", TAIL],
    ),
    (
        "a closed polyline that stays at its corners",
        &[
            HEAD,
            "0=POLYLINE|70=1|0=VERTEX|10=0|20=0|0=VERTEX|10=0.0004|20=0",
            "0=VERTEX|10=10|20=0|0=VERTEX|10=10|20=10|0=VERTEX|10=10|20=10",
            "0=VERTEX|10=0|20=10|0=VERTEX|10=-0.0004|20=9.9996|0=SEQEND",
            TAIL,
        ],
    ),
    (
        "an open polyline that comes back",
        &[
            HEAD,
            "0=POLYLINE",
            CORNERS,
            "0=VERTEX|10=0|20=0|0=SEQEND",
            TAIL,
        ],
    ),
    (
        "an open polyline and a line",
        &[
            HEAD,
            "0=POLYLINE|70=0",
            CORNERS,
            "0=LINE|10=0|20=0|11=0|21=10",
            TAIL,
        ],
    ),
    (
        "two polylines",
        &[
            HEAD,
            "0=POLYLINE|0=VERTEX|10=10|20=10|0=VERTEX|10=0|20=10|0=VERTEX|10=0|20=0",
            "0=POLYLINE|0=VERTEX|10=10|20=10|0=VERTEX|10=10|20=0|0=VERTEX|10=0|20=0|0=SEQEND",
            TAIL,
        ],
    ),
    (
        "flags without an effect beside the first bit",
        &[HEAD, "0=POLYLINE|70=161", CORNERS, "0=SEQEND", TAIL],
    ),
    (
        "negative flags",
        &[HEAD, "0=POLYLINE|70=-127", CORNERS, "0=SEQEND", TAIL],
    ),
    (
        "of several flags the first",
        &[HEAD, "0=POLYLINE|70=1|70=2|70=x", CORNERS, "0=SEQEND", TAIL],
    ),
    (
        "a flat polyline, and straight sides",
        &[
            HEAD,
            "0=POLYLINE|70=1|210=0|220=-0.0|230=1.000",
            CORNERS,
            "42=0E400|0=SEQEND",
            TAIL,
        ],
    ),
    (
        "vertices that say where they lie",
        &[
            HEAD,
            "0=POLYLINE|67=0|70=1|0=VERTEX|67=1|10=0|20=0|0=VERTEX|67=x|10=10|20=0",
            "0=VERTEX|67=0|10=10|20=10|0=VERTEX|10=0|20=10|67=1|0=SEQEND|67=x",
            TAIL,
        ],
    ),
    (
        "a line of no length",
        &[HEAD, SQUARE, "0=LINE|8=0|10=3|20=3|11=3|21=3", TAIL],
    ),
    (
        "a line of no length after rounding",
        &[
            HEAD,
            "0=LINE|10=10|20=0|11=10.0004|21=-.00049",
            SQUARE,
            TAIL,
        ],
    ),
    (
        "polylines that give nothing",
        &[
            HEAD,
            "0=POLYLINE|70=1|0=SEQEND|0=POLYLINE|0=POLYLINE|70=1|0=VERTEX|10=50|20=50|0=SEQEND",
            SQUARE,
            "0=POLYLINE|0=VERTEX|10=5|20=5|0=VERTEX|10=5|20=5|0=SEQEND",
            TAIL,
        ],
    ),
    (
        "entities in paper space",
        &[
            HEAD,
            "0=ARC|67=1|8=0|10=5.0|20=5.0|40=2.5|0=LINE|10=1e|67=+1",
            SQUARE,
            "0=POLYLINE|70=2|67=1|0=VERTEX|10=x|67=y|42=1|0=VERTEX|0=SEQEND|67=z",
            "0=TEXT|67=01|0=VERTEX|67=1|0=SEQEND|67=1",
            TAIL,
        ],
    ),
    (
        "an entity in paper space behind the square",
        &[HEAD, SQUARE, "0=ARC|8=0|10=5.0|20=5.0|40=2.5|67=1", TAIL],
    ),
    (
        "a name in paper space that names nothing",
        &[HEAD, SQUARE, "0=TEXT|67=1|10=50|20=50|1=A", TAIL],
    ),
    (
        "loose ends of polylines",
        &[
            HEAD,
            "0=SEQEND|8=0",
            SQUARE,
            "0=SEQEND|0=SEQEND|67=0|10=x",
            TAIL,
        ],
    ),
    (
        "groups that are not read",
        &[
            HEAD,
            "0=LINE|62=x|6=y|30=z|31=|42=1e|70=.|1=|39=x|210=x|220=y|230=z|10=0|20=0|11=10|21=0",
            "0=LINE|210=1|220=1|230=-1|10=10|20=0|11=10|21=10",
            "0=POLYLINE|10=x|20=y|30=z|40=u|41=v|42=w",
            "0=VERTEX|10=10|20=10|11=x|70=y|210=z|230=-1|0=VERTEX|10=0|20=10|30=x",
            "0=VERTEX|10=0|20=0|0=SEQEND|70=2|210=1",
            TAIL,
        ],
    ),
    (
        "of several groups the first",
        &[
            HEAD,
            LOWER_RIGHT,
            "0=LINE|10=10|10=x|20=10|20=1E400|11=0|21=10|11=7|21=|67=0|67=1|67=x",
            "0=LINE|10=0|20=10|11=0|21=0",
            TAIL,
        ],
    ),
    (
        "numbers in other forms",
        &[
            HEAD,
            "0=LINE|10=-0|20=.0|11=1E+1|21=0E400|0=LINE|10= +10.\t|20=1e-400|11=9.9995|21=100e-1",
            "0=LINE|10=010.0004|20=.01E3|11=-.0004|21=10.00049999999999999999999999999999",
            "0=LINE|10=+.0|20=0.00000000001E12|11=0.|21=-0e-0",
            TAIL,
        ],
    ),
    (
        "codes in other forms",
        &[
            "  0= SECTION|\t2 =ENTITIES\t",
            "00=\tLINE | 10=0|0020=0| 011\t=10|21=0|-0=LINE|010=10|20=0|11 =10|  21=10",
            UPPER_LEFT,
            "0000= ENDSEC|-00=EOF ",
        ],
    ),
    (
        "comments",
        &[
            "999=0|0=SECTION|999=HEADER|0999=x|2=ENTITIES|999=0|0=LINE|999=10|10=0|20=0| 999=1x",
            "11=10|21=0|999=|0=POLYLINE|999=0|0=VERTEX|10=10|20=0|0=VERTEX|10=10|999=20|20=10",
            "999=0|0=SEQEND|999=67",
            UPPER_LEFT,
            "999=EOF|0=ENDSEC|999=x|0=EOF|999",
        ],
    ),
    (
        "sections that are passed over",
        &[
            "0=SECTION|2=HEADER|9=$ACADVER|1=AC1009|67=x|0=ENDSEC",
            "0=SECTION|2=BLOCKS|0=BLOCK|2=B|10=0|20=0|0=LINE|10=50|20=50|11=60|21=60",
            "0=LINE|10=x|0=ARC|67=x|0=VERTEX|0=POLYLINE|70=2|0=ENDBLK|0=ENDSEC",
            HEAD,
            SQUARE,
            TAIL,
        ],
    ),
    (
        "sections that hold no entities",
        &[
            "0=SECTION|8=0|2=ENTITIES|0=ARC|0=ENDSEC|0=SECTION|2=ENTITY|0=ARC|0=ENDSEC",
            "0=section|2=ENTITIES|0=ARC|0=SECTION|2=entities|0=ARC|2=ENTITIES|0=ARC|0=ENDSEC",
            "0=SECTION|-999=x|2=ENTITIES|0=ARC|0=ENDSEC|0=X|2=ENTITIES|0=ARC",
            HEAD,
            SQUARE,
            TAIL,
        ],
    ),
    (
        "two ENTITIES sections",
        &[
            HEAD,
            LOWER_RIGHT,
            "0=ENDSEC|67=x|0=ARC|0=VERTEX|0=SECTION|2=BLOCKS|0=LINE|10=0|0=ENDSEC",
            HEAD,
            UPPER_LEFT,
            TAIL,
        ],
    ),
    (
        "groups of a section before its first entity",
        &[HEAD, "10=x|67=x|70=2", SQUARE, TAIL],
    ),
    (
        "lines behind the end",
        &[HEAD, SQUARE, TAIL, "1x=0|0=SECTION|2=ENTITIES|0=ARC|+0"],
    ),
];

#[test]
fn a_square_is_planned_in_any_form(rt: HostRuntime) -> Result<()> {
    let alloc = rt.alloc();
    for (what, pieces) in SQUARES {
        let lf = file_of(alloc, pieces, "\n")?;
        is_planned(alloc, what, &lf, SQUARE_CODE, SQUARE_REPORT)?;
        let cr_lf = file_of(alloc, pieces, "\r\n")?;
        is_planned(alloc, what, &cr_lf, SQUARE_CODE, SQUARE_REPORT)?;
    }
    Ok(())
}

/// Files that give the square and a name in it, and what is printed of the name.
const NAMED_SQUARES: [(&str, &[&str], &str); 3] = [
    (
        "a name within the square",
        &[
            HEAD,
            SQUARE,
            "0=TEXT|8=0|1=  A\u{e9}\u{7f}\t|1=B|10=5|20=5|40=1|210=0|220=0|230=1.0|67=0",
            TAIL,
        ],
        "  A????",
    ),
    (
        "a name without letters",
        &[HEAD, "0=TEXT|10=5|20=5|1=", SQUARE, TAIL],
        "",
    ),
    (
        "a name between the sides",
        &[
            HEAD,
            LOWER_RIGHT,
            "0=TEXT|10=5|20=5|1=LINE",
            UPPER_LEFT,
            TAIL,
        ],
        "LINE",
    ),
];

#[test]
fn a_named_square_is_planned_in_any_form(rt: HostRuntime) -> Result<()> {
    let alloc = rt.alloc();
    for (what, pieces, shown) in NAMED_SQUARES {
        let report = parts_report_of(alloc, &[(4, 0)], &[(shown, 1)])?;
        let lf = file_of(alloc, pieces, "\n")?;
        is_planned(alloc, what, &lf, SQUARE_CODE, report.as_str())?;
        let cr_lf = file_of(alloc, pieces, "\r\n")?;
        is_planned(alloc, what, &cr_lf, SQUARE_CODE, report.as_str())?;
    }
    Ok(())
}

/// A drawing as other programs write it.
const REALISTIC: [&str; 12] = [
    "  0=SECTION|  2=HEADER|  9=$ACADVER|  1=AC1009|  9=$EXTMIN| 10=0.0| 20=0.0| 30=0.0|  0=ENDSEC",
    "  0=SECTION|  2=TABLES|  0=TABLE|  2=LAYER| 70=1|  0=LAYER|  2=CUT| 70=0| 62=7|  6=CONTINUOUS|  0=ENDTAB|  0=ENDSEC",
    "  0=SECTION|  2=BLOCKS|  0=ENDSEC",
    "  0=SECTION|  2=ENTITIES",
    "  0=POLYLINE|  8=CUT| 66=1| 10=0.0| 20=0.0| 30=0.0| 70=1",
    "  0=VERTEX|  8=CUT| 10=0.0| 20=0.0| 30=0.0",
    "  0=VERTEX|  8=CUT| 10=20.0| 20=0.0| 30=0.0",
    "  0=VERTEX|  8=CUT| 10=20.0| 20=10.0| 30=0.0",
    "  0=VERTEX|  8=CUT| 10=0.0| 20=10.0| 30=0.0",
    "  0=SEQEND|  8=CUT",
    "  0=TEXT|  8=CUT| 10=5.0| 20=5.0| 30=0.0| 40=2.5|  1=BRACKET",
    "  0=ENDSEC|  0=EOF",
];

#[test]
fn a_drawing_as_other_programs_write_it_is_planned(rt: HostRuntime) -> Result<()> {
    let alloc = rt.alloc();
    let drawing = file_of(alloc, &REALISTIC, "\r\n")?;
    let code = "G21 G90\nF1000 S1\nG0 X4.000 Y12.000\nM3\nG1 X0.000 Y10.000\n\
        G1 X20.000 Y10.000\nG1 X20.000 Y0.000\nG1 X0.000 Y0.000\nG1 X0.000 Y10.000\nM5\nM2\n";
    let report = parts_report_of(alloc, &[(4, 0)], &[("BRACKET", 1)])?;
    is_planned(alloc, "realistic", &drawing, code, report.as_str())
}
