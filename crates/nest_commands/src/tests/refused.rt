//! Drawings that are refused, each with what is printed of it, and some that aren't.

use super::{
    ACCEPTED, HEAD, SQUARE, TAIL, file_of, is_answered, is_refused, put_lines, square_file,
};
use anyhow::Result;
use std::alloc::Global;
use std::str;

/// Whole files.
const FILES: [(&str, &str); 41] = [
    ("", "E4 line 1 missing"),
    ("0", "E4 line 2 missing"),
    ("|", "E2 line 1 no group code"),
    ("1x", "E2 line 1 no group code"),
    ("AutoCAD Binary DXF", "E1 binary DXF"),
    ("AutoCAD Binary DXF\r|\u{1a}\0", "E1 binary DXF"),
    ("AutoCAD Binary DX", "E2 line 1 no group code"),
    (" AutoCAD Binary DXF|", "E2 line 1 no group code"),
    ("999=AutoCAD Binary DXF|", "E4 line 3 missing"),
    ("0=EOF|", "E10 nothing to cut"),
    ("0=EOF", "E10 nothing to cut"),
    ("0=EOF\r", "E4 line 3 missing"),
    ("0=eof|", "E4 line 3 missing"),
    ("0=EOF|1x=0|0=LINE|", "E10 nothing to cut"),
    ("0=SECTION|2=ENTITIES|0=EOF|", "E10 nothing to cut"),
    ("0=SECTION|2=ENTITIES|0=ENDSEC|0=EOF", "E10 nothing to cut"),
    ("0=SECTION|2=ENTITIES|0=ENDSEC|0=EOF|", "E10 nothing to cut"),
    (
        "0=SECTION|2=ENTITIES|0=ENDSEC|0=EOF\r|",
        "E10 nothing to cut",
    ),
    ("0=SECTION|2=ENTITIES|0=ENDSEC|0=EOF\r", "E4 line 9 missing"),
    ("0=SECTION|2=ENTITIES|0=ENDSEC|0", "E4 line 8 missing"),
    (
        "+0=SECTION|2=ENTITIES|0=ARC|0=EOF|",
        "E2 line 1 no group code",
    ),
    (
        "00000=SECTION|2=ENTITIES|0=ARC|0=EOF|",
        "E2 line 1 no group code",
    ),
    (
        "0=SECTION|2=ENTITIES|+0=LINE|10=x|0=EOF|",
        "E2 line 5 no group code",
    ),
    (
        "0=SECTION|2=ENTITIES|0=LINE|00010=0|0=EOF|",
        "E2 line 7 no group code",
    ),
    (
        "0=SECTION|2=ENTITIES|0=LINE|10=x||0=EOF|",
        "E2 line 9 no group code",
    ),
    // The lines come before what stands in them, wherever they are.
    (
        "0=SECTION|2=ENTITIES|0=ARC|67=x|0=LINE|1x=",
        "E2 line 11 no group code",
    ),
    (
        "0=SECTION|2=ENTITIES|0=ARC|67=x|0=LINE|10=x",
        "E4 line 13 missing",
    ),
    (
        "0=SECTION|2=ENTITIES|0=LINE|10=1E400|0=ENDSEC|0=EOF\r",
        "E4 line 13 missing",
    ),
    ("1x=0|0=EOF", "E2 line 1 no group code"),
    // ENTITIES sections.
    (
        "0=ARC|67=x|2=ENTITIES|0=LINE|10=x|0=EOF|",
        "E10 nothing to cut",
    ),
    (
        "0=SECTION|8=0|2=ENTITIES|0=ARC|0=EOF|",
        "E10 nothing to cut",
    ),
    (
        "0=SECTION|-999=|2=ENTITIES|0=ARC|0=EOF|",
        "E10 nothing to cut",
    ),
    ("0=SECTION|999=|2=ENTITIES|0=ARC|0=EOF|", "E8 line 8 ARC"),
    ("0= SECTION|02=\tENTITIES |-0=ARC|0=EOF|", "E8 line 6 ARC"),
    ("0=section|2=ENTITIES|0=ARC|0=EOF|", "E10 nothing to cut"),
    ("0=SECTION|2=Entities|0=ARC|0=EOF|", "E10 nothing to cut"),
    (
        "0=SECTION|2=ENTITIES|67=x|10=y|0=ENDSEC|67=x|0=EOF|67=x|",
        "E10 nothing to cut",
    ),
    (
        "0=SECTION|2=ENTITIES|0=ENDSEC|0=ARC|0=SECTION|2=ENTITIES|0=ARC|0=EOF|",
        "E8 line 14 ARC",
    ),
    (
        "0=SECTION|2=ENTITIES|0= ENDSEC\t|0=ARC|0=EOF|",
        "E10 nothing to cut",
    ),
    // A polyline ends with its section.
    (
        "0=SECTION|2=ENTITIES|0=POLYLINE|0=ENDSEC|0=SECTION|2=ENTITIES|0=VERTEX|0=EOF|",
        "E8 line 14 VERTEX",
    ),
    (
        "0=SECTION|2=ENTITIES|0=POLYLINE|67=1|0=ENDSEC|0=SECTION|2=ENTITIES|0=VERTEX|0=EOF|",
        "E8 line 16 VERTEX",
    ),
];

/// Entities: where they lie, and their names.
const PLACES_AND_NAMES: [(&str, &str); 60] = [
    ("0=LINE|67=x|10=0|20=0|11=1|21=0", "E5 line 8 not a number"),
    ("0=LINE|10=0|20=0|11=1|21=0|67=", "E5 line 16 not a number"),
    ("0=ARC|67=x", "E5 line 8 not a number"),
    ("0=ARC|8=0|67=1.0", "E5 line 10 not a number"),
    ("0=ARC|67=0000000001", "E5 line 8 not a number"),
    ("0=ARC|67=x|67=1", "E5 line 8 not a number"),
    ("0=LINE|10=x|67=y", "E5 line 10 not a number"),
    ("0=LINE|67=y", "E5 line 8 not a number"),
    ("0=POLYLINE|70=2|210=x|67=y", "E5 line 12 not a number"),
    ("0=SEQEND|67=x", "E5 line 8 not a number"),
    ("0=VERTEX|67=x", "E5 line 8 not a number"),
    ("0=ARC|67=1|67=x", "E10 nothing to cut"),
    ("0=ARC|67=+1|10=x", "E10 nothing to cut"),
    ("0=ARC|67= 000000001\t", "E10 nothing to cut"),
    ("0=LINE|10=x|20=1E400|67=1", "E10 nothing to cut"),
    ("0=TEXT|67=1", "E10 nothing to cut"),
    ("0=VERTEX|67=1", "E10 nothing to cut"),
    ("0=SEQEND|67=0", "E10 nothing to cut"),
    ("0=SEQEND", "E10 nothing to cut"),
    ("0=ARC|67=0|67=1", "E8 line 6 ARC"),
    ("0=ARC|67=2", "E8 line 6 ARC"),
    ("0=ARC|67=-1", "E8 line 6 ARC"),
    ("0=ARC|067=1", "E10 nothing to cut"),
    ("0=ARC|-67=1", "E8 line 6 ARC"),
    // The polyline's own group 67 decides for all that belongs to it.
    (
        "0=POLYLINE|67=1|70=x|0=VERTEX|10=x|67=y|0=SEQEND|67=z",
        "E10 nothing to cut",
    ),
    (
        "0=POLYLINE|67=1|0=VERTEX|0=VERTEX|42=1|0=ENDSEC",
        "E10 nothing to cut",
    ),
    (
        "0=POLYLINE|0=VERTEX|67=x|10=0|20=0|0=SEQEND|67=y",
        "E10 nothing to cut",
    ),
    (
        "0=POLYLINE|67=0|0=VERTEX|67=1|10=x|20=0",
        "E5 line 14 not a number",
    ),
    ("0=POLYLINE|0=VERTEX|67=1|10=0", "E7 line 8 lacks group 20"),
    (
        "0=POLYLINE|67=1|0=SEQEND|0=SEQEND|67=x",
        "E5 line 14 not a number",
    ),
    (
        "0=POLYLINE|67=1|0=SEQEND|0=VERTEX|10=0|20=0",
        "E8 line 12 VERTEX",
    ),
    (
        "0=POLYLINE|67=1|0=POLYLINE|0=VERTEX|10=x",
        "E5 line 14 not a number",
    ),
    (
        "0=POLYLINE|0=ARC|67=1|0=VERTEX|10=0|20=0",
        "E8 line 12 VERTEX",
    ),
    // Names.
    ("0=ARC", "E8 line 6 ARC"),
    ("0=LWPOLYLINE|70=1|10=x", "E8 line 6 LWPOLYLINE"),
    ("0=INSERT|2=B|10=0|20=0", "E8 line 6 INSERT"),
    ("0=Line|10=x", "E8 line 6 Line"),
    ("0=LINES", "E8 line 6 LINES"),
    ("0= \tARC\t ", "E8 line 6 ARC"),
    ("0=3D  FACE", "E8 line 6 3D  FACE"),
    ("0=", "E8 line 6 "),
    (
        "0=ABCDEFGHIJKLMNOPQRSTUVWXYZ012345",
        "E8 line 6 ABCDEFGHIJKLMNOPQRSTUVWXYZ012345",
    ),
    (
        "0=ABCDEFGHIJKLMNOPQRSTUVWXYZ0123456789ABCD",
        "E8 line 6 ABCDEFGHIJKLMNOPQRSTUVWXYZ012345",
    ),
    (
        "0=ABCDEFGHIJKLMNOPQRSTUVWXYZ01234\u{e9}",
        "E8 line 6 ABCDEFGHIJKLMNOPQRSTUVWXYZ01234?",
    ),
    ("0=A\u{e9}B\tC\u{7f}\0 ~!", "E8 line 6 A??B?C?? ~!"),
    ("0=A\rC\r", "E8 line 6 A?C"),
    ("0=A\rC\r\r", "E8 line 6 A?C?"),
    ("0=SECTION|2=ENTITIES", "E8 line 6 SECTION"),
    ("0=endsec", "E8 line 6 endsec"),
    ("8=0|67=x|0=ARC", "E8 line 10 ARC"),
    ("0=ARC|0=SPLINE", "E8 line 6 ARC"),
    ("0=ARC|0=LINE|67=x", "E8 line 6 ARC"),
    ("0=LINE|10=x|0=ARC", "E5 line 8 not a number"),
    // Vertices that belong to no polyline.
    ("0=VERTEX|10=0|20=0", "E8 line 6 VERTEX"),
    ("0=VERTEX|10=x|42=1", "E8 line 6 VERTEX"),
    ("0=SEQEND|0=VERTEX|10=0|20=0", "E8 line 8 VERTEX"),
    (
        "0=POLYLINE|0=SEQEND|0=VERTEX|10=0|20=0",
        "E8 line 10 VERTEX",
    ),
    (
        "0=POLYLINE|0=LINE|10=0|20=0|11=1|21=0|0=VERTEX",
        "E8 line 18 VERTEX",
    ),
    (
        "0=POLYLINE|0=VERTEX|10=0|20=0|0=TEXT|10=1|20=1|1=A|0=VERTEX",
        "E8 line 22 VERTEX",
    ),
    (
        "0=TEXT|10=0|20=0|1=A|0=VERTEX|10=0|20=0",
        "E8 line 14 VERTEX",
    ),
];

/// Entities: their groups.
const GROUPS: [(&str, &str); 89] = [
    // Values, in the order of their lines.
    (
        "0=LINE|8=0|10=1e|20=0.0|11=10.0|21=0.0",
        "E5 line 10 not a number",
    ),
    ("0=LINE|10=x|20=1E400|11=1|21=0", "E5 line 8 not a number"),
    (
        "0=LINE|10=1E400|20=x|11=1|21=0",
        "E6 line 8 beyond the range",
    ),
    ("0=LINE|21=x|11=0|20=1E400|10=y", "E5 line 8 not a number"),
    (
        "0=LINE|21=0|11=100000.001|20=x|10=y",
        "E6 line 10 beyond the range",
    ),
    (
        "0=LINE|8=0|10=0|20=0|11=100000.001|21=0",
        "E6 line 14 beyond the range",
    ),
    ("0=LINE|8=0|10=0|20=0|11=100000.000|21=0", ACCEPTED),
    ("0=LINE|10=x|10=1|20=0|11=1|21=0", "E5 line 8 not a number"),
    ("0=LINE|10=1|10=x|20=0|20=1E400|11=2|21=0", ACCEPTED),
    (
        "0=LINE|10=0|10=1E400|20=x|11=2|21=0",
        "E5 line 12 not a number",
    ),
    (
        "0=LINE|30=x|31=y|42=z|70=u|1=|210=v|220=w|230=-1|10=0|20=0|11=1|21=0",
        ACCEPTED,
    ),
    ("0=POLYLINE|70=1.0", "E5 line 8 not a number"),
    ("0=POLYLINE|70=0000000001", "E5 line 8 not a number"),
    ("0=POLYLINE|66=x|10=y|20=z|70=", "E5 line 14 not a number"),
    ("0=POLYLINE|230=x|70=y", "E5 line 8 not a number"),
    ("0=POLYLINE|210=1|220=|70=2", "E5 line 10 not a number"),
    (
        "0=POLYLINE|0=VERTEX|10=0|20=-100000.0005",
        "E6 line 12 beyond the range",
    ),
    (
        "0=POLYLINE|0=VERTEX|42=x|10=1E400|20=y",
        "E5 line 10 not a number",
    ),
    (
        "0=POLYLINE|0=VERTEX|42=1E400|10=1E400|20=y",
        "E6 line 12 beyond the range",
    ),
    (
        "0=POLYLINE|0=VERTEX|10=0|20=0|0=VERTEX|10=0|20=x",
        "E5 line 18 not a number",
    ),
    (
        "0=POLYLINE|0=VERTEX|10=0|20=0|11=x|70=y|210=z",
        "E10 nothing to cut",
    ),
    (
        "0=POLYLINE|0=VERTEX|10=0|20=0|0=SEQEND|10=x|70=y",
        "E10 nothing to cut",
    ),
    ("0=TEXT|10=0|20=1e|1=A", "E5 line 10 not a number"),
    ("0=TEXT|1=A|220=.|10=x|20=y", "E5 line 10 not a number"),
    ("0=TEXT|10=-1E400|20=x|1=A", "E6 line 8 beyond the range"),
    ("0=TEXT|10=0|20=0|11=x|40=y|50=z|1=A", "E10 nothing to cut"),
    ("0=TEXT|1= x |10=0|20=0", "E10 nothing to cut"),
    // Groups that are missing come behind values, in the order of the table.
    (
        "0=LINE|8=0|10=0.0|20=0.0|11=10.0",
        "E7 line 6 lacks group 21",
    ),
    ("0=LINE", "E7 line 6 lacks group 10"),
    ("0=LINE|21=0|11=1", "E7 line 6 lacks group 10"),
    ("0=LINE|21=0|10=1", "E7 line 6 lacks group 20"),
    ("0=LINE|21=0|10=1|20=0", "E7 line 6 lacks group 11"),
    ("0=LINE|-10=0|20=0|11=1|21=0", "E7 line 6 lacks group 10"),
    ("0=LINE|010=0|0020=0|11=1|21=0", ACCEPTED),
    ("0=LINE|21=x", "E5 line 8 not a number"),
    ("0=LINE|10=0|20=-100000.001", "E6 line 10 beyond the range"),
    ("0=LINE|0=ARC", "E7 line 6 lacks group 10"),
    ("0=TEXT|10=0|20=0", "E7 line 6 lacks group 1"),
    ("0=TEXT|1=A", "E7 line 6 lacks group 10"),
    ("0=TEXT|10=0", "E7 line 6 lacks group 20"),
    ("0=TEXT|10=0|20=0|210=x", "E5 line 12 not a number"),
    ("0=TEXT|10=0|20=0|210=1", "E7 line 6 lacks group 1"),
    ("0=TEXT|10=0|20=0|1=", "E10 nothing to cut"),
    ("0=POLYLINE|0=VERTEX|20=0", "E7 line 8 lacks group 10"),
    ("0=POLYLINE|0=VERTEX|10=0|42=1", "E7 line 8 lacks group 20"),
    ("0=POLYLINE|0=VERTEX|10=0|42=.", "E5 line 12 not a number"),
    ("0=POLYLINE|0=SEQEND", "E10 nothing to cut"),
    // Flags.
    ("0=POLYLINE|70=2", "E8 line 6 POLYLINE flags 2"),
    ("0=POLYLINE|70=+4", "E8 line 6 POLYLINE flags 4"),
    ("0=POLYLINE|70=000000008", "E8 line 6 POLYLINE flags 8"),
    ("0=POLYLINE|70= 16\t", "E8 line 6 POLYLINE flags 16"),
    ("0=POLYLINE|70=64", "E8 line 6 POLYLINE flags 64"),
    ("0=POLYLINE|70=65", "E8 line 6 POLYLINE flags 65"),
    ("0=POLYLINE|70=-1", "E8 line 6 POLYLINE flags -1"),
    ("0=POLYLINE|70=-126", "E8 line 6 POLYLINE flags -126"),
    (
        "0=POLYLINE|70=999999999",
        "E8 line 6 POLYLINE flags 999999999",
    ),
    ("0=POLYLINE|70=128", "E10 nothing to cut"),
    ("0=POLYLINE|70=33", "E10 nothing to cut"),
    ("0=POLYLINE|70=-0", "E10 nothing to cut"),
    ("0=POLYLINE|70=-128", "E10 nothing to cut"),
    ("0=POLYLINE|70=-999999999", "E10 nothing to cut"),
    ("0=POLYLINE|70=0|70=2", "E10 nothing to cut"),
    ("0=POLYLINE|70=2|70=0", "E8 line 6 POLYLINE flags 2"),
    ("0=POLYLINE|210=1|70=2", "E8 line 6 POLYLINE flags 2"),
    (
        "0=POLYLINE|8=0|70=8|0=VERTEX|10=x",
        "E8 line 6 POLYLINE flags 8",
    ),
    // Bulge.
    ("0=POLYLINE|0=VERTEX|10=0|20=0|42=0.5", "E8 line 8 bulge"),
    ("0=POLYLINE|0=VERTEX|42=1E-400|10=0|20=0", "E8 line 8 bulge"),
    (
        "0=POLYLINE|0=VERTEX|10=0|20=0|0=VERTEX|10=1|20=0|42=-1",
        "E8 line 14 bulge",
    ),
    (
        "0=POLYLINE|0=VERTEX|10=0|20=0|42=0|42=1",
        "E10 nothing to cut",
    ),
    (
        "0=POLYLINE|0=VERTEX|10=0|20=0|42=-0.00E400",
        "E10 nothing to cut",
    ),
    ("0=POLYLINE|42=1|0=SEQEND|42=x", "E10 nothing to cut"),
    // Extrusion.
    ("0=POLYLINE|70=1|210=1", "E8 line 6 extrusion"),
    ("0=POLYLINE|220=-1E-400", "E8 line 6 extrusion"),
    ("0=POLYLINE|230=-1.0", "E8 line 6 extrusion"),
    ("0=POLYLINE|230=0", "E8 line 6 extrusion"),
    (
        "0=POLYLINE|230=0.99999999999999999999999999999999",
        "E8 line 6 extrusion",
    ),
    ("0=POLYLINE|230=1E400", "E8 line 6 extrusion"),
    (
        "0=POLYLINE|210=-0.0|220=0E9|230=10E-1",
        "E10 nothing to cut",
    ),
    ("0=POLYLINE|230=1|230=0", "E10 nothing to cut"),
    ("0=TEXT|230=2|10=0|20=0|1=A", "E8 line 6 extrusion"),
    ("0=TEXT|10=0|20=0|1=A|210=0|220=0.1", "E8 line 6 extrusion"),
    ("0=TEXT|10=0|20=0|1=A|230=+1.000", "E10 nothing to cut"),
    ("0=POLYLINE|0=VERTEX|10=0|20=0|230=-1", "E10 nothing to cut"),
    // What gives no segment, or too few.
    ("0=LINE|10=3|20=3|11=3|21=3", "E10 nothing to cut"),
    (
        "0=LINE|10=3|20=3|11=3.00049|21=2.9996",
        "E10 nothing to cut",
    ),
    ("0=LINE|10=3|20=3|11=3.0005|21=3", ACCEPTED),
    (
        "0=POLYLINE|70=1|0=VERTEX|10=0|20=0|0=SEQEND",
        "E10 nothing to cut",
    ),
    (
        "0=POLYLINE|0=VERTEX|10=0|20=0|0=VERTEX|10=9|20=0|0=SEQEND",
        ACCEPTED,
    ),
    (
        "0=POLYLINE|70=1|0=VERTEX|10=0|20=0|0=VERTEX|10=9|20=0|0=SEQEND",
        ACCEPTED,
    ),
];

/// Entities behind the four lines of a square.
const BEHIND_A_SQUARE: [(&str, &str); 8] = [
    ("0=ARC|8=0|10=5.0|20=5.0|40=2.5", "E8 line 54 ARC"),
    (
        "0=LINE|10=0|20=0|11=100000.001|21=0",
        "E6 line 60 beyond the range",
    ),
    ("0=LINE|10=0|20=0|21=0", "E7 line 54 lacks group 11"),
    ("0=LINE|10=0|20=0|11=10|21=10", ACCEPTED),
    ("0=LINE|10=2|20=2|11=8|21=8", ACCEPTED),
    (
        "0=POLYLINE|70=1|0=VERTEX|10=2|20=2|0=VERTEX|10=8|20=8|0=SEQEND",
        ACCEPTED,
    ),
    ("0=POLYLINE|0=VERTEX|10=2|20=2|42=0.5", "E8 line 56 bulge"),
    ("0=POLYLINE|67=1|0=VERTEX|10=x|0=ARC", "E8 line 62 ARC"),
];

/// Lines of the square's file, from the first number to before the second, what stands in their place, and why that's refused.
const CHANGED_LINES: [(usize, usize, &str, &str); 4] = [
    (55, 57, "", "E4 line 55 missing"),
    (7, 8, "1x\n", "E2 line 7 no group code"),
    (10, 11, "1e\n", "E5 line 10 not a number"),
    (15, 17, "", "E7 line 6 lacks group 21"),
];

/// Texts of the first coordinate of a line to (1, 0).
const COORDINATES: [(&str, &str); 40] = [
    ("", "E5 line 8 not a number"),
    (".", "E5 line 8 not a number"),
    ("+", "E5 line 8 not a number"),
    ("-.", "E5 line 8 not a number"),
    ("1.2.3", "E5 line 8 not a number"),
    ("1,5", "E5 line 8 not a number"),
    ("1 5", "E5 line 8 not a number"),
    ("--1", "E5 line 8 not a number"),
    ("- 1", "E5 line 8 not a number"),
    ("1e", "E5 line 8 not a number"),
    ("1e+", "E5 line 8 not a number"),
    ("1e1.0", "E5 line 8 not a number"),
    ("e5", "E5 line 8 not a number"),
    (".e5", "E5 line 8 not a number"),
    ("1d5", "E5 line 8 not a number"),
    ("0x1", "E5 line 8 not a number"),
    ("1_0", "E5 line 8 not a number"),
    ("NaN", "E5 line 8 not a number"),
    ("1\r\r", "E5 line 8 not a number"),
    ("1\0", "E5 line 8 not a number"),
    ("\u{661}", "E5 line 8 not a number"),
    ("100000.0005", "E6 line 8 beyond the range"),
    ("-100000.0005", "E6 line 8 beyond the range"),
    ("100001", "E6 line 8 beyond the range"),
    ("1E400", "E6 line 8 beyond the range"),
    ("-.00001e11", "E6 line 8 beyond the range"),
    (
        "99999999999999999999999999999999999999999",
        "E6 line 8 beyond the range",
    ),
    (
        "1e99999999999999999999999999999999999999",
        "E6 line 8 beyond the range",
    ),
    ("100000.00049999999999999999999999999999999", ACCEPTED),
    ("-100000.0004", ACCEPTED),
    ("1e5", ACCEPTED),
    ("-100E+3", ACCEPTED),
    ("1e-99999999999999999999999999999999999999", ACCEPTED),
    ("0e99999999999999999999999999999999999999", ACCEPTED),
    ("00000000000000000000000000000000000000002", ACCEPTED),
    ("5.", ACCEPTED),
    ("+.5", ACCEPTED),
    (" \t-7 \t", ACCEPTED),
    ("7\r", ACCEPTED),
    ("-0", ACCEPTED),
];

/// Lines that are long: what stands before them, how often a byte, and what stands behind.
const LONG_LINES: [(&str, usize, &str, &str); 11] = [
    (
        "0=SECTION|2=ENTITIES|0=LINE|8=",
        4_097,
        "|0=EOF|",
        "E3 line 8 longer than 4096 bytes",
    ),
    (
        "0=SECTION|2=ENTITIES|0=LINE|8=",
        4_096,
        "|0=EOF|",
        "E7 line 6 lacks group 10",
    ),
    (
        "0=SECTION|2=ENTITIES|0=LINE|8=",
        4_096,
        "\r|0=EOF|",
        "E7 line 6 lacks group 10",
    ),
    (
        "0=SECTION|2=ENTITIES|0=ARC|67=x|8=",
        4_097,
        "",
        "E3 line 10 longer than 4096 bytes",
    ),
    (
        "0=SECTION|2=ENTITIES|0=ARC|8=",
        4_096,
        "\r",
        "E3 line 8 longer than 4096 bytes",
    ),
    (
        "0=SECTION|2=ENTITIES|0=ARC|8=",
        4_096,
        "",
        "E4 line 9 missing",
    ),
    ("", 4_096, "|", "E2 line 1 no group code"),
    ("", 4_097, "|", "E3 line 1 longer than 4096 bytes"),
    ("0=", 4_097, "|1x", "E3 line 2 longer than 4096 bytes"),
    ("1x=", 4_097, "|", "E2 line 1 no group code"),
    ("0=EOF|", 5_000, "", "E10 nothing to cut"),
];

#[test]
fn files_are_refused_by_their_lines_and_sections(rt: HostRuntime) -> Result<()> {
    let alloc = rt.alloc();
    for (text, why) in FILES {
        let mut file = Vec::new(alloc);
        put_lines(text, "\n", &mut file)?;
        is_answered(alloc, text, &file, why)?;
    }
    Ok(())
}

/// Whether each of the entities, alone in a drawing, is refused with what stands beside it, or planned.
fn are_answered(alloc: Global, cases: &[(&str, &str)]) -> Result<()> {
    for (entities, why) in cases {
        let file = file_of(alloc, &[HEAD, entities, TAIL], "\n")?;
        is_answered(alloc, entities, &file, why)?;
    }
    Ok(())
}

#[test]
fn entities_are_refused_by_their_places_and_names(rt: HostRuntime) -> Result<()> {
    are_answered(rt.alloc(), &PLACES_AND_NAMES)
}

#[test]
fn entities_are_refused_by_their_groups(rt: HostRuntime) -> Result<()> {
    are_answered(rt.alloc(), &GROUPS)
}

#[test]
fn entities_behind_a_square_are_refused_or_planned(rt: HostRuntime) -> Result<()> {
    let alloc = rt.alloc();
    for (entities, why) in BEHIND_A_SQUARE {
        let file = file_of(alloc, &[HEAD, SQUARE, entities, TAIL], "\n")?;
        is_answered(alloc, entities, &file, why)?;
    }
    Ok(())
}

/// The file of the square with this text in the place of its lines from `first` to before `end`, counted from 1.
fn square_with(alloc: Global, first: usize, end: usize, text: &[u8]) -> Result<Vec<u8>> {
    let square = square_file(alloc)?;
    let mut file = Vec::new(alloc);
    let mut number = 0_usize;
    for line in str::from_utf8(&square)?.lines() {
        number = number.saturating_add(1);
        if number == first {
            file.extend_from_slice(text)?;
        }
        if number < first || number >= end {
            file.extend_from_slice(line.as_bytes())?;
            file.push(b'\n')?;
        }
    }
    Ok(file)
}

#[test]
fn a_square_is_refused_where_a_line_is_changed_or_missing(rt: HostRuntime) -> Result<()> {
    let alloc = rt.alloc();
    for (first, end, text, why) in CHANGED_LINES {
        let file = square_with(alloc, first, end, text.as_bytes())?;
        is_refused(alloc, why, &file, why)?;
    }
    let mut long = vec![in alloc; b'0'; 4_097]?;
    long.push(b'\n')?;
    let file = square_with(alloc, 8, 9, &long)?;
    is_refused(
        alloc,
        "a long line",
        &file,
        "E3 line 8 longer than 4096 bytes",
    )
}

#[test]
fn coordinates_are_numbers_within_the_range(rt: HostRuntime) -> Result<()> {
    let alloc = rt.alloc();
    for (text, why) in COORDINATES {
        let line = format!(in alloc; "0=LINE|10={text}|20=0|11=1|21=0")?;
        let file = file_of(alloc, &[HEAD, line.as_str(), TAIL], "\n")?;
        is_answered(alloc, text, &file, why)?;
    }
    Ok(())
}

#[test]
fn lines_are_not_too_long(rt: HostRuntime) -> Result<()> {
    let alloc = rt.alloc();
    for (front, count, rear, why) in LONG_LINES {
        let mut file = Vec::new(alloc);
        put_lines(front, "\n", &mut file)?;
        for _ in 0..count {
            file.push(b'0')?;
        }
        put_lines(rear, "\n", &mut file)?;
        is_answered(alloc, front, &file, why)?;
    }
    Ok(())
}
