//! Loops beside one another and in one another.
ghost use Rattle.std.specs.Prelude.{◌≤◌};

use super::{Led, Place, code_of, drawing_of, is_planned, report_of};
use anyhow::Result;
use drawing_samples::samples::{
    BETWEEN_ARMS, LEVEL_SQUARES, NOTCH, SQUARE_IN_SQUARE, SQUARES_ASIDE, TWO_FAMILIES,
    TWO_IN_SQUARE,
};
use drawing_samples::{Ends, Sample};
use std::alloc::{AllocError, Global};

/// A drawing of loops; the loops in burning order, each from its mark vertex along its mark side, as the places that it goes round; and
/// how many edges each component has, by number. None of its vertices is odd.
struct Nest {
    sample: Sample,
    burnt: &'static [Led<'static>],
    components: &'static [(usize, usize)],
}

const NESTS: [Nest; 7] = [
    Nest {
        sample: SQUARES_ASIDE,
        burnt: &[
            Led {
                lead: Some("X4.000 Y12.000"),
                chain: &[(0, 10), (10, 10), (10, 0), (0, 0), (0, 10)],
            },
            Led {
                lead: Some("X24.000 Y12.000"),
                chain: &[(20, 10), (30, 10), (30, 0), (20, 0), (20, 10)],
            },
        ],
        components: &[(4, 0), (4, 0)],
    },
    Nest {
        sample: SQUARE_IN_SQUARE,
        burnt: &[
            Led {
                lead: Some("X14.000 Y22.000"),
                chain: &[(10, 20), (20, 20), (20, 10), (10, 10), (10, 20)],
            },
            Led {
                lead: Some("X4.000 Y32.000"),
                chain: &[(0, 30), (30, 30), (30, 0), (0, 0), (0, 30)],
            },
        ],
        components: &[(4, 0), (4, 0)],
    },
    // Of the two edges that reach down to the height of the square's mark vertex the right one is nearer just above it.
    Nest {
        sample: NOTCH,
        burnt: &[
            Led {
                lead: Some("X14.000 Y22.000"),
                chain: &[(10, 20), (20, 20), (20, 10), (10, 10), (10, 20)],
            },
            Led {
                lead: Some("X4.000 Y32.000"),
                chain: &[
                    (0, 30),
                    (2, 30),
                    (5, 20),
                    (8, 30),
                    (30, 30),
                    (30, 0),
                    (0, 0),
                    (0, 30),
                ],
            },
        ],
        components: &[(7, 0), (4, 0)],
    },
    // It lies outside of the other loop, and is burnt before it all the same, since it sees an edge of it.
    Nest {
        sample: BETWEEN_ARMS,
        burnt: &[
            Led {
                lead: Some("X14.000 Y22.000"),
                chain: &[(10, 20), (20, 20), (20, 10), (10, 10), (10, 20)],
            },
            Led {
                lead: Some("X4.000 Y32.000"),
                chain: &[
                    (0, 30),
                    (5, 30),
                    (5, 5),
                    (25, 5),
                    (25, 30),
                    (30, 30),
                    (30, 0),
                    (0, 0),
                    (0, 30),
                ],
            },
        ],
        components: &[(8, 0), (4, 0)],
    },
    // The upper ends of the left square's sides have the height of the right one's mark vertex, so they aren't met.
    Nest {
        sample: LEVEL_SQUARES,
        burnt: &[
            Led {
                lead: Some("X4.000 Y12.000"),
                chain: &[(0, 10), (10, 10), (10, 0), (0, 0), (0, 10)],
            },
            Led {
                lead: Some("X24.000 Y12.000"),
                chain: &[(20, 10), (28, 10), (28, 2), (20, 2), (20, 10)],
            },
        ],
        components: &[(4, 0), (4, 0)],
    },
    // The third square sees the second, which lies beside it in the first.
    Nest {
        sample: TWO_IN_SQUARE,
        burnt: &[
            Led {
                lead: Some("X24.000 Y22.000"),
                chain: &[(20, 20), (30, 20), (30, 10), (20, 10), (20, 20)],
            },
            Led {
                lead: Some("X9.000 Y37.000"),
                chain: &[(5, 35), (15, 35), (15, 5), (5, 5), (5, 35)],
            },
            Led {
                lead: Some("X4.000 Y42.000"),
                chain: &[(0, 40), (40, 40), (40, 0), (0, 0), (0, 40)],
            },
        ],
        components: &[(4, 0), (4, 0), (4, 0)],
    },
    Nest {
        sample: TWO_FAMILIES,
        burnt: &[
            Led {
                lead: Some("X9.000 Y12.000"),
                chain: &[(5, 10), (10, 10), (10, 5), (5, 5), (5, 10)],
            },
            Led {
                lead: Some("X4.000 Y22.000"),
                chain: &[(0, 20), (20, 20), (20, 0), (0, 0), (0, 20)],
            },
            Led {
                lead: Some("X44.000 Y22.000"),
                chain: &[(40, 20), (50, 20), (50, 10), (40, 10), (40, 20)],
            },
            Led {
                lead: Some("X39.000 Y27.000"),
                chain: &[(35, 25), (55, 25), (55, 5), (35, 5), (35, 25)],
            },
            Led {
                lead: Some("X34.000 Y32.000"),
                chain: &[(30, 30), (60, 30), (60, 0), (30, 0), (30, 30)],
            },
        ],
        components: &[(4, 0), (4, 0), (4, 0), (4, 0), (4, 0)],
    },
];

#[test]
fn nests_are_burnt_from_the_inside(rt: HostRuntime) -> Result<()> {
    let alloc = rt.alloc();
    for nest in &NESTS {
        let drawing = drawing_of(alloc, nest.sample.segments)?;
        let code = code_of(alloc, nest.burnt)?;
        let report = report_of(alloc, nest.components)?;
        is_planned(
            alloc,
            nest.sample.name,
            &drawing,
            code.as_str(),
            report.as_str(),
        )?;
    }
    Ok(())
}

/// The places round a square from (x, y) on with this side, from its mark vertex along its mark side and back.
fn square(x: u32, y: u32, side: u32) -> [Place; 5]
    requires x { x ≤ 1000 }
    requires y { y ≤ 1000 }
    requires side { side ≤ 1000 }
{
    let mark = (x, y + side);
    [mark, (x + side, y + side), (x + side, y), (x, y), mark]
}

/// The sides of squares.
fn sides_of(alloc: Global, squares: &[[Place; 5]]) -> Result<Vec<Ends>, AllocError> {
    let mut sides = Vec::new(alloc);
    for places in squares {
        for ((ax, ay), (bx, by)) in places.iter().zip(places.iter().skip(1)) {
            sides.push([
                i64::from(*ax),
                i64::from(*ay),
                i64::from(*bx),
                i64::from(*by),
            ])?;
        }
    }
    Ok(sides)
}

/// Whether these squares are burnt in this order, which isn't that of their numbers, each with its lead-in.
fn are_burnt_in_order(
    alloc: Global,
    what: &str,
    squares: &[[Place; 5]],
    leads: &[String],
) -> Result<()> {
    let mut chains = Vec::new(alloc);
    let mut components = Vec::new(alloc);
    for (places, lead) in squares.iter().zip(leads) {
        chains.push(Led {
            lead: Some(lead.as_str()),
            chain: places.as_slice(),
        })?;
        components.push((4, 0))?;
    }
    let sides = sides_of(alloc, squares)?;
    let drawing = drawing_of(alloc, &sides)?;
    let code = code_of(alloc, &chains)?;
    let report = report_of(alloc, &components)?;
    is_planned(alloc, what, &drawing, code.as_str(), report.as_str())
}

#[test]
fn ten_squares_nested_are_burnt_from_the_inside(rt: HostRuntime) -> Result<()> {
    let alloc = rt.alloc();
    let mut squares = Vec::new(alloc);
    let mut leads = Vec::new(alloc);
    // The innermost one first, which has the greatest number. Round it the next one leaves a millimetre for its lead-in.
    for k in 0..9 {
        squares.push(square(9 - k, 9 - k, 82 + 2 * k))?;
        leads.push(format!(in alloc; "X{}.000 Y{}.500", 10 - k, 91 + k)?)?;
    }
    squares.push(square(0, 0, 100))?;
    leads.push(String::from_str(alloc, "X4.000 Y102.000")?)?;
    are_burnt_in_order(alloc, "ten nested", &squares, &leads)
}

#[test]
fn twenty_squares_in_one_are_burnt_before_it(rt: HostRuntime) -> Result<()> {
    let alloc = rt.alloc();
    let mut squares = Vec::new(alloc);
    let mut leads = Vec::new(alloc);
    // They are numbered from west to east, and in each column from north to south. Each sees the side of the one around them.
    for column in 0..5 {
        for row in 0..4 {
            squares.push(square(10 + 20 * column, 70 - 20 * row, 10))?;
            leads.push(format!(in alloc; "X{}.000 Y{}.000", 14 + 20 * column, 82 - 20 * row)?)?;
        }
    }
    squares.push(square(0, 0, 200))?;
    leads.push(String::from_str(alloc, "X4.000 Y202.000")?)?;
    are_burnt_in_order(alloc, "twenty in one", &squares, &leads)
}
