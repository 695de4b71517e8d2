//! Drawings whose parts share cuts, or touch, or aren't closed.

use super::{Led, code_of, drawing_of, is_planned, is_reported, report_of};
use anyhow::Result;
use drawing_samples::Sample;
use drawing_samples::samples::{
    BOW_TIE, BRIDGE, CROSS, CUT_CORNER, FOUR_SPIKES, HALVED_SQUARE, LINE, OPEN_SQUARE,
    REPEATED_LINE, SQUARE_IN_FOUR, TEE, TOUCHING_SQUARES, TRIANGLE_AND_LINE, TWO_RECTANGLES,
    TWO_SPIKES, TWO_TRIANGLES, VERTEX_ON_SIDE,
};

/// A drawing; its chains in burning order; and its report.
struct Shared {
    sample: Sample,
    chains: &'static [Led<'static>],
    report: &'static str,
}

const DRAWINGS: [Shared; 10] = [
    Shared {
        sample: TWO_RECTANGLES,
        chains: &[Led {
            lead: Some("X8.000 Y4.000"),
            chain: &[
                (10, 0),
                (10, 10),
                (20, 10),
                (20, 0),
                (10, 0),
                (0, 0),
                (0, 10),
                (10, 10),
            ],
        }],
        report: "component 1 edges 7 odd 2 bound 1 limit 1 pierces 1\ntotal pierces 1 bound 1\nfewest\n",
    },
    Shared {
        sample: SQUARE_IN_FOUR,
        chains: &[
            Led {
                lead: Some("X8.000 Y4.000"),
                chain: &[(10, 0), (10, 10)],
            },
            Led {
                lead: Some("X16.000 Y8.000"),
                chain: &[(20, 10), (10, 10)],
            },
            Led {
                lead: Some("X12.000 Y16.000"),
                chain: &[
                    (10, 20),
                    (10, 10),
                    (0, 10),
                    (0, 20),
                    (10, 20),
                    (20, 20),
                    (20, 10),
                    (20, 0),
                    (10, 0),
                    (0, 0),
                    (0, 10),
                ],
            },
        ],
        report: "component 1 edges 12 odd 4 bound 2 limit 3 pierces 3\ntotal pierces 3 bound 2\nnot shown fewest\n",
    },
    Shared {
        sample: CUT_CORNER,
        chains: &[
            Led {
                lead: Some("X14.000 Y22.000"),
                chain: &[(10, 20), (20, 20), (20, 10), (10, 10), (10, 20)],
            },
            Led {
                lead: Some("X5.000 Y26.000"),
                chain: &[
                    (5, 30),
                    (0, 20),
                    (0, 30),
                    (5, 30),
                    (30, 30),
                    (30, 0),
                    (0, 0),
                    (0, 20),
                ],
            },
        ],
        report: "component 1 edges 7 odd 2 bound 1 limit 1 pierces 1\ncomponent 2 edges 4 odd 0 bound 1 limit 1 pierces 1\ntotal pierces 2 bound 2\nfewest\n",
    },
    Shared {
        sample: TOUCHING_SQUARES,
        chains: &[Led {
            lead: Some("X4.000 Y12.000"),
            chain: &[
                (0, 10),
                (10, 10),
                (10, 20),
                (20, 20),
                (20, 10),
                (10, 10),
                (10, 0),
                (0, 0),
                (0, 10),
            ],
        }],
        report: "component 1 edges 8 odd 0 bound 1 limit 1 pierces 1\ntotal pierces 1 bound 1\nfewest\n",
    },
    Shared {
        sample: LINE,
        chains: &[Led {
            lead: Some("X14.000 Y0.000"),
            chain: &[(10, 0), (0, 0)],
        }],
        report: "component 1 edges 1 odd 2 bound 1 limit 1 pierces 1\ntotal pierces 1 bound 1\nfewest\n",
    },
    Shared {
        sample: TWO_SPIKES,
        chains: &[
            Led {
                lead: Some("X29.000 Y10.000"),
                chain: &[(25, 10), (30, 0), (30, 30), (0, 30)],
            },
            Led {
                lead: Some("X24.000 Y5.000"),
                chain: &[(20, 5), (30, 0), (0, 0), (0, 30)],
            },
        ],
        report: "component 1 edges 6 odd 2 bound 1 limit 2 pierces 2\ntotal pierces 2 bound 1\nnot shown fewest\n",
    },
    Shared {
        sample: BRIDGE,
        chains: &[
            Led {
                lead: Some("X9.000 Y5.000"),
                chain: &[(5, 5), (10, 10), (0, 10)],
            },
            Led {
                lead: Some("X29.000 Y5.000"),
                chain: &[
                    (25, 5),
                    (20, 10),
                    (30, 10),
                    (30, 0),
                    (20, 0),
                    (20, 10),
                    (10, 10),
                    (10, 0),
                    (0, 0),
                    (0, 10),
                ],
            },
        ],
        report: "component 1 edges 11 odd 2 bound 1 limit 2 pierces 2\ntotal pierces 2 bound 1\nnot shown fewest\n",
    },
    Shared {
        sample: FOUR_SPIKES,
        chains: &[
            Led {
                lead: Some("X34.000 Y35.000"),
                chain: &[(30, 35), (40, 40), (0, 40)],
            },
            Led {
                lead: Some("X39.000 Y30.000"),
                chain: &[(35, 30), (40, 40), (40, 0)],
            },
            Led {
                lead: Some("X39.000 Y10.000"),
                chain: &[(35, 10), (40, 0)],
            },
            Led {
                lead: Some("X34.000 Y5.000"),
                chain: &[(30, 5), (40, 0), (0, 0), (0, 40)],
            },
        ],
        report: "component 1 edges 8 odd 4 bound 2 limit 4 pierces 4\ntotal pierces 4 bound 2\nnot shown fewest\n",
    },
    Shared {
        sample: CROSS,
        chains: &[
            Led {
                lead: Some("X4.000 Y0.000"),
                chain: &[(0, 0), (5, 5)],
            },
            Led {
                lead: Some("X14.000 Y0.000"),
                chain: &[(10, 0), (5, 5)],
            },
            Led {
                lead: Some("X14.000 Y10.000"),
                chain: &[(10, 10), (5, 5), (0, 10)],
            },
        ],
        report: "component 1 edges 4 odd 4 bound 2 limit 3 pierces 3\ntotal pierces 3 bound 2\nnot shown fewest\n",
    },
    Shared {
        sample: TEE,
        chains: &[
            Led {
                lead: Some("X14.000 Y0.000"),
                chain: &[(10, 0), (5, 0)],
            },
            Led {
                lead: Some("X9.000 Y8.000"),
                chain: &[(5, 8), (5, 0), (0, 0)],
            },
        ],
        report: "component 1 edges 3 odd 4 bound 2 limit 3 pierces 2\ntotal pierces 2 bound 2\nfewest\n",
    },
];

#[test]
fn drawings_that_share_cuts_are_planned(rt: HostRuntime) -> Result<()> {
    let alloc = rt.alloc();
    for Shared {
        sample,
        chains,
        report,
    } in &DRAWINGS {
        let file = drawing_of(alloc, sample.segments)?;
        let code = code_of(alloc, chains)?;
        is_planned(alloc, sample.name, &file, code.as_str(), report)?;
    }
    Ok(())
}

/// Drawings in which each component takes one pierce, by its edges and its odd vertices.
const ONE_PIERCE_EACH: [(Sample, &[(usize, usize)]); 7] = [
    (REPEATED_LINE, &[(1, 2)]),
    (OPEN_SQUARE, &[(3, 2)]),
    (BOW_TIE, &[(6, 0)]),
    (VERTEX_ON_SIDE, &[(6, 0)]),
    (TRIANGLE_AND_LINE, &[(3, 0), (1, 2)]),
    (TWO_TRIANGLES, &[(6, 0)]),
    (HALVED_SQUARE, &[(5, 2)]),
];

#[test]
fn one_pierce_is_enough_where_two_vertices_are_odd(rt: HostRuntime) -> Result<()> {
    let alloc = rt.alloc();
    for (sample, components) in &ONE_PIERCE_EACH {
        let file = drawing_of(alloc, sample.segments)?;
        let report = report_of(alloc, components)?;
        is_reported(alloc, sample.name, &file, report.as_str())?;
    }
    Ok(())
}
