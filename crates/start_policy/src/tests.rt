//! Choices worked out by hand, and choosers of a caller's own.
ghost use Rattle.std.specs.Prelude.{◌<◌, All, IfOk, length};
ghost use Rattle.nest_base.specs.Range.{IsWithin, widest};
ghost use Rattle.start_policy.specs.Choices.{IsSiteWithin};

use crate::{Policy, Site, leftmost, nearest};
use anyhow::{Result, ensure};
use nest_base::Point;

macro_rules! site {
    ($x:expr, $y:expr, $key:expr) => {
        Site {
            at: Point { x: $x, y: $y },
            key: $key,
        }
    };
}

/// Sites, the place that the nearest is asked for, and the keys of the leftmost and of the nearest.
type Row = (&'static str, &'static [Site], Point, u32, u32);

const ROWS: [Row; 6] = [
    ("one", &[site!(5, 5, 9)], Point { x: 0, y: 0 }, 9, 9),
    (
        "west before east, near before far",
        &[site!(30, 0, 0), site!(-20, 0, 1), site!(10, 0, 2)],
        Point { x: 0, y: 0 },
        1,
        2,
    ),
    (
        "north before south at one x",
        &[site!(0, 10, 0), site!(0, 20, 1), site!(0, -30, 2)],
        Point { x: 0, y: -29 },
        1,
        2,
    ),
    (
        "the first of several at one place",
        &[site!(7, 7, 4), site!(0, 0, 3), site!(0, 0, 2)],
        Point { x: 0, y: 0 },
        3,
        3,
    ),
    (
        "the first of several as near",
        &[
            site!(3, 4, 0),
            site!(-3, 4, 1),
            site!(0, 5, 2),
            site!(0, -5, 3),
        ],
        Point { x: 0, y: 0 },
        1,
        0,
    ),
    (
        "places as far apart as may be",
        &[
            site!(2_000_000_000, 2_000_000_000, 0),
            site!(-2_000_000_000, -1_999_999_999, 1),
        ],
        Point {
            x: 2_000_000_000,
            y: -2_000_000_000,
        },
        1,
        0,
    ),
];

/// The sites of a row, where there are some and all lie within range.
fn checked(sites: &[Site], last: Point) -> Result<()>
    ensures { IfOk result (λ it. (0 < length sites.now) × All (IsSiteWithin widest) sites.now × IsWithin widest last) }
{
    ensure!(!sites.is_empty(), "no site");
    ensure!(last.is_in_range(), "out of range");
    ensure!(
        sites.iter().all(|site| site.at.is_in_range()),
        "out of range"
    );
    Ok(())
}

#[test]
fn sites_are_chosen(_rt: HostRuntime) -> Result<()> {
    for (name, sites, last, west, near) in &ROWS {
        checked(sites, *last)?;
        ensure!(sites[leftmost(sites)].key == *west, "{name}");
        ensure!(
            sites[Policy::Leftmost.choose(sites, *last)].key == *west,
            "{name}"
        );
        ensure!(sites[nearest(sites, *last)].key == *near, "{name}");
    }
    Ok(())
}

#[test]
fn policies_keep_choosers_of_a_caller(rt: HostRuntime) -> Result<()> {
    let alloc = rt.alloc();
    let middle = Policy::keep(Box::new(
        alloc,
        |sites: &[Site], _last: Point| -> usize
            requires { 0 < length sites.now }
            ensures { result < length sites.now }
        { sites.len() / 2 },
    )?);
    let last = Policy::keep(Box::new(
        alloc,
        |sites: &[Site], _last: Point| -> usize
            requires { 0 < length sites.now }
            ensures { result < length sites.now }
        { sites.len() - 1 },
    )?);
    for (name, sites, at, _, _) in &ROWS {
        checked(sites, *at)?;
        ensure!(middle.choose(sites, *at) == sites.len() / 2, "{name}");
        ensure!(last.choose(sites, *at) == sites.len() - 1, "{name}");
    }
    Ok(())
}
