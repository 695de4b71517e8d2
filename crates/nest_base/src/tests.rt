ghost use Rattle.std.specs.Prelude.{◌≡◌};

use crate::{Drawing, Edge, Edges, Name, Point, Segment, Text, between, cross, turn_order};
use anyhow::{Result, ensure};
use std::cmp::Ordering;

const FAR: i64 = 2_000_000_000;

/// The places round a square, seen from its middle: counterclockwise, from due west on.
const RING: [(i8, i8); 16] = [
    (-2, 0),
    (-2, -1),
    (-2, -2),
    (-1, -2),
    (0, -2),
    (1, -2),
    (2, -2),
    (2, -1),
    (2, 0),
    (2, 1),
    (2, 2),
    (1, 2),
    (0, 2),
    (-1, 2),
    (-2, 2),
    (-2, 1),
];

fn at(x: i64, y: i64) -> Point
    ensures { result ≡ record { x = x; y = y } }
{
    Point { x, y }
}

#[test]
fn lists_grow_by_what_is_pushed(rt: HostRuntime) -> Result<()> {
    let mut text = Text::new(rt.alloc());
    text.push(b'n')?;
    text.append(b"est")?;
    ensure!(text.as_slice() == b"nest".as_slice());
    let side = Segment {
        a: at(0, 0),
        b: at(10, 0),
        line: 6,
    };
    let mut drawing = Drawing::new(rt.alloc());
    drawing.push_segment(side)?;
    drawing.push_name(Name {
        at: at(5, 5),
        text,
        line: 18,
    })?;
    ensure!(drawing.segments().len() == 1 && drawing.segments()[0] == side);
    ensure!(drawing.names().len() == 1 && drawing.names()[0].line == 18);
    let bottom = Edge {
        low: at(0, 0),
        high: at(10, 0),
    };
    let left = Edge {
        low: at(0, 0),
        high: at(0, 10),
    };
    let mut edges = Edges::new(rt.alloc());
    edges.push_edge(bottom)?;
    edges.push_edge(left)?;
    ensure!(edges.as_slice() == [bottom, left].as_slice() && left < bottom);
    Ok(())
}

#[test]
fn predicates_are_exact_to_the_ends_of_the_range() -> Result<()> {
    // The triangle of three corners of the range has half its square: 4e9 times 4e9.
    ensure!(cross(at(-FAR, -FAR), at(FAR, -FAR), at(FAR, FAR)) == 16_000_000_000_000_000_000);
    ensure!(cross(at(0, 0), at(0, 1), at(1, 0)) == -1);
    let rising = Segment {
        a: at(-FAR, -FAR),
        b: at(FAR, FAR - 1),
        line: 1,
    };
    let cases = [
        (at(-FAR, -FAR), true),
        (at(FAR, FAR - 1), true),
        (at(FAR, FAR), false),
        (at(0, 0), false),
        (at(0, -1), false),
    ];
    for (p, lies_on) in cases {
        ensure!(between(p, &rising) == lies_on);
    }
    Ok(())
}

/// A direction, `n` times as long.
fn towards(d: (i8, i8), n: i32) -> Point {
    at(i64::from(d.0) * i64::from(n), i64::from(d.1) * i64::from(n))
}

#[test]
fn directions_come_in_the_order_of_the_ring() -> Result<()> {
    for n in [1, 3, 2_000_000_000] {
        for (i, a) in RING.iter().enumerate() {
            for (j, b) in RING.iter().enumerate() {
                ensure!(turn_order(towards(*a, 1), towards(*b, n)) == i.cmp(&j));
                ensure!(turn_order(towards(*a, n), towards(*b, 1)) == i.cmp(&j));
            }
        }
    }
    Ok(())
}

#[test]
fn the_order_of_directions_is_exact_to_the_ends() -> Result<()> {
    let n = 4_000_000_000;
    let (least, most) = (i64::MIN, i64::MAX);
    // Beside each, the cross product of the two, by hand, where both lie in one half.
    let cases = [
        (at(n, n - 1), at(n - 1, n - 2), Ordering::Greater), // -1
        (at(n - 1, n - 2), at(n, n - 1), Ordering::Less), // 1
        (at(-n, 1 - n), at(1 - n, 2 - n), Ordering::Greater), // -1
        (at(n, n), at(n - 1, n - 1), Ordering::Equal), // 0
        (at(n, n), at(-n, -n), Ordering::Greater),
        (at(least, least), at(least, least + 1), Ordering::Greater), // least
        (at(most, most), at(most - 1, most), Ordering::Less), // most
        (at(least, most), at(most, most), Ordering::Greater), // most * (least - most)
        (at(least, 0), at(-1, 0), Ordering::Equal), // 0
        (at(least, 0), at(most, 0), Ordering::Less),
        (at(0, 0), at(least, 0), Ordering::Less),
        (at(0, 0), at(0, 0), Ordering::Equal), // 0
    ];
    for (a, b, order) in cases {
        ensure!(turn_order(a, b) == order);
    }
    Ok(())
}
