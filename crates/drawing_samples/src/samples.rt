//! Small drawings by name.

/// The coordinates of both ends of a segment.
pub type Ends = [i64; 4];

/// A drawing: what it shows, and its segments. Tests take its coordinates as micrometres, or as millimetres in the file of a drawing.
#[derive(Clone, Copy, Drop)]
pub struct Sample {
    pub name: &'static str,
    pub segments: &'static [Ends],
}

/// The end of the range of places, in micrometres.
pub const FAR: i64 = 2_000_000_000;

// Lines.

pub const NOTHING: Sample = Sample {
    name: "nothing",
    segments: &[],
};

pub const LINE: Sample = Sample {
    name: "a single line",
    segments: &[[0, 0, 10, 0]],
};

pub const ANGLE: Sample = Sample {
    name: "two lines that meet at a corner",
    segments: &[[0, 0, 10, 0], [10, 0, 10, 10]],
};

pub const CROSS: Sample = Sample {
    name: "a cross",
    segments: &[[0, 0, 10, 10], [0, 10, 10, 0]],
};

pub const TEE: Sample = Sample {
    name: "a line that ends on another",
    segments: &[[0, 0, 10, 0], [5, 0, 5, 8]],
};

pub const STAR: Sample = Sample {
    name: "a star",
    segments: &[[-3, 0, 0, 0], [-1, -4, 0, 0], [0, 0, 0, 5], [0, 0, 7, -2]],
};

pub const THREE_ABOVE: Sample = Sample {
    name: "three lines one above the other",
    segments: &[[0, 0, 5, 0], [0, 4, 5, 5], [0, 9, 5, 9]],
};

pub const TWO_ABOVE: Sample = Sample {
    name: "two lines one above the other",
    segments: &[[0, 0, 5, 0], [0, 9, 5, 9]],
};

pub const THERE_AND_BACK: Sample = Sample {
    name: "a way there and back, and a line between",
    segments: &[
        [0, 0, 8, 0],
        [1, 9, 8, 9],
        [2, 4, 3, 4],
        [8, 0, 9, 5],
        [8, 9, 9, 5],
    ],
};

pub const REPEATED_LINE: Sample = Sample {
    name: "a line there and back",
    segments: &[[0, 0, 1, 0], [1, 0, 0, 0]],
};

// One component.

pub const SQUARE: Sample = Sample {
    name: "a square",
    segments: &[
        [0, 0, 10, 0],
        [10, 0, 10, 10],
        [10, 10, 0, 10],
        [0, 10, 0, 0],
    ],
};

pub const OPEN_SQUARE: Sample = Sample {
    name: "an open square",
    segments: &[[0, 0, 9, 0], [9, 0, 9, 9], [9, 9, 0, 9]],
};

pub const HALVED_SQUARE: Sample = Sample {
    name: "a square with a diagonal",
    segments: &[
        [0, 0, 9, 0],
        [9, 0, 9, 9],
        [9, 9, 0, 9],
        [0, 9, 0, 0],
        [9, 0, 0, 9],
    ],
};

pub const TRIANGLE: Sample = Sample {
    name: "a triangle",
    segments: &[[0, 0, 4, 0], [0, 0, 4, 4], [4, 0, 4, 4]],
};

pub const TWO_TRIANGLES: Sample = Sample {
    name: "two triangles that touch at a corner",
    segments: &[
        [0, 0, 1, 0],
        [1, 0, 0, 1],
        [0, 1, 0, 0],
        [0, 0, -1, 0],
        [-1, 0, 0, -1],
        [0, -1, 0, 0],
    ],
};

pub const BOW_TIE: Sample = Sample {
    name: "a bow-tie",
    segments: &[[0, 0, 4, 4], [4, 4, 4, 0], [4, 0, 0, 4], [0, 4, 0, 0]],
};

pub const VERTEX_ON_SIDE: Sample = Sample {
    name: "a loop with a corner on another side",
    segments: &[
        [0, 0, 4, 0],
        [4, 0, 4, 4],
        [4, 4, 2, 0],
        [2, 0, 0, 4],
        [0, 4, 0, 0],
    ],
};

pub const TWO_RECTANGLES: Sample = Sample {
    name: "two rectangles, whose shared side is drawn twice",
    segments: &[
        [0, 0, 10, 0],
        [10, 0, 10, 10],
        [10, 10, 0, 10],
        [0, 10, 0, 0],
        [10, 0, 20, 0],
        [20, 0, 20, 10],
        [20, 10, 10, 10],
        [10, 10, 10, 0],
    ],
};

pub const SQUARE_IN_FOUR: Sample = Sample {
    name: "a square in four",
    segments: &[
        [0, 0, 0, 20],
        [10, 0, 10, 20],
        [20, 0, 20, 20],
        [0, 0, 20, 0],
        [0, 10, 20, 10],
        [0, 20, 20, 20],
    ],
};

pub const SQUARE_IN_NINE: Sample = Sample {
    name: "a square in nine",
    segments: &[
        [0, 0, 0, 30],
        [10, 0, 10, 30],
        [20, 0, 20, 30],
        [30, 0, 30, 30],
        [0, 0, 30, 0],
        [0, 10, 30, 10],
        [0, 20, 30, 20],
        [0, 30, 30, 30],
    ],
};

pub const TOUCHING_SQUARES: Sample = Sample {
    name: "two squares that touch at a corner",
    segments: &[
        [0, 0, 10, 0],
        [10, 0, 10, 10],
        [10, 10, 0, 10],
        [0, 10, 0, 0],
        [10, 10, 20, 10],
        [20, 10, 20, 20],
        [20, 20, 10, 20],
        [10, 20, 10, 10],
    ],
};

pub const TWO_SPIKES: Sample = Sample {
    name: "two spikes inward from one corner",
    segments: &[
        [0, 0, 30, 0],
        [30, 0, 30, 30],
        [30, 30, 0, 30],
        [0, 30, 0, 0],
        [30, 0, 20, 5],
        [30, 0, 25, 10],
    ],
};

pub const FOUR_SPIKES: Sample = Sample {
    name: "two spikes inward from each of two corners",
    segments: &[
        [0, 0, 40, 0],
        [40, 0, 40, 40],
        [40, 40, 0, 40],
        [0, 40, 0, 0],
        [40, 0, 30, 5],
        [40, 0, 35, 10],
        [40, 40, 35, 30],
        [40, 40, 30, 35],
    ],
};

pub const BRIDGE: Sample = Sample {
    name: "a bridge between two squares with a spike each",
    segments: &[
        [0, 0, 10, 0],
        [10, 0, 10, 10],
        [10, 10, 0, 10],
        [0, 10, 0, 0],
        [20, 0, 30, 0],
        [30, 0, 30, 10],
        [30, 10, 20, 10],
        [20, 10, 20, 0],
        [10, 10, 20, 10],
        [10, 10, 5, 5],
        [20, 10, 25, 5],
    ],
};

pub const TAILED_SQUARE: Sample = Sample {
    name: "a square with a tail outside and one inside",
    segments: &[
        [0, 0, 10, 0],
        [10, 0, 10, 10],
        [10, 10, 0, 10],
        [0, 10, 0, 0],
        [10, 10, 15, 15],
        [0, 0, 5, 5],
    ],
};

// Several components.

pub const SQUARES_ASIDE: Sample = Sample {
    name: "two squares side by side",
    segments: &[
        [0, 0, 10, 0],
        [10, 0, 10, 10],
        [10, 10, 0, 10],
        [0, 10, 0, 0],
        [20, 0, 30, 0],
        [30, 0, 30, 10],
        [30, 10, 20, 10],
        [20, 10, 20, 0],
    ],
};

pub const SQUARE_IN_SQUARE: Sample = Sample {
    name: "a square in a square",
    segments: &[
        [0, 0, 30, 0],
        [30, 0, 30, 30],
        [30, 30, 0, 30],
        [0, 30, 0, 0],
        [10, 10, 20, 10],
        [20, 10, 20, 20],
        [20, 20, 10, 20],
        [10, 20, 10, 10],
    ],
};

pub const LINE_IN_SQUARES: Sample = Sample {
    name: "a line in a square in a square",
    segments: &[
        [0, 0, 50, 0],
        [50, 0, 50, 50],
        [50, 50, 0, 50],
        [0, 50, 0, 0],
        [10, 10, 40, 10],
        [40, 10, 40, 40],
        [40, 40, 10, 40],
        [10, 40, 10, 10],
        [20, 20, 30, 30],
    ],
};

pub const FIVE_NESTED: Sample = Sample {
    name: "squares nested five deep",
    segments: &[
        [0, 0, 100, 0],
        [100, 0, 100, 100],
        [100, 100, 0, 100],
        [0, 100, 0, 0],
        [10, 10, 90, 10],
        [90, 10, 90, 90],
        [90, 90, 10, 90],
        [10, 90, 10, 10],
        [20, 20, 80, 20],
        [80, 20, 80, 80],
        [80, 80, 20, 80],
        [20, 80, 20, 20],
        [30, 30, 70, 30],
        [70, 30, 70, 70],
        [70, 70, 30, 70],
        [30, 70, 30, 30],
        [40, 40, 60, 40],
        [60, 40, 60, 60],
        [60, 60, 40, 60],
        [40, 60, 40, 40],
    ],
};

pub const TWO_IN_SQUARE: Sample = Sample {
    name: "two squares in one, of which the right one sees the left one",
    segments: &[
        [0, 0, 40, 0],
        [40, 0, 40, 40],
        [40, 40, 0, 40],
        [0, 40, 0, 0],
        [5, 5, 15, 5],
        [15, 5, 15, 35],
        [15, 35, 5, 35],
        [5, 35, 5, 5],
        [20, 10, 30, 10],
        [30, 10, 30, 20],
        [30, 20, 20, 20],
        [20, 20, 20, 10],
    ],
};

pub const TWO_FAMILIES: Sample = Sample {
    name: "two families of nested squares, of which the second is deeper",
    segments: &[
        [0, 0, 20, 0],
        [20, 0, 20, 20],
        [20, 20, 0, 20],
        [0, 20, 0, 0],
        [5, 5, 10, 5],
        [10, 5, 10, 10],
        [10, 10, 5, 10],
        [5, 10, 5, 5],
        [30, 0, 60, 0],
        [60, 0, 60, 30],
        [60, 30, 30, 30],
        [30, 30, 30, 0],
        [35, 5, 55, 5],
        [55, 5, 55, 25],
        [55, 25, 35, 25],
        [35, 25, 35, 5],
        [40, 10, 50, 10],
        [50, 10, 50, 20],
        [50, 20, 40, 20],
        [40, 20, 40, 10],
    ],
};

pub const CUT_CORNER: Sample = Sample {
    name: "a square with a corner cut off, and a square inside",
    segments: &[
        [0, 0, 30, 0],
        [30, 0, 30, 30],
        [30, 30, 0, 30],
        [0, 30, 0, 20],
        [0, 20, 0, 0],
        [0, 20, 5, 30],
        [10, 10, 20, 10],
        [20, 10, 20, 20],
        [20, 20, 10, 20],
        [10, 20, 10, 10],
    ],
};

pub const NOTCH: Sample = Sample {
    name: "a square that sees a notch whose lower end has its height",
    segments: &[
        [0, 0, 30, 0],
        [30, 0, 30, 30],
        [30, 30, 8, 30],
        [8, 30, 5, 20],
        [5, 20, 2, 30],
        [2, 30, 0, 30],
        [0, 30, 0, 0],
        [10, 10, 20, 10],
        [20, 10, 20, 20],
        [20, 20, 10, 20],
        [10, 20, 10, 10],
    ],
};

pub const BETWEEN_ARMS: Sample = Sample {
    name: "a square between the arms of another loop, outside of it",
    segments: &[
        [0, 0, 30, 0],
        [30, 0, 30, 30],
        [30, 30, 25, 30],
        [25, 30, 25, 5],
        [25, 5, 5, 5],
        [5, 5, 5, 30],
        [5, 30, 0, 30],
        [0, 30, 0, 0],
        [10, 10, 20, 10],
        [20, 10, 20, 20],
        [20, 20, 10, 20],
        [10, 20, 10, 10],
    ],
};

pub const LEVEL_SQUARES: Sample = Sample {
    name: "a square at the height of another one's upper side",
    segments: &[
        [0, 0, 10, 0],
        [10, 0, 10, 10],
        [10, 10, 0, 10],
        [0, 10, 0, 0],
        [20, 2, 28, 2],
        [28, 2, 28, 10],
        [28, 10, 20, 10],
        [20, 10, 20, 2],
    ],
};

pub const TRIANGLE_AND_LINE: Sample = Sample {
    name: "a triangle and a line beside it",
    segments: &[[0, 0, 1, 0], [1, 0, 0, 1], [0, 1, 0, 0], [5, 0, 6, 0]],
};

pub const RECTANGLES_AND_LINE: Sample = Sample {
    name: "two rectangles that share a side, and a line",
    segments: &[
        [0, 0, 20, 0],
        [20, 0, 20, 10],
        [20, 10, 0, 10],
        [0, 10, 0, 0],
        [10, 0, 10, 10],
        [30, 0, 40, 0],
    ],
};

pub const SQUARE_AND_CROSS: Sample = Sample {
    name: "a square and a cross",
    segments: &[
        [0, 0, 10, 0],
        [10, 0, 10, 10],
        [10, 10, 0, 10],
        [0, 10, 0, 0],
        [20, 0, 30, 10],
        [20, 10, 30, 0],
    ],
};

pub const THREE_KINDS: Sample = Sample {
    name: "a square in four, a square and a line",
    segments: &[
        [0, 0, 0, 20],
        [10, 0, 10, 20],
        [20, 0, 20, 20],
        [0, 0, 20, 0],
        [0, 10, 20, 10],
        [0, 20, 20, 20],
        [30, 0, 40, 0],
        [40, 0, 40, 10],
        [40, 10, 30, 10],
        [30, 10, 30, 0],
        [50, 0, 60, 0],
    ],
};

// What a line sees to its west.

pub const AT_UPPER_END: Sample = Sample {
    name: "a line at the height of another one's upper end",
    segments: &[[10, 0, 10, 10], [20, 10, 25, 10]],
};

pub const AT_LOWER_END: Sample = Sample {
    name: "a line at the height of another one's lower end",
    segments: &[[10, 0, 10, 10], [20, 0, 25, 0]],
};

pub const AT_LEVEL_LINE: Sample = Sample {
    name: "a line at the height of a level one",
    segments: &[[0, 5, 10, 5], [20, 5, 25, 5]],
};

pub const AT_BEND: Sample = Sample {
    name: "a line at the height of a vertex where one line ends and another one begins",
    segments: &[[0, 0, 10, 5], [10, 5, 0, 10], [20, 5, 25, 5]],
};

pub const AT_FORK: Sample = Sample {
    name: "a line at the height of a level one that others leave upward and downward",
    segments: &[
        [0, 5, 10, 5],
        [10, 5, 12, 9],
        [10, 5, 13, 0],
        [20, 5, 25, 5],
    ],
};

pub const NEARER_AT_HEIGHT: Sample = Sample {
    name: "a line that sees the nearer of two by x at its height, not by their ends",
    segments: &[[0, 0, 30, 100], [25, 0, 24, 60], [28, 50, 35, 50]],
};

pub const EAST_OF_MARK: Sample = Sample {
    name: "a line west of another one",
    segments: &[[0, 0, 10, 10], [4, 6, 4, 8]],
};

// The ends of the range.

pub const RANGE_ENDS: Sample = Sample {
    name: "lines at the ends of the range",
    segments: &[
        [-FAR, -FAR, 1 - FAR, FAR],
        [-FAR, 1 - FAR, -FAR, FAR],
        [FAR - 1, FAR - 1, FAR, FAR - 1],
    ],
};

pub const ALL_ROUND: Sample = Sample {
    name: "lines all round a place",
    segments: &[
        [-FAR, -1, 0, 0],
        [-FAR, 0, 0, 0],
        [-FAR, 1, 0, 0],
        [-1, -FAR, 0, 0],
        [0, -FAR, 0, 0],
        [0, 0, 0, FAR],
        [0, 0, FAR, -1],
        [0, 0, FAR, 0],
        [0, 0, FAR, 1],
    ],
};

pub const FROM_CORNER: Sample = Sample {
    name: "lines close together, from a corner of the range",
    segments: &[
        [-FAR, -FAR, -FAR, FAR],
        [-FAR, -FAR, FAR - 1, FAR - 2],
        [-FAR, -FAR, FAR, -FAR],
        [-FAR, -FAR, FAR, FAR - 1],
        [-FAR, -FAR, FAR, FAR],
    ],
};

/// All drawings of this module.
pub const ALL: [Sample; 49] = [
    NOTHING,
    LINE,
    ANGLE,
    CROSS,
    TEE,
    STAR,
    THREE_ABOVE,
    TWO_ABOVE,
    THERE_AND_BACK,
    REPEATED_LINE,
    SQUARE,
    OPEN_SQUARE,
    HALVED_SQUARE,
    TRIANGLE,
    TWO_TRIANGLES,
    BOW_TIE,
    VERTEX_ON_SIDE,
    TWO_RECTANGLES,
    SQUARE_IN_FOUR,
    SQUARE_IN_NINE,
    TOUCHING_SQUARES,
    TWO_SPIKES,
    FOUR_SPIKES,
    BRIDGE,
    TAILED_SQUARE,
    SQUARES_ASIDE,
    SQUARE_IN_SQUARE,
    LINE_IN_SQUARES,
    FIVE_NESTED,
    TWO_IN_SQUARE,
    TWO_FAMILIES,
    CUT_CORNER,
    NOTCH,
    BETWEEN_ARMS,
    LEVEL_SQUARES,
    TRIANGLE_AND_LINE,
    RECTANGLES_AND_LINE,
    SQUARE_AND_CROSS,
    THREE_KINDS,
    AT_UPPER_END,
    AT_LOWER_END,
    AT_LEVEL_LINE,
    AT_BEND,
    AT_FORK,
    NEARER_AT_HEIGHT,
    EAST_OF_MARK,
    RANGE_ENDS,
    ALL_ROUND,
    FROM_CORNER,
];
