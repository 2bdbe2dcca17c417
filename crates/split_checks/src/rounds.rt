/// A cell round an edge: its rank, and in each axis by how many cubes its cube stands back from the middle cube of the
/// edge, in which the edge's midpoint lies, or begins.
#[derive(Clone, Copy, Debug)]
pub struct Place {
    pub rank: u32,
    pub back: [u32; 3],
}

/// The cubes round an edge along one axis: four.
pub const CUBES: [&'static [Place]; 8] = [
    &[],
    &[
        Place {
            rank: 0,
            back: [0, 0, 0],
        },
        Place {
            rank: 0,
            back: [0, 0, 1],
        },
        Place {
            rank: 0,
            back: [0, 1, 1],
        },
        Place {
            rank: 0,
            back: [0, 1, 0],
        },
    ],
    &[
        Place {
            rank: 0,
            back: [0, 0, 0],
        },
        Place {
            rank: 0,
            back: [0, 0, 1],
        },
        Place {
            rank: 0,
            back: [1, 0, 1],
        },
        Place {
            rank: 0,
            back: [1, 0, 0],
        },
    ],
    &[],
    &[
        Place {
            rank: 0,
            back: [0, 0, 0],
        },
        Place {
            rank: 0,
            back: [0, 1, 0],
        },
        Place {
            rank: 0,
            back: [1, 1, 0],
        },
        Place {
            rank: 0,
            back: [1, 0, 0],
        },
    ],
    &[],
    &[],
    &[],
];

/// The simplices round an edge: six where its ends differ in one axis or in three, and four where they differ in two.
pub const SIMPLICES: [&'static [Place]; 8] = [
    &[],
    &[
        Place {
            rank: 0,
            back: [0, 0, 0],
        },
        Place {
            rank: 1,
            back: [0, 0, 0],
        },
        Place {
            rank: 2,
            back: [0, 1, 0],
        },
        Place {
            rank: 5,
            back: [0, 1, 1],
        },
        Place {
            rank: 3,
            back: [0, 1, 1],
        },
        Place {
            rank: 4,
            back: [0, 0, 1],
        },
    ],
    &[
        Place {
            rank: 0,
            back: [1, 0, 0],
        },
        Place {
            rank: 3,
            back: [0, 0, 0],
        },
        Place {
            rank: 2,
            back: [0, 0, 0],
        },
        Place {
            rank: 5,
            back: [0, 0, 1],
        },
        Place {
            rank: 1,
            back: [1, 0, 1],
        },
        Place {
            rank: 4,
            back: [1, 0, 1],
        },
    ],
    &[
        Place {
            rank: 0,
            back: [0, 0, 0],
        },
        Place {
            rank: 2,
            back: [0, 0, 0],
        },
        Place {
            rank: 5,
            back: [0, 0, 1],
        },
        Place {
            rank: 4,
            back: [0, 0, 1],
        },
    ],
    &[
        Place {
            rank: 0,
            back: [1, 1, 0],
        },
        Place {
            rank: 2,
            back: [1, 1, 0],
        },
        Place {
            rank: 1,
            back: [1, 0, 0],
        },
        Place {
            rank: 5,
            back: [0, 0, 0],
        },
        Place {
            rank: 4,
            back: [0, 0, 0],
        },
        Place {
            rank: 3,
            back: [0, 1, 0],
        },
    ],
    &[
        Place {
            rank: 1,
            back: [0, 0, 0],
        },
        Place {
            rank: 2,
            back: [0, 1, 0],
        },
        Place {
            rank: 3,
            back: [0, 1, 0],
        },
        Place {
            rank: 4,
            back: [0, 0, 0],
        },
    ],
    &[
        Place {
            rank: 0,
            back: [1, 0, 0],
        },
        Place {
            rank: 1,
            back: [1, 0, 0],
        },
        Place {
            rank: 5,
            back: [0, 0, 0],
        },
        Place {
            rank: 3,
            back: [0, 0, 0],
        },
    ],
    &[
        Place {
            rank: 0,
            back: [0, 0, 0],
        },
        Place {
            rank: 1,
            back: [0, 0, 0],
        },
        Place {
            rank: 4,
            back: [0, 0, 0],
        },
        Place {
            rank: 5,
            back: [0, 0, 0],
        },
        Place {
            rank: 3,
            back: [0, 0, 0],
        },
        Place {
            rank: 2,
            back: [0, 0, 0],
        },
    ],
];

/// The pyramids round an edge between two samples: in each of the four cubes the two over the facets that have it.
pub const PYRAMIDS: [&'static [Place]; 8] = [
    &[],
    &[
        Place {
            rank: 2,
            back: [0, 0, 0],
        },
        Place {
            rank: 3,
            back: [0, 1, 0],
        },
        Place {
            rank: 4,
            back: [0, 1, 0],
        },
        Place {
            rank: 5,
            back: [0, 1, 1],
        },
        Place {
            rank: 3,
            back: [0, 1, 1],
        },
        Place {
            rank: 2,
            back: [0, 0, 1],
        },
        Place {
            rank: 5,
            back: [0, 0, 1],
        },
        Place {
            rank: 4,
            back: [0, 0, 0],
        },
    ],
    &[
        Place {
            rank: 0,
            back: [0, 0, 0],
        },
        Place {
            rank: 1,
            back: [1, 0, 0],
        },
        Place {
            rank: 4,
            back: [1, 0, 0],
        },
        Place {
            rank: 5,
            back: [1, 0, 1],
        },
        Place {
            rank: 1,
            back: [1, 0, 1],
        },
        Place {
            rank: 0,
            back: [0, 0, 1],
        },
        Place {
            rank: 5,
            back: [0, 0, 1],
        },
        Place {
            rank: 4,
            back: [0, 0, 0],
        },
    ],
    &[],
    &[
        Place {
            rank: 0,
            back: [0, 0, 0],
        },
        Place {
            rank: 1,
            back: [1, 0, 0],
        },
        Place {
            rank: 2,
            back: [1, 0, 0],
        },
        Place {
            rank: 3,
            back: [1, 1, 0],
        },
        Place {
            rank: 1,
            back: [1, 1, 0],
        },
        Place {
            rank: 0,
            back: [0, 1, 0],
        },
        Place {
            rank: 3,
            back: [0, 1, 0],
        },
        Place {
            rank: 2,
            back: [0, 0, 0],
        },
    ],
    &[],
    &[],
    &[],
];

/// The pyramids round an edge to the centre of a cube: the three over the facets that have its other end.
pub const CENTRES: [&'static [Place]; 8] = [
    &[
        Place {
            rank: 0,
            back: [0, 0, 0],
        },
        Place {
            rank: 2,
            back: [0, 0, 0],
        },
        Place {
            rank: 4,
            back: [0, 0, 0],
        },
    ],
    &[
        Place {
            rank: 1,
            back: [0, 0, 0],
        },
        Place {
            rank: 2,
            back: [0, 0, 0],
        },
        Place {
            rank: 4,
            back: [0, 0, 0],
        },
    ],
    &[
        Place {
            rank: 0,
            back: [0, 0, 0],
        },
        Place {
            rank: 3,
            back: [0, 0, 0],
        },
        Place {
            rank: 4,
            back: [0, 0, 0],
        },
    ],
    &[
        Place {
            rank: 1,
            back: [0, 0, 0],
        },
        Place {
            rank: 3,
            back: [0, 0, 0],
        },
        Place {
            rank: 4,
            back: [0, 0, 0],
        },
    ],
    &[
        Place {
            rank: 0,
            back: [0, 0, 0],
        },
        Place {
            rank: 2,
            back: [0, 0, 0],
        },
        Place {
            rank: 5,
            back: [0, 0, 0],
        },
    ],
    &[
        Place {
            rank: 1,
            back: [0, 0, 0],
        },
        Place {
            rank: 2,
            back: [0, 0, 0],
        },
        Place {
            rank: 5,
            back: [0, 0, 0],
        },
    ],
    &[
        Place {
            rank: 0,
            back: [0, 0, 0],
        },
        Place {
            rank: 3,
            back: [0, 0, 0],
        },
        Place {
            rank: 5,
            back: [0, 0, 0],
        },
    ],
    &[
        Place {
            rank: 1,
            back: [0, 0, 0],
        },
        Place {
            rank: 3,
            back: [0, 0, 0],
        },
        Place {
            rank: 5,
            back: [0, 0, 0],
        },
    ],
];
