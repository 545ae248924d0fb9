// Judged lines of small patterns, computed by other programs: for each monomial the combination that clears the earlier pivots.
use rows::Verdict;

// What a line should hold: its first codes; all others are 0.
#[derive(Clone, Copy)]
pub(crate) struct Judged {
    pub(crate) exponents: [u16; 4],
    pub(crate) verdict: Verdict,
    pub(crate) codes: [u16; 8],
    pub(crate) image: [u16; 24],
    pub(crate) pivot: u8,
}

pub(crate) const SEQUENCE: [Judged; 3] = [
    Judged {
        exponents: [0, 0, 0, 0],
        verdict: Verdict::Stair,
        codes: [0, 0, 0, 0, 0, 0, 0, 0],
        image: [
            3, 5, 9, 6, 0, 10, 8, 4, 7, 2, 0, 0, 0, 0, 0, 0, 0, 0, 0, 0, 0, 0, 0, 0,
        ],
        pivot: 0,
    },
    Judged {
        exponents: [1, 0, 0, 0],
        verdict: Verdict::Stair,
        codes: [2, 0, 0, 0, 0, 0, 0, 0],
        image: [
            0, 8, 2, 1, 10, 6, 9, 4, 5, 7, 0, 0, 0, 0, 0, 0, 0, 0, 0, 0, 0, 0, 0, 0,
        ],
        pivot: 1,
    },
    Judged {
        exponents: [2, 0, 0, 0],
        verdict: Verdict::Relation,
        codes: [2, 8, 0, 0, 0, 0, 0, 0],
        image: [
            0, 0, 0, 0, 0, 0, 0, 0, 0, 0, 0, 0, 0, 0, 0, 0, 0, 0, 0, 0, 0, 0, 0, 0,
        ],
        pivot: 64,
    },
];

pub(crate) const SQUARE_GRADED: [Judged; 4] = [
    Judged {
        exponents: [0, 0, 0, 0],
        verdict: Verdict::Stair,
        codes: [0, 0, 0, 0, 0, 0, 0, 0],
        image: [
            1, 0, 0, 1, 0, 0, 0, 0, 0, 0, 0, 0, 0, 0, 0, 0, 0, 0, 0, 0, 0, 0, 0, 0,
        ],
        pivot: 0,
    },
    Judged {
        exponents: [0, 1, 0, 0],
        verdict: Verdict::Stair,
        codes: [0, 0, 0, 0, 0, 0, 0, 0],
        image: [
            0, 1, 1, 0, 0, 0, 0, 0, 0, 0, 0, 0, 0, 0, 0, 0, 0, 0, 0, 0, 0, 0, 0, 0,
        ],
        pivot: 1,
    },
    Judged {
        exponents: [1, 0, 0, 0],
        verdict: Verdict::Relation,
        codes: [0, 1, 0, 0, 0, 0, 0, 0],
        image: [
            0, 0, 0, 0, 0, 0, 0, 0, 0, 0, 0, 0, 0, 0, 0, 0, 0, 0, 0, 0, 0, 0, 0, 0,
        ],
        pivot: 64,
    },
    Judged {
        exponents: [0, 2, 0, 0],
        verdict: Verdict::Relation,
        codes: [1, 0, 0, 0, 0, 0, 0, 0],
        image: [
            0, 0, 0, 0, 0, 0, 0, 0, 0, 0, 0, 0, 0, 0, 0, 0, 0, 0, 0, 0, 0, 0, 0, 0,
        ],
        pivot: 64,
    },
];

pub(crate) const SQUARE_LEXICOGRAPHIC: [Judged; 4] = [
    Judged {
        exponents: [0, 0, 0, 0],
        verdict: Verdict::Stair,
        codes: [0, 0, 0, 0, 0, 0, 0, 0],
        image: [
            1, 0, 0, 1, 0, 0, 0, 0, 0, 0, 0, 0, 0, 0, 0, 0, 0, 0, 0, 0, 0, 0, 0, 0,
        ],
        pivot: 0,
    },
    Judged {
        exponents: [0, 1, 0, 0],
        verdict: Verdict::Stair,
        codes: [0, 0, 0, 0, 0, 0, 0, 0],
        image: [
            0, 1, 1, 0, 0, 0, 0, 0, 0, 0, 0, 0, 0, 0, 0, 0, 0, 0, 0, 0, 0, 0, 0, 0,
        ],
        pivot: 1,
    },
    Judged {
        exponents: [0, 2, 0, 0],
        verdict: Verdict::Relation,
        codes: [1, 0, 0, 0, 0, 0, 0, 0],
        image: [
            0, 0, 0, 0, 0, 0, 0, 0, 0, 0, 0, 0, 0, 0, 0, 0, 0, 0, 0, 0, 0, 0, 0, 0,
        ],
        pivot: 64,
    },
    Judged {
        exponents: [1, 0, 0, 0],
        verdict: Verdict::Relation,
        codes: [0, 1, 0, 0, 0, 0, 0, 0],
        image: [
            0, 0, 0, 0, 0, 0, 0, 0, 0, 0, 0, 0, 0, 0, 0, 0, 0, 0, 0, 0, 0, 0, 0, 0,
        ],
        pivot: 64,
    },
];

pub(crate) const SQUARE_ELEVEN: [Judged; 4] = [
    Judged {
        exponents: [0, 0, 0, 0],
        verdict: Verdict::Stair,
        codes: [0, 0, 0, 0, 0, 0, 0, 0],
        image: [
            3, 1, 10, 8, 0, 0, 0, 0, 0, 0, 0, 0, 0, 0, 0, 0, 0, 0, 0, 0, 0, 0, 0, 0,
        ],
        pivot: 0,
    },
    Judged {
        exponents: [0, 1, 0, 0],
        verdict: Verdict::Stair,
        codes: [4, 0, 0, 0, 0, 0, 0, 0],
        image: [
            0, 1, 10, 0, 0, 0, 0, 0, 0, 0, 0, 0, 0, 0, 0, 0, 0, 0, 0, 0, 0, 0, 0, 0,
        ],
        pivot: 1,
    },
    Judged {
        exponents: [1, 0, 0, 0],
        verdict: Verdict::Relation,
        codes: [0, 1, 0, 0, 0, 0, 0, 0],
        image: [
            0, 0, 0, 0, 0, 0, 0, 0, 0, 0, 0, 0, 0, 0, 0, 0, 0, 0, 0, 0, 0, 0, 0, 0,
        ],
        pivot: 64,
    },
    Judged {
        exponents: [0, 2, 0, 0],
        verdict: Verdict::Relation,
        codes: [10, 0, 0, 0, 0, 0, 0, 0],
        image: [
            0, 0, 0, 0, 0, 0, 0, 0, 0, 0, 0, 0, 0, 0, 0, 0, 0, 0, 0, 0, 0, 0, 0, 0,
        ],
        pivot: 64,
    },
];

pub(crate) const ZEROS: [Judged; 1] = [Judged {
    exponents: [0, 0, 0, 0],
    verdict: Verdict::Relation,
    codes: [0, 0, 0, 0, 0, 0, 0, 0],
    image: [
        0, 0, 0, 0, 0, 0, 0, 0, 0, 0, 0, 0, 0, 0, 0, 0, 0, 0, 0, 0, 0, 0, 0, 0,
    ],
    pivot: 64,
}];

pub(crate) const ONE_CELL: [Judged; 2] = [
    Judged {
        exponents: [0, 0, 0, 0],
        verdict: Verdict::Stair,
        codes: [0, 0, 0, 0, 0, 0, 0, 0],
        image: [
            4, 0, 0, 0, 0, 0, 0, 0, 0, 0, 0, 0, 0, 0, 0, 0, 0, 0, 0, 0, 0, 0, 0, 0,
        ],
        pivot: 0,
    },
    Judged {
        exponents: [1, 0, 0, 0],
        verdict: Verdict::Relation,
        codes: [4, 0, 0, 0, 0, 0, 0, 0],
        image: [
            0, 0, 0, 0, 0, 0, 0, 0, 0, 0, 0, 0, 0, 0, 0, 0, 0, 0, 0, 0, 0, 0, 0, 0,
        ],
        pivot: 64,
    },
];

pub(crate) const POWERS: [Judged; 2] = [
    Judged {
        exponents: [0, 0, 0, 0],
        verdict: Verdict::Stair,
        codes: [0, 0, 0, 0, 0, 0, 0, 0],
        image: [
            1, 2, 3, 0, 0, 0, 0, 0, 0, 0, 0, 0, 0, 0, 0, 0, 0, 0, 0, 0, 0, 0, 0, 0,
        ],
        pivot: 0,
    },
    Judged {
        exponents: [1, 0, 0, 0],
        verdict: Verdict::Relation,
        codes: [2, 0, 0, 0, 0, 0, 0, 0],
        image: [
            0, 0, 0, 0, 0, 0, 0, 0, 0, 0, 0, 0, 0, 0, 0, 0, 0, 0, 0, 0, 0, 0, 0, 0,
        ],
        pivot: 64,
    },
];

pub(crate) const CORNERS: [Judged; 6] = [
    Judged {
        exponents: [0, 0, 0, 0],
        verdict: Verdict::Stair,
        codes: [0, 0, 0, 0, 0, 0, 0, 0],
        image: [
            1, 1, 1, 0, 0, 0, 0, 0, 0, 0, 0, 0, 0, 0, 0, 0, 0, 0, 0, 0, 0, 0, 0, 0,
        ],
        pivot: 0,
    },
    Judged {
        exponents: [0, 1, 0, 0],
        verdict: Verdict::Stair,
        codes: [0, 0, 0, 0, 0, 0, 0, 0],
        image: [
            0, 0, 1, 0, 0, 0, 0, 0, 0, 0, 0, 0, 0, 0, 0, 0, 0, 0, 0, 0, 0, 0, 0, 0,
        ],
        pivot: 2,
    },
    Judged {
        exponents: [1, 0, 0, 0],
        verdict: Verdict::Stair,
        codes: [0, 0, 0, 0, 0, 0, 0, 0],
        image: [
            0, 1, 0, 0, 0, 0, 0, 0, 0, 0, 0, 0, 0, 0, 0, 0, 0, 0, 0, 0, 0, 0, 0, 0,
        ],
        pivot: 1,
    },
    Judged {
        exponents: [0, 2, 0, 0],
        verdict: Verdict::Relation,
        codes: [0, 4, 0, 0, 0, 0, 0, 0],
        image: [
            0, 0, 0, 0, 0, 0, 0, 0, 0, 0, 0, 0, 0, 0, 0, 0, 0, 0, 0, 0, 0, 0, 0, 0,
        ],
        pivot: 64,
    },
    Judged {
        exponents: [1, 1, 0, 0],
        verdict: Verdict::Relation,
        codes: [0, 0, 0, 0, 0, 0, 0, 0],
        image: [
            0, 0, 0, 0, 0, 0, 0, 0, 0, 0, 0, 0, 0, 0, 0, 0, 0, 0, 0, 0, 0, 0, 0, 0,
        ],
        pivot: 64,
    },
    Judged {
        exponents: [2, 0, 0, 0],
        verdict: Verdict::Relation,
        codes: [0, 0, 4, 0, 0, 0, 0, 0],
        image: [
            0, 0, 0, 0, 0, 0, 0, 0, 0, 0, 0, 0, 0, 0, 0, 0, 0, 0, 0, 0, 0, 0, 0, 0,
        ],
        pivot: 64,
    },
];

pub(crate) const AXES: [Judged; 8] = [
    Judged {
        exponents: [0, 0, 0, 0],
        verdict: Verdict::Stair,
        codes: [0, 0, 0, 0, 0, 0, 0, 0],
        image: [
            1, 4, 2, 0, 6, 3, 0, 0, 0, 0, 0, 0, 0, 0, 0, 0, 0, 0, 0, 0, 0, 0, 0, 0,
        ],
        pivot: 0,
    },
    Judged {
        exponents: [0, 1, 0, 0],
        verdict: Verdict::Stair,
        codes: [5, 0, 0, 0, 0, 0, 0, 0],
        image: [
            0, 6, 2, 3, 3, 5, 0, 0, 0, 0, 0, 0, 0, 0, 0, 0, 0, 0, 0, 0, 0, 0, 0, 0,
        ],
        pivot: 1,
    },
    Judged {
        exponents: [1, 0, 0, 0],
        verdict: Verdict::Stair,
        codes: [5, 6, 0, 0, 0, 0, 0, 0],
        image: [
            0, 0, 4, 6, 4, 3, 0, 0, 0, 0, 0, 0, 0, 0, 0, 0, 0, 0, 0, 0, 0, 0, 0, 0,
        ],
        pivot: 2,
    },
    Judged {
        exponents: [0, 2, 0, 0],
        verdict: Verdict::Stair,
        codes: [6, 6, 1, 0, 0, 0, 0, 0],
        image: [
            0, 0, 0, 3, 5, 6, 0, 0, 0, 0, 0, 0, 0, 0, 0, 0, 0, 0, 0, 0, 0, 0, 0, 0,
        ],
        pivot: 3,
    },
    Judged {
        exponents: [1, 1, 0, 0],
        verdict: Verdict::Stair,
        codes: [0, 6, 3, 3, 0, 0, 0, 0],
        image: [
            0, 0, 0, 0, 4, 1, 0, 0, 0, 0, 0, 0, 0, 0, 0, 0, 0, 0, 0, 0, 0, 0, 0, 0,
        ],
        pivot: 4,
    },
    Judged {
        exponents: [2, 0, 0, 0],
        verdict: Verdict::Relation,
        codes: [6, 0, 0, 0, 0, 0, 0, 0],
        image: [
            0, 0, 0, 0, 0, 0, 0, 0, 0, 0, 0, 0, 0, 0, 0, 0, 0, 0, 0, 0, 0, 0, 0, 0,
        ],
        pivot: 64,
    },
    Judged {
        exponents: [0, 3, 0, 0],
        verdict: Verdict::Relation,
        codes: [6, 0, 0, 0, 0, 0, 0, 0],
        image: [
            0, 0, 0, 0, 0, 0, 0, 0, 0, 0, 0, 0, 0, 0, 0, 0, 0, 0, 0, 0, 0, 0, 0, 0,
        ],
        pivot: 64,
    },
    Judged {
        exponents: [1, 2, 0, 0],
        verdict: Verdict::Stair,
        codes: [1, 1, 5, 5, 6, 0, 0, 0],
        image: [
            0, 0, 0, 0, 0, 3, 0, 0, 0, 0, 0, 0, 0, 0, 0, 0, 0, 0, 0, 0, 0, 0, 0, 0,
        ],
        pivot: 5,
    },
];

pub(crate) const CUBE_LEXICOGRAPHIC: [Judged; 11] = [
    Judged {
        exponents: [0, 0, 0, 0],
        verdict: Verdict::Stair,
        codes: [0, 0, 0, 0, 0, 0, 0, 0],
        image: [
            1, 0, 0, 0, 0, 0, 0, 0, 1, 0, 0, 0, 0, 0, 1, 0, 0, 0, 0, 0, 0, 0, 1, 0,
        ],
        pivot: 0,
    },
    Judged {
        exponents: [0, 0, 1, 0],
        verdict: Verdict::Stair,
        codes: [0, 0, 0, 0, 0, 0, 0, 0],
        image: [
            0, 0, 1, 0, 0, 0, 0, 0, 0, 0, 1, 0, 1, 0, 0, 0, 0, 0, 0, 0, 1, 0, 0, 0,
        ],
        pivot: 2,
    },
    Judged {
        exponents: [0, 0, 2, 0],
        verdict: Verdict::Relation,
        codes: [1, 0, 0, 0, 0, 0, 0, 0],
        image: [
            0, 0, 0, 0, 0, 0, 0, 0, 0, 0, 0, 0, 0, 0, 0, 0, 0, 0, 0, 0, 0, 0, 0, 0,
        ],
        pivot: 64,
    },
    Judged {
        exponents: [0, 1, 0, 0],
        verdict: Verdict::Stair,
        codes: [0, 0, 0, 0, 0, 0, 0, 0],
        image: [
            0, 0, 0, 0, 1, 0, 0, 0, 1, 0, 0, 0, 0, 0, 0, 0, 0, 0, 1, 0, 0, 0, 1, 0,
        ],
        pivot: 4,
    },
    Judged {
        exponents: [0, 1, 1, 0],
        verdict: Verdict::Stair,
        codes: [0, 0, 0, 0, 0, 0, 0, 0],
        image: [
            0, 0, 0, 0, 0, 0, 1, 0, 0, 0, 1, 0, 0, 0, 0, 0, 1, 0, 0, 0, 1, 0, 0, 0,
        ],
        pivot: 6,
    },
    Judged {
        exponents: [0, 2, 0, 0],
        verdict: Verdict::Relation,
        codes: [1, 0, 1, 0, 0, 0, 0, 0],
        image: [
            0, 0, 0, 0, 0, 0, 0, 0, 0, 0, 0, 0, 0, 0, 0, 0, 0, 0, 0, 0, 0, 0, 0, 0,
        ],
        pivot: 64,
    },
    Judged {
        exponents: [1, 0, 0, 0],
        verdict: Verdict::Stair,
        codes: [0, 0, 0, 0, 0, 0, 0, 0],
        image: [
            0, 0, 0, 1, 0, 0, 0, 0, 0, 0, 0, 1, 0, 1, 0, 0, 0, 0, 0, 0, 0, 1, 0, 0,
        ],
        pivot: 3,
    },
    Judged {
        exponents: [1, 0, 1, 0],
        verdict: Verdict::Stair,
        codes: [0, 0, 0, 0, 0, 0, 0, 0],
        image: [
            0, 1, 0, 0, 0, 0, 0, 0, 0, 1, 0, 0, 0, 0, 0, 1, 0, 0, 0, 0, 0, 0, 0, 1,
        ],
        pivot: 1,
    },
    Judged {
        exponents: [1, 1, 0, 0],
        verdict: Verdict::Stair,
        codes: [0, 0, 0, 0, 0, 0, 0, 0],
        image: [
            0, 0, 0, 0, 0, 0, 0, 1, 0, 0, 0, 1, 0, 0, 0, 0, 0, 1, 0, 0, 0, 1, 0, 0,
        ],
        pivot: 7,
    },
    Judged {
        exponents: [1, 1, 1, 0],
        verdict: Verdict::Stair,
        codes: [0, 0, 0, 0, 0, 0, 0, 0],
        image: [
            0, 0, 0, 0, 0, 1, 0, 0, 0, 1, 0, 0, 0, 0, 0, 0, 0, 0, 0, 1, 0, 0, 0, 1,
        ],
        pivot: 5,
    },
    Judged {
        exponents: [2, 0, 0, 0],
        verdict: Verdict::Relation,
        codes: [0, 1, 0, 0, 0, 0, 0, 0],
        image: [
            0, 0, 0, 0, 0, 0, 0, 0, 0, 0, 0, 0, 0, 0, 0, 0, 0, 0, 0, 0, 0, 0, 0, 0,
        ],
        pivot: 64,
    },
];

pub(crate) const CUBE_BINARY: [Judged; 11] = [
    Judged {
        exponents: [0, 0, 0, 0],
        verdict: Verdict::Stair,
        codes: [0, 0, 0, 0, 0, 0, 0, 0],
        image: [
            1, 0, 0, 0, 0, 0, 0, 0, 1, 0, 0, 0, 0, 0, 1, 0, 0, 0, 0, 0, 0, 0, 1, 0,
        ],
        pivot: 0,
    },
    Judged {
        exponents: [0, 0, 1, 0],
        verdict: Verdict::Stair,
        codes: [0, 0, 0, 0, 0, 0, 0, 0],
        image: [
            0, 0, 1, 0, 0, 0, 0, 0, 0, 0, 1, 0, 1, 0, 0, 0, 0, 0, 0, 0, 1, 0, 0, 0,
        ],
        pivot: 2,
    },
    Judged {
        exponents: [0, 1, 0, 0],
        verdict: Verdict::Stair,
        codes: [0, 0, 0, 0, 0, 0, 0, 0],
        image: [
            0, 0, 0, 0, 1, 0, 0, 0, 1, 0, 0, 0, 0, 0, 0, 0, 0, 0, 1, 0, 0, 0, 1, 0,
        ],
        pivot: 4,
    },
    Judged {
        exponents: [1, 0, 0, 0],
        verdict: Verdict::Stair,
        codes: [0, 0, 0, 0, 0, 0, 0, 0],
        image: [
            0, 0, 0, 1, 0, 0, 0, 0, 0, 0, 0, 1, 0, 1, 0, 0, 0, 0, 0, 0, 0, 1, 0, 0,
        ],
        pivot: 3,
    },
    Judged {
        exponents: [0, 0, 2, 0],
        verdict: Verdict::Relation,
        codes: [1, 0, 0, 0, 0, 0, 0, 0],
        image: [
            0, 0, 0, 0, 0, 0, 0, 0, 0, 0, 0, 0, 0, 0, 0, 0, 0, 0, 0, 0, 0, 0, 0, 0,
        ],
        pivot: 64,
    },
    Judged {
        exponents: [0, 1, 1, 0],
        verdict: Verdict::Stair,
        codes: [0, 0, 0, 0, 0, 0, 0, 0],
        image: [
            0, 0, 0, 0, 0, 0, 1, 0, 0, 0, 1, 0, 0, 0, 0, 0, 1, 0, 0, 0, 1, 0, 0, 0,
        ],
        pivot: 6,
    },
    Judged {
        exponents: [0, 2, 0, 0],
        verdict: Verdict::Relation,
        codes: [1, 0, 1, 0, 0, 0, 0, 0],
        image: [
            0, 0, 0, 0, 0, 0, 0, 0, 0, 0, 0, 0, 0, 0, 0, 0, 0, 0, 0, 0, 0, 0, 0, 0,
        ],
        pivot: 64,
    },
    Judged {
        exponents: [1, 0, 1, 0],
        verdict: Verdict::Stair,
        codes: [0, 0, 0, 0, 0, 0, 0, 0],
        image: [
            0, 1, 0, 0, 0, 0, 0, 0, 0, 1, 0, 0, 0, 0, 0, 1, 0, 0, 0, 0, 0, 0, 0, 1,
        ],
        pivot: 1,
    },
    Judged {
        exponents: [1, 1, 0, 0],
        verdict: Verdict::Stair,
        codes: [0, 0, 0, 0, 0, 0, 0, 0],
        image: [
            0, 0, 0, 0, 0, 0, 0, 1, 0, 0, 0, 1, 0, 0, 0, 0, 0, 1, 0, 0, 0, 1, 0, 0,
        ],
        pivot: 7,
    },
    Judged {
        exponents: [2, 0, 0, 0],
        verdict: Verdict::Relation,
        codes: [0, 1, 0, 0, 0, 0, 0, 0],
        image: [
            0, 0, 0, 0, 0, 0, 0, 0, 0, 0, 0, 0, 0, 0, 0, 0, 0, 0, 0, 0, 0, 0, 0, 0,
        ],
        pivot: 64,
    },
    Judged {
        exponents: [1, 1, 1, 0],
        verdict: Verdict::Stair,
        codes: [0, 0, 0, 0, 0, 0, 0, 0],
        image: [
            0, 0, 0, 0, 0, 1, 0, 0, 0, 1, 0, 0, 0, 0, 0, 0, 0, 0, 0, 1, 0, 0, 0, 1,
        ],
        pivot: 5,
    },
];

pub(crate) const STRIP_WEIGHTED: [Judged; 10] = [
    Judged {
        exponents: [0, 0, 0, 0],
        verdict: Verdict::Stair,
        codes: [0, 0, 0, 0, 0, 0, 0, 0],
        image: [
            1, 0, 0, 0, 0, 0, 0, 0, 65520, 0, 0, 0, 0, 0, 0, 0, 0, 0, 0, 0, 0, 0, 0, 0,
        ],
        pivot: 0,
    },
    Judged {
        exponents: [1, 0, 0, 0],
        verdict: Verdict::Stair,
        codes: [0, 0, 0, 0, 0, 0, 0, 0],
        image: [
            0, 1, 0, 0, 0, 0, 0, 0, 0, 65520, 0, 0, 0, 0, 0, 0, 0, 0, 0, 0, 0, 0, 0, 0,
        ],
        pivot: 1,
    },
    Judged {
        exponents: [2, 0, 0, 0],
        verdict: Verdict::Relation,
        codes: [65520, 0, 0, 0, 0, 0, 0, 0],
        image: [
            0, 0, 0, 0, 0, 0, 0, 0, 0, 0, 0, 0, 0, 0, 0, 0, 0, 0, 0, 0, 0, 0, 0, 0,
        ],
        pivot: 64,
    },
    Judged {
        exponents: [0, 1, 0, 0],
        verdict: Verdict::Stair,
        codes: [0, 0, 0, 0, 0, 0, 0, 0],
        image: [
            0, 0, 0, 0, 0, 0, 65520, 0, 0, 0, 0, 0, 0, 0, 1, 0, 0, 0, 0, 0, 0, 0, 0, 0,
        ],
        pivot: 6,
    },
    Judged {
        exponents: [1, 1, 0, 0],
        verdict: Verdict::Stair,
        codes: [0, 0, 0, 0, 0, 0, 0, 0],
        image: [
            0, 0, 0, 0, 0, 0, 0, 65520, 0, 0, 0, 0, 0, 0, 0, 1, 0, 0, 0, 0, 0, 0, 0, 0,
        ],
        pivot: 7,
    },
    Judged {
        exponents: [0, 2, 0, 0],
        verdict: Verdict::Stair,
        codes: [0, 0, 0, 0, 0, 0, 0, 0],
        image: [
            0, 0, 0, 0, 65520, 0, 0, 0, 0, 0, 0, 0, 1, 0, 0, 0, 0, 0, 0, 0, 0, 0, 0, 0,
        ],
        pivot: 4,
    },
    Judged {
        exponents: [1, 2, 0, 0],
        verdict: Verdict::Stair,
        codes: [0, 0, 0, 0, 0, 0, 0, 0],
        image: [
            0, 0, 0, 0, 0, 65520, 0, 0, 0, 0, 0, 0, 0, 1, 0, 0, 0, 0, 0, 0, 0, 0, 0, 0,
        ],
        pivot: 5,
    },
    Judged {
        exponents: [0, 3, 0, 0],
        verdict: Verdict::Stair,
        codes: [0, 0, 0, 0, 0, 0, 0, 0],
        image: [
            0, 0, 65520, 0, 0, 0, 0, 0, 0, 0, 1, 0, 0, 0, 0, 0, 0, 0, 0, 0, 0, 0, 0, 0,
        ],
        pivot: 2,
    },
    Judged {
        exponents: [1, 3, 0, 0],
        verdict: Verdict::Stair,
        codes: [0, 0, 0, 0, 0, 0, 0, 0],
        image: [
            0, 0, 0, 65520, 0, 0, 0, 0, 0, 0, 0, 1, 0, 0, 0, 0, 0, 0, 0, 0, 0, 0, 0, 0,
        ],
        pivot: 3,
    },
    Judged {
        exponents: [0, 4, 0, 0],
        verdict: Verdict::Relation,
        codes: [1, 0, 0, 0, 0, 0, 0, 0],
        image: [
            0, 0, 0, 0, 0, 0, 0, 0, 0, 0, 0, 0, 0, 0, 0, 0, 0, 0, 0, 0, 0, 0, 0, 0,
        ],
        pivot: 64,
    },
];
