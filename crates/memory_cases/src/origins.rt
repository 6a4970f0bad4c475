// R-6: "whether it saw the reader's own pending store or memory, with the place in the buffer, oldest counted as 0".
use super::Line;

pub(crate) static LINES: [Line; 5] = [
    // The newest matching store's place; another's stores, and one's own to another spot, do not count.
    (
        "where x comes from; 1 writes x, y twice, x; for 1, for 2, y for 1; 1 commits, x and y for 1:",
        " O110. w1101 O110. w1201 w1202 w1103 O110. O210. O120. c1... O110. O120.",
    ),
    (
        "1 writes x eight times, and for each where it comes from:",
        " w1101 O110. w1101 O110. w1101 O110. w1101 O110. w1101 O110. w1101 O110. w1101 O110. w1101 O110.",
    ),
    (
        "1 writes y seven times, then x; commits seven times; x; commits, x:",
        " w1201 w1201 w1201 w1201 w1201 w1201 w1201 w1101 O110. c1... c1... c1... c1... c1... c1... c1... O110. c1... O110.",
    ),
    // A refused look has read nothing. The sweep's look reads at a free cell too.
    (
        "where 1 reads x from, z, 2 locks, 1 reads x, 1 looks for the sweep:",
        " O110. O130. l2... O110. Q11..",
    ),
    (
        "1 looks for the sweep at cell 1 and 3, writes the mark of 3 after x, looks at 1 and 3:",
        " Q11.. Q13.. w1101 m13.0 Q11.. Q13.. E13..",
    ),
];
