// 1: "the state is malformed", as far as memory goes: each clause broken alone, beside the nearest memory that
//    keeps it. 1 is well formed, 0 malformed.
use super::Line;

pub(crate) static LINES: [Line; 22] = [
    // "a count .. out of range": N from 1 to 64; "M from 1 to 4", so from 2 to 5 processes. All cells are free here.
    ("as begun:", " W...."),
    (
        "0, 1, 64, 65 cells:",
        " 0.... 1...0 W.... 1...1 W.... 1...p W.... 1...q W....",
    ),
    (
        "1, 2, 5, 6 processes:",
        " 0.... 2...1 W.... 2...2 W.... 2...5 W.... 2...6 W....",
    ),
    // "a .. process, set .. out of range": an occupied cell above N; a lock that is neither 0 nor that of a process, p + 1.
    (
        "cell 3 of 3 occupied, cell 4 too:",
        " 0.... 3.3.. W.... 3.4.. W....",
    ),
    ("cell 64 of 3 occupied:", " 0.... 3.p.. W...."),
    (
        "the lock with 2, with 3, of processes 0 to 2:",
        " 4...3 W.... 4...4 W....",
    ),
    // "Unused: a free cell's mark and fields, cells above N". An occupied cell may have a mark, and any byte in a field
    // here: what a value may be is not memory's to say.
    (
        "mark 1 of cell 3, occupied; free; of cell 64, above N:",
        " 3.3.. 5.3.. W.... 0.... 5.3.. W.... 0.... 5.p.. W....",
    ),
    (
        "field 0 at 74 of cell 3, occupied; free; of cell 64, above N:",
        " 3.3.. 6.30z W.... 0.... 6.30z W.... 0.... 6.p0z W....",
    ),
    (
        "field 1 at 74 of cell 3, occupied; free; of cell 64, above N:",
        " 3.3.. 6.31z W.... 0.... 6.31z W.... 0.... 6.p1z W....",
    ),
    // "a .. cell .. out of range", of a pending store: null, or above N; a field above 1. The cell may be free (3), and
    // the value is a plain byte.
    (
        "a mark pending of cell 1, then of cell 3, then of cell 4:",
        " m11.1 W.... m13.1 W.... m14.1 W....",
    ),
    ("a mark pending of cell 0:", " m10.0 W...."),
    (
        "field 1 of cell 3 := 74 pending, then field 0 of cell 4:",
        " w131z W.... w1400 W....",
    ),
    ("field 0 of cell 0 pending:", " w1000 W...."),
    ("field 2 of cell 1 pending:", " w1120 W...."),
    ("fM, fA, phase pending:", " s1..0 g1..0 h1..3 W...."),
    // "buffer length out of range", over stores that fit; "entries past a buffer's length", whatever their kind.
    (
        "8 stores pending; the length set to 9; to 7:",
        " w1101 w1101 w1101 w1101 w1101 w1101 w1101 w1101 W.... 71..9 W.... 71..7 W....",
    ),
    (
        "a store at place 0, past the length 0; the length set to 1:",
        " 81.00 W.... 71..1 W....",
    ),
    ("fM:=0 at place 7, past the length 0:", " 81.71 W...."),
    (
        "mark of null := 1 at place 0, past the length 0:",
        " 81.02 W....",
    ),
    // "processes above M": the buffer of 3, where the processes are 0 to 2, has nothing pending and no entry used.
    ("2 writes x:=1:", " w2101 W...."),
    ("3 writes x:=1:", " w3101 W...."),
    (
        "a store at place 0 of 4, past the length 0:",
        " 84.00 W....",
    ),
];
