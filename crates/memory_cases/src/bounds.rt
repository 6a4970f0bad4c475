// Numbers out of range. The engine refuses them before it asks memory (1, 2 and 4); memory itself has an answer for
// every number, and stays within its arrays.
use super::Line;

pub(crate) static LINES: [Line; 9] = [
    // 2: "the process is above M". A process above 4 has no buffer: it has nothing pending, and reads memory.
    (
        "4 writes x:=1, 5 writes x:=1, 65 writes x:=1:",
        " w4101 w5101 wq101",
    ),
    (
        "5 pending, commits, fences, reads fM, locks, 1 reads fM:",
        " P5... c5... f5... S5... l5... S1...",
    ),
    // A length above 8, over entries that are all unused: not empty, and no room. The oldest entry is a mark of null,
    // which is no occupied cell.
    (
        "1 has length 9; 1 writes, fences, unlocks, commits, reads x, pending, well formed:",
        " 71..9 w1101 f1... u1... c1... F110. P1... W....",
    ),
    // "0 is null": it is no cell and never occupied. Allocating it changes nothing.
    (
        "1 looks at cell 0, reads its field 0, 0 looks at it for the sweep, 1 writes its mark, commits:",
        " M10.. F100. E00.. m10.1 c1...",
    ),
    (
        "1 allocates cell 0, occupied, 0 frees cell 0, cells 1 and 2 occupied, well formed:",
        " a10.. U.0.. d00.. U.1.. U.2.. W....",
    ),
    // Above N a cell is free. Memory would occupy one, and would then not be well formed; neither the arrays nor a set have
    // a place for cell 65.
    (
        "1 looks at cell 4, reads field 0 of cell 65, writes it, commits:",
        " M14.. F1q0. w1q01 c1...",
    ),
    (
        "0 allocates cell 4, occupied, well formed:",
        " a04.. U.4.. W....",
    ),
    (
        "0 allocates cell 64, occupied, 1 looks at it, well formed:",
        " a0p.. U.p.. M1p.. W....",
    ),
    (
        "0 allocates cell 65, occupied, well formed:",
        " a0q.. U.q.. W....",
    ),
];
