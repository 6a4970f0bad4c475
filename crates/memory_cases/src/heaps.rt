// "A cell is free, or occupied": allocation, freeing, and what is asked of a free cell.
use super::Line;

pub(crate) static LINES: [Line; 11] = [
    // "allocate free cell x (mark = memory's fA, null fields, ..": memory's, not the one that waits in a buffer, even the
    // allocator's own. 10: "allocation of an occupied cell".
    (
        "1 allocates cell 3, looks at it, reads z, reads field 1 of cell 3, 2 allocates cell 3, 2 allocates cell 1:",
        " a13.. M13.. F130. F131. a23.. a21..",
    ),
    (
        "0 writes fA:=0, allocates cell 3, 1 looks at it:",
        " g0..0 a03.. M13..",
    ),
    (
        "0 writes fA:=0, commits, allocates cell 3, 1 looks at it:",
        " g0..0 c0... a03.. M13..",
    ),
    // "a freed cell may be allocated again"; "a step zeroes what it stops using": the old field is gone. Freeing a free
    // cell is no case of the table, so it is taken.
    (
        "1 writes y:=1, commits, 0 frees cell 2, occupied, 1 allocates cell 2, occupied, 1 reads y:",
        " w1201 c1... d02.. U.2.. a12.. U.2.. F120.",
    ),
    ("0 frees cell 3, which is free:", " d03.."),
    // 11: "a look, field read .. on a free cell (the sweep's look excepted)", even with a store of one's own pending there.
    (
        "1 looks at cell 3, reads z, 0 looks at cell 3 for the sweep, 0 looks at cell 2 for the sweep:",
        " M13.. F130. E03.. E02..",
    ),
    (
        "1 writes z:=1, mark of cell 3 := 1, reads z, looks at cell 3, 0 allocates cell 3, 1 reads z, looks at cell 3:",
        " w1301 m13.1 F130. M13.. a03.. F130. M13..",
    ),
    // 11: "commit of a mark or field on a free cell"; once the cell is allocated it is taken. fM, fA and the phase are
    //    of no cell.
    (
        "1 writes z:=1, commits, 0 allocates cell 3, 1 commits, 2 reads z:",
        " w1301 c1... a03.. c1... F230.",
    ),
    ("1 writes mark of cell 3 := 1, commits:", " m13.1 c1..."),
    (
        "1 writes x:=1, 0 frees cell 1, 1 commits:",
        " w1101 d01.. c1...",
    ),
    (
        "0 writes fM:=0, fA:=0, phase:=Init, commits three times:",
        " s0..0 g0..0 h0..1 c0... c0... c0...",
    ),
];
