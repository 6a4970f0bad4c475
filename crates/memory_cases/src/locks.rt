// "A process is blocked while another holds the lock."
use super::Line;

pub(crate) static LINES: [Line; 8] = [
    // 7: "a memory or own-buffer read, commit, allocation or free while blocked". Its own store is hidden from 2 all
    //    the same. Writes and fences are not among those.
    (
        "2 writes x:=1, 1 locks; 2 reads x, looks at cell 1, reads fM, reads phase, commits:",
        " w2101 l1... F210. M21.. S2... H2... c2...",
    ),
    (
        "1 locks; 2 allocates cell 3, 0 frees cell 2, 0 looks at cell 1 for the sweep:",
        " l1... a23.. d02.. E01..",
    ),
    (
        "1 locks; 2 fences, 2 writes x:=1, 2 fences:",
        " l1... f2... w2101 f2...",
    ),
    // The holder is not blocked: "while another holds the lock".
    (
        "1 writes x:=1, locks; 1 reads x, commits, allocates cell 3, frees cell 2:",
        " w1101 l1... F110. c1... a13.. d12..",
    ),
    // 7: "a lock step while any process holds the lock", itself too. 8: "fence or unlock, own buffer not empty".
    //    "Unlock .. leaves the lock with nobody", and ends the block.
    (
        "1 locks, 2 locks, 1 locks, 1 unlocks, 2 locks:",
        " l1... l2... l1... u1... l2...",
    ),
    (
        "1 writes y:=1, locks, unlocks, commits, 2 reads y, 1 unlocks, 2 reads y:",
        " w1201 l1... u1... c1... F220. u1... F220.",
    ),
    // "Checks run in number order": 5 before 7, and 7 before 10 and 11. Cell 1 is occupied, cell 3 is free.
    (
        "1 locks; 2 commits nothing, allocates cell 1, looks at cell 3, reads z, 0 looks at cell 3 for the sweep:",
        " l1... c2... a21.. M23.. F230. E03..",
    ),
    (
        "2 writes z:=1, commits, 1 locks, 2 commits:",
        " w2301 c2... l1... c2...",
    ),
];
