// What x86-TSO lets a process see: "A read gives the newest matching store of the reader's own buffer, else memory";
// "A commit applies one's oldest store".
use super::Line;

pub(crate) static LINES: [Line; 16] = [
    // Store buffering. Each store waits in its writer's buffer, where the other can't see it: both old (0:0 0:0) is
    // allowed, and tells x86-TSO from a memory with no buffers.
    // A store that was committed before the read is seen. With "a fence needs one's own buffer empty" between write and
    // read, one of them at least sees the new value.
    (
        "1 writes x:=1, 2 writes y:=1, 1 reads y, 2 reads x:",
        " w1101 w2201 F120. F210.",
    ),
    (
        "1 writes x:=1, 2 writes y:=1, 1 commits, 1 reads y, 2 reads x:",
        " w1101 w2201 c1... F120. F210.",
    ),
    (
        "1 writes x:=1, 2 writes y:=1, both commit, 1 reads y, 2 reads x:",
        " w1101 w2201 c1... c2... F120. F210.",
    ),
    (
        "1 writes x:=1, 2 writes y:=1, 1 commits, fences, reads y, 2 commits, fences, reads x:",
        " w1101 w2201 c1... f1... F120. c2... f2... F210.",
    ),
    // Message passing: x is the data, y the flag, written in this order and, the buffer being FIFO, committed in this
    // order. The six ways in which the two reads can fall between the two commits: a new flag is never followed by old
    // data, 0:1 0:0.
    (
        "1 writes x:=1, y:=1, 2 reads y, x:",
        " w1101 w1201 F220. F210.",
    ),
    (
        "1 writes x:=1, y:=1, 2 reads y, 1 commits, 2 reads x:",
        " w1101 w1201 F220. c1... F210.",
    ),
    (
        "1 writes x:=1, y:=1, 2 reads y, 1 commits twice, 2 reads x:",
        " w1101 w1201 F220. c1... c1... F210.",
    ),
    (
        "1 writes x:=1, y:=1, commits, 2 reads y, x:",
        " w1101 w1201 c1... F220. F210.",
    ),
    (
        "1 writes x:=1, y:=1, commits, 2 reads y, 1 commits, 2 reads x:",
        " w1101 w1201 c1... F220. c1... F210.",
    ),
    (
        "1 writes x:=1, y:=1, commits twice, 2 reads y, x:",
        " w1101 w1201 c1... c1... F220. F210.",
    ),
    // "the reader's own buffer, else memory": one's own store is seen at once, by others once it is committed. "the
    // newest": of two own stores the later; the older is committed first. "matching": another field, another cell or the
    // mark is another spot.
    (
        "1 writes x:=2, 1 reads x, 2 reads x, 1 commits, 2 reads x:",
        " w1102 F110. F210. c1... F210.",
    ),
    (
        "1 writes x:=1, x:=2, reads x, commits, reads x, 2 reads x, 1 commits, 2 reads x:",
        " w1101 w1102 F110. c1... F110. F210. c1... F210.",
    ),
    (
        "1 writes field 1 of cell 1 := 2, reads it, x, field 1 of cell 2, looks at the mark of cell 1:",
        " w1112 F111. F110. F121. M11..",
    ),
    // A mark, fM and the phase are buffered too. Phases: Idle 0, Init 1, Mark 2, Sweep 3.
    (
        "1 writes mark of cell 1 := 0, 1 looks, 2 looks, 1 commits, 2 looks:",
        " m11.0 M11.. M21.. c1... M21..",
    ),
    (
        "0 writes fM:=0, 0 reads fM, 1 reads fM, 0 commits, 1 reads fM:",
        " s0..0 S0... S1... c0... S1...",
    ),
    (
        "0 writes phase:=Mark, 0 reads phase, 1 reads phase, 0 commits, 1 reads phase:",
        " h0..2 H0... H1... c0... H1...",
    ),
];
