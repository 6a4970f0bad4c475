// "a FIFO buffer of at most 8 pending stores": room, fences, and commits with nothing to commit.
use super::Line;

pub(crate) static LINES: [Line; 4] = [
    // 9: "a write, 8 stores pending". "Room in a buffer is usable again after each commit." A full buffer of 1 is none
    //    of 2's.
    (
        "1 writes eight times, pending, writes, 2 writes:",
        " w1101 w1102 w1103 w1101 w1102 w1103 w1101 w1102 P1... w1103 w2101",
    ),
    (
        "1 writes eight times, commits, pending, writes, writes:",
        " w1101 w1102 w1103 w1101 w1102 w1103 w1101 w1102 c1... P1... w1103 w1103",
    ),
    // 8: "fence or unlock, own buffer not empty": one's own. 5: "a commit with an empty buffer".
    (
        "1 fences, writes, fences, 2 fences, 1 unlocks, commits, fences, unlocks:",
        " f1... w1101 f1... f2... u1... c1... f1... u1...",
    ),
    (
        "1 commits nothing, writes, 2 commits nothing, 1 commits, commits again:",
        " c1... w1101 c2... c1... c1...",
    ),
];
