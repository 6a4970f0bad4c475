// The judge as a program: a log on standard input, one line on standard output. All that matters is in `runlog`; here
// bytes are read and three numbers written.
#![tactic(auto)]

use std::io::{self, Read};

// One byte more than a log may have: a log of so many is too long, and `judge` says so.
const MOST: u64 = 65537;

// Reads a log, and writes its line.
fn main(rt: HostRuntime) -> io::Result<()> {
    let mut log = Vec::new(rt.alloc());
    match rt.reader().take(MOST).read_to_end(&mut log) {
        Ok(_) => {
            let n = runlog::judge(&log).numbers();
            println!(rt; "steps {} stop {} verdict {}", n.steps, n.stop, n.verdict)
        }
        Err(_) => rt.eprintln("judge: standard input can't be read"),
    }
}
