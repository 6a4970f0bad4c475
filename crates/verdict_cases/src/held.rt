// "1 loose: some cell reachable from held references is free. Held: roots, honorary roots, targets and values of
// pending field stores; reach goes through memory's fields of occupied cells." Cells 5 and 6 are free.
use super::ground;
use buffers::Store;
use state::State;
use std::io;

fn roots(rt: &impl Print) -> io::Result<()> {
    // nothing free is reached
    ground::say(rt, "ground", ground::ground())?;
    // "A held reference that is itself free" (reading 8): the root 5, beside the root 1
    let mut one = ground::process(1);
    one.roots = 17;
    ground::say(rt, "free root", ground::with_process(1, one))?;
    // the roots of every mutator are held: 6 of the second
    let mut two = ground::process(2);
    two.roots = 32;
    ground::say(rt, "free root of mutator 2", ground::with_process(2, two))?;
    // "the least such free cell": 5 of 5 and 6
    two.roots = 48;
    ground::say(rt, "two free roots", ground::with_process(2, two))
}

fn honorary(rt: &impl Print) -> io::Result<()> {
    // "honorary roots": the old value 5 of a running store
    ground::say(
        rt,
        "honorary root",
        ground::with_process(1, ground::storing(5, 0)),
    )?;
    // y is a note of the running store, not a held reference
    ground::say(
        rt,
        "y is not held",
        ground::with_process(1, ground::storing(0, 5)),
    )
}

fn stores(rt: &impl Print) -> io::Result<()> {
    // "targets .. of pending field stores": 5, and the value is null
    let target = Store::Field {
        cell: 5,
        field: 0,
        value: 0,
    };
    ground::say(rt, "target of a store", ground::with_store(1, target))?;
    // ".. and values": 6, and the target is occupied
    let value = Store::Field {
        cell: 1,
        field: 1,
        value: 6,
    };
    ground::say(rt, "value of a store", ground::with_store(2, value))?;
    // of any buffer: the collector's
    ground::say(rt, "store of the collector", ground::with_store(0, target))
}

fn not_held(rt: &impl Print) -> io::Result<()> {
    // "pending marks hold nothing" (reading 8)
    let mark = Store::Mark { cell: 5, bit: true };
    ground::say(rt, "pending mark", ground::with_store(1, mark))?;
    // "Work lists .. hold nothing" (reading 8)
    let mut busy = ground::process(1);
    busy.work = 16;
    ground::say(rt, "free cell on a list", ground::with_process(1, busy))
}

pub(crate) fn all(rt: &impl Print) -> io::Result<()> {
    roots(rt)?;
    honorary(rt)?;
    stores(rt)?;
    not_held(rt)
}

// The ground with field f of cell 4 naming d.
fn from_four(f: u8, d: u8) -> State {
    let m = ground::memory();
    let store = Store::Field {
        cell: 4,
        field: f,
        value: d,
    };
    let after = m.apply(store);
    ground::with_memory(after)
}

pub(crate) fn chains(rt: &impl Print) -> io::Result<()> {
    // 1 names 2, 2 names 4, 4 names 5, in its first field and in its second
    ground::say(rt, "chain to a first field", from_four(0, 5))?;
    ground::say(rt, "chain to a second field", from_four(1, 5))?;
    // 4 names 1: a ring, and nothing free
    ground::say(rt, "ring", from_four(0, 1))?;
    // nobody holds 1 any more: what is not reached is not loose
    let mut q = ground::process(1);
    q.roots = 0;
    let unreached = from_four(0, 5);
    ground::say(rt, "unreached chain", unreached.with_process(1, q))?;
    // held is 4 alone, by the value of a pending store; 4 names 3, 3 names 2, 2 names 1, 1 names 6: downwards, a pass
    // for each
    let mut m = ground::memory();
    m.field0[3] = 3;
    m.field0[2] = 2;
    m.field1[1] = 1;
    m.field0[0] = 6;
    m.field1[0] = 0;
    let start = Store::Field {
        cell: 4,
        field: 1,
        value: 4,
    };
    let mut s = ground::with_store(2, start);
    let b = s.memory;
    m.buffers[2] = b.buffers[2];
    s.memory = m;
    ground::say(rt, "chain downwards", s.with_process(1, q))
}
