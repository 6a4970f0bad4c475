// The values of fields, in memory and pending: 0 or a cell 1 to n.
ghost use Rattle.std.specs.Prelude.{◌≡◌};
ghost use Rattle.formed.specs.WellFormed.{fields_fit_of, stores_fit_of, pending_fit_of, values_fit_of};

use buffers::Buffer;
use memory::Memory;

// One field of every cell.
fn fields_fit(n: u8, fields: [u8; Memory::CELLS]) -> bool
    ensures { result ≡ fields_fit_of n fields }
{
    fields.iter().all(|v| *v <= n)
}

// Every store of one buffer; a store to no field has the value 0.
fn stores_fit(n: u8, b: Buffer) -> bool
    ensures { result ≡ stores_fit_of n b }
{
    b.entries.iter().all(|e| e.store.value_in() <= n)
}

#[tactic(auto, using(base::proofs::Choices::choices), unfolding(crate::specs::WellFormed::pending_fit_of))]
fn pending_fit(n: u8, buffers: [Buffer; Memory::PROCESSES]) -> bool
    ensures { result ≡ pending_fit_of n buffers }
{
    buffers.iter().all(|b| stores_fit(n, *b))
}

#[tactic(auto, using(base::proofs::Choices::choices), unfolding(crate::specs::WellFormed::values_fit_of))]
pub fn values_fit(m: Memory) -> bool
    ensures { result ≡ values_fit_of m }
{
    let n = m.cells;
    fields_fit(n, m.field0) && fields_fit(n, m.field1) && pending_fit(n, m.buffers)
}
