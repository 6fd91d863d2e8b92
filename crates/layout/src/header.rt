// The numbers of the header that change, and a memory made anew.
ghost use Rattle.std.specs.Prelude.{◌≡◌, ◌≤◌, length, MatchResult};
ghost use Rattle.stored.specs.Stored.{Sizes, Stored};
ghost use Rattle.stored.specs.Kept.{Held};
ghost use Rattle.layout.specs.Layout.{sizes, limit_sizes, MemoryIsPlausible, Opened, Unopened};
ghost use Rattle.layout.specs.Fields.{field_of, with_field};

use crate::fields::Field;
use crate::layout::Layout;
use crate::opening::OpenError;
use protocol::Limits;

// A number of the header, of any numbers that have one.
// Stays: `get` and `put` beside the methods of a view and a memory, which ask for all of a client's numbers; these ask for eight, a promise that stands.
#[tactic(auto, using(crate::proofs::Numbered::field_read))]
pub fn get(memory: &[u64], field: Field) -> u64
    requires { 8 ≤ length memory.now }
    ensures { (z : Sizes) (t : Stored) → Held z memory.now t → result ≡ field_of field t }
{
    memory[field.place()]
}

// Another number of the header in its place.
pub fn put(memory: &mut [u64], field: Field, value: u64)
    requires { 8 ≤ length memory.old }
    ensures { (z : Sizes) (t : Stored) → Held z memory.old t → Held z memory.new (with_field field value t) }
{
    memory[field.place()] = value;
}

// Makes the memory of a new client at the front of the slice; nothing is changed where that can't be.
// Stays: over the slice, since the check doesn't cover a `Result` that holds a `Memory`, a `&mut` beside a struct with a ghost field.
pub fn open(memory: &mut [u64], limits: &Limits) -> Result<Layout, OpenError>
    ensures { MatchResult result
        (λ l. (sizes l ≡ limit_sizes limits.now) × Opened limits.now memory.old memory.new)
        (λ e. Unopened limits.now e × (memory.new ≡ memory.old)) }
{
    let layout = Layout::try_from(limits)?;
    let size = layout.size();
    if memory.len() < size {
        return Err(OpenError::ShortMemory(size));
    }
    let header = [
        Layout::FORMAT,
        layout.clients as u64,
        layout.me as u64,
        layout.kept as u64,
        layout.waiting as u64,
    ];
    memory[..size].fill(0);
    memory[..header.len()].copy_from_slice(&header);
    Ok(layout)
}

// A client's memory passes the test that tells what can't be one.
#[tactic(auto, using(crate::proofs::Passing::memory_is_plausible))]
pub fn memory_is_plausible_holds()
    ensures { MemoryIsPlausible }
{}
