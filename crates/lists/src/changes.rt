// What is done with a list.
// Stays: the region and its room as parameters; a struct that holds the lent part of a memory was tried, and what the part becomes was lost to its caller's proof.
ghost use Rattle.std.specs.Prelude.{◌≡◌, ℕ, ◌+◌, ◌*◌, ◌≤◌, Bool, List as Listed, length};
ghost use Rattle.rows.specs.Rows.{Takes, Tests};
ghost use Rattle.lists.specs.Lists.{Inserts, Removes, Replaces, Keeps};

use crate::reads::count;

// Puts an entry in at a place, as those behind it move up; where there is no room the last one goes.
pub fn insert(region: &mut [u64], width: usize, room: usize, place: usize, row: &[u64])
    requires { (1 + width * room ≤ length region.old) × (length row.now ≡ width) }
    ensures { Inserts width room place row.now region.old region.new }
{
    let entries = count(region, room);
    if place > entries || place >= room {
        return;
    }
    let behind = entries.min(room - 1);
    rows::put(&mut region[1..], width * place, width * behind, row);
    region[0] = behind as u64 + 1;
}

// Cuts the entry at a place out, as those behind it move down.
pub fn remove(region: &mut [u64], width: usize, room: usize, place: usize)
    requires { 1 + width * room ≤ length region.old }
    ensures { Removes width room place region.old region.new }
{
    let entries = count(region, room);
    if place >= entries {
        return;
    }
    rows::cut(&mut region[1..], width * place, width * entries, width);
    region[0] = entries as u64 - 1;
}

// Puts an entry in the place of another.
pub fn replace(region: &mut [u64], width: usize, room: usize, place: usize, row: &[u64])
    requires { (1 + width * room ≤ length region.old) × (length row.now ≡ width) }
    ensures { Replaces width room place row.now region.old region.new }
{
    if place >= count(region, room) {
        return;
    }
    let start = 1 + width * place;
    region[start..start + width].copy_from_slice(row);
}

// Keeps those that pass, in their order.
pub fn keep<F: Fn(&[u64]) -> bool>(region: &mut [u64], width: usize, room: usize, which: F)
    requires fits { 1 + width * room ≤ length region.old }
    requires takes { Takes F.Fn which width }
    ensures { (p : Listed ℕ → Bool) → Tests F.Fn which width p → Keeps width room p region.old region.new }
{
    let entries = count(region, room);
    region[0] = rows::keep(&mut region[1..], width, entries, which) as u64;
}
