// Keeping the past: the largest targets, each once.
ghost use Rattle.std.specs.Prelude.{◌≡◌, ◌*◌, ◌≤◌, map, length, IfSome};
ghost use Rattle.protocol.specs.Data.{Past, into};
ghost use Rattle.wire.specs.Meaning.{entry_of as meant};
ghost use Rattle.past.specs.Past.{entry_of, entries, placed, OneMore};

use wire::Entry;

// Where an entry with this target is to stand: before the first that has a smaller one; nowhere if its target is there.
fn place_for(kept: &[[u64; 2]], target: u64) -> Option<usize>
    ensures within { IfSome result (λ m. m ≤ length kept.now) }
    ensures places { (p : Past) → p.to ≡ target → into p (map entry_of kept.now) ≡ placed result p (map entry_of kept.now) }
{
    for (place, [_, other]) in kept.iter().enumerate() {
        if *other == target {
            return None;
        }
        if *other < target {
            return Some(place);
        }
    }
    Some(kept.len())
}

// The first `count` entries of a region, two numbers each.
#[tactic(auto, using(crate::proofs::Laws::pairs_are))]
pub fn pairs(region: &[u64], count: usize) -> &[[u64; 2]]
    requires { 2 * count ≤ length region.now }
    ensures many { length result.now ≡ count }
    ensures meant { map entry_of result.now ≡ entries count region.now }
{
    let (kept, _) = region[..2 * count].as_chunks();
    kept
}

// Keeps one entry more, of which the `most` with the largest targets stay, each target once. Says how many there are.
// Stays: the region with its count beside it, since a client's past is lent numbers, with free ones behind its entries.
pub fn keep_one_more(region: &mut [u64], count: usize, most: usize, entry: Entry) -> usize
    requires { (count ≤ most) × (2 * most ≤ length region.old) }
    ensures { OneMore most (meant entry) count result region.old region.new }
{
    let Some(place) = place_for(pairs(region, count), entry.target) else {
        return count;
    };
    if place >= most {
        return count;
    }
    let behind = count.min(most - 1);
    rows::put(region, 2 * place, 2 * behind, &[entry.source, entry.target]);
    behind + 1
}
