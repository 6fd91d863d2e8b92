// Roots as bytes, the low byte first.
ghost use Rattle.std.specs.Prelude.{◌≡◌, take};
ghost use Rattle.wire.specs.Bytes.{le_bytes, le_value};
ghost use Rattle.wire.specs.Meaning.{root_of};
ghost use Rattle.wire.specs.CodingLemmas.{length_le_bytes};
ghost use Rattle.std.proofs.Common.{rules};

use crate::fixed::Fixed;
use crate::values::Root;

impl Fixed for Root {
    ghost width = { 32 };

    ghost coded = { λ r. le_bytes 32 (root_of r) };

    ghost reads = { λ bs r. root_of r ≡ le_value (take 32 bs) };

    ghost long = { λ r. length_le_bytes 32 (root_of r) };

    ghost narrow = { Prim.search rules };

    fn size() -> usize {
        32
    }

    #[tactic(auto, using(crate::proofs::Fields::root_read), unfolding(crate::specs::Meaning::root_of))]
    fn at(bytes: &[u8], place: usize) -> Root {
        Root {
            first: u64::at(bytes, place),
            second: u64::at(bytes, place + 8),
            third: u64::at(bytes, place + 16),
            fourth: u64::at(bytes, place + 24),
        }
    }

    #[tactic(auto, using(crate::proofs::Filled::root_put), unfolding(crate::specs::Meaning::root_of))]
    fn put(&self, out: &mut [u8], place: usize) {
        self.first.put(out, place);
        self.second.put(out, place + 8);
        self.third.put(out, place + 16);
        self.fourth.put(out, place + 24);
    }
}
