// Numbers of one byte and of eight as bytes, the low byte first.
ghost use Rattle.std.specs.Prelude.{◌≡◌, take};
ghost use Rattle.wire.specs.Bytes.{le_bytes, le_value};
ghost use Rattle.wire.specs.CodingLemmas.{length_le_bytes};
ghost use Rattle.std.proofs.Common.{rules};

use crate::fixed::Fixed;

impl Fixed for u8 {
    ghost width = { 1 };

    ghost coded = { λ n. le_bytes 1 n };

    ghost reads = { λ bs n. n ≡ le_value (take 1 bs) };

    ghost long = { λ n. length_le_bytes 1 n };

    ghost narrow = { Prim.search rules };

    fn size() -> usize {
        1
    }

    #[tactic(auto, using(crate::proofs::Eight::one_value))]
    fn at(bytes: &[u8], place: usize) -> u8 {
        bytes[place]
    }

    #[tactic(auto, using(crate::proofs::Eight::put_one))]
    fn put(&self, out: &mut [u8], place: usize) {
        out[place] = *self;
    }
}

impl Fixed for u64 {
    ghost width = { 8 };

    ghost coded = { λ n. le_bytes 8 n };

    ghost reads = { λ bs n. n ≡ le_value (take 8 bs) };

    ghost long = { λ n. length_le_bytes 8 n };

    ghost narrow = { Prim.search rules };

    fn size() -> usize {
        8
    }

    #[tactic(auto, using(crate::proofs::Eight::eight_read))]
    fn at(bytes: &[u8], place: usize) -> u64 {
        u64::from_le_bytes(*bytes[place..].first_chunk().unwrap())
    }

    #[tactic(auto, using(crate::proofs::Eight::put_eight, crate::proofs::Eight::eight_bytes))]
    fn put(&self, out: &mut [u8], place: usize) {
        out[place..place + 8].copy_from_slice(&self.to_le_bytes());
    }
}
