// Duties, data and shares as bytes, and data decided for a slot.
ghost use Rattle.std.specs.Prelude.{◌≡◌, ◌++◌, take, drop};
ghost use Rattle.wire.specs.Bytes.{le_bytes, le_value, data_bytes, duty_bytes, share_bytes, data_from, duty_from, share_from};
ghost use Rattle.wire.specs.Meaning.{data_of, duty_of, share_of};
ghost use Rattle.wire.specs.Laws.{duty_coding, data_coding, share_coding, decided_coding};
ghost use Rattle.std.proofs.Common.{rules};

use crate::fixed::Fixed;
use crate::values::{Data, Duty, Root, Share};

impl Fixed for Duty {
    ghost width = { 24 };

    ghost coded = { λ y. duty_bytes (duty_of y) };

    ghost reads = { λ bs y. duty_of y ≡ duty_from bs };

    ghost long = { λ x. duty_coding.long (duty_of x) };

    ghost narrow = { Prim.search rules };

    fn size() -> usize {
        24
    }

    #[tactic(auto, using(crate::proofs::Fields::duty_read))]
    fn at(bytes: &[u8], place: usize) -> Duty {
        Duty {
            slot: u64::at(bytes, place),
            committee: u64::at(bytes, place + 8),
            seat: u64::at(bytes, place + 16),
        }
    }

    #[tactic(auto, using(crate::proofs::Filled::duty_put), unfolding(crate::specs::Meaning::duty_of))]
    fn put(&self, out: &mut [u8], place: usize) {
        self.slot.put(out, place);
        self.committee.put(out, place + 8);
        self.seat.put(out, place + 16);
    }
}

impl Fixed for Data {
    ghost width = { 128 };

    ghost coded = { λ d. data_bytes (data_of d) };

    ghost reads = { λ bs d. data_of d ≡ data_from bs };

    ghost long = { λ x. data_coding.long (data_of x) };

    ghost narrow = { Prim.search rules };

    fn size() -> usize {
        128
    }

    #[tactic(auto, using(crate::proofs::Fields::data_read))]
    fn at(bytes: &[u8], place: usize) -> Data {
        Data {
            slot: u64::at(bytes, place),
            committee: u64::at(bytes, place + 8),
            block: Root::at(bytes, place + 16),
            source: u64::at(bytes, place + 48),
            source_root: Root::at(bytes, place + 56),
            target: u64::at(bytes, place + 88),
            target_root: Root::at(bytes, place + 96),
        }
    }

    #[tactic(auto, using(crate::proofs::Filled::data_put), unfolding(crate::specs::Meaning::data_of))]
    fn put(&self, out: &mut [u8], place: usize) {
        self.slot.put(out, place);
        self.committee.put(out, place + 8);
        self.block.put(out, place + 16);
        self.source.put(out, place + 48);
        self.source_root.put(out, place + 56);
        self.target.put(out, place + 88);
        self.target_root.put(out, place + 96);
    }
}

impl Fixed for Share {
    ghost width = { 137 };

    ghost coded = { λ s. share_bytes (share_of s) };

    ghost reads = { λ bs s. share_of s ≡ share_from bs };

    ghost long = { λ x. share_coding.long (share_of x) };

    ghost narrow = { Prim.search rules };

    fn size() -> usize {
        137
    }

    #[tactic(auto, using(crate::proofs::Fields::share_read))]
    fn at(bytes: &[u8], place: usize) -> Share {
        Share {
            who: u8::at(bytes, place),
            what: Data::at(bytes, place + 1),
            seat: u64::at(bytes, place + 129),
        }
    }

    #[tactic(auto, using(crate::proofs::Filled::share_put), unfolding(crate::specs::Meaning::share_of))]
    fn put(&self, out: &mut [u8], place: usize) {
        self.who.put(out, place);
        self.what.put(out, place + 1);
        self.seat.put(out, place + 129);
    }
}

// A slot, and the data to which its deciding has come.
impl Fixed for (u64, Data) {
    ghost width = { 136 };

    ghost coded = { λ p. le_bytes 8 p.0 ++ data_bytes (data_of p.1) };

    ghost reads = { λ bs p. (p.0 ≡ le_value (take 8 bs)) × (data_of p.1 ≡ data_from (drop 8 bs)) };

    ghost long = { λ p. decided_coding.long (p.0, data_of p.1) };

    ghost narrow = { Prim.search rules };

    fn size() -> usize {
        136
    }

    #[tactic(auto, using(crate::proofs::Fields::decided_read))]
    fn at(bytes: &[u8], place: usize) -> (u64, Data) {
        (u64::at(bytes, place), Data::at(bytes, place + 8))
    }

    #[tactic(auto, using(crate::proofs::Filled::decided_put))]
    fn put(&self, out: &mut [u8], place: usize) {
        self.0.put(out, place);
        self.1.put(out, place + 8);
    }
}
