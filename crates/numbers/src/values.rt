// Roots, entries of the past, duties, data and shares in rows.
ghost use Rattle.std.specs.Prelude.{◌≡◌, ℕ, ◌+◌, ◌<◌, ◌≤◌, [], ◌∷◌, length, slice_index};
ghost use Rattle.std.proofs.Common.{rules};
ghost use Rattle.wire.specs.Meaning.{root_of, entry_of, duty_of, data_of, share_of};
ghost use Rattle.past.specs.Past.{entry_of as entry_in, row_of};
ghost use Rattle.stored.specs.Numbers.{root_numbers as four_of, root_at as root_in, duty_numbers, duty_in, data_numbers, data_in, share_numbers as numbers_of_share, share_in};
ghost use Rattle.numbers.specs.Laws.{root_read, duty_read, data_read, share_read, entry_read};

use crate::in_numbers::InNumbers;
use wire::{Data, Duty, Entry, Root, Share};

impl InNumbers<4> for Root {
    ghost numbers = { λ r. four_of (root_of r) };

    ghost reads = { λ row r. root_of r ≡ root_in row 0 };

    ghost reads_back = { root_read };

    ghost few = { Prim.search rules };

    fn to_numbers(&self) -> [u64; 4] {
        root_numbers(*self)
    }

    #[tactic(auto, unfolding(wire::specs::Meaning::root_of))]
    fn from_numbers(row: &[u64]) -> Root {
        Root {
            first: row[0],
            second: row[1],
            third: row[2],
            fourth: row[3],
        }
    }
}

impl InNumbers<2> for Entry {
    ghost numbers = { λ e. row_of (entry_of e) };

    ghost reads = { λ row e. entry_of e ≡ entry_in row };

    ghost reads_back = { entry_read };

    ghost few = { Prim.search rules };

    #[tactic(auto, unfolding(wire::specs::Meaning::entry_of))]
    fn to_numbers(&self) -> [u64; 2] {
        [self.source, self.target]
    }

    #[tactic(auto, unfolding(wire::specs::Meaning::entry_of))]
    fn from_numbers(row: &[u64]) -> Entry {
        Entry {
            source: row[0],
            target: row[1],
        }
    }
}

impl InNumbers<3> for Duty {
    ghost numbers = { λ d. duty_numbers (duty_of d) };

    ghost reads = { λ row d. duty_of d ≡ duty_in row };

    ghost reads_back = { duty_read };

    ghost few = { Prim.search rules };

    #[tactic(auto, unfolding(wire::specs::Meaning::duty_of, stored::specs::Numbers::duty_numbers))]
    fn to_numbers(&self) -> [u64; 3] {
        [self.slot, self.committee, self.seat]
    }

    #[tactic(auto, unfolding(wire::specs::Meaning::duty_of, stored::specs::Numbers::duty_in))]
    fn from_numbers(row: &[u64]) -> Duty {
        Duty {
            slot: row[0],
            committee: row[1],
            seat: row[2],
        }
    }
}

impl InNumbers<16> for Data {
    ghost numbers = { λ d. data_numbers (data_of d) };

    ghost reads = { λ row d. data_of d ≡ data_in row };

    ghost reads_back = { data_read };

    ghost few = { Prim.search rules };

    #[tactic(auto, unfolding(wire::specs::Meaning::data_of, stored::specs::Numbers::data_numbers, stored::specs::Numbers::root_numbers))]
    fn to_numbers(&self) -> [u64; 16] {
        let [b0, b1, b2, b3]: [u64; 4] = self.block.to_numbers();
        let [s0, s1, s2, s3]: [u64; 4] = self.source_root.to_numbers();
        let [t0, t1, t2, t3]: [u64; 4] = self.target_root.to_numbers();
        [
            self.slot,
            self.committee,
            b0,
            b1,
            b2,
            b3,
            self.source,
            s0,
            s1,
            s2,
            s3,
            self.target,
            t0,
            t1,
            t2,
            t3,
        ]
    }

    #[tactic(auto, unfolding(wire::specs::Meaning::data_of, stored::specs::Numbers::data_in))]
    fn from_numbers(row: &[u64]) -> Data {
        Data {
            slot: row[0],
            committee: row[1],
            block: Root::from_numbers(&row[2..]),
            source: row[6],
            source_root: Root::from_numbers(&row[7..]),
            target: row[11],
            target_root: Root::from_numbers(&row[12..]),
        }
    }
}

impl InNumbers<18> for Share {
    ghost numbers = { λ s. numbers_of_share (share_of s) };

    // A row that begins with a byte is read as a share.
    ghost reads = { λ row s. slice_index row 0 < 256 → share_of s ≡ share_in row };

    ghost reads_back = { share_read };

    ghost few = { Prim.search rules };

    #[tactic(auto, unfolding(wire::specs::Meaning::share_of, stored::specs::Numbers::share_numbers))]
    fn to_numbers(&self) -> [u64; 18] {
        share_numbers(u64::from(self.who), self.seat, &self.what)
    }

    #[tactic(auto, using(std::proofs::lemmas::List::take_rest), unfolding(wire::specs::Meaning::share_of, stored::specs::Numbers::share_in))]
    fn from_numbers(row: &[u64]) -> Share {
        Share {
            who: (row[0] % 256) as u8,
            what: Data::from_numbers(&row[2..]),
            seat: row[1],
        }
    }
}

// The four numbers of a root: one by value, so that each is known to fit.
#[tactic(auto, using(crate::proofs::Four::four_numbers), unfolding(wire::specs::Meaning::root_of))]
fn root_numbers(root: Root) -> [u64; 4]
    ensures { result ≡ four_of (root_of root) }
{
    [root.first, root.second, root.third, root.fourth]
}

// A seat and data behind a first number: an own share behind who signed it, a share that came behind 1.
pub fn share_numbers(first: u64, seat: u64, data: &Data) -> [u64; 18]
    ensures { result ≡ first ∷ (seat ∷ data_numbers (data_of «data».now)) }
{
    let mut row = [0; 18];
    row[0] = first;
    row[1] = seat;
    row[2..].copy_from_slice(&data.to_numbers());
    row
}
