// What is signed, for which duty, a client's share of it, and the entry of the past that is made of it.
ghost use Rattle.std.specs.Prelude.{◌≡◌, ◌==◌};
ghost use Rattle.protocol.specs.Data.{same as same_data, past_of};
ghost use Rattle.wire.specs.Meaning.{root_of, data_of, entry_of};

// A root of 32 bytes, as four numbers of eight, the lowest first. To a client roots are only the same or not.
#[derive(Clone, Copy, PartialEq, Eq, Debug)]
pub struct Root {
    pub first: u64,
    pub second: u64,
    pub third: u64,
    pub fourth: u64,
}

impl Root {
    // The root whose bytes are all 0.
    pub const ZERO: Root = Root {
        first: 0,
        second: 0,
        third: 0,
        fourth: 0,
    };

    // Whether two roots are the same.
    #[tactic(auto, using(crate::proofs::Same::roots_same))]
    pub fn same(self, other: Root) -> bool
        ensures { result ≡ (root_of self == root_of other) }
    {
        self == other
    }
}

// Attestation data: slot, committee, block, and the source and target checkpoints, an epoch and a root each.
#[derive(Clone, Copy, PartialEq, Eq, Debug)]
pub struct Data {
    pub slot: u64,
    pub committee: u64,
    pub block: Root,
    pub source: u64,
    pub source_root: Root,
    pub target: u64,
    pub target_root: Root,
}

impl Data {
    // Whether two are equal in every field.
    pub fn same(&self, other: &Data) -> bool
        ensures { result ≡ same_data (data_of self.now) (data_of other.now) }
    {
        are_same(*self, *other)
    }
}

// Whether two that are handed over by value are equal in every field.
// Stays: by value, since that each number of a root fits its eight bytes, of which the proof is made, is not handed on from behind a `&Data`.
fn are_same(one: Data, other: Data) -> bool
    ensures { result ≡ same_data (data_of one) (data_of other) }
{
    one == other
}

// A duty to attest: a slot, a committee, and the seat in it that the validator has.
#[derive(Clone, Copy, PartialEq, Eq, Debug)]
pub struct Duty {
    pub slot: u64,
    pub committee: u64,
    pub seat: u64,
}

// A client's signature share: who signed, what, and the seat that it speaks for.
#[derive(Clone, Copy, PartialEq, Eq, Debug)]
pub struct Share {
    pub who: u8,
    pub what: Data,
    pub seat: u64,
}

// An entry of the past: the source and target epochs of what was signed or seen decided.
#[derive(Clone, Copy, PartialEq, Eq, Debug)]
pub struct Entry {
    pub source: u64,
    pub target: u64,
}

// What goes into the past of data that is signed or seen decided.
impl From<&Data> for Entry {
    ghost from_gives = { λ d e. entry_of e ≡ past_of (data_of d.now) };

    #[tactic(auto, unfolding(crate::specs::Meaning::data_of, crate::specs::Meaning::entry_of))]
    fn from(data: &Data) -> Entry {
        Entry {
            source: data.source,
            target: data.target,
        }
    }
}
