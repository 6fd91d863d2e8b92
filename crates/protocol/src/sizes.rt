// The sizes of a group, and the limits of a client.
ghost use Rattle.std.specs.Prelude.{◌≡◌, ℕ, Bool, MatchResult};
ghost use Rattle.protocol.specs.Data.{bad_at_most, quorum as quorum_of};
ghost use Rattle.protocol.specs.Promise.{GoodLimits};
ghost use Rattle.protocol.specs.Meaning.{limits_of, FirstWrong};

// How many clients run one validator together.
#[derive(Clone, Copy, PartialEq, Eq, Debug)]
pub struct GroupSize {
    pub clients: u16,
}

impl GroupSize {
    // The most clients that a group may have.
    pub const MOST_CLIENTS: u16 = 64;

    // How many of them may be bad: fewer than a third.
    pub fn most_bad(self) -> u16
        ensures { result ≡ bad_at_most self.clients }
    {
        self.clients.saturating_sub(1) / 3
    }

    // How many shares make an attestation whole: two thirds of the clients, rounded up, which are all but a third of them, rounded down.
    pub fn quorum(self) -> u16
        ensures { result ≡ quorum_of self.clients }
    {
        self.clients - self.clients / 3
    }
}

// What a client is opened with: how many clients there are and which one it is, how many entries of the past are kept, and how many duties may wait.
#[derive(Clone, Copy, PartialEq, Eq, Debug)]
pub struct Limits {
    pub clients: u16,
    pub me: u16,
    pub kept: u16,
    pub waiting: u8,
}

// The first of the limits that is out of range.
#[derive(Clone, Copy, PartialEq, Eq, Debug)]
pub enum LimitsError {
    Clients,
    Me,
    Kept,
    Waiting,
}

impl Limits {
    // The most entries of the past that may be kept.
    pub const MOST_KEPT: u16 = 4096;
    // The most duties that may wait.
    pub const MOST_WAITING: u8 = 64;

    // Whether a client may be opened with these.
    pub fn check(&self) -> Result<(), LimitsError>
        ensures { MatchResult result (λ _. (can : ℕ → Bool) → GoodLimits can (limits_of can self.now)) (λ e. FirstWrong self.now e) }
    {
        if !(1..=GroupSize::MOST_CLIENTS).contains(&self.clients) {
            return Err(LimitsError::Clients);
        }
        if self.me >= self.clients {
            return Err(LimitsError::Me);
        }
        if !(1..=Self::MOST_KEPT).contains(&self.kept) {
            return Err(LimitsError::Kept);
        }
        if !(1..=Self::MOST_WAITING).contains(&self.waiting) {
            return Err(LimitsError::Waiting);
        }
        Ok(())
    }
}
