// What a client's memory is laid out by.
ghost use Rattle.std.specs.Prelude.{◌<◌, ◌≤◌};

// The sizes of a client's memory: how many clients the group has and which one this is, how many entries of the past are kept, and how many duties may wait.
#[derive(Clone, Copy)]
pub struct Layout {
    pub clients: usize,
    pub me: usize,
    pub kept: usize,
    pub waiting: usize,
    ghost some_clients: { 1 ≤ clients },
    ghost few_clients: { clients ≤ 64 },
    ghost one_of_them: { me < clients },
    ghost some_kept: { 1 ≤ kept },
    ghost few_kept: { kept ≤ 4096 },
    ghost some_wait: { 1 ≤ waiting },
    ghost few_wait: { waiting ≤ 64 },
}
