// What is proved of the definitions alone: each promise, that its bounds are needed, and what every right client does, as a small function whose contract names it.
#![tactic(auto)]

pub mod needed;
pub mod never_punished;
pub mod statements;
pub mod weaker;
