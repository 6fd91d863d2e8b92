#![tactic(auto)]

// Lines by example: each form as it is read and printed, and each kind of bad line.
#[cfg(test)]
mod answers;
#[cfg(test)]
mod requests;
