#![tactic(auto)]

// Events and answers against bytes that were written out by hand from their layout.
#[cfg(test)]
mod tests;
