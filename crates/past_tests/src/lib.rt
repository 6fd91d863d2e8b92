#![tactic(auto)]

// Examples of the past in lent numbers, each worked out by hand from the rules.
#[cfg(test)]
mod judging;
#[cfg(test)]
mod keeping;
