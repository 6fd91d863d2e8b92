// Values as rows of numbers, as a client's memory holds them: four numbers for a root, two for an entry of the past, three for a duty, sixteen for data, eighteen for a share.
#![tactic(auto)]

mod in_numbers;
mod values;

pub use in_numbers::InNumbers;
pub use values::share_numbers;
