// The text of the programs: requests, answers and the past as they are printed.
#![tactic(auto)]

pub mod answers;
pub mod errors;
pub mod laws;
pub mod lists;
pub mod requests;

pub use answers::answer_text;
pub use errors::AnswerError;
pub use lists::past_text;
pub use requests::{Request, may_text};
