// The shell commands on a file tree.
#![tactic(auto)]

pub use tree::Refusal;

// What a call answers: done, with the length of the text that stands in the answer buffer if there is one, or refused. It stands in this
// crate, the lowest with commands, with what it tells and what is replied (`Replies.antt`), so that a command's code and the calls
// answer in the same words.
pub type Answer = Result<Option<usize>, Refusal>;
