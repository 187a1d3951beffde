// The listing of a tree, a line for each node: line n is written from the rows up to n.
#![tactic(auto)]

mod fields;
mod line;
mod path;

pub use line::write_line;
