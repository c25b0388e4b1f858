// One thread's steps along a line: of its shortest runs, the first.
#![tactic(auto)]

mod course;
mod exits;
mod head;
pub mod levels;
mod plan;
pub mod solve;
pub mod steps;
mod stretch;
mod tight;
