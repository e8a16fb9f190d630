#![tactic(auto, using(crate::proofs::Fits::fits))]

// The C terminal: the plan, the verdict and the next severity, and the book itself, by numbers and byte slices. Each
// call returns 0, or the refusal's number in the low byte and its place above it; a refusal writes nothing. Each call
// matches on its own answer: of a closure that writes out-parameters no clause can say that a refusal leaves them.
pub mod books;
pub mod judging;
pub mod planning;
pub mod readings;
pub mod records;
mod telling;
