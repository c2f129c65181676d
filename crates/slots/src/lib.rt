#![tactic(auto)]
// What a run of the evaluator keeps and goes by: a set of positions for each place of the text, what the variables stand for, and how a test inside a walk is read. Knows no rule.
pub mod readings; // readings.rt: how a `?` goes over a set of positions
pub mod slots; // slots.rt: what a run keeps
pub mod values; // values.rt: what the variables are given to stand for

// "0 is `step`": the reading of a job's own tests.
pub const STEP: usize = 0;
