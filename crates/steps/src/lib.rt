#![tactic(auto)]
// What the evaluator finds at a sign with no part, by the rows of the log. Knows no other sign, and nothing that is kept.
pub mod letters; // letters.rt: what the letter of a variable stands for
pub mod step; // step.rt: one step of the log, and the row that a sign names
