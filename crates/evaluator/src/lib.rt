#![tactic(auto)]
// The evaluator: which positions a walk leads to, where a test is true, and which actions a job asks for. Knows the text, where each rule of it ends, and the rows of the log.
mod asks; // asks.rt: the actions that a walk asks for next
mod evaluator; // evaluator.rt: the walk function and the test function
pub mod run; // run.rt: a rule from its first place on, with slots where it keeps something
mod values; // values.rt: which values a binder goes over
