#![tactic(auto)]
// How numbers, keys and actions are spelled in bytes. Knows no rule and no sheet.
pub mod scan; // scan.rt: reads digits, numbers, a key, the end of a line
pub mod put; // put.rt: writes texts, numbers and actions into lent output

// A state or a mask is written as so many hex digits.
pub const WORD_WIDTH: usize = 8;
