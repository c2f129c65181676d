#![tactic(auto)]
// The text of a rule by its bytes: which byte is which sign, which letter a variable's, and where each rule of a text ends. Knows no theory, and not whether a text is a rule.
pub mod ends; // ends.rt: where each rule of a text ends
pub mod letters; // letters.rt: the letters of variables
pub mod signs; // signs.rt: the table of signs

// "1 to 255 bytes"
pub const TEXT_LIMIT: usize = 255;
