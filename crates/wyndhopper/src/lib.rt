#![tactic(auto)]
// What holds of several exported functions together, or of one asked twice. No code: the functions are in the crates .._calls, which the library is made of; theorems about their contracts are in proofs/.
