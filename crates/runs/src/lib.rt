#![tactic(auto)]
// What the evaluator promises of a place of the text, and why what it keeps in a run may be used again. No code: the definitions are in specs/, their laws in proofs/.
