#![tactic(auto)]
// What a job's sheet means. No code: the definitions are in specs/, their theorems in proofs/.
