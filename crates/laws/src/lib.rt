#![tactic(auto)]
// Laws of bits and lists that the toolchain's library lacks. No code: the definitions are in specs/, the laws in proofs/.
