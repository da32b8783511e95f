// No code: the definitions and lemmas that all crates share, in specs/ and proofs/.
// A crate above cites them as Rattle.laws.specs.MODULE and Rattle.laws.proofs.MODULE.
#![tactic(auto)]
