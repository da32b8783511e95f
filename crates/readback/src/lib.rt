// No code: that plate's ticks read back and so are told apart, and that lines without a point print as before fractions
// were shown. specs/ has the claims, proofs/ their theorems.
#![tactic(auto)]
