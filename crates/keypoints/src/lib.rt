// No code: the tick lists in the shape of the Rust's own functions, in specs/, and in proofs/ that they are the lists of plans.
// What the answers cite stands here, so that a reader can hold it beside datetime.rs.
#![tactic(auto)]
