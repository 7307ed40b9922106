// No code. specs/ has cases that the Rust was asked about, with its answers, and proofs/ the fact that the definitions
// give the same: so they are not only what the code computes.
#![tactic(auto)]
