// No code. specs/ has what several crates' definitions are written with, proofs/ the laws that their proofs cite:
// loops that count up and lists that they fill, the order and the signs of f64 values, the least of some by a key, what a
// call comes to, and tests over the rows of a table.
#![tactic(auto)]
