// No code. specs/ has the cases that document 01 works by hand and what they give, as one table; proofs/ has one fact
// about all its rows. `checked_definitions` has another table of such cases.
#![tactic(auto)]
