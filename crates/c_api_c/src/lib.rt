// The functions of `c_api` as hosts call them: each export is one call of its namesake there, with the same clauses.
// include/bazintroa.h declares them. (They stand here too for the C interface: an archive has only what its own crate exports.)
#![tactic(auto)]

mod complex_numbers;
mod grids;
mod locus;
mod responses;
mod scans;
