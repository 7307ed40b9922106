// The functions of `c_summaries` as hosts call them: each export is one call of its namesake there, with the same
// clauses. include/bazintroa.h declares them. (They stand here too for the C interface: an archive has only what its own
// crate exports.)
#![tactic(auto)]

mod bode_summary;
mod curve_summary;
mod sensitivity_summary;
