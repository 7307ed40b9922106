// The library's functions for hosts in C and Rust; `c_api_c` exports them, and include/bazintroa.h declares them. A slice
// crosses as a pointer and a length, a complex number as an array of its real and its imaginary part. An answer that is
// an enum crosses as document 01's number, 0 for a result, 100 for none, or the refusal, and places, which are written
// only on 0.
#![tactic(auto)]

pub mod complex_numbers;
pub mod grids;
pub mod locus;
pub mod responses;
pub mod scans;
