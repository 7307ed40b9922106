// Calls the exported functions as a host in C does, by position, on lists and places that tell their parameters apart.
// What is expected comes from the cases that document 01 works by hand, or from the arithmetic that stands above the
// call; never from a run of the port. A line for each function: its name, and that all is as expected.
#![tactic(auto)]

use std::io;

mod lines;
mod loops;
mod numbers;
mod panels;
mod summaries;
mod sweeps;

fn main(rt: HostRuntime) -> io::Result<()> {
    numbers::run(&rt)?;
    loops::run(&rt)?;
    sweeps::run(&rt)?;
    summaries::run(&rt)?;
    panels::run(&rt)?;
    lines::tell_apart(&rt)
}
