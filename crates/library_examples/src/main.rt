//! One page of code for each use of the libraries. Each example works on sets in memory and prints what came of it.
#![tactic(auto)]

mod caching;
mod converting;
mod copying;
mod extracting;
mod patching;
mod reading;
mod serving;
mod sets;

fn run(rt: &HostRuntime) -> anyhow::Result<()> {
    converting::convert_two_sets(rt)?;
    reading::read_a_tile(rt)?;
    patching::patch_a_set(rt)?;
    copying::copy_a_box(rt)?;
    extracting::extract_and_verify(rt)?;
    serving::serve_a_line(rt)?;
    caching::keep_a_cache(rt)
}

fn main(rt: HostRuntime) -> anyhow::Result<()> {
    run(&rt)
}
