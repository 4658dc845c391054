// Reads a header and a day sheet on standard input, and prints the settled events.
#![tactic(auto)]

use std::io::{Read, Write};

fn main(rt: HostRuntime) -> anyhow::Result<()> {
    let mut input = Vec::new(rt.alloc());
    rt.stdin().read_to_end(&mut input)?;
    let output = clerk::statement(rt.alloc(), input.as_slice())?;
    rt.stdout().write_all(output.as_slice())?;
    Ok(())
}
