// Reads a trace file from standard input, and prints the overlaps of its monitors or why it is refused.
#![tactic(auto)]

use anyhow::anyhow;
use output::{ListOverlaps, respond_or};

fn main(rt: HostRuntime) -> anyhow::Result<()> {
    if respond_or::<ListOverlaps, _, _, anyhow::Error>(
        rt.alloc(),
        &mut rt.stdin(),
        &mut rt.stdout(),
    )? {
        Ok(())
    } else {
        Err(anyhow!("refused"))
    }
}
