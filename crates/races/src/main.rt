// Reads a trace file from standard input, and prints its races or why it is refused.
#![tactic(auto)]

use anyhow::anyhow;
use output::{ListRaces, respond_or};

fn main(rt: HostRuntime) -> anyhow::Result<()> {
    if respond_or::<ListRaces, _, _, anyhow::Error>(
        rt.alloc(),
        &mut rt.stdin(),
        &mut rt.stdout(),
    )? {
        Ok(())
    } else {
        Err(anyhow!("refused"))
    }
}
