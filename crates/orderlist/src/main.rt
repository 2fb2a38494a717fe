// Tells what a saved stream of orders will do: reads it from standard input, and prints its listing.
#![tactic(auto)]

use listing::{list_stream, read_input};

fn main(rt: HostRuntime) -> anyhow::Result<()> {
    let heap = rt.alloc();
    let bytes = read_input(heap, &mut rt.stdin())?;
    rt.print(list_stream(heap, &bytes)?)?;
    Ok(())
}
