// Lists the stored streams in data/, each under its name.
#![tactic(auto)]

use listing::{list_stream, read_input};
use std::fs::File;

static CASES: [&str; 22] = [
    "five",
    "five_then_kind_5",
    "empty",
    "kind_5",
    "kind_6",
    "kind_7",
    "ends_in_set",
    "ends_in_lift",
    "ends_in_move",
    "ends_in_plan_for",
    "ends_in_plan_within",
    "padding_of_set",
    "padding_of_lift",
    "padding_of_move",
    "padding_of_plan_for",
    "first_padding_bit",
    "padding_of_plan_within",
    "stops_at_the_first_fault",
    "extremes",
    "longest",
    "longest_with_a_fault",
    "one_byte_more",
];

fn main(rt: HostRuntime) -> anyhow::Result<()> {
    let heap = rt.alloc();
    for name in CASES {
        let path = format!(in heap; "{name}.orders")?;
        let bytes = read_input(heap, &mut File::open(&rt, &path)?)?;
        let text = list_stream(heap, &bytes)?;
        print!(rt; "{name}:\n{text}")?;
    }
    Ok(())
}
