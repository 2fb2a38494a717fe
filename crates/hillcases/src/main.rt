// Tells what every span of the two sample hills costs, and what edits of three courses do.
#![tactic(auto)]

use course::Course;
use hills::{edit_text, full_course, hill_h, hill_v, spans_text};

mod tables;

fn main(rt: HostRuntime) -> anyhow::Result<()> {
    let heap = rt.alloc();
    for (title, course) in [("H", hill_h()), ("V", hill_v())] {
        rt.println(title)?;
        rt.print(spans_text(heap, &course)?)?;
    }
    for (title, course, edits) in [
        ("edits of H", hill_h(), &tables::OF_H[..]),
        ("edits of no gates", Course::new(), &tables::OF_NO_GATES[..]),
        (
            "edits of 200 gates",
            full_course(),
            &tables::OF_200_GATES[..],
        ),
    ] {
        rt.println(title)?;
        for edit in edits {
            rt.print(edit_text(heap, &course, *edit)?)?;
        }
    }
    Ok(())
}
