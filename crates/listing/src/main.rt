// Lists the trace that standard input holds: a line for each slot, and a total.
#![tactic(auto)]

use arrayvec::ArrayString;

fn main(rt: HostRuntime) {
    let mut input = [0; lines::INPUT];
    let Ok(size) = files::read_input(&rt, &mut input) else {
        return;
    };
    let mut text = ArrayString::new();
    lines::list(&input, size, &mut text);
    let _ = files::print(&rt, text.as_bytes());
}
