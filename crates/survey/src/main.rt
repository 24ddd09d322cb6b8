// Surveys the trace that standard input holds: smallest, largest and mean of its pressures, and the counts that say whether to trust them.
#![tactic(auto)]

// The lines are those of `listing`, but for the text: a function for both would take it as a closure, and be no plainer.
fn main(rt: HostRuntime) {
    let mut input = [0; lines::INPUT];
    let Ok(size) = files::read_input(&rt, &mut input) else {
        return;
    };
    let text = lines::report(&input, size);
    let _ = files::print(&rt, text.as_bytes());
}
