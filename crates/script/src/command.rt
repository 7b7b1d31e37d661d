// What a line of a script asks for.
use sched::Call;

#[derive(Clone, Copy)]
pub enum Command {
    Call(Call),
    // so many ticks
    Tick(u32),
    // how many ticks each task has had
    Had,
    // a seed, and how many calls and ticks it chooses
    Any(u32, u32),
}
