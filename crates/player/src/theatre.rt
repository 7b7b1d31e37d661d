// A scheduler, and how many ticks each of its tasks has had since it was made.
ghost use Rattle.std.specs.Prelude.{◌≡◌, ℕ, ◌≤◌, T, length, replicate, None, slice_index_or, slice_set};
ghost use Rattle.sched.specs.House.{House, empty, calls, may_run, after};
ghost use Rattle.sched.specs.Stores.{Holds};
ghost use Rattle.player.specs.Evening.{had_after, had_tick};

use sched::{Answer, Call, Scheduler};

#[derive(Drop)]
pub struct Theatre {
    scheduler: Scheduler,
    // by place, where there is a task
    had: [Option<u64>; 64],
    ghost sized: { length had ≡ 64 },
}

impl Theatre {
    pub fn new() -> Theatre
        ensures stands { Holds result.scheduler empty }
        ensures had { result.had ≡ replicate 64 None }
    {
        Theatre {
            scheduler: Scheduler::new(),
            had: [None; 64],
        }
    }

    // A call, and its answer: the rules' own.
    pub fn call(&mut self, call: Call) -> Answer
        ensures answered { (h : House) → Holds self.old.scheduler h → (result ≡ (calls call h).answer) × Holds self.new.scheduler (calls call h).house }
        ensures had { self.new.had ≡ had_after call result self.old.had }
    {
        let answer = self.scheduler.call(call);
        match answer {
            Answer::Id(i) => self.set_had(i, Some(0)),
            Answer::Done => {
                if let Call::End(i) = call {
                    self.set_had(i, None);
                }
            }
            Answer::No(_) => {}
        }
        answer
    }

    // Whose the next tick is, and who runs in it, as `hours` hands them on: it counts for whose it is.
    pub fn tick(&mut self) -> (Option<u32>, u32)
        ensures may { (h : House) → Holds self.old.scheduler h → T (may_run h result.0 result.1) × Holds self.new.scheduler (after h result.0) }
        ensures had { self.new.had ≡ had_tick result.0 self.old.had }
    {
        let (whose, runs) = self.scheduler.pick();
        if let Some(i) = whose {
            if let Some(n) = self.had_by(i) {
                self.set_had(i, Some(n.saturating_add(1)));
            }
        }
        (whose, runs)
    }

    // How many ticks the tasks have had, by place.
    pub fn counts(&self) -> &[Option<u64>]
        ensures value { result.now ≡ self.now.had }
        ensures size { length result.now ≤ 64 }
    {
        &self.had
    }

    // How many ticks the task at this place has had, if there is one. `as`, since the library has no `From` from `u32` to `usize`.
    fn had_by(&self, i: u32) -> Option<u64>
        ensures { result ≡ slice_index_or self.now.had i None }
    {
        self.had.get(i as usize).copied().flatten()
    }

    // By an index, since the proof through `get_mut` didn't close: what is written through its loan isn't known of the array.
    fn set_had(&mut self, i: u32, had: Option<u64>)
        ensures wrote { self.new.had ≡ slice_set self.old.had i had }
        ensures same { self.new.scheduler ≡ self.old.scheduler }
    {
        if i < 64 {
            self.had[i as usize] = had;
        }
    }
}
