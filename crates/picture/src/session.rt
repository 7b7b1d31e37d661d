// Plays a script for someone who looks on: after each call, and at each tick. No player with a listener: what the player promises
// is what it prints, and over any listener its contracts would say no more than that it listens.
use crate::moment::Moment;
use sched::{Answer, Call, Next, Scheduler};
use script::command::Command;
use script::generator::Generator;
use script::line::Line;

pub trait Viewer {
    // It has seen enough.
    fn is_done(&self) -> bool;

    fn answered(&mut self, call: Call, answer: Answer);

    fn tick(&mut self, moment: &Moment);
}

#[derive(Drop)]
struct Session<'a, V: Viewer> {
    scheduler: Scheduler,
    line: Line,
    viewer: &'a mut V,
}

// Plays the whole script, or as much of it as the viewer wants to see.
pub fn play<V: Viewer>(script: &[u8], viewer: &mut V) {
    let mut session = Session {
        scheduler: Scheduler::new(),
        line: Line::new(),
        viewer,
    };
    for byte in script {
        if session.viewer.is_done() {
            return;
        }
        session.take(*byte);
    }
    if session.line.is_begun() {
        session.end_line();
    }
}

impl<V: Viewer> Session<'_, V> {
    fn take(&mut self, byte: u8) {
        if byte == b'\n' {
            self.end_line();
        } else {
            self.line.push(byte);
        }
    }

    // A line that is no command is answered by `stage`, and changes nothing.
    fn end_line(&mut self) {
        let asked = self.line.command();
        self.line = Line::new();
        if let Some(command) = asked {
            self.perform(command);
        }
    }

    fn perform(&mut self, command: Command) {
        match command {
            Command::Call(call) => self.call(call),
            Command::Tick(many) => self.ticks(many),
            Command::Had => {}
            Command::Any(seed, many) => self.any(seed, many),
        }
    }

    fn ticks(&mut self, many: u32) {
        for _ in 0..many {
            if self.viewer.is_done() {
                return;
            }
            self.tick();
        }
    }

    fn any(&mut self, seed: u32, many: u32) {
        let mut generator = Generator::new(seed);
        for _ in 0..many {
            if self.viewer.is_done() {
                return;
            }
            match generator.next_step() {
                Next::Calls(call) => self.call(call),
                Next::Tick => self.tick(),
                Next::Over => {}
            }
        }
    }

    fn call(&mut self, call: Call) {
        let answer = self.scheduler.call(call);
        self.viewer.answered(call, answer);
    }

    fn tick(&mut self) {
        let moment = Moment::next(&mut self.scheduler);
        self.viewer.tick(&moment);
    }
}
