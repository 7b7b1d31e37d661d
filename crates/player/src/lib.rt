// Plays a script as it comes in, and writes the answers.
// Contracts speak of each script and each text that a sink can have taken, since of the system's nothing is known.
#![tactic(auto)]

ghost use Rattle.std.specs.Prelude.{◌≡◌, ℕ, ◌+◌, true, List, [], ◌∷◌, ◌++◌, is_ok, Some};
ghost use Rattle.script.specs.Any.{drawn, step};
ghost use Rattle.script.specs.Grammar.{command_of};
ghost use Rattle.script.specs.Printed.{Printed, pending};
ghost use Rattle.player.specs.Evening.{Evening, start, lined};
ghost use Rattle.player.specs.Standing.{At, Choosing, Chose, Ticked, Performed, Playing, Played};

mod theatre;

use sched::Next;
use script::command::Command;
use script::generator::Generator;
use script::line::Line;
use script::printer::Printer;
use script::sink::{Sink, Stopped};
use theatre::Theatre;

#[derive(Drop)]
pub struct Player {
    theatre: Theatre,
    printer: Printer,
    line: Line,
    // how many lines were ended
    lines: u64,
}

// Plays a whole script: the sink takes what the rules allow for it.
pub fn play<S: Sink>(script: &[u8], out: &mut S) -> Result<(), Stopped>
    ensures { is_ok result ≡ true → (before : List ℕ) → S.Sink.took out.old before → Played S.Sink.took out.new before script.now }
{
    let mut player = Player::new();
    player.feed(script, out)?;
    player.finish(out)
}

impl Player {
    pub fn new() -> Player
        ensures at { At result start [] }
        ensures empty { pending result.printer.page ≡ [] }
    {
        Player {
            theatre: Theatre::new(),
            printer: Printer::new(),
            line: Line::new(),
            lines: 0,
        }
    }

    // More of the script. The answers to all of its whole lines have been handed on when it returns.
    pub fn feed<S: Sink>(&mut self, bytes: &[u8], out: &mut S) -> Result<(), Stopped>
        ensures empty { is_ok result ≡ true → pending self.new.printer.page ≡ [] }
        ensures playing { is_ok result ≡ true → (before script : List ℕ) → Playing S.Sink.took self.old out.old before script → Playing S.Sink.took self.new out.new before (script ++ bytes.now) }
    {
        for byte in bytes {
            self.take(*byte, out)?;
        }
        self.printer.flush(out)
    }

    // One byte more.
    fn take<S: Sink>(&mut self, byte: u8, out: &mut S) -> Result<(), Stopped>
        ensures { is_ok result ≡ true → (before script : List ℕ) → Playing S.Sink.took self.old out.old before script → Playing S.Sink.took self.new out.new before (script ++ (byte ∷ [])) }
    {
        if byte == b'\n' {
            return self.end_line(out);
        }
        self.line.push(byte);
        Ok(())
    }

    // The script is over; a last line may lack its newline.
    pub fn finish<S: Sink>(&mut self, out: &mut S) -> Result<(), Stopped>
        ensures { is_ok result ≡ true → (before script : List ℕ) → Playing S.Sink.took self.old out.old before script → Played S.Sink.took out.new before script }
    {
        if !self.line.is_begun() {
            return self.printer.flush(out);
        }
        self.end_line(out)?;
        self.printer.flush(out)
    }

    fn end_line<S: Sink>(&mut self, out: &mut S) -> Result<(), Stopped>
        ensures { is_ok result ≡ true → (e : Evening) (l xs : List ℕ) → At self.old e l → Printed S.Sink.took out.old self.old.printer.page xs → Performed S.Sink.took (lined e) l self.new out.new [] xs }
    {
        self.lines = self.lines.saturating_add(1);
        let asked = self.line.command();
        self.line = Line::new();
        match asked {
            Some(command) => self.perform(command, out),
            None => self.printer.bad_line(self.lines, out),
        }
    }

    fn perform<S: Sink>(&mut self, command: Command, out: &mut S) -> Result<(), Stopped>
        ensures { is_ok result ≡ true → (e : Evening) (l rest xs : List ℕ) → At self.old e rest → command_of l ≡ Some command → Printed S.Sink.took out.old self.old.printer.page xs → Performed S.Sink.took e l self.new out.new rest xs }
    {
        match command {
            Command::Call(call) => {
                let answer = self.theatre.call(call);
                self.printer.answer(answer, out)
            }
            Command::Tick(many) => self.ticks(many, out),
            Command::Had => self.printer.had(self.theatre.counts(), out),
            Command::Any(seed, many) => {
                self.any(seed, many);
                Ok(())
            }
        }
    }

    fn ticks<S: Sink>(&mut self, many: u32, out: &mut S) -> Result<(), Stopped>
        ensures { is_ok result ≡ true → (e : Evening) (rest xs : List ℕ) → At self.old e rest → Printed S.Sink.took out.old self.old.printer.page xs → Ticked S.Sink.took many e self.new out.new rest xs }
    {
        for _k in 0..many {
            let (whose, runs) = self.theatre.tick();
            self.printer.tick(whose, runs, out)?;
        }
        Ok(())
    }

    // Nothing is written for these.
    fn any(&mut self, seed: u32, many: u32)
        ensures chose { (e : Evening) (rest : List ℕ) → At self.old e rest → Chose seed many e self.new rest }
        ensures silent { self.new.printer ≡ self.old.printer }
    {
        let mut generator = Generator::new(seed);
        for _k in 0..many {
            let chosen = generator.next_step();
            self.go(chosen);
        }
    }

    fn go(&mut self, chosen: Next)
        ensures goes { (seed n x y : ℕ) (e : Evening) (rest : List ℕ) → Choosing seed n x e self.old rest → drawn chosen y ≡ step x → Choosing seed (n + 1) y e self.new rest }
        ensures silent { self.new.printer ≡ self.old.printer }
    {
        match chosen {
            Next::Calls(call) => {
                let _answer = self.theatre.call(call);
            }
            Next::Tick => {
                let _tick = self.theatre.tick();
            }
            Next::Over => {}
        }
    }
}
