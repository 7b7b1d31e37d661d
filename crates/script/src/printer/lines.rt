// The lines that are printed. One function with a closure for what a line tells would be no plainer: its clause would have to say
// of the closure what each of these says of its text.
ghost use Rattle.std.specs.Prelude.{◌≡◌, ℕ, ◌≤◌, true, List, [], length, is_ok};
ghost use Rattle.script.specs.Printed.{Printed, Prints, pending};
ghost use Rattle.script.specs.Text.{answer_text, tick_text, had_text, bad_line_text, as_line};

use super::Printer;
use crate::page::Page;
use crate::sink::{Sink, Stopped};
use sched::Answer;

impl Printer {
    pub fn new() -> Printer
        ensures { pending result.page ≡ [] }
    {
        Printer { page: Page::new() }
    }

    // All that was printed is handed on.
    pub fn flush<S: Sink>(&mut self, out: &mut S) -> Result<(), Stopped>
        ensures empty { pending self.new.page ≡ [] }
        ensures printed { is_ok result ≡ true → (xs : List ℕ) → Printed S.Sink.took out.old self.old.page xs → Printed S.Sink.took out.new self.new.page xs }
    {
        self.page.flush(out)
    }

    pub fn answer<S: Sink>(&mut self, answer: Answer, out: &mut S) -> Result<(), Stopped>
        ensures { is_ok result ≡ true → Prints S.Sink.took out.old self.old.page out.new self.new.page (as_line (answer_text answer)) }
    {
        self.page.answer(answer);
        self.page.end_line(out)
    }

    // Whose a tick is, and who runs in it.
    pub fn tick<S: Sink>(
        &mut self,
        whose: Option<u32>,
        runs: u32,
        out: &mut S,
    ) -> Result<(), Stopped>
        ensures { is_ok result ≡ true → Prints S.Sink.took out.old self.old.page out.new self.new.page (as_line (tick_text whose runs)) }
    {
        self.page.tick(whose, runs);
        self.page.end_line(out)
    }

    // How many ticks each task has had, by place. A slice, since `&[_; 64]` would turn away whoever has fewer places.
    pub fn had<S: Sink>(&mut self, counts: &[Option<u64>], out: &mut S) -> Result<(), Stopped>
        requires { length counts.now ≤ 64 }
        ensures { is_ok result ≡ true → Prints S.Sink.took out.old self.old.page out.new self.new.page (as_line (had_text counts.now)) }
    {
        self.page.had(counts);
        self.page.end_line(out)
    }

    // A line that is no command, by its number.
    pub fn bad_line<S: Sink>(&mut self, number: u64, out: &mut S) -> Result<(), Stopped>
        ensures { is_ok result ≡ true → Prints S.Sink.took out.old self.old.page out.new self.new.page (as_line (bad_line_text number)) }
    {
        self.page.bad_line(number);
        self.page.end_line(out)
    }
}
