// The texts of what is answered, without the newline. They aren't `Display`, which would be no plainer: each would want a
// type around it, as `Answer` is another crate's, and `write!` hands back a `Result` where a page is known to have room.
// Of a page with room for a line each says the text and that room is left: the two go apart where a line has parts. Whose a tick
// is and who runs in it come as the trait `World` tells them.
ghost use Rattle.std.specs.Prelude.{◌+◌, ◌<◌, ◌≤◌, ◌++◌, length, decimal};
ghost use Rattle.script.specs.Printed.{pending, Wrote, Roomy};
ghost use Rattle.script.specs.Text.{answer_text, tick_text, count_text, had_text, bad_line_text};

use super::Page;
use sched::Answer;

impl Page {
    pub fn answer(&mut self, answer: Answer)
        ensures text { Roomy self.old → Wrote self.old self.new (answer_text answer) }
        ensures room { Roomy self.old → length (pending self.new) < 65536 }
    {
        match answer {
            Answer::Done => self.text(b"done"),
            Answer::Id(i) => self.text_number(b"id ", u64::from(i)),
            Answer::No(number) => self.text_number(b"no ", u64::from(number)),
        }
    }

    // Whose a tick is, and who runs in it.
    pub fn tick(&mut self, whose: Option<u32>, runs: u32)
        ensures text { Roomy self.old → Wrote self.old self.new (tick_text whose runs) }
        ensures room { Roomy self.old → length (pending self.new) < 65536 }
    {
        match whose {
            Some(i) => {
                self.number(u64::from(i));
                if runs != i {
                    self.text_number(b" runs ", u64::from(runs));
                }
            }
            None => self.text(b"-"),
        }
    }

    // How many ticks each task has had, by place.
    pub fn had(&mut self, counts: &[Option<u64>])
        requires { length counts.now ≤ 64 }
        ensures text { Roomy self.old → Wrote self.old self.new (had_text counts.now) }
        ensures room { Roomy self.old → length (pending self.new) < 65536 }
    {
        self.text(b"had");
        for count in counts {
            self.count(*count);
        }
    }

    // A line that is no command, by its number.
    pub fn bad_line(&mut self, number: u64)
        ensures text { Roomy self.old → Wrote self.old self.new (bad_line_text number) }
        ensures room { Roomy self.old → length (pending self.new) < 65536 }
    {
        self.text_number(b"line ", number);
        self.text(b"?");
    }

    fn count(&mut self, count: Option<u64>)
        ensures text { length (pending self.old) + 21 ≤ 65536 → Wrote self.old self.new (count_text count) }
        ensures most { length (pending self.old) + 21 ≤ 65536 → length (pending self.new) ≤ length (pending self.old) + 21 }
    {
        if let Some(n) = count {
            self.put(b' ');
            self.number(n);
        }
    }

    fn text_number(&mut self, text: &[u8], n: u64)
        ensures text { length (pending self.old) + length text.now + 20 ≤ 65536 → Wrote self.old self.new (text.now ++ decimal n) }
        ensures most { length (pending self.old) + length text.now + 20 ≤ 65536 → length (pending self.new) ≤ length (pending self.old) + length text.now + 20 }
    {
        self.text(text);
        self.number(n);
    }
}
