// Prints whole lines. Between two of them the page has room for one more, whichever.
ghost use Rattle.script.specs.Printed.{Roomy};

use crate::page::Page;

mod lines;

#[derive(Drop)]
pub struct Printer {
    page: Page,
    ghost room: { Roomy page },
}
