// Standard output, as a sink.
use script::sink::{Sink, Stopped};

#[derive(Drop)]
pub struct Output<'a>(pub &'a HostRuntime);

impl Sink for Output<'_> {
    // Nothing is known of what the system writes.
    ghost took = { λ _ _. Unit {0} };

    fn take(&mut self, lines: &[u8]) -> Result<(), Stopped> {
        // `map_err`, since both errors are other crates' types.
        self.0.stdout().write_all(lines).map_err(|_| Stopped)
    }
}
