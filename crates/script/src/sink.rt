// Where text goes.
ghost use Rattle.std.specs.Prelude.{◌≡◌, ℕ, true, List, ◌++◌, is_ok};

use thiserror::Error;

// Takes what is written. `Err` says that it can't be written any more.
pub trait Sink {
    // All that it took so far can be these bytes. A sink of which nothing is known, as the system's, holds this of any.
    ghost took: { Self → List ℕ → Type 0 };

    fn take(&mut self, lines: &[u8]) -> Result<(), Stopped>
        ensures { is_ok result ≡ true → (xs : List ℕ) → took self.old xs → took self.new (xs ++ lines.now) };
}

// The text can't be written any more.
#[derive(Clone, Copy, Debug, Error)]
#[error("the output can't be written")]
pub struct Stopped;
