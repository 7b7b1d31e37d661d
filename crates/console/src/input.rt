// Input, piece by piece.
ghost use Rattle.std.specs.Prelude.{IfSome, OnOk};
ghost use Rattle.console.specs.Pieces.{TakenWhole};

use anyhow::bail;
use std::io::Read;

// Hands on what is read, one piece after another, until there is no more. It stops at the first error, whether of a read
// or of whoever takes the pieces.
pub fn each_piece<R: Read, F: FnMut(&[u8]) -> anyhow::Result<()>>(
    input: &mut R,
    mut take: F,
) -> anyhow::Result<()>
    requires { F.IsAlwaysCallable take }
    ensures { OnOk result (IfSome (R.remaining input.old) (TakenWhole F.FnMut take)) }
{
    let mut buffer = [0u8; 65536];
    for _k in 0..u64::MAX {
        let n = input.read(&mut buffer)?;
        if n == 0 {
            return Ok(());
        }
        take(&buffer[..n])?;
    }
    bail!("the input has no end")
}
