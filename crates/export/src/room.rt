// Lines written into a lent slice, after what was written there before.
ghost use Rattle.std.specs.Prelude.{◌≡◌, ◌+◌, ◌≤◌, ◌++◌, length, take, drop, MatchOption};
ghost use Rattle.export.specs.Room.{Grew, Full};

// Where the lines end that are written from there on; `None`, and nothing written, if there is no room for all of them.
pub(crate) fn write_after(room: &mut [u8], at: usize, lines: &[u8]) -> Option<usize>
    ensures { MatchOption result (Full room.old room.new at lines.now) (λ end. Grew room.old room.new at lines.now end) }
{
    let end = at.checked_add(lines.len())?;
    if end > room.len() {
        return None;
    }
    write_at(room, at, lines);
    Some(end)
}

// Writes the bytes from there on: one by one, since a copy of a slice would want `memmove` of whoever links the archive.
fn write_at(room: &mut [u8], at: usize, bytes: &[u8])
    requires { at + length bytes.now ≤ length room.old }
    ensures wrote { take (at + length bytes.now) room.new ≡ take at room.old ++ bytes.now }
    ensures rest { drop (at + length bytes.now) room.new ≡ drop (at + length bytes.now) room.old }
{
    for k in 0..bytes.len() {
        room[at + k] = bytes[k];
    }
}
