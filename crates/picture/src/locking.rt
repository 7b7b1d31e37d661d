// Locks: who has one, in the lock's row; who waits for one, under the boxes of the task.
use crate::canvas::Canvas;
use crate::drawing::Layer;
use crate::moment::Moment;
use crate::runs::{Run, Shown};
use crate::shapes::{Area, digits};
use quantities::ids::{LockId, TaskId};
use script::sink::Sink;
use std::fmt;

#[derive(Drop)]
pub struct Locking {
    // by task, the lock that it waits for
    waiting: [Shown<LockId>; 64],
    // by lock, the task that has it
    held: [Shown<TaskId>; 64],
}

impl Locking {
    pub fn new() -> Self {
        Locking {
            waiting: [Shown::nothing(); 64],
            held: [Shown::nothing(); 64],
        }
    }
}

impl Layer for Locking {
    fn turn<S: Sink>(&mut self, canvas: &mut Canvas<S>, moment: Option<&Moment>) -> fmt::Result {
        for (i, m) in TaskId::all().zip(LockId::all()) {
            let awaited = moment.and_then(|moment| moment.place(i).waits);
            if let Some(run) = self.waiting[i.index()].turn(awaited, canvas.at) {
                canvas.waits(i, run)?;
            }
            let owner = moment.and_then(|moment| moment.owner(m));
            if let Some(run) = self.held[m.index()].turn(owner, canvas.at) {
                canvas.holds(m, run)?;
            }
        }
        Ok(())
    }
}

impl<S: Sink> Canvas<'_, S> {
    fn waits(&mut self, i: TaskId, run: Run<LockId>) -> fmt::Result {
        let stretch = run.stretch;
        let lock = u32::from(run.what);
        let line = self
            .sheet
            .task(stretch.start(), i)
            .below(self.sheet.scale.row().waiting);
        let width = stretch.width(self.sheet.scale);
        self.pen.path("v", format_args!("{line}h{width}"))?;
        // as many letters and one for the edges
        let (before, letters) = match width {
            110.. => ("waits for lock ", 16),
            56.. => ("lock ", 6),
            22.. => ("", 1),
            _ => return Ok(()),
        };
        let middle = line.right(width / 2);
        self.pen
            .plate(middle, digits(lock).saturating_add(letters))?;
        self.pen
            .words("q", middle.below(3), format_args!("{before}{lock}"))
    }

    fn holds(&mut self, m: LockId, run: Run<TaskId>) -> fmt::Result {
        let stretch = run.stretch;
        let owner = u32::from(run.what);
        let scale = self.sheet.scale;
        let row = self.sheet.lock(stretch.start(), m);
        let area = Area {
            corner: row.right(1).below(3),
            width: stretch.width(scale).saturating_sub(2),
            height: scale.row().lock.saturating_sub(6),
        };
        self.pen.path("m", area)?;
        let base = row
            .right(stretch.width(scale) / 2)
            .below(area.height.saturating_add(1));
        match area.width {
            70.. => self
                .pen
                .words("a", base, format_args!("task {owner} has it")),
            14.. => self.pen.words("a", base, owner),
            _ => Ok(()),
        }
    }
}
