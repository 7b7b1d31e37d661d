// Refusals beside each other on a few lanes, so that none covers another.
use layout::Scale;

#[derive(Clone, Copy, Default)]
pub struct Lanes {
    // where the last refusal of each lane ends
    ends: [u32; 3],
}

impl Lanes {
    // The lane in which a refusal before this column finds room, if there is one.
    pub fn place(&mut self, scale: Scale, column: u32) -> Option<u32> {
        let x = scale.x(column);
        let width = if scale.row().small { 14 } else { 30 };
        let lane = self.ends.iter().position(|end| *end <= x)?;
        self.ends[lane] = x.saturating_add(width);
        // below 3; a conversion that may fail would say less
        Some(lane as u32)
    }
}
