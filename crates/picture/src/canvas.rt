// What is drawn on: the sheet says where things are, the pen writes them.
use crate::pen::Pen;
use crate::sheet::Sheet;
use layout::Spot;
use script::sink::Sink;

#[derive(Drop)]
pub struct Canvas<'a, S: Sink> {
    pub sheet: Sheet,
    pub pen: Pen<'a, S>,
    // where the picture has come to
    pub at: Spot,
}

impl<'a, S: Sink> Canvas<'a, S> {
    pub fn new(sheet: Sheet, out: &'a mut S) -> Self {
        Canvas {
            sheet,
            pen: Pen::new(out),
            at: Spot { band: 0, column: 0 },
        }
    }
}
