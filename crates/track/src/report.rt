ghost use Rattle.std.specs.Prelude.{◌≡◌};
ghost use Rattle.track.specs.Report.{report_from};

// A report as it comes: a cell where radar saw it, not judged yet.
#[derive(Clone, Copy, Debug, PartialEq, Eq)]
pub struct Report {
    pub id: i32,
    pub x: i32,
    pub y: i32,
    pub vx: i32,
    pub vy: i32,
    pub minute: i32,
    pub expiry: i32,
}

// The report of plain numbers, as they come over the edge.
pub fn report_from(id: i32, x: i32, y: i32, vx: i32, vy: i32, minute: i32, expiry: i32) -> Report
    ensures { result ≡ report_from id x y vx vy minute expiry }
{
    Report {
        id,
        x,
        y,
        vx,
        vy,
        minute,
        expiry,
    }
}
