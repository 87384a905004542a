// The area that bounds cover over the coming minutes: the integral of the paper on the TPR-tree, §3.3, formula 1.
ghost use Rattle.std.specs.Prelude.{◌≡◌, pos, ◌+ℤ◌, ◌-ℤ◌, ◌*ℤ◌, ◌≤ℤ◌, ◌^◌};
ghost use Rattle.tree_choice.specs.Area.{held_to, extent_of, no_extent, both_extents, width_of, growth_of, place_of, velocity_of, cover_of, no_cover, both_covers, area_integral};

use track::meeting::Bounds;

// The minutes that a choice looks ahead.
const HORIZON: i64 = 30;

// An edge in a sound table is at no minute farther from 0 than 2,311,840 + 512 · 1,440, and none goes faster.
// Of other words, what is beyond is held to these two, so that the products fit as well.
const FARTHEST: i64 = 3049120;

const FASTEST: i64 = 512;

// What is covered on an axis at a minute, and how fast its edges go.
#[derive(Clone, Copy)]
pub struct Extent {
    pub low: i64,
    pub high: i64,
    pub slowest: i64,
    pub fastest: i64,
}

// What is covered on both axes.
#[derive(Clone, Copy)]
pub struct Cover {
    pub x: Extent,
    pub y: Extent,
}

// By how much the high number is above the low one, each held to the bound.
fn apart(low: i64, high: i64, bound: i64) -> i64
    requires { (pos 0 ≤ℤ bound) × (bound ≤ℤ pos (2 ^ 23)) }
    ensures { result ≡ held_to bound high -ℤ held_to bound low }
{
    high.clamp(-bound, bound) - low.clamp(-bound, bound)
}

// Twice the middle of the two, each held to the bound.
fn twice_middle(low: i64, high: i64, bound: i64) -> i64
    requires { (pos 0 ≤ℤ bound) × (bound ≤ℤ pos (2 ^ 23)) }
    ensures { result ≡ held_to bound low +ℤ held_to bound high }
{
    low.clamp(-bound, bound) + high.clamp(-bound, bound)
}

// Where an edge that is at `at` at minute 0 and goes by v is at the minute.
fn edge_at(at: i32, v: i32, minute: i32) -> i64
    ensures { result ≡ at +ℤ v *ℤ minute }
{
    i64::from(at) + i64::from(v) * i64::from(minute)
}

impl Extent {
    // What the row covers at the minute.
    pub fn of(row: [i32; 4], minute: i32) -> Extent
        ensures { result ≡ extent_of row minute }
    {
        Extent {
            low: edge_at(row[0], row[2], minute),
            high: edge_at(row[1], row[3], minute),
            slowest: i64::from(row[2]),
            fastest: i64::from(row[3]),
        }
    }

    fn nothing() -> Extent
        ensures { result ≡ no_extent }
    {
        Extent {
            low: FARTHEST,
            high: -FARTHEST,
            slowest: FASTEST,
            fastest: -FASTEST,
        }
    }

    // The least extent that covers both from the minute on.
    fn with(self, other: Extent) -> Extent
        ensures { result ≡ both_extents self other }
    {
        Extent {
            low: self.low.min(other.low),
            high: self.high.max(other.high),
            slowest: self.slowest.min(other.slowest),
            fastest: self.fastest.max(other.fastest),
        }
    }

    // Edges count, so one place is 1 wide: without that, bounds on a line would all have the area 0, however long they are.
    fn width(self) -> i64
        ensures { result ≡ width_of self }
    {
        apart(self.low, self.high, FARTHEST) + 1
    }

    // By how much the width grows in a minute.
    fn growth(self) -> i64
        ensures { result ≡ growth_of self }
    {
        apart(self.slowest, self.fastest, FASTEST)
    }

    // Twice the middle.
    pub fn place(self) -> i64
        ensures { result ≡ place_of self }
    {
        twice_middle(self.low, self.high, FARTHEST)
    }

    // Twice the middle of the velocities.
    pub fn velocity(self) -> i64
        ensures { result ≡ velocity_of self }
    {
        twice_middle(self.slowest, self.fastest, FASTEST)
    }
}

impl Cover {
    // What covers nothing: with it, any other is what it was.
    pub fn nothing() -> Cover
        ensures { result ≡ no_cover }
    {
        Cover {
            x: Extent::nothing(),
            y: Extent::nothing(),
        }
    }

    // What the bounds cover at the minute.
    pub fn of(b: Bounds, minute: i32) -> Cover
        ensures { result ≡ cover_of b minute }
    {
        Cover {
            x: Extent::of(b[0], minute),
            y: Extent::of(b[1], minute),
        }
    }

    // What covers both.
    pub fn with(self, other: Cover) -> Cover
        ensures { result ≡ both_covers self other }
    {
        Cover {
            x: self.x.with(other.x),
            y: self.y.with(other.y),
        }
    }

    // Six times the integral of the area (a + bt)(c + dt) over the horizon H, which is acH + (ad + bc)H²/2 + bdH³/3: whole for every H.
    pub fn integral(self) -> i64
        ensures { result ≡ area_integral self }
    {
        let a = self.x.width();
        let b = self.x.growth();
        let c = self.y.width();
        let d = self.y.growth();
        let start = 6 * HORIZON * (a * c);
        let first = 3 * HORIZON * HORIZON * (a * d + b * c);
        let second = 2 * HORIZON * HORIZON * HORIZON * (b * d);
        start + first + second
    }
}
