ghost use Rattle.std.specs.Prelude.{◌≡◌};
ghost use Rattle.whole.specs.Within.{Within};
ghost use Rattle.track.specs.Numbers.{IsPosition, IsVelocity, IsEdge};
ghost use Rattle.track.specs.Query.{EdgesInRange};
ghost use Rattle.track.specs.Inner.Cut.{starts_at, ends_at, cut_to, lives_in};
ghost use Rattle.track.specs.Inner.Decides.{gap_line, turned_line, along_to};
ghost use Rattle.track.specs.Inner.Small.{Small, SmallStraight, RowInRange};

use crate::queries::Edges;

// The instants from lo/lod to hi/hid; empty where the one is after the other.
#[derive(Clone, Copy, Debug, PartialEq, Eq)]
pub struct Interval {
    pub lo: i64,
    pub lod: i64,
    pub hi: i64,
    pub hid: i64,
}

// The line a + b τ.
#[derive(Clone, Copy, Debug, PartialEq, Eq)]
pub struct Straight {
    pub a: i64,
    pub b: i64,
}

// By how much an edge that goes from `first` at the start to `second` at the end is above what is at
// `at` at minute 0 and goes by `v`, multiplied by the span.
fn gap(first: i32, second: i32, at: i32, v: i32, start: i64, span: i64) -> Straight
    requires { (IsPosition first) × (IsPosition second) × (IsEdge at) × (IsVelocity v) × (Within 1440 start) × (Within 1440 span) }
    ensures { result ≡ gap_line start span first second at v }
{
    let climb = i64::from(second) - i64::from(first);
    Straight {
        a: span * (i64::from(first) - i64::from(at)) - climb * start,
        b: climb - span * i64::from(v),
    }
}

impl Straight {
    // The line that is above 0 where this one is below.
    fn turned(self) -> Straight
        requires { SmallStraight self }
        ensures { result ≡ turned_line self }
    {
        Straight {
            a: -self.a,
            b: -self.b,
        }
    }
}

impl Interval {
    // The instants of the interval from n/d on, which is not before its low end.
    fn from(self, n: i64, d: i64) -> Interval
        ensures { result ≡ starts_at self n d }
    {
        Interval {
            lo: n,
            lod: d,
            ..self
        }
    }

    // The instants of the interval until n/d, which is not after its high end.
    fn until(self, n: i64, d: i64) -> Interval
        ensures { result ≡ ends_at self n d }
    {
        Interval {
            hi: n,
            hid: d,
            ..self
        }
    }

    // The part of the interval in which the line is not negative.
    fn cut(self, line: Straight) -> Interval
        requires { (Small self) × (SmallStraight line) }
        ensures { result ≡ cut_to self line.a line.b }
    {
        let a = line.a;
        let b = line.b;
        if 0 < b {
            if self.lo * b + a * self.lod < 0 {
                self.from(-a, b)
            } else {
                self
            }
        } else if b < 0 {
            if a * self.hid + b * self.hi < 0 {
                self.until(a, -b)
            } else {
                self
            }
        } else if a < 0 {
            Interval {
                lo: 1,
                lod: 1,
                hi: 0,
                hid: 1,
            }
        } else {
            self
        }
    }

    // The part of the interval in which the row touches the edges.
    pub fn along(self, e: Edges, row: [i32; 4], start: i64, span: i64) -> Interval
        requires { (Small self) × (EdgesInRange e) × (RowInRange row) × (Within 1440 start) × (Within 1440 span) }
        ensures { result ≡ along_to start span e row self }
    {
        let under = gap(e.high, e.high2, row[0], row[2], start, span);
        let over = gap(e.low, e.low2, row[1], row[3], start, span);
        self.cut(under).cut(over.turned())
    }

    // Whether an instant of the interval is before the expiry. Its low end is the earliest: if any is, that one is.
    pub fn lives(self, expiry: i32) -> bool
        requires { (Small self) × (Within 1440 expiry) }
        ensures { result ≡ lives_in self expiry }
    {
        if self.lo * self.hid <= self.hi * self.lod {
            self.lo < i64::from(expiry) * self.lod
        } else {
            false
        }
    }
}
