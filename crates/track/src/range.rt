ghost use Rattle.whole.specs.Tells.{Tells};
ghost use Rattle.std.specs.Prelude.{pos, nat_abs, ◌≤ℤ◌};
ghost use Rattle.whole.specs.Within.{Within};
ghost use Rattle.track.specs.Numbers.{IsIdentifier, IsPosition, IsVelocity, IsKept};

// The most cells that a table may be for.
pub const MOST_CELLS: usize = 256;

// Whether z lies within the bound either side of 0.
fn within(z: i32, bound: i32) -> bool
    requires { (pos 0 ≤ℤ bound) × (bound ≤ℤ pos 1000000) }
    ensures { Tells result (Within (nat_abs bound) z) }
{
    (-bound..=bound).contains(&z)
}

pub fn is_identifier(id: i32) -> bool
    ensures { Tells result (IsIdentifier id) }
{
    1 <= id
}

pub fn is_position(z: i32) -> bool
    ensures { Tells result (IsPosition z) }
{
    within(z, 100000)
}

pub fn is_velocity(v: i32) -> bool
    ensures { Tells result (IsVelocity v) }
{
    within(v, 512)
}

pub fn is_kept(z: i32) -> bool
    ensures { Tells result (IsKept z) }
{
    within(z, 837280)
}
