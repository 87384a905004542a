// Words and numbers spelt into a lent buffer.
ghost use Rattle.std.specs.Prelude.{◌≡◌, ◌+◌, ◌^◌, ◌≤◌, length};
ghost use Rattle.whole.specs.Within.{Within};
ghost use Rattle.decimal.specs.Decimal.{Decimal, SignedDecimal};
ghost use Rattle.decimal.specs.Inner.PutBytes.{EndsBy, Put, TheseBytes};

fn digit_byte(d: usize) -> u8
    requires { d ≤ 9 }
    ensures { result ≡ 48 + d }
{
    b'0' + d as u8
}

// Each writer takes the place of its first byte and answers the place past its last.
pub fn put_text(out: &mut [u8], at: usize, word: &[u8]) -> usize
    requires { at + length word.now ≤ length out.old }
    ensures { Put (TheseBytes word.now) out.old at out.new result }
{
    words::put_run(out, at, word);
    at + word.len()
}

// The library writes a number's digits to a writer, and this is a buffer with a place: so by recursion, since the first is written first.
pub fn put_decimal(out: &mut [u8], at: usize, n: usize) -> usize
    requires { EndsBy (Decimal n) at (length out.old) }
    ensures { Put (Decimal n) out.old at out.new result }
{
    if n < 10 {
        out[at] = digit_byte(n);
        return at + 1;
    }
    let last = put_decimal(out, at, n / 10);
    out[last] = digit_byte(n % 10);
    last + 1
}

// A whole number, with a minus before its digits where it is below 0. The least i32 has no size among them, so a range is asked.
pub fn put_signed(out: &mut [u8], at: usize, z: i32) -> usize
    requires { (Within (2 ^ 30) z) × EndsBy (SignedDecimal z) at (length out.old) }
    ensures { Put (SignedDecimal z) out.old at out.new result }
{
    let size = words::place(z.abs());
    if 0 <= z {
        return put_decimal(out, at, size);
    }
    out[at] = b'-';
    put_decimal(out, at + 1, size)
}
