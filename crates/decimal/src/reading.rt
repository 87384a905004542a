// A number read at a cursor of a line.
ghost use Rattle.std.specs.Prelude.{◌≡◌, ◌+◌, ◌≤◌, length};
ghost use Rattle.decimal.specs.Spells.{Digits};
ghost use Rattle.decimal.specs.Inner.DigitRuns.{IsDigit, AllDigits, DigitsEnd};
ghost use Rattle.decimal.specs.Inner.NumberRead.{DigitsRead, NumberRead};

const MOST_DIGITS: usize = 9;

fn digit_value(b: u8) -> usize
    requires { IsDigit b }
    ensures { (48 + result ≡ b) × (result ≤ 9) }
{
    usize::from(b - b'0')
}

// How many digits stand from the cursor on.
fn count_digits(line: &[u8], at: usize) -> usize
    requires { at ≤ length line.now }
    ensures { DigitsEnd line.now at result }
{
    line[at..].iter().take_while(|b| b.is_ascii_digit()).count()
}

// What so many digits stand for. The library's `parse` wants a `str`, and these are bytes of a line.
fn value(digits: &[u8]) -> usize
    requires { (length digits.now ≤ 9) × AllDigits digits.now }
    ensures { Digits result digits.now }
{
    let mut sum = 0;
    for b in digits {
        sum = 10 * sum + digit_value(*b);
    }
    sum
}

// A number without a sign: its value and the cursor past it.
fn digits(line: &[u8], at: usize) -> Option<(i32, usize)>
    requires { at ≤ length line.now }
    ensures { DigitsRead line.now at result }
{
    let n = count_digits(line, at);
    if !(1..=MOST_DIGITS).contains(&n) {
        return None;
    }
    let end = at + n;
    Some((words::word_of(value(&line[at..end])), end))
}

// A number's value and the cursor past it.
#[tactic(auto, using(crate::specs::Laws::NumberRead::unsigned))]
pub fn read_number(line: &[u8], at: usize) -> Option<(i32, usize)>
    requires { at ≤ length line.now }
    ensures { NumberRead line.now at result }
{
    if *line.get(at)? != b'-' {
        return digits(line, at);
    }
    let (size, next) = digits(line, at + 1)?;
    let negative = -size;
    Some((negative, next))
}
