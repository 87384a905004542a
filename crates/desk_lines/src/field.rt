// The word that a line begins with, and the fields after it.
ghost use Rattle.std.specs.Prelude.{◌≤◌, length};
ghost use Rattle.desk_lines.specs.Inner.FieldsRead.{FieldRead, FieldsRead, FormRead};

use decimal::reading::read_number;

// One space, and the number after it: its value and the cursor past it.
fn field(line: &[u8], at: usize) -> Option<(i32, usize)>
    requires { at ≤ length line.now }
    ensures { FieldRead line.now at result }
{
    if line.get(at) != Some(&b' ') {
        return None;
    }
    read_number(line, at + 1)
}

// The numbers of `N` fields, where these are all that the line has.
fn fields<const N: usize>(line: &[u8]) -> Option<[i32; N]>
    ensures { FieldsRead line.now N result }
{
    let mut numbers = [0; N];
    let mut at = 0;
    for number in numbers.iter_mut() {
        (*number, at) = field(line, at)?;
    }
    (line.len() <= at).then_some(numbers)
}

// The numbers of a line that is the word with `N` fields.
pub fn form<const N: usize>(line: &[u8], word: &[u8]) -> Option<[i32; N]>
    ensures { FormRead word.now N line.now result }
{
    fields(line.strip_prefix(word)?)
}
