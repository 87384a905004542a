// A line whose bytes come in one by one, in pieces of any size, kept in a lent buffer.
ghost use Rattle.desk_lines.specs.LineHeld.{Keeps};

// One byte more of the line of which the buffer holds `held` bytes: how many it holds then. What there is no room for is left out.
pub fn keep_byte(buffer: &mut [u8], held: usize, b: u8) -> usize
    ensures { Keeps buffer.old held b buffer.new result }
{
    if held < buffer.len() {
        buffer[held] = b;
        return held + 1;
    }
    held
}
