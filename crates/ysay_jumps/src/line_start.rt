//! Where in a text what stands in a line begins.

ghost use Rattle.std.specs.Prelude.{◌≡◌, ◌-◌};
ghost use Rattle.yspec.specs.text.Text.{is_blank};
ghost use Rattle.ysay_jumps.specs.Beginning as spec;

use ysay_lines::Place;

fn is_blank(byte: u8) -> bool
    ensures { result ≡ is_blank byte }
{
    byte == b' ' || byte == b'\t'
}

/// The column behind the blanks with which a line begins, so many lines on.
fn first_column(lines: u32, bytes: &[u8]) -> usize
    ensures { result ≡ spec.column_behind lines 1 bytes.now }
{
    let mut left = lines;
    let mut column = 1;
    for byte in bytes {
        if left > 0 {
            if *byte == b'\n' {
                left -= 1;
            }
        } else if is_blank(*byte) {
            column += 1;
        } else {
            return column;
        }
    }
    column
}

/// The line of a number, counted from 1, and the column of its first byte that is no blank; a column counts bytes, from 1.
pub fn beginning(number: u32, bytes: &[u8]) -> Place
    ensures { result ≡ spec.beginning number bytes.now }
{
    Place {
        line: number as usize,
        column: first_column(number.saturating_sub(1), bytes),
    }
}
