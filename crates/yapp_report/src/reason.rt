//! What stands below a line that tells a code.

ghost use Rattle.std.specs.Prelude.{◌++◌, [], decimal, if◌then◌else◌};
ghost use Rattle.ysay_codes.specs.Codes.{reason_of};
ghost use Rattle.ybase_output.specs.Writing.{Writes, side};

use itoa::Buffer;
use ybase_output::{Sink, SinkFault, write_texts};
use ysay_codes::write_reason;

/// Writes, where reasons are wanted, that of a code, which is given by its letter and its number.
fn write_reason_where<S: Sink>(
    with_reasons: bool,
    letter: &str,
    number: u8,
    sink: &mut S,
) -> Result<(), SinkFault>
    ensures { Writes (side S.taken S.failures sink.old) (side S.taken S.failures sink.new)
        (if with_reasons then reason_of (letter.now ++ decimal number) else []) result }
{
    if with_reasons {
        let mut digits = Buffer::new();
        write_reason(sink, letter, digits.format(number))
    } else {
        Ok(())
    }
}

/// Writes, where reasons are wanted, what is said of a line, and the reason of the code that is told.
pub fn write_hinted_where<S: Sink>(
    with_reasons: bool,
    hint: &str,
    letter: &str,
    code: u8,
    sink: &mut S,
) -> Result<(), SinkFault>
    ensures { Writes (side S.taken S.failures sink.old) (side S.taken S.failures sink.new)
        (if with_reasons then hint.now ++ reason_of (letter.now ++ decimal code) else []) result }
{
    if with_reasons {
        write_hinted(hint, letter, code, sink)
    } else {
        Ok(())
    }
}

fn write_hinted<S: Sink>(hint: &str, letter: &str, code: u8, sink: &mut S) -> Result<(), SinkFault>
    ensures { Writes (side S.taken S.failures sink.old) (side S.taken S.failures sink.new)
        (hint.now ++ reason_of (letter.now ++ decimal code)) result }
{
    write_texts(sink, &[hint])?;
    write_reason_where(true, letter, code, sink)
}
