// What a program does with its input and its output: one read that a signal does not disturb, and a text that is written to its end.
#![tactic(auto)]

ghost use Rattle.std.specs.Prelude.{OnOk};
ghost use Rattle.std.specs.Io.{ReadsAtMost};
ghost use Rattle.std.specs.Io.KnownBytes.{Appends, ReadConsumes};

use std::io;
use std::io::{ErrorKind, Read, Write};

// One read, tried again where a signal has interrupted it; nothing says that this ends, so the tries are counted down.
pub fn read_some<R: Read>(input: &mut R, free: &mut [u8]) -> io::Result<usize>
    ensures bound { ReadsAtMost result free.new }
    ensures bytes { ReadConsumes (R.remaining input.old) (R.remaining input.new) result free.new }
{
    for _ in 0..u64::MAX {
        match input.read(free) {
            Ok(count) => return Ok(count),
            Err(e) => {
                if e.kind() != ErrorKind::Interrupted {
                    return Err(e);
                }
            }
        }
    }
    Err(io::Error::from(ErrorKind::Interrupted))
}

// Writes all of the text, or stops at the first write that takes nothing or fails, also where a signal has interrupted it, which std's
// `write_all` would try again: then some of the text may have been written. With no text it makes no call.
pub fn write_whole<W: Write>(output: &mut W, text: &[u8]) -> io::Result<()>
    ensures { OnOk result (Appends (W.contents output.old) (W.contents output.new) text.now) }
{
    let mut rest = text;
    while !rest.is_empty() {
        let taken = output.write(rest)?;
        if taken == 0 {
            return Err(io::Error::from(ErrorKind::WriteZero));
        }
        rest = &rest[taken..];
    }
    Ok(())
}
