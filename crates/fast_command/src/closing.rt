//! The last line that is shown of a stream that is at fault or truncated.

ghost use Rattle.std.specs.Prelude.{◌≡◌, IsTrue, OnOk, OnErr};
ghost use Rattle.fast_text.specs.meaning.Streams.{Appends, AppendsFront};
ghost use Rattle.fast_command.specs.meaning.Closing.{fault_line, truncated_line};

use fast_decoder::Fault;
use fast_text::{Failed, LineWriter, Room, Target};

/// Writes the line of a fault.
pub fn write_fault<T: Target>(fault: Fault, target: &mut T) -> Result<(), Failed>
    ensures written { OnOk result
        (Appends (T.written target.old) (T.written target.new) (fault_line fault.code fault.place)) }
    ensures part { OnErr result
        (AppendsFront (T.written target.old) (T.written target.new) (fault_line fault.code fault.place)) }
    ensures fails { OnErr result (IsTrue (T.has_failed target.new)) }
    ensures stays { OnOk result (T.has_failed target.new ≡ T.has_failed target.old) }
{
    let mut room = Room::new();
    let mut line = LineWriter::new(target, &mut room);
    line.put(b"fault ");
    line.put(fault.code.name().as_bytes());
    line.put(b" at ");
    line.put_unsigned(fault.place);
    line.put(b"\n");
    line.finish()
}

/// Writes the line of a stream that ends inside a message, after this many bytes.
pub fn write_truncated<T: Target>(consumed: u64, target: &mut T) -> Result<(), Failed>
    ensures written { OnOk result (Appends (T.written target.old) (T.written target.new) (truncated_line consumed)) }
    ensures part { OnErr result (AppendsFront (T.written target.old) (T.written target.new) (truncated_line consumed)) }
    ensures fails { OnErr result (IsTrue (T.has_failed target.new)) }
    ensures stays { OnOk result (T.has_failed target.new ≡ T.has_failed target.old) }
{
    let mut room = Room::new();
    let mut line = LineWriter::new(target, &mut room);
    line.put(b"truncated at ");
    line.put_unsigned(consumed);
    line.put(b"\n");
    line.finish()
}
