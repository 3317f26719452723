//! Words, numbers, names and times are printed.

ghost use Rattle.std.specs.Prelude.{◌≤◌, ◌++◌, length, decimal};
ghost use Rattle.udfs_osta.specs.Escapes.{escaped};
ghost use Rattle.udfs_osta.specs.StampTexts.{stamp_text};
ghost use Rattle.udfs_reading.specs.Puts.{Puts};
ghost use Rattle.udfs_salvage.specs.NodeTexts.{word_text};

use crate::words::Word;
use udfs_osta::{Name, Stamp};
use udfs_reading::{Printer, Sink};

/// `front`, and then a number in decimal.
pub(crate) fn put_count<W: Sink>(out: &mut Printer, sink: &mut W, front: &str, number: u64)
    requires { length front.now ≤ 2048 }
    ensures { Puts (W.stream sink.old) (W.stream sink.new) out.old out.new (front.now ++ decimal number) }
{
    out.put(sink, front);
    out.put_number(sink, number);
}

/// A keyword, and its number where it has one.
pub(crate) fn put_word<W: Sink>(out: &mut Printer, sink: &mut W, word: Word)
    requires { length word.front.now ≤ 2048 }
    ensures { Puts (W.stream sink.old) (W.stream sink.new) out.old out.new (word_text word.front.now word.number) }
{
    match word.number {
        None => out.put(sink, word.front),
        Some(number) => put_count(out, sink, word.front, u64::from(number)),
    }
}

/// A name in its escaped form, in pieces.
pub(crate) fn put_escaped<W: Sink>(out: &mut Printer, sink: &mut W, name: &Name)
    ensures { Puts (W.stream sink.old) (W.stream sink.new) out.old out.new (escaped name.now) }
{
    let mut left = name.escaped_bytes();
    let mut piece = [0; 64];
    let mut count = left.next_piece(&mut piece);
    while count > 0 {
        out.put_bytes(sink, &piece[..count]);
        count = left.next_piece(&mut piece);
    }
}

/// A time.
pub(crate) fn put_stamp<W: Sink>(out: &mut Printer, sink: &mut W, stamp: Stamp)
    ensures { Puts (W.stream sink.old) (W.stream sink.new) out.old out.new (stamp_text stamp) }
{
    let (time, ending) = stamp.texts();
    out.put(sink, time.as_str());
    out.put(sink, ending);
}
