//! Printers.

ghost use Rattle.std.specs.Prelude.{◌≡◌, ◌≤◌, ◌↔◌, [], None, OnErr, OnOk, Some, length, decimal, true};
ghost use Rattle.udfs_reading.specs.Puts.{Finishes, Puts};

use crate::{Outgoing, Sink, WriteFault};
use itoa::Buffer;
use std::marker::Model;

/// Text on its way to a sink. What is not yet written is held in the printer itself, and no memory is allocated. To
/// contracts it is the bytes that it holds, or nothing where the sink has failed.
#[derive(Drop)]
pub struct Printer {
    out: Outgoing,
    failed: bool,
}

impl Model for Printer {
    ghost use Rattle.std.specs.Prelude.{List, ℕ, Option, None, Some, cond};

    ghost Value = { Option (List ℕ) };

    ghost view = { λ p. cond p.failed None (Some p.out) };
}

impl Printer {
    /// Holds no text yet.
    pub fn new() -> Self
        ensures { result ≡ Some [] }
    {
        Printer {
            out: Outgoing::new(),
            failed: false,
        }
    }

    /// Whether the sink has failed.
    pub fn has_failed(&self) -> bool
        ensures { result ≡ true ↔ self.now ≡ None }
    {
        self.failed
    }

    /// Appends at most 2048 bytes to the text. If there is no room for them, what is held is written to the sink first. Once
    /// the sink has failed, nothing more is written to it.
    pub fn put_bytes<W: Sink>(&mut self, sink: &mut W, bytes: &[u8])
        requires { length bytes.now ≤ 2048 }
        ensures { Puts (W.stream sink.old) (W.stream sink.new) self.old self.new bytes.now }
    {
        if self.failed {
            return;
        }
        if let Err(WriteFault) = self.out.push(sink, bytes) {
            self.failed = true;
        }
    }

    /// Appends a text of at most 2048 bytes, as [`put_bytes`](Printer::put_bytes) does.
    pub fn put<W: Sink>(&mut self, sink: &mut W, text: &str)
        requires { length text.now ≤ 2048 }
        ensures { Puts (W.stream sink.old) (W.stream sink.new) self.old self.new text.now }
    {
        self.put_bytes(sink, text.as_bytes());
    }

    /// Appends a number in decimal.
    pub fn put_number<W: Sink>(&mut self, sink: &mut W, number: u64)
        ensures { Puts (W.stream sink.old) (W.stream sink.new) self.old self.new (decimal number) }
    {
        let mut digits = Buffer::new();
        self.put(sink, digits.format(number));
    }

    /// Hands on all that is held.
    ///
    /// # Errors
    ///
    /// `WriteFault` exactly where the sink failed, now or at a text that was put before. Then a beginning of all text
    /// is out, and nothing more is handed on.
    pub fn finish<W: Sink>(&mut self, sink: &mut W) -> Result<(), WriteFault>
        ensures written { Finishes (W.stream sink.old) (W.stream sink.new) self.old result }
        ensures empty { OnOk result (self.new ≡ Some []) }
        ensures kept { OnErr result (self.new ≡ None) }
    {
        if self.failed {
            return Err(WriteFault);
        }
        let outcome = self.out.flush(sink);
        self.failed = outcome.is_err();
        outcome
    }
}
