//! A content is written to an output by code that knows only sinks, and the output stays the same.

ghost use Rattle.std.specs.Prelude.{◌≡◌, ℕ, List, Option, IfOk, IfErr, OnOk, OnErr, ⊤};
ghost use Rattle.std.specs.Io.KnownBytes.{Appends};
ghost use Rattle.udfs_host_fs.specs.Disk.{SinkFails};
ghost use Rattle.udfs_reading.specs.Writing.{Writes};

use crate::Handle;
use std::marker::{Brand, PhantomData};
use udfs_reading::{DeviceFault, Sink, WriteFault};

/// What can be written to a sink.
pub trait Content {
    /// All its bytes.
    ghost bytes: { Self → List ℕ };

    /// Writes all of them.
    ///
    /// # Errors
    ///
    /// `WriteFault` exactly where the sink failed. Then a beginning of the bytes is out.
    fn write_to<W: Sink>(&self, sink: &mut W) -> Result<(), WriteFault>
        ensures { Writes (W.stream sink.old) (W.stream sink.new) (bytes self.now) result };
}

/// Which new file a handle is.
trait Numbered {
    ghost number: { Option ℕ };
}

impl Numbered for Brand {
    ghost use Rattle.std.specs.Prelude.{None};

    ghost number = { None };
}

/// A handle of which it is known which new file it is, whoever writes to it.
#[derive(Drop)]
struct Placed<K: Numbered, H: Handle> {
    handle: H,
    of: PhantomData<K>,
    ghost is: { H.number handle ≡ K.number },
}

impl<K: Numbered, H: Handle> Sink for Placed<K, H> {
    ghost stream = { λ p. H.stream p.handle };

    fn write(&mut self, buf: &[u8]) -> Result<usize, DeviceFault> {
        self.handle.put(buf)
    }
}

/// What can be written to a sink, and may fail for reasons of its own.
pub trait Job {
    /// Why it failed.
    type Refusal: Drop;

    /// What a sink has taken, by its contents before and after, each where it is known.
    ghost wrote: { Self → Option (List ℕ) → Option (List ℕ) → Type 0 };

    /// This error comes only from a fault of the sink.
    ghost blames_sink: { Self → Self.Refusal → Type 0 };

    /// Writes all of it.
    ///
    /// # Errors
    ///
    /// As the job says. Then the sink may have taken a part.
    fn write_to<W: Sink>(&self, sink: &mut W) -> Result<(), Self::Refusal>
        ensures wrote { OnOk result (wrote self.now (W.stream sink.old).contents (W.stream sink.new).contents) }
        ensures cause { IfErr result (λ refusal. blames_sink self.now refusal → SinkFails W.stream) };
}

/// Does a job on a handle of this number.
fn do_at<K: Numbered, H: Handle + Drop, J: Job>(handle: H, job: &J) -> Result<H, J::Refusal>
    requires { H.number handle ≡ K.number }
    ensures number { IfOk result (λ full. H.number full ≡ K.number) }
    ensures wrote { IfOk result (λ full. J.wrote job.now (H.stream handle).contents (H.stream full).contents) }
    ensures cause { IfErr result (λ refusal. J.blames_sink job.now refusal → SinkFails H.stream) }
{
    let mut placed: Placed<K, H> = Placed {
        handle,
        of: PhantomData,
    };
    match job.write_to(&mut placed) {
        Ok(()) => {}
        Err(refusal) => return Err(refusal),
    }
    let Placed { handle, of: _ } = placed;
    Ok(handle)
}

/// Does a job on an output, and returns the output, which has taken all of it.
///
/// # Errors
///
/// The job's error. Then the output is closed.
pub fn fill_by<H: Handle + Drop, J: Job>(handle: H, job: &J) -> Result<H, J::Refusal>
    ensures number { IfOk result (λ full. H.number full ≡ H.number handle) }
    ensures wrote { IfOk result (λ full. J.wrote job.now (H.stream handle).contents (H.stream full).contents) }
    ensures cause { IfErr result (λ refusal. J.blames_sink job.now refusal → SinkFails H.stream) }
{
    do_at::<Brand, H, J>(handle, job)
}

/// A content as a job, which fails only where its sink fails.
#[derive(Drop)]
pub(crate) struct ContentJob<'a, C: Content> {
    pub(crate) content: &'a C,
}

impl<'a, C: Content> Job for ContentJob<'a, C> {
    type Refusal = WriteFault;

    ghost wrote = { λ job old new. Appends old new (C.bytes job.content.now) };

    ghost blames_sink = { λ _ _. ⊤ };

    fn write_to<W: Sink>(&self, sink: &mut W) -> Result<(), WriteFault> {
        self.content.write_to(sink)
    }
}

/// Writes a content after what the output has, and returns the output, which has taken all of it.
///
/// # Errors
///
/// `WriteFault` where the output failed, and it is closed.
pub fn fill<H: Handle + Drop, C: Content>(handle: H, content: &C) -> Result<H, WriteFault>
    ensures number { IfOk result (λ full. H.number full ≡ H.number handle) }
    ensures written { IfOk result (λ full. Appends (H.stream handle).contents (H.stream full).contents (C.bytes content.now)) }
    ensures cause { OnErr result (SinkFails H.stream) }
{
    fill_by(handle, &ContentJob { content })
}
