//! The digest of what is written to an output is taken on the way.

ghost use Rattle.std.specs.Prelude.{◌≡◌, ◌<◌, ◌≤◌, ℕ, List, Some, [], true, IfOk, IfErr, length};
ghost use Rattle.std.specs.Io.KnownBytes.{WriteAppends};
ghost use Rattle.udfs_host_fs.specs.Disk.{Fails, SinkFails};
ghost use Rattle.udfs_extraction.specs.Digests.{HasTaken};
ghost use Rattle.sha2.specs.Sha256.{sha256};
ghost use Rattle.udfs_reading.specs.Device.{CountsFault};

use sha2::{Digest, Sha256};
use udfs_common::files::Files;
use udfs_host_fs::{Handle, Job, fill_by};
use udfs_reading::{DeviceFault, Sink};

/// An output that hands on what it is given, and adds what was taken of it to a hasher.
#[derive(Drop)]
struct Digesting<F: Files> {
    output: F::Output,
    hash: Sha256,
    ghost taken: { ∥ (F.tells → HasTaken (F.Output.stream output).contents hash) ∥₁ },
}

impl<F: Files> Digesting<F> {
    /// Hands on some bytes.
    fn take(&mut self, buf: &[u8]) -> Result<usize, DeviceFault>
        ensures bound { IfOk result (λ n. n ≤ length buf.now) }
        ensures some { IfOk result (λ n. 0 < length buf.now → 0 < n) }
        ensures bytes { WriteAppends (F.Output.stream self.old.output).contents (F.Output.stream self.new.output).contents result buf.now }
        ensures count { CountsFault (F.Output.stream self.old.output).faults (F.Output.stream self.new.output).faults result }
        ensures number { F.Output.number self.new.output ≡ F.Output.number self.old.output }
    {
        match self.output.put(buf) {
            Ok(count) => {
                self.hash.update(&buf[..count]);
                Ok(count)
            }
            Err(fault) => Err(fault),
        }
    }
}

impl<F: Files> Sink for Digesting<F> {
    ghost stream = { λ d. F.Output.stream d.output };

    fn write(&mut self, buf: &[u8]) -> Result<usize, DeviceFault> {
        self.take(buf)
    }
}

impl<F: Files> Handle for Digesting<F> {
    ghost number = { λ d. F.Output.number d.output };

    fn put(&mut self, buf: &[u8]) -> Result<usize, DeviceFault> {
        self.take(buf)
    }
}

/// An output that was filled, and the digest of what it has taken, if that was asked for.
#[derive(Drop)]
pub struct Filled<F: Files> {
    /// The output.
    pub output: F::Output,
    /// The digest.
    pub digest: Option<[u8; 32]>,
}

/// Does a job on an output, and takes the digest.
fn fill_and_digest<F: Files, J: Job>(output: F::Output, job: &J) -> Result<Filled<F>, J::Refusal>
    requires empty { F.tells → (F.Output.stream output).contents ≡ Some [] }
    ensures number { IfOk result (λ full. F.Output.number full.output ≡ F.Output.number output) }
    ensures wrote { IfOk result (λ full. J.wrote job.now (F.Output.stream output).contents (F.Output.stream full.output).contents) }
    ensures digest { IfOk result (λ full. F.tells → (bytes : List ℕ) × ((F.Output.stream full.output).contents ≡ Some bytes) × (full.digest ≡ Some (sha256 bytes))) }
    ensures cause { IfErr result (λ refusal. J.blames_sink job.now refusal → SinkFails F.Output.stream) }
{
    let begun: Digesting<F> = Digesting {
        output,
        hash: Sha256::new(),
    };
    match fill_by(begun, job) {
        Ok(Digesting { output, hash }) => Ok(Filled {
            output,
            digest: Some(hash.finalize()),
        }),
        Err(refusal) => Err(refusal),
    }
}

/// Does a job on a new output, and returns the output, which has taken all of it, and with `digest` the digest of that, taken while the bytes are written.
///
/// # Errors
///
/// The error of the job. Then the output is closed.
pub fn fill_noting<F: Files, J: Job>(
    output: F::Output,
    job: &J,
    digest: bool,
) -> Result<Filled<F>, J::Refusal>
    requires empty { F.tells → (F.Output.stream output).contents ≡ Some [] }
    ensures number { IfOk result (λ full. F.Output.number full.output ≡ F.Output.number output) }
    ensures wrote { IfOk result (λ full. J.wrote job.now (F.Output.stream output).contents (F.Output.stream full.output).contents) }
    // The digest is that of the bytes that the output has.
    ensures digest { IfOk result (λ full. digest ≡ true → F.tells → (bytes : List ℕ) × ((F.Output.stream full.output).contents ≡ Some bytes) × (full.digest ≡ Some (sha256 bytes))) }
    ensures cause { IfErr result (λ refusal. J.blames_sink job.now refusal → SinkFails F.Output.stream) }
{
    if digest {
        return match fill_and_digest(output, job) {
            Ok(filled) => Ok(filled),
            Err(refusal) => Err(refusal),
        };
    }
    match fill_by(output, job) {
        Ok(output) => Ok(Filled {
            output,
            digest: None,
        }),
        Err(refusal) => Err(refusal),
    }
}
