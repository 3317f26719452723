//! What the machine opened to be read: inputs, regular files and images, each over a descriptor.

ghost use Rattle.std.specs.Prelude.{◌≡◌, IfOk, Some, ⊤};
ghost use Rattle.udfs_calls.specs.Files.{bytes_of, rest_of};
ghost use Rattle.udfs_host_fs.specs.Opened.{AtFront, AtFront-prop};
ghost use Rattle.udfs_reading.specs.Device.{CountsFault};

use crate::watch::{Watch, heeded};
use std::time::SystemTime;
use udfs_calls::Opened;
use udfs_index::Stored;
use udfs_reading::{DeviceFault, Source};
use udfs_rescue::Image;

/// An input of the machine.
#[derive(Drop)]
pub struct MachineInput<'a, O: Opened + Drop, N: Watch> {
    pub(crate) file: O,
    pub(crate) number: usize,
    pub(crate) watch: &'a N,
    pub(crate) faults: u64,
}

impl<'a, O: Opened + Drop, N: Watch> Source for MachineInput<'a, O, N> {
    ghost remaining = { λ i. rest_of (O.state i.file) };

    ghost faults = { λ i. i.faults };

    fn read(&mut self, buf: &mut [u8]) -> Result<usize, DeviceFault> {
        match heeded(self.watch, self.file.read(buf)) {
            Some(count) => {
                self.watch.read(self.number, count);
                Ok(count)
            }
            None => {
                self.faults = self.faults.wrapping_add(1);
                Err(DeviceFault)
            }
        }
    }
}

/// A regular file of the machine, read at positions. Its own position stays at its front, so reads from its beginning on and reads elsewhere can
/// alternate.
#[derive(Drop)]
pub struct MachineStored<'a, O: Opened + Drop, N: Watch> {
    pub(crate) file: O,
    pub(crate) number: usize,
    pub(crate) watch: &'a N,
    ghost front: { AtFront (O.state file) } by { AtFront-prop (O.state file) },
}

impl<'a, O: Opened + Drop, N: Watch> Stored for MachineStored<'a, O, N> {
    ghost content = { λ s. bytes_of (O.state s.file) };

    ghost fails = { λ _. ⊤ };

    fn size(&self) -> Result<u64, DeviceFault> {
        match heeded(self.watch, self.file.about()) {
            Some(about) if about.is_file => Ok(about.size),
            _ => Err(DeviceFault),
        }
    }

    fn changed(&self) -> Option<SystemTime> {
        let about = heeded(self.watch, self.file.about())?;
        about.modified
    }

    fn read_at(&self, at: u64, buf: &mut [u8]) -> Result<usize, DeviceFault> {
        match heeded(self.watch, self.file.read_at(at, buf)) {
            Some(count) => {
                self.watch.read(self.number, count);
                Ok(count)
            }
            None => Err(DeviceFault),
        }
    }
}

/// An image of the machine.
#[derive(Drop)]
pub struct MachineImage<'a, O: Opened + Drop, N: Watch> {
    pub(crate) file: O,
    pub(crate) number: usize,
    pub(crate) watch: &'a N,
    pub(crate) faults: u64,
}

impl<'a, O: Opened + Drop, N: Watch> MachineImage<'a, O, N> {
    /// The outcome of a call, counted.
    fn heeded<T: Drop>(&mut self, outcome: Option<T>) -> Result<T, DeviceFault>
        ensures value { IfOk result (λ value. outcome ≡ Some value) }
        ensures file { self.new.file ≡ self.old.file }
        ensures count { CountsFault self.old.faults self.new.faults result }
    {
        match outcome {
            Some(value) => Ok(value),
            None => {
                self.faults = self.faults.wrapping_add(1);
                Err(DeviceFault)
            }
        }
    }
}

impl<'a, O: Opened + Drop, N: Watch> Image for MachineImage<'a, O, N> {
    ghost bytes = { λ i. bytes_of (O.state i.file) };

    ghost faults = { λ i. i.faults };

    fn size(&mut self) -> Result<u64, DeviceFault> {
        let end = heeded(self.watch, self.file.go_to_end());
        self.heeded(end)
    }

    fn read_at(&mut self, at: u64, buf: &mut [u8]) -> Result<usize, DeviceFault> {
        let outcome = heeded(self.watch, self.file.read_at(at, buf));
        let count = self.heeded(outcome)?;
        self.watch.read(self.number, count);
        Ok(count)
    }
}
