//! Directories, built name by name.

use crate::discs::Disc;
use crate::files::STAMP;
use std::alloc::AllocError;

/// A name of a directory as it is recorded (UDF 2.1.1), and the logical block of its entry.
pub type NamedEntry = (&'static [u8], u32);

impl Disc {
    /// Writes a directory into the partition that begins at block `start`: its file entry (ECMA-167 4/14.9)
    /// at the logical block `entry`, and in the logical blocks after it, without gaps, a file identifier
    /// descriptor (4/14.4) for each name, of at most 255 bytes. The parent has no descriptor. Fails if memory
    /// runs out; what was written until then stays.
    pub fn write_directory(
        &mut self,
        start: u32,
        entry: u32,
        names: &[NamedEntry],
    ) -> Result<(), AllocError> {
        let body = entry.wrapping_add(1);
        let mut size = 0u32;
        for (name, icb) in names {
            self.write_identifier(start, body, size, name, *icb)?;
            size = size.wrapping_add(identifier_size(name));
        }
        self.write_directory_entry(start, entry, size)
    }

    /// Writes the entry of a directory of `size` bytes, which begin in the logical block after it.
    fn write_directory_entry(
        &mut self,
        start: u32,
        entry: u32,
        size: u32,
    ) -> Result<(), AllocError> {
        let place = start.wrapping_add(entry);
        self.fill(place, 0)?;
        self.write_tag(place, 0, 261, entry)?;
        self.write(&[(place, 20, &[4]), (place, 27, &[4]), (place, 84, &STAMP)])?;
        self.write_at(place, 56, &size.to_le_bytes())?;
        if size > 0 {
            self.write_at(place, 172, &[8])?;
            self.write_at(place, 176, &size.to_le_bytes())?;
            self.write_at(place, 180, &entry.wrapping_add(1).to_le_bytes())?;
        }
        Ok(())
    }

    /// Writes an identifier descriptor at a byte position of the body that begins at a logical block.
    fn write_identifier(
        &mut self,
        start: u32,
        body: u32,
        position: u32,
        name: &[u8],
        icb: u32,
    ) -> Result<(), AllocError> {
        let first = start.wrapping_add(body);
        let tag = Disc::tag(257, body.wrapping_add(position / 2048));
        self.write_over(first, position, &tag)?;
        let Ok(length) = u8::try_from(name.len()) else {
            return Ok(());
        };
        let [a, b, c, d] = icb.to_le_bytes();
        let fields = [
            1, 0, 0, length, 0, 8, 0, 0, a, b, c, d, 0, 0, 0, 0, 0, 0, 0, 0, 0, 0,
        ];
        self.write_over(first, position.wrapping_add(16), &fields)?;
        self.write_over(first, position.wrapping_add(38), name)
    }

    /// Writes bytes from byte `position` on, counted from the first byte of block `n`, over as many blocks as
    /// they take. Fails if memory runs out; what was written until then stays.
    pub fn write_over(&mut self, n: u32, position: u32, bytes: &[u8]) -> Result<(), AllocError> {
        let mut at = position;
        for byte in bytes {
            self.write_at(n.wrapping_add(at / 2048), (at % 2048) as usize, &[*byte])?;
            at = at.wrapping_add(1);
        }
        Ok(())
    }
}

/// The bytes of an identifier descriptor with this name: a multiple of 4.
fn identifier_size(name: &[u8]) -> u32 {
    let Ok(length) = u8::try_from(name.len()) else {
        return 0;
    };
    (u32::from(length) + 41) / 4 * 4
}
