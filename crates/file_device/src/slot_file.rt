//! What a disk in files needs of a file, and of the folder that makes the files.
ghost use Rattle.std.specs.Prelude.{◌≡◌, ◌+◌, ◌≤◌, ◌<◌, ◌^◌, Bool, IsTrue, List, ℕ, length, IfOk, OnOk};
ghost use Rattle.file_device.specs.Files.{bytes_from, IsOutside};

use crate::DiskFault;

/// A file that stores the slots of one class. All errors are `DiskFault`.
pub trait SlotFile: Drop {
    /// Whether a read returns what was written. It is a statement about the type, and only contracts
    /// read it.
    ghost HONEST: { Bool };

    /// The byte at each place. The places are counted from 0.
    ghost byte: { Self → ℕ → ℕ };

    /// Writes the bytes from place `at` on. All other bytes stay, also after an error.
    fn write(&mut self, bytes: &[u8], at: u64) -> Result<(), DiskFault>
        requires { at + length bytes.now ≤ 2 ^ 58 }
        ensures written { IsTrue HONEST
            → OnOk result (bytes_from (byte self.new) at (length bytes.now) ≡ bytes.now) }
        ensures others { (place : ℕ) → IsOutside at (length bytes.now) place
            → byte self.new place ≡ byte self.old place };

    /// Fills the buffer with the bytes from place `at` on. If the file is too short, it is an error.
    fn read(&self, buffer: &mut [u8], at: u64) -> Result<(), DiskFault>
        requires { at + length buffer.old ≤ 2 ^ 58 }
        ensures { IsTrue HONEST
            → OnOk result (buffer.new ≡ bytes_from (byte self.now) at (length buffer.old)) };

    /// Releases all bytes. The file may give them away, and needs its folder's `ready` before the next write
    /// then.
    fn clear(&mut self) -> Result<(), DiskFault>;

    /// How many bytes the file has, at least up to the last one that was written.
    fn len(&self) -> Result<u64, DiskFault>;
}

/// A folder that makes the files of a disk.
pub trait SlotFolder: Drop {
    /// A file of this folder.
    type File: SlotFile;

    /// A new file for the slots of this class.
    fn make(&mut self, class: u8) -> Result<Self::File, DiskFault>
        requires { class < 21 }
        ensures { IfOk result (λ file. (place : ℕ) → Self.File.byte file place ≡ 0) };

    /// Makes a file of this folder ready for a write, if it gave its bytes away when it was cleared.
    fn ready(&mut self, file: &mut Self::File) -> Result<(), DiskFault>
        ensures { (place : ℕ) → Self.File.byte file.new place ≡ Self.File.byte file.old place };
}
