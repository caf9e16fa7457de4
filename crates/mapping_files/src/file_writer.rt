// Where files are written.
use crate::store::{check_over, store_over};
use std::alloc::Global;
use std::io;

/// Where the files of a command are written: the file system, or what a case program has in its place.
pub trait FileWriter {
    ghost use Rattle.std.specs.Prelude.{List, OnOk, ℕ, ⊤};

    // That the file at the path was written with these bytes.
    ghost stored: { Self → List ℕ → List ℕ → Type 0 } = { λ _ _ _. ⊤ };

    /// Writes a file at the path with these bytes, in place of the one that is there, if there is one. Whatever happens
    /// meanwhile, the file is the old one or the new one as a whole.
    fn store(&self, alloc: Global, path: &str, bytes: &[u8]) -> io::Result<()>
        ensures { OnOk result (stored self.now path.now bytes.now) };

    /// Whether a file can be written at the path, as far as that can be told before. What is there stays as it is.
    fn check(&self, alloc: Global, path: &str) -> io::Result<()>;
}

impl FileWriter for HostRuntime {
    fn store(&self, alloc: Global, path: &str, bytes: &[u8]) -> io::Result<()> {
        store_over(self, alloc, path, bytes)
    }

    fn check(&self, alloc: Global, path: &str) -> io::Result<()> {
        check_over(self, alloc, path)
    }
}
