//! A sink in memory as what a log is written to that is cut.

ghost use Rattle.std.specs.Prelude.{◌==◌, [], Some, if◌then◌else◌};

use crate::outlet::{NoFile, Outlet, write_whole};
use pmf_device::ByteSink;

/// The sink is the first file; there is no other.
impl Outlet for ByteSink {
    ghost held_in = { λ s file. if file == 0 then Some s.bytes.items else Some [] };

    fn write_to(&mut self, file: usize, text: &[u8]) -> Result<(), NoFile> {
        if file > 0 {
            self.failures += 1;
            return Err(NoFile::Failed { written: 0 });
        }
        write_whole(self, text)
    }
}
