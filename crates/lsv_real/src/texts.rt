// Text files of the operating system. They tell no content, and count their faults.
ghost use Rattle.std.specs.Prelude.{◌≡◌, None};

use lsv_base::{Bytes, TextFault, Texts};
use lsv_real_disk::Reports;
use std::alloc::Global;
use std::fs::File;
use std::io;
use std::io::{ErrorKind, Read};

/// A text of more bytes is a fault.
const MOST_BYTES: u64 = 1 << 20;

/// The text files of the operating system, as a settings file.
#[derive(Drop)]
pub struct FileTexts {
    reports: Reports,
}

impl FileTexts {
    /// Its faults are reported on standard error, a line each, under the program's name.
    pub fn new(rt: HostRuntime, program: &'static str) -> Self
        ensures { ⟦<FileTexts as Texts>⟧.faults result ≡ 0 }
    {
        FileTexts {
            reports: Reports::new(rt, program),
        }
    }
}

impl Texts for FileTexts {
    ghost tells = { ⊥ };

    ghost texts = { λ _ path. None };

    ghost faults = { λ t. t.reports.faults };

    fn text(&mut self, _alloc: Global, path: &str) -> Result<Option<Bytes>, TextFault> {
        let rt = self.reports.rt;
        match read_text(&rt, path) {
            Ok(bytes) => Ok(Some(Bytes::from_vec(bytes))),
            Err(e) if e.kind() == ErrorKind::NotFound => Ok(None),
            Err(e) if e.kind() == ErrorKind::OutOfMemory => Err(TextFault::NoMem),
            Err(e) => {
                let program = self.reports.program;
                let _ = eprintln!(rt; "{program}: {path}: read: {e}");
                self.reports.checked(Err(e), TextFault::Failed)
            }
        }
    }
}

/// The bytes of a whole file.
fn read_text(rt: &HostRuntime, path: &str) -> io::Result<Vec<u8>> {
    let mut bytes = Vec::new(rt.alloc());
    File::open(rt, path)?
        .take(MOST_BYTES + 1)
        .read_to_end(&mut bytes)?;
    if bytes.len() as u64 > MOST_BYTES {
        return Err(ErrorKind::FileTooLarge.into());
    }
    Ok(bytes)
}
