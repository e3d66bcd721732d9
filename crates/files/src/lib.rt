// A file that may be missing, for programs that try what is read and written: the reads of a missing one fail, and its descriptor is none.
#![tactic(auto)]

ghost use Rattle.std.specs.Prelude.{IsSome, Some, negsuc};
ghost use Rattle.std.specs.Fd.{file_raw_fd};
ghost use Rattle.std.specs.Option.{option_map_or};
ghost use Rattle.std.specs.Str.{IsUtf8};

use std::fs::File;
use std::io::{Error, ErrorKind, Read, Result};
use std::os::fd::{AsRawFd, RawFd};
use std::rt::Files;
use std::str;

// A file that was opened, or none.
#[derive(Drop)]
pub struct Opened(pub Option<File>);

impl Read for Opened {
    fn read(&mut self, buf: &mut [u8]) -> Result<usize> {
        match &mut self.0 {
            Some(file) => file.read(buf),
            None => Err(Error::from(ErrorKind::NotFound)),
        }
    }
}

impl AsRawFd for Opened {
    ghost raw_fd = { λ opened. Some (option_map_or file_raw_fd opened.0 (negsuc 0)) };

    // The file's descriptor, or -1 for none.
    fn as_raw_fd(&self) -> RawFd {
        match &self.0 {
            Some(file) => file.as_raw_fd(),
            None => -1,
        }
    }
}

// The file of this name, for reading alone; none where it cannot be opened, or its name is no text.
pub fn open<R: Files<File = File>>(rt: &R, name: &[u8]) -> Opened
    ensures { IsSome result.0 → IsUtf8 name.now }
{
    match str::from_utf8(name) {
        Ok(name) => Opened(File::open(rt, name).ok()),
        Err(_) => Opened(None),
    }
}
