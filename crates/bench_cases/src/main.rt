// Runs the bench on each file that an argument names, in parts of one byte, of five, and as large as they come; then on an input that is longer
// than its buffer, where no record, where no failure can be written, and on an input that cannot be read. Each run's record is followed by how it ended.
#![tactic(auto)]

use arguments::argument;
use descriptors::STANDARD_OUTPUT;
use files::{Opened, open};
use recorder::{InputBuffer, RecordBuffer, RecordError, Recorded};
use std::env::Env;
use std::fs::File;
use std::os::fd::AsRawFd;
use std::rt::Files;

// What all runs share: the system and the two buffers.
#[derive(Drop)]
struct Runs<'a, R> {
    rt: &'a R,
    input: InputBuffer,
    lines: RecordBuffer,
}

// Writes the text and, behind it, the number.
fn say(text: &[u8], n: u64) {
    io::write_all(STANDARD_OUTPUT, text);
    io::print_decimal(STANDARD_OUTPUT, n);
}

// The word for how a run ended.
fn outcome(ended: Result<(), RecordError>) -> &'static [u8] {
    match ended {
        Ok(()) => b"whole",
        Err(RecordError::NotRead) => b"not read",
        Err(RecordError::NotWritten) => b"not written",
        Err(RecordError::TooLong) => b"too long",
    }
}

// Writes how a run ended: its outcome, how many bytes came, how the table stands, how many events were answered, and how many bytes are held.
fn say_recorded(recorded: Recorded) {
    io::write_all(STANDARD_OUTPUT, outcome(recorded.ended));
    say(b", bytes ", recorded.received);
    say(b", refusal ", recorded.bench.refusal as u64);
    say(b", events ", recorded.bench.events);
    say(b", bytes held ", recorded.held as u64);
    io::write_all(STANDARD_OUTPUT, b"\n\n");
}

impl<R: Files<File = File> + Env> Runs<'_, R> {
    // A run on the file, at most so many bytes at a time.
    fn in_parts(&mut self, path: &[u8], most: usize) {
        io::write_all(STANDARD_OUTPUT, path);
        say(b", at most ", most as u64);
        io::write_all(STANDARD_OUTPUT, b" bytes at a time:\n");
        let mut file = open(self.rt, path);
        say_recorded(recorder::write_record(
            &mut file,
            STANDARD_OUTPUT,
            STANDARD_OUTPUT,
            most,
            &mut self.input,
            &mut self.lines,
        ));
    }

    // A run on the file whose record goes to a descriptor that is open for reading alone; what it says of that goes to the other one.
    fn unwritten(&mut self, path: &[u8], errors: i32) {
        io::write_all(STANDARD_OUTPUT, path);
        io::write_all(STANDARD_OUTPUT, b", to where nothing can be written:\n");
        let mut file = open(self.rt, path);
        let to = file.as_raw_fd();
        say_recorded(recorder::write_record(
            &mut file,
            to,
            errors,
            32768,
            &mut self.input,
            &mut self.lines,
        ));
    }

    // The runs on the files of all arguments.
    fn of_arguments(&mut self) {
        for i in 1..usize::MAX {
            let mut buffer = io::buffer();
            let Some(path) = argument(self.rt, i, &mut buffer) else {
                return;
            };
            self.in_parts(path, 1);
            self.in_parts(path, 5);
            self.in_parts(path, 32768);
        }
    }

    // A run on an input that cannot be read, in place of standard input, which std does not close: what it says of that is not for standard output.
    fn closed(&mut self) {
        io::write_all(STANDARD_OUTPUT, b"standard input, closed:\n");
        say_recorded(recorder::write_standard(&mut Opened(None), &mut self.input, &mut self.lines));
    }
}

// The first write of the example fails at its first part, that of no bytes at the last line; the last run on it has no place for errors.
fn main(rt: HostRuntime) {
    let mut runs = Runs {
        rt: &rt,
        input: [0; 32768],
        lines: [0; 491610],
    };
    runs.of_arguments();
    runs.in_parts(b"longer_than_the_buffer", 32768);
    runs.unwritten(b"example", STANDARD_OUTPUT);
    runs.unwritten(b"no_bytes", STANDARD_OUTPUT);
    runs.unwritten(b"example", -1);
    runs.closed();
}
