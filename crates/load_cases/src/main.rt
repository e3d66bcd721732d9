// Runs the load on the seeds, counts and tables that the arguments name, with the bench on the table and the load behind it, then the load where nothing can
// be written, and one of three parts beside the same one made at once. Each load is followed by how it ended.
#![tactic(auto)]

ghost use Rattle.std.specs.Prelude.{◌≤◌, length};

use arguments::argument;
use descriptors::STANDARD_OUTPUT;
use files::{Opened, open};
use loader::{EventBuffer, LoadError, Loaded, TableBuffer};
use std::env::Env;
use std::fs::File;
use std::io::{Input, Read};
use std::os::fd::AsRawFd;
use std::rt::Files;

// What all runs share: the system and the two buffers.
#[derive(Drop)]
struct Runs<'a, R> {
    rt: &'a R,
    table: TableBuffer,
    events: EventBuffer,
}

// The file, emptied or new, for writing.
fn create<R: Files<File = File>>(rt: &R, path: &str) -> Opened {
    Opened(File::create(rt, path).ok())
}

// Reads until the buffer is full, the input ends or a read fails; answers how many bytes came to the buffer's front.
fn read_full<R: Read>(from: &mut R, bytes: &mut [u8]) -> usize
    ensures { result ≤ length bytes.new }
{
    let mut held = 0;
    while held < bytes.len() {
        let n = from.read(&mut bytes[held..]).unwrap_or(0);
        if n == 0 {
            return held;
        }
        held += n;
    }
    held
}

// Writes the text and, behind it, the number.
fn say(text: &[u8], n: u64) {
    io::write_all(STANDARD_OUTPUT, text);
    io::print_decimal(STANDARD_OUTPUT, n);
}

// Writes what ended a run.
fn say_ended(ended: Result<(), LoadError>) {
    let word: &[u8] = match ended {
        Ok(()) => b"whole",
        Err(LoadError::NotTwo) => b"not two arguments",
        Err(LoadError::BadSeed) => b"bad seed",
        Err(LoadError::BadCount) => b"bad count",
        Err(LoadError::NotRead) => b"not read",
        Err(LoadError::Refused(refusal)) => {
            return say(b"refused by ", refusal.number() as u64);
        }
        Err(LoadError::NotWritten) => b"not written",
    };
    io::write_all(STANDARD_OUTPUT, word);
}

// Writes how a run ended: its outcome, how many bytes came, how many events were made, and the seed behind them.
fn say_loaded(loaded: Loaded) {
    say_ended(loaded.ended);
    say(b", bytes ", loaded.held as u64);
    say(b", events ", loaded.made as u64);
    say(b", seed ", loaded.seed as u64);
    io::write_all(STANDARD_OUTPUT, b"\n");
}

// Writes the first 4096 bytes of the file to the descriptor, or as many as it has.
fn copy<R: Files<File = File>>(rt: &R, path: &[u8], to: i32) {
    let mut bytes = io::buffer();
    let length = read_full(&mut open(rt, path), &mut bytes);
    io::write_all(to, &bytes[..length]);
}

// Writes the bench record of the file.
fn write_record<R: Files<File = File>>(rt: &R, path: &[u8]) {
    recorder::write_record(
        &mut open(rt, path),
        STANDARD_OUTPUT,
        STANDARD_OUTPUT,
        32768,
        &mut [0; 32768],
        &mut [0; 491610],
    );
    io::write_all(STANDARD_OUTPUT, b"\n");
}

// Writes whether the file `written` has what the generator makes at once of 50000 events from seed 7, on the table in the buffer.
fn say_same<R: Files<File = File>>(rt: &R, table: &TableBuffer) {
    let state = table::read_table(table).state;
    let mut whole = [0; 150000];
    let _ = generator::make_events(state, &mut 7, 50000, &mut whole);
    let mut written = [0; 150001];
    let length = read_full(&mut open(rt, b"written"), &mut written);
    if whole.as_slice() == &written[..length] {
        io::write_all(STANDARD_OUTPUT, b"the same as made at once\n");
    } else {
        io::write_all(STANDARD_OUTPUT, b"not the same as made at once\n");
    }
}

impl<R: Files<File = File> + Env + Input> Runs<'_, R> {
    // Writes the load that the texts ask for to the descriptor, on the table of the file, which comes at most so many bytes at a time; then how it ended.
    fn write_load(
        &mut self,
        seed_text: &[u8],
        count_text: &[u8],
        path: &[u8],
        to: i32,
        most: usize,
    ) {
        say_loaded(loader::write_load(
            seed_text,
            count_text,
            &mut open(self.rt, path),
            to,
            STANDARD_OUTPUT,
            most,
            &mut self.table,
            &mut self.events,
        ));
    }

    // The bench on the table of the file and the load that the texts ask for, behind it in the file `input`.
    fn with_bench(&mut self, seed_text: &[u8], count_text: &[u8], path: &[u8], most: usize) {
        io::write_all(STANDARD_OUTPUT, b"load ");
        io::write_all(STANDARD_OUTPUT, seed_text);
        io::write_all(STANDARD_OUTPUT, b" ");
        io::write_all(STANDARD_OUTPUT, count_text);
        io::write_all(STANDARD_OUTPUT, b" < ");
        io::write_all(STANDARD_OUTPUT, path);
        say(b", at most ", most as u64);
        io::write_all(STANDARD_OUTPUT, b" bytes at a time:\n");
        let input = create(self.rt, "input");
        let to = input.as_raw_fd();
        copy(self.rt, path, to);
        self.write_load(seed_text, count_text, path, to, most);
        write_record(self.rt, b"input");
    }

    // The same of all arguments, as far as there are fewer than 1000, three by three: a seed, a count and the file of a table.
    fn of_arguments(&mut self) {
        for i in (1..998).step_by(3) {
            let mut seed_buffer = io::buffer();
            let mut count_buffer = io::buffer();
            let mut path_buffer = io::buffer();
            let (Some(seed_text), Some(count_text), Some(path)) = (
                argument(self.rt, i, &mut seed_buffer),
                argument(self.rt, i + 1, &mut count_buffer),
                argument(self.rt, i + 2, &mut path_buffer),
            ) else {
                return;
            };
            self.with_bench(seed_text, count_text, path, 32768);
        }
    }

    // A load whose events go to a descriptor that is open for reading alone.
    fn unwritten(&mut self, path: &[u8]) {
        io::write_all(
            STANDARD_OUTPUT,
            b"50000 events to where nothing can be written:\n",
        );
        let read_alone = open(self.rt, path);
        self.write_load(b"7", b"50000", path, read_alone.as_raw_fd(), 32768);
    }

    // A load of three parts, and whether it is the same as made at once.
    fn three_parts(&mut self, path: &[u8]) {
        io::write_all(STANDARD_OUTPUT, b"50000 events:\n");
        let written = create(self.rt, "written");
        self.write_load(b"7", b"50000", path, written.as_raw_fd(), 32768);
        say_same(self.rt, &self.table);
    }

    // The load that the program's own arguments ask for, which are not two: what is said of that is not for standard output.
    fn standard(&mut self) {
        say_loaded(loader::write_standard_load(self.rt, &mut self.table, &mut self.events));
    }
}

// All runs.
fn main(rt: HostRuntime) {
    let mut runs = Runs {
        rt: &rt,
        table: [0; 32768],
        events: [0; 65535],
    };
    runs.of_arguments();
    runs.with_bench(b"7", b"4", b"example", 1);
    runs.unwritten(b"example");
    runs.three_parts(b"example");
    runs.standard();
}
