// Runs the cases that standard input lists: a line for each, with its name, its steps and what came out.
#![tactic(auto)]

mod print;
mod steps;
mod text;

use steps::run_steps;
use text::{length_through, read_numbers};

// One case, on the table of a table line.
fn run_case(table_line: &[u8], line: &[u8]) {
    let mut buffer = io::buffer();
    let used = read_numbers(table_line, &mut buffer);
    let name = length_through(line, b':');
    io::write_all(1, &line[..name]);
    run_steps(&buffer[..used], &line[name..]);
    io::write_all(1, b"\n");
}

// Runs the cases of the text. A line that begins with = is the table for the lines behind it, one that begins with # is a remark.
fn run_cases(text: &[u8]) {
    let mut table_line = text;
    for line in text.split_inclusive(|byte| *byte == b'\n') {
        match line.first() {
            Some(b'=') => table_line = line,
            Some(b'#') | None => {}
            Some(_) => run_case(table_line, line),
        }
    }
}

// The cases of standard input.
fn main() {
    let mut text = io::large_buffer();
    let length = io::read_full(0, &mut text);
    run_cases(&text[..length]);
}
