// The steps of a case: events, calls on the table, questions, the page, test loads, and changes that make a state that no events reach.
ghost use Rattle.std.specs.Prelude.{◌≤◌};

use crate::print::{
    say, say_answer, say_bytes, say_ceilings, say_length, say_named, say_number, say_rank,
    say_ranks, say_refused,
};
use crate::text::number_of;
use state::State;

// The kind of event that the letter stands for: S R W U F A C Z V, and 10 for others.
fn kind_of(letter: u8) -> u8 {
    match letter {
        b'S' => 1,
        b'R' => 2,
        b'W' => 3,
        b'U' => 4,
        b'F' => 5,
        b'A' => 6,
        b'C' => 7,
        b'Z' => 8,
        b'V' => 9,
        _ => 10,
    }
}

// An event: writes its answer, returns the next state.
fn play(state: State, letter: u8, rank: u8, object: u8) -> State {
    let outcome = manager::event(state, kind_of(letter), rank, object);
    let answer = outcome.answer;
    say_answer(answer);
    outcome.state
}

// T: writes how many bytes of the table the reader used, or its refusal.
fn read_table(bytes: &[u8]) {
    let read = table::read_table(bytes);
    match read.ended {
        Ok(()) => say(b" accepted, bytes ", read.used as u64),
        Err(refusal) => say_refused(refusal.number()),
    }
}

// E: writes the part of the table bytes that holds the job's entries, or the refusal.
fn read_entries(bytes: &[u8], rank: u8) {
    let mut number = 0;
    let part = table::job_entries(bytes, rank, &mut number);
    if number != 0 {
        say_refused(number);
    }
    say_bytes(part);
}

// L: lends the writer a buffer of 12 sevens; writes its answer and the buffer after it.
fn write_table(state: State) {
    let mut buffer = [7; 12];
    say_length(table_writer::write_table(state, &mut buffer));
    io::write_all(1, b", buffer");
    say_bytes(&buffer);
}

// The room of so many lines of the page, at most 6, less so many bytes.
fn page_room(lines: u8, less: u8) -> usize
    ensures { result ≤ 126 }
{
    if lines > 6 {
        return 0;
    }
    (21 * lines as usize).saturating_sub(less as usize)
}

// Lends the page writer the buffer; writes its answer and the buffer after it.
fn write_page(state: State, buffer: &mut [u8]) {
    say_length(page::page(state, buffer));
    io::write_all(1, b", buffer\n");
    io::write_all(1, buffer);
}

// P: the page in the room of so many lines, less so many bytes, full of dots.
fn show_page(state: State, lines: u8, less: u8) {
    let mut buffer = [b'.'; 126];
    let room = page_room(lines, less);
    write_page(state, &mut buffer[..room]);
}

// G: lends the generator a buffer of 12 sevens for so many events from the seed; writes its answer and the buffer after it.
fn make_events(state: State, seed: u8, count: u8) {
    let mut buffer = [7; 12];
    let mut next = seed as u32;
    if let Err(refusal) = generator::make_events(state, &mut next, count as usize, &mut buffer) {
        say_refused(refusal.number());
        io::write_all(1, b",");
    }
    say(b" seed ", next as u64);
    io::write_all(1, b", buffer");
    say_bytes(&buffer);
}

// A question: n for the lock that the job names, i for its inherited rank, p for the rank that the processor runs, c for the object's ceilings.
fn ask(state: State, letter: u8, rank: u8, object: u8) {
    match letter {
        b'n' => say_named(questions::named_lock(state, rank)),
        b'i' => say_rank(questions::inherited_rank(state, rank)),
        b'p' => say_rank(questions::running(state, rank)),
        _ => say_ceilings(questions::ceilings(state, object)),
    }
}

// h: writes who holds object 1 to read it, who to write it, and whether it is certified.
fn show_holders(state: State) {
    io::write_all(1, b" readers");
    say_ranks(state.readers[0]);
    io::write_all(1, b", writers");
    say_ranks(state.writers[0]);
    if state::is_marked(&state.certified, 1) {
        io::write_all(1, b", certified");
    }
}

// H: writes the rank that the state carries as its most urgent holder.
fn show_carried(state: State) {
    say(b" carries ", state.holder as u64);
}

// The request of a job that waits for the object: q to read it, v to write it, else to certify it.
fn request_of(letter: u8, object: u8) -> u16 {
    match letter {
        b'q' => 256 + object as u16,
        b'v' => 512 + object as u16,
        _ => 768 + object as u16,
    }
}

// A change of a job: + makes it active, z asleep, r and w give it a read lock and a write lock on the object, q, v and m have it wait to read, write and
// certify it.
fn change_job(state: State, letter: u8, rank: u8, object: u8) -> State {
    let mut next = state;
    if !(1..=64).contains(&rank) {
        return next;
    }
    match letter {
        b'+' => next.active = ranks::with(next.active, rank),
        b'z' => next.sleeping = ranks::with(next.sleeping, rank),
        _ if !(1..=128).contains(&object) => {}
        b'r' => {
            let readers = &mut next.readers[object as usize - 1];
            *readers = ranks::with(*readers, rank);
        }
        b'w' => {
            let writers = &mut next.writers[object as usize - 1];
            *writers = ranks::with(*writers, rank);
        }
        _ => next.request[rank as usize - 1] = request_of(letter, object),
    }
    next
}

// A change of the state: k certifies the object, e makes the version so much, o the rank that is carried as the most urgent holder.
fn change_state(state: State, letter: u8, number: u8, object: u8) -> State {
    let mut next = state;
    match letter {
        b'o' => next.holder = number,
        b'e' => next.counts.version = number,
        _ if !(1..=128).contains(&object) => {}
        _ => {
            let i = object - 1;
            let word = &mut next.certified[i as usize / 64];
            *word = ranks::with(*word, i % 64 + 1);
        }
    }
    next
}

// One step: writes it in brackets, then what came out; returns the next state.
fn run_step(bytes: &[u8], state: State, letter: u8, rank: u8, object: u8) -> State {
    let letters = [letter];
    io::write_all(1, b" [");
    io::write_all(1, &letters);
    say_number(rank);
    say_number(object);
    io::write_all(1, b"]");
    match letter {
        b'T' => read_table(bytes),
        b'E' => read_entries(bytes, rank),
        b'L' => write_table(state),
        b'P' => show_page(state, rank, object),
        b'G' => make_events(state, rank, object),
        b'h' => show_holders(state),
        b'H' => show_carried(state),
        b'n' | b'i' | b'p' | b'c' => ask(state, letter, rank, object),
        b'+' | b'z' | b'r' | b'w' | b'q' | b'v' | b'm' => {
            return change_job(state, letter, rank, object);
        }
        b'k' | b'e' | b'o' => return change_state(state, letter, rank, object),
        _ => return play(state, letter, rank, object),
    }
    state
}

// Runs the steps from the table's fresh state, each over the state that the one before it returned. A step is four characters:
// a space, its letter, a rank and an object.
pub(crate) fn run_steps(bytes: &[u8], steps: &[u8]) {
    let mut state = table::read_table(bytes).state;
    for [_, letter, rank, object] in steps.as_chunks::<4>().0 {
        state = run_step(bytes, state, *letter, number_of(*rank), number_of(*object));
    }
}
