// Writes a test load to standard output: so many events, from a seed and a count that are its two arguments, on the table of standard input.
#![tactic(auto)]

fn main(rt: HostRuntime) {
    let mut table = [0; 32768];
    let mut events = [0; 65535];
    loader::write_standard_load(&rt, &mut table, &mut events);
}
