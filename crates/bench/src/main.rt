// Writes the bench record of standard input, a table and then events, to standard output.
#![tactic(auto)]

fn main(rt: HostRuntime) {
    let mut input = [0; 32768];
    let mut lines = [0; 491610];
    recorder::write_standard_record(&rt, &mut input, &mut lines);
}
