// lotlog, with large reads and few writes.
#![tactic(auto)]

fn main(rt: HostRuntime) {
    let mut input = io::large_buffer();
    let mut output = io::large_buffer();
    lotstream::run(
        &rt,
        &mut rt.stdin(),
        &mut rt.stdout(),
        &mut input,
        &mut output,
    );
}
