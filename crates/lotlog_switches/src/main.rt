// The log of its input in pieces of seven bytes, so that lines arrive cut in their middle.
#![tactic(auto)]

fn main(rt: HostRuntime) {
    let mut input = [0u8; 7];
    let mut output = [0u8; 100];
    lotstream::run(
        &rt,
        &mut rt.stdin(),
        &mut rt.stdout(),
        &mut input,
        &mut output,
    );
}
