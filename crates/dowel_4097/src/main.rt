// The program `dowel`, run on 4,097 bytes, which are too many: a crate is run on one standard input only, and joint B is that of `dowel`. It
// shares `console::answer`; the buffer is each program's own.
#![tactic(auto)]

fn main(rt: HostRuntime) {
    let mut buffer = [0u8; 4096];
    console::answer(&rt, &mut rt.stdin(), &mut buffer);
}
