// The finder program: standard input to standard output. What it prints is `program::respond`'s, whose promise is `finder` of `allowance/specs/FinderProgram`.
#![tactic(auto)]

use reading_input::read_full;
use std::io;

fn main(rt: HostRuntime) -> io::Result<()> {
    let mut input = [0u8; program::MAX_INPUT];
    let n = read_full(&mut rt.stdin(), &mut input)?;
    let mut out = [0u8; program::OUTPUT];
    let k = program::respond(&input[..n], &mut out);
    rt.write_all(&out[..k])
}
