// The explainer program: standard input to standard output. What it prints is `explain_input`'s of crate `program`, whose promise is the theory's `explainer`.
#![tactic(auto)]

use reading_input::read_full;
use std::io;

fn main(rt: HostRuntime) -> io::Result<()> {
    let mut input = [0u8; program::explaining::EXPLAINER_BYTES];
    let n = read_full(&mut rt.stdin(), &mut input)?;
    let mut out = [0u8; program::explaining::EXPLAINED];
    let k = program::explaining::explain_input(&input[..n], &mut out);
    rt.write_all(&out[..k])
}
