// `edits`: reads a list of calls and a job on standard input, and prints a line for each call, then the outline as SVG path data as the calls
// leave it; or `refused N P`. Every decision is `reporting::report`'s; a byte more than an input may have is read, so that it can tell a longer
// one. A read or a write that fails ends it with that error.
#![tactic(auto)]

use std::io;

fn main(rt: HostRuntime) -> io::Result<()> {
    let mut input = [0u8; 41989];
    let read = reading::read_full(&mut rt.stdin(), &mut input)?;
    let mut lines = [0u8; 16384];
    let mut text = [0u8; 65536];
    let reported = reporting::report(&input[..read], &mut lines, &mut text);
    let calls = reported.lines;
    let last = reported.text;
    rt.write_all(&lines[..calls])?;
    rt.write_all(&text[..last])?;
    rt.write_all(b"\n")
}
