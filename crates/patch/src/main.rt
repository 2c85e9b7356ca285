// `patch`: reads a job on standard input and prints its cut outline as SVG path data, or `refused N P`. Every decision is `printing::print`'s;
// a byte more than a job may have is read, so that it can tell a longer one. A read or a write that fails ends it with that error.
#![tactic(auto)]

use std::io;

// The first bytes of a line, and a newline.
fn say(rt: &impl Print, line: &[u8], length: usize) -> io::Result<()> {
    if length <= line.len() {
        rt.write_all(&line[..length])?;
    }
    rt.write_all(b"\n")
}

fn main(rt: HostRuntime) -> io::Result<()> {
    let mut job = [0u8; 32769];
    let read = reading::read_full(&mut rt.stdin(), &mut job)?;
    let mut line = [0u8; 65536];
    let length = printing::print(&job[..read], &mut line);
    say(&rt, &line, length)
}
