// Document 01's sample pieces, run: a line for each, with the bits of its numbers, or the refusal. A write that fails ends it with that error.
#![tactic(auto)]

use call::Outline;
use geom::P;
use path::{Anchor, AnchorRef};
use refusal::Refusal;
use session::Edited;
use std::io;

// The bits of x: all zero for a NaN, which no piece has.
fn bits(x: f64) -> u64 {
    if x.is_nan() { 0 } else { x.to_bits() }
}

// A label.
fn say(rt: &impl Print, label: &[u8]) -> io::Result<()> {
    rt.write_all(label)
}

// A number's bits, after a blank.
fn number(rt: &impl Print, x: f64) -> io::Result<()> {
    print!(rt; " {:016x}", bits(x))
}

// A refusal's number and place.
fn refused(rt: &impl Print, why: Refusal) -> io::Result<()> {
    print!(rt; " refused {} {}", u32::from(why.reason), why.place)
}

fn len_of(rt: &impl Print, label: &[u8], x: f64, y: f64) -> io::Result<()> {
    say(rt, label)?;
    match cubic_calls::len(P::new(x, y)) {
        Ok(l) => number(rt, l)?,
        Err(why) => refused(rt, why)?,
    }
    say(rt, b"\n")
}

fn arch() -> [P; 4] {
    [
        P::new(0.0, 0.0),
        P::new(0.0, 4.0),
        P::new(4.0, 4.0),
        P::new(4.0, 0.0),
    ]
}

fn middle(rt: &impl Print) -> io::Result<()> {
    say(rt, b"arch at 0.5")?;
    match cubic_calls::cubic_at(arch(), 0.5) {
        Ok(p) => {
            number(rt, p.x)?;
            number(rt, p.y)?;
        }
        Err(why) => refused(rt, why)?,
    }
    say(rt, b"\n")
}

fn halves(rt: &impl Print) -> io::Result<()> {
    let mut before = [0.0f64; 8];
    let mut after = [0.0f64; 8];
    if let Err(why) = cubic_calls::split_cubic(arch(), 0.5, &mut before, &mut after) {
        refused(rt, why)?;
    }
    say(rt, b"its left half")?;
    for x in before {
        number(rt, x)?;
    }
    say(rt, b"\n")
}

// A text of at most 128 bytes, after a blank.
fn text(rt: &impl Print, written: Result<usize, Refusal>, bytes: &[u8]) -> io::Result<()> {
    match written {
        Ok(n) => {
            say(rt, b" ")?;
            if n <= bytes.len() {
                say(rt, &bytes[..n])?;
            }
            Ok(())
        }
        Err(why) => refused(rt, why),
    }
}

fn writes(rt: &impl Print, label: &[u8], x: f64) -> io::Result<()> {
    say(rt, label)?;
    let mut bytes = [0u8; 128];
    let a = svg_calls::write_num(x, &mut bytes);
    text(rt, a, &bytes)?;
    say(rt, b"\n")
}

// The square of side 8, its corners cut: how many subpaths and anchors, then its text.
fn square(rt: &impl Print, label: &[u8], radii: &[f64], kind: u32) -> io::Result<()> {
    say(rt, label)?;
    let shapes = [2147483652u32];
    let anchors = [
        0.0, 0.0, 0.0, 0.0, 0.0, 0.0, 8.0, 0.0, 8.0, 0.0, 8.0, 0.0, 8.0, 8.0, 8.0, 8.0, 8.0, 8.0,
        0.0, 8.0, 0.0, 8.0, 0.0, 8.0,
    ];
    let mut to_shapes = [0u32; 1];
    let mut to = [0.0f64; 48];
    let a = cut_corners::cut_corners(&shapes, &anchors, radii, kind, &mut to_shapes, &mut to);
    outline(rt, a)?;
    let mut bytes = [0u8; 128];
    let b = svg_calls::to_svg_d(&to_shapes, &to, &mut bytes);
    text(rt, b, &bytes)?;
    say(rt, b"\n")
}

fn outline(rt: &impl Print, made: Result<Outline, Refusal>) -> io::Result<()> {
    match made {
        Ok(o) => print!(rt; " {} {}", o.subpaths, o.anchors),
        Err(why) => refused(rt, why),
    }
}

// One open subpath of so many anchors, all at one point.
fn many(rt: &impl Print, label: &[u8], word: u32) -> io::Result<()> {
    say(rt, label)?;
    let shapes = [word];
    let anchors = [0.0f64; 3078];
    let radii = [0.0f64; 513];
    let mut to_shapes = [0u32; 1];
    let mut to = [0.0f64; 3078];
    let a = cut_corners::cut_corners(&shapes, &anchors, &radii, 0, &mut to_shapes, &mut to);
    outline(rt, a)?;
    say(rt, b"\n")
}

fn edited(rt: &impl Print, label: &[u8], done: Result<Edited, Refusal>) -> io::Result<()> {
    say(rt, label)?;
    match done {
        Ok(e) => print!(rt; " {}", e.recut)?,
        Err(why) => refused(rt, why)?,
    }
    say(rt, b"\n")
}

fn first_anchor() -> AnchorRef {
    AnchorRef {
        subpath: 0,
        anchor: 0,
    }
}

// How many places an edit recuts does not turn on where the anchors are: here they are all in one point.
// Kept: three functions, since each call writes to others of the five lists, and a closure over them would be as long.
fn recuts_of_move(rt: &impl Print, label: &[u8], word: u32) -> io::Result<()> {
    let shapes = [word];
    let mut anchors = [0.0f64; 60];
    let radii = [0.0f64; 10];
    let mut numbers = [0.0f64; 120];
    let mut flags = [0u32; 10];
    let new = Anchor::corner(P::new(1.0, 1.0));
    let a = cached::move_anchor(
        &shapes,
        &mut anchors,
        &radii,
        0,
        &mut numbers,
        &mut flags,
        first_anchor(),
        new,
    );
    edited(rt, label, a)
}

fn recuts_of_radius(rt: &impl Print, label: &[u8], word: u32) -> io::Result<()> {
    let shapes = [word];
    let anchors = [0.0f64; 60];
    let mut radii = [0.0f64; 10];
    let mut numbers = [0.0f64; 120];
    let mut flags = [0u32; 10];
    let a = cached::set_radius(
        &shapes,
        &anchors,
        &mut radii,
        0,
        &mut numbers,
        &mut flags,
        first_anchor(),
        1.0,
    );
    edited(rt, label, a)
}

fn recuts_of_split(rt: &impl Print, label: &[u8], word: u32) -> io::Result<()> {
    let mut shapes = [word];
    let mut anchors = [0.0f64; 66];
    let mut radii = [0.0f64; 11];
    let mut numbers = [0.0f64; 132];
    let mut flags = [0u32; 11];
    let a = cached_split::split_segment(
        &mut shapes,
        &mut anchors,
        &mut radii,
        0,
        &mut numbers,
        &mut flags,
        first_anchor(),
        0.5,
    );
    edited(rt, label, a)
}

fn main(rt: HostRuntime) -> io::Result<()> {
    say(&rt, b"root 2")?;
    number(&rt, root::root(2.0))?;
    say(&rt, b"\n")?;
    len_of(&rt, b"len(5,12)", 5.0, 12.0)?;
    len_of(&rt, b"len(0,0)", 0.0, 0.0)?;
    len_of(&rt, b"len(131072,0)", 131072.0, 0.0)?;
    len_of(&rt, b"len(the next f64,0)", 131072.00000000003, 0.0)?;
    middle(&rt)?;
    halves(&rt)?;
    writes(&rt, b"0.0625 writes", 0.0625)?;
    writes(&rt, b"0.1875 writes", 0.1875)?;
    writes(&rt, b"-0.0004 writes", -0.0004)?;
    writes(&rt, b"131072 writes", 131072.0)?;
    square(&rt, b"square, chamfer", &[2.0, 0.0, 0.0, 0.0], 2)?;
    square(&rt, b"square, round", &[2.0, 0.0, 0.0, 0.0], 0)?;
    square(&rt, b"square, inverted", &[2.0, 0.0, 0.0, 0.0], 1)?;
    square(&rt, b"square, radius 100", &[100.0, 100.0, 100.0, 100.0], 2)?;
    square(&rt, b"square, radius 1e-9", &[1e-9, 1e-9, 1e-9, 1e-9], 2)?;
    many(&rt, b"512 anchors", 512)?;
    many(&rt, b"513 anchors", 513)?;
    recuts_of_move(&rt, b"closed 8, move", 2147483656)?;
    recuts_of_radius(&rt, b"closed 8, radius", 2147483656)?;
    recuts_of_move(&rt, b"closed 5, move", 2147483653)?;
    recuts_of_move(&rt, b"open 10, move of anchor 0", 10)?;
    recuts_of_split(&rt, b"open 10, split at segment 0", 10)
}
