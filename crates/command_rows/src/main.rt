//! Plays sessions of the command over objects in memory, and prints what a terminal would show.
//!
//! Each word of the command line names a file in `data/`. Of its lines those that begin with `$ ` or `> ` are typed,
//! and all others are headings. Every line is printed as it stands, and behind a typed command what it answers:
//!
//!     $ cat > a.c                      begins a file, which the lines `> ..` behind it fill
//!     $ printf 'int x;\n' > a.c        a file of just these bytes, with escapes; `>>` adds to a file
//!     $ repeat 99 '+1' >> a.c          the same, so many times over
//!     $ rm *                           forgets the files
//!     $ hlo opt a.c                    runs the command
//!     $ hlo run a.c < in.txt           gives it a file as its input
//!     $ OUT=2,3 hlo opt a.c            lets the calls 2 and 3 of `out` fail; likewise ERR, SHELF, INPUT, DISK
//!     $ BENT=2,3 hlo opt a.c           turns bit 3 over in the bytes of the second read of the disk
//!
//! What it puts out on `out` stands there as it is, each line of `err` behind `2> `, and its status in brackets,
//! with the cost of the program where `opt` reports one. The escapes, both ways, are `\n`, `\r`, `\t`, `\\` and
//! `\xHH`; a line that ends in `\` has no line feed.
#![tactic(auto)]

mod escapes;
mod failing;
mod files;
mod serving;
mod session;

use session::Session;
use std::io::Write;
use std::{env, fs, io};

fn main(rt: HostRuntime) -> io::Result<()> {
    let names: Vec<String> = env::args(&rt)?.skip(1).collect(rt.alloc())?;
    for name in &names {
        play(&rt, name.as_str())?;
    }
    Ok(())
}

/// Prints the session of a file.
fn play(rt: &HostRuntime, name: &str) -> io::Result<()> {
    let text = fs::read_to_string(rt, name)?;
    let mut session = Session::new(rt.alloc());
    for line in text.as_str().lines() {
        let shown = session.line(rt.alloc(), line)?;
        rt.stdout().write_all(shown.as_slice())?;
    }
    Ok(())
}
