//! Plays sessions of the passes over routines, and prints what each makes of them.
//!
//! Each word of the command line names a file in `data/`. The text of an IL program stands there, from `hlo-il 1` to
//! `done`, and behind it a line `$ PASS` for each pass that is asked about it. Every line is printed as it stands, and
//! behind a `$ ` what the pass answers: each routine as it changes it, or lines for what it tells. All other lines are
//! headings.
//!
//! The passes: `propagate`, `fold_branches`, `drop_unreachable`, `drop_dead_writes`, `merge_blocks` and `simplify`
//! change routines; `site_constants` tells the words that are known at each call, `summarise` a routine's summary,
//! `call_graph` the cost, the routines that `main` reaches, and the others, and `choose LIMIT` the calls that are inlined
//! under a limit of the cost, with their waves.
#![tactic(auto)]

mod calls;
mod changes;
mod choosing;
mod groups;
mod profiles;
mod session;
mod telling;

use session::Session;
use std::io::Write;
use std::{env, fs, io};

fn main(rt: HostRuntime) -> io::Result<()> {
    let names: Vec<String> = env::args(&rt)?.skip(1).collect(rt.alloc())?;
    for name in &names {
        play(&rt, name.as_str())?;
    }
    Ok(())
}

/// Prints the session of a file.
fn play(rt: &HostRuntime, name: &str) -> io::Result<()> {
    let text = fs::read_to_string(rt, name)?;
    let mut session = Session::new(rt.alloc());
    for line in text.as_str().lines() {
        let shown = session.line(rt.alloc(), line)?;
        rt.stdout().write_all(shown.as_slice())?;
    }
    Ok(())
}
