//! The program `klsm`: its words, standard input and standard output, and a status.
#![tactic(auto)]

use klsm_tool::{Status, TerminalLine, Terminals, run_program};
use std::io;
use std::io::IsTerminal;

fn main(rt: HostRuntime) -> Status {
    let terminals = Terminals {
        input: rt.stdin().is_terminal(),
        output: rt.stdout().is_terminal(),
        error: rt.stderr().is_terminal(),
    };
    let progress = TerminalLine::new(&rt, terminals);
    run_program(&rt, rt.reader(), &mut io::writer(&rt), &progress)
}
