// Plays one client over files of lines, and prints its answer to each.
#![tactic(auto)]

mod play;
mod reply;
mod trouble;

use crate::play::play;
use crate::trouble::Stopped;
use std::env;
use std::process::ExitCode;

fn main(rt: HostRuntime) -> ExitCode {
    match played(&rt) {
        Ok(()) => ExitCode::SUCCESS,
        Err(Stopped::Unprinted) => ExitCode::FAILURE,
        Err(stopped) => {
            let _ = eprintln!(rt; "run_client: {stopped}");
            ExitCode::FAILURE
        }
    }
}

// Plays each file that is named.
fn played(rt: &HostRuntime) -> Result<(), Stopped> {
    let words = env::args(rt)
        .map_err(|_| Stopped::Arguments)?
        .collect::<Vec<String>>(rt.alloc())
        .map_err(|_| Stopped::Memory)?;
    if words.len() < 2 {
        return Err(Stopped::NoFile);
    }
    let several = words.len() > 2;
    for name in words.into_iter().skip(1) {
        if several {
            let _ = println!(rt; "# {name}");
        }
        play(rt, name)?;
    }
    Ok(())
}
