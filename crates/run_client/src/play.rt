// One file of lines.
use crate::reply::{opened, reply};
use crate::trouble::{Stopped, Trouble};
use client::Client;
use lines::{Expected, LineError};
use std::alloc::Global;
use std::fs;

// Opens a client with the limits of the file's first line, and prints its answer to each other line.
pub fn play(rt: &HostRuntime, name: String) -> Result<(), Stopped> {
    let Ok(text) = fs::read_to_string(rt, name.as_str()) else {
        return Err(Stopped::Unread(name));
    };
    let mut client = None;
    for (number, line) in (1u64..).zip(text.as_str().lines()) {
        if line.is_empty() || line.starts_with('#') {
            continue;
        }
        match said(rt.alloc(), &mut client, line) {
            Ok(Some(answer)) => println!(rt; "{answer}").map_err(|_| Stopped::Unprinted)?,
            Ok(None) => {}
            Err(trouble) => return Err(Stopped::Line {
                name,
                number,
                trouble,
            }),
        }
    }
    if client.is_none() {
        let trouble = Trouble::Line(LineError::Expected(Expected::Limits));
        return Err(Stopped::Line {
            name,
            number: 1,
            trouble,
        });
    }
    Ok(())
}

// What is said to a line: nothing, where the client is opened with it.
fn said(heap: Global, client: &mut Option<Client>, line: &str) -> Result<Option<String>, Trouble> {
    let Some(opened_before) = client else {
        *client = Some(opened(heap, line)?);
        return Ok(None);
    };
    Ok(Some(reply(heap, opened_before, line)?))
}
