// What is said to a line.
ghost use Rattle.std.specs.Prelude.{◌≡◌, IfOk, string_bytes};
ghost use Rattle.protocol.specs.Meaning.{limits_of};
ghost use Rattle.client.specs.Stage.{none};
ghost use Rattle.text.specs.Meaning.{request_of};
ghost use Rattle.text.specs.Text.{past};
ghost use Rattle.run_client.specs.Reply.{Answers, Says, Opened, RepliesTo};

use crate::trouble::Trouble;
use client::Client;
use events::read_answer;
use lines::{event_bytes, read_limits, read_request};
use std::alloc::Global;
use text::{Request, answer_text, may_text, past_text};
use wire::Entry;

// A client that is opened with the limits of a line.
pub fn opened(heap: Global, line: &str) -> Result<Client, Trouble>
    ensures { IfOk result (λ c. Opened c.limits line.now) }
{
    let limits = read_limits(heap, line)?;
    Ok(Client::open(limits)?)
}

// What the client answers to a line.
pub fn reply(heap: Global, client: &Client, line: &str) -> Result<String, Trouble>
    ensures { IfOk result (λ t. RepliesTo (limits_of none client.now.limits) line.now (string_bytes t)) }
{
    let request = read_request(heap, line)?;
    match event_bytes(heap, &request)? {
        Some(event) => answered(heap, client, event.as_slice()),
        None => told(heap, client, &request),
    }
}

// What the client answers to an event's bytes.
fn answered(heap: Global, client: &Client, event: &[u8]) -> Result<String, Trouble>
    ensures { IfOk result (λ t. Answers (limits_of none client.now.limits) event.now (string_bytes t)) }
{
    let mut bytes = vec![in heap; 0u8; 29 + 137 * usize::from(client.limits.waiting)]?;
    let room = bytes.as_mut_slice();
    let n = client.handle(event, room)?;
    let answer = read_answer(&room[..n]).ok_or(Trouble::Answer)?;
    Ok(answer_text(heap, &answer)?)
}

// What the client says to a question; events are none.
fn told(heap: Global, client: &Client, request: &Request) -> Result<String, Trouble>
    ensures { IfOk result (λ t. Says (limits_of none client.now.limits) (request_of request.now) (string_bytes t)) }
{
    match request {
        Request::May(slot, what) => {
            let may = client.may_decide(*slot, what);
            Ok(String::from_str(heap, may_text(may))?)
        }
        Request::Past => told_past(heap, client),
        _ => Err(Trouble::Answer),
    }
}

// The past, from its largest target on.
fn told_past(heap: Global, client: &Client) -> Result<String, Trouble>
    ensures { IfOk result (λ t. Says (limits_of none client.now.limits) past (string_bytes t)) }
{
    let entries = (0..usize::from(client.limits.kept))
        .map_while(|place| client.past(place))
        .collect::<Vec<Entry>>(heap)?;
    Ok(past_text(heap, entries.as_slice())?)
}
