// The past as text.
ghost use Rattle.std.specs.Prelude.{◌≡◌, map, IfOk, string_bytes};
ghost use Rattle.wire.specs.Meaning.{entry_of};
ghost use Rattle.text.specs.Text.{past_text};

use std::alloc::{AllocError, Global};
use wire::Entry;

// The past as a client keeps it, the largest target first: as text it goes from the least target to the largest.
// Stays: Display can't be written here for a slice, and a struct around it, made for one call, would be no plainer.
#[tactic(auto, using(crate::proofs::Listed::past_none, std::proofs::lemmas::List::flat_map_more))]
pub fn past_text(heap: Global, past: &[Entry]) -> Result<String, AllocError>
    ensures { IfOk result (λ t. string_bytes t ≡ past_text (map entry_of past.now)) }
{
    let [newer @ .., oldest] = past else {
        return format!(in heap; "past");
    };
    let mut text = format!(in heap; "past {oldest}")?;
    for entry in newer.iter().rev() {
        write!(text, ", {entry}")?;
    }
    Ok(text)
}
