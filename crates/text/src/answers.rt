// Answers as text.
ghost use Rattle.std.specs.Prelude.{◌≡◌, ℕ, List, ◌++◌, map, codes, decimal, Some, OnOk, string_bytes, MatchResult};
ghost use Rattle.std.proofs.Common.{ap};
ghost use Rattle.wire.specs.Text.{data_text, duty_text, share_text};
ghost use Rattle.wire.specs.Bytes.{share_from, data_from, duty_from};
ghost use Rattle.events.specs.Layout.{entries, number_from};
ghost use Rattle.events.specs.declared.row.Row.{Row};
ghost use Rattle.events.specs.Meaning.{answer_of, row_shares, row_data, row_duties, row_slots};
ghost use Rattle.text.specs.Short.{ShortRow, ShortRows, ShortAnswer, IfCut};
ghost use Rattle.text.specs.Line.{line_with};
ghost use Rattle.text.specs.Text.{sends_text, hands_in_text, begins_text, ends_text, done_texts, done_text, answer_text};
ghost use Rattle.text.specs.Told.{shares_told, data_told, duties_told, slots_told};

use crate::errors::AnswerError;
use events::{Answer, Row, Rows};
use std::alloc::{AllocError, Global};
use std::fmt::Display;
use wire::{Data, Duty, Fixed, Share};

// What a client did: an entry of a row of an answer. It is told by a verb and the entry's text.
trait Deed: Fixed + Display {
    // The verb, and the space behind it.
    ghost verb: { List ℕ };

    // The text of an entry, by the bytes that it is read from.
    ghost shown: { List ℕ → List ℕ };

    // What is told of a row.
    ghost all: { Row → List (List ℕ) };

    // The verb, and the space behind it.
    // Stays: not a constant, since a clause would compare the place of its text too.
    fn verb() -> &'static str
        ensures { result.now ≡ verb };

    // Writes a lead, and what is told of an entry.
    fn tell(&self, lead: &str, text: &mut String) -> Result<(), AllocError>
        ensures { OnOk result ((bs : List ℕ) → Self.Fixed.reads bs self.now → string_bytes text.new ≡ string_bytes text.old ++ (lead.now ++ (verb ++ shown bs))) }
    {
        write!(text, "{lead}{}{self}", Self::verb())
    }

    // An entry is printed as the text of its bytes.
    ghost prints: { (bs : List ℕ) (x : Self) → Self.Fixed.reads bs x → Self.Display.output x ≡ Some (shown bs) };

    // What is told of a row is what is told of its entries.
    ghost each: { (r : Row) → all r ≡ entries Self.Fixed.width (λ bs. verb ++ shown bs) r.count r.bytes.now };
}

impl Deed for Share {
    ghost verb = { codes "sends " };

    ghost shown = { λ bs. share_text (share_from bs) };

    ghost all = { λ r. map sends_text (row_shares r) };

    fn verb() -> &'static str {
        "sends "
    }

    ghost prints = { λ bs x e. ap (λ s. Some (share_text s)) e };

    ghost each = { λ r. shares_told r };
}

impl Deed for Data {
    ghost verb = { codes "hands in " };

    ghost shown = { λ bs. data_text (data_from bs) };

    ghost all = { λ r. map hands_in_text (row_data r) };

    fn verb() -> &'static str {
        "hands in "
    }

    ghost prints = { λ bs x e. ap (λ d. Some (data_text d)) e };

    ghost each = { λ r. data_told r };
}

impl Deed for Duty {
    ghost verb = { codes "begins " };

    ghost shown = { λ bs. duty_text (duty_from bs) };

    ghost all = { λ r. map begins_text (row_duties r) };

    fn verb() -> &'static str {
        "begins "
    }

    ghost prints = { λ bs x e. ap (λ y. Some (duty_text y)) e };

    ghost each = { λ r. duties_told r };
}

impl Deed for u64 {
    ghost verb = { codes "ends " };

    ghost shown = { λ bs. decimal (number_from bs) };

    ghost all = { λ r. map ends_text (row_slots r) };

    fn verb() -> &'static str {
        "ends "
    }

    ghost prints = { λ bs x e. ap (λ k. Some (decimal k)) e };

    ghost each = { λ r. slots_told r };
}

// What is told of an answer so far, and what stands before the next deed.
#[derive(Drop)]
struct Line {
    text: String,
    lead: &'static str,
}

impl Line {
    // Tells each entry of a row, in its order.
    // Stays: a row may be cut short, so an iterator's items would be options too, known by their places.
    #[tactic(auto, using(crate::proofs::Shorts::memory_exit), unfolding(events::specs::Layout::entries))]
    fn add<T: Deed + Drop>(&mut self, row: &Row) -> Result<(), AnswerError>
        ensures { MatchResult result (λ _. (more : List (List ℕ)) → line_with self.new more ≡ line_with self.old (T.Deed.all row.now ++ more)) (IfCut (ShortRow T.Fixed.width row.now)) }
    {
        for i in 0..row.len() {
            let deed = row.get::<T>(i).ok_or(AnswerError::Cut)?;
            deed.tell(self.lead, &mut self.text)?;
            self.lead = "; ";
        }
        Ok(())
    }
}

// What was done, as a line: the entries of the four rows, one row after the other.
#[tactic(auto, using(crate::proofs::Shorts::memory_exit))]
fn told(heap: Global, rows: &Rows) -> Result<String, AnswerError>
    ensures { MatchResult result (λ t. string_bytes t ≡ done_text (done_texts (row_shares rows.now.sent) (row_data rows.now.handed_in) (row_duties rows.now.begun) (row_slots rows.now.ended))) (IfCut (ShortRows rows.now)) }
{
    let mut line = Line {
        text: String::new(heap),
        lead: "",
    };
    line.add::<Share>(&rows.sent)?;
    line.add::<Data>(&rows.handed_in)?;
    line.add::<Duty>(&rows.begun)?;
    line.add::<u64>(&rows.ended)?;
    if line.text.is_empty() {
        return Ok(format!(in heap; "nothing")?);
    }
    Ok(line.text)
}

// An answer as a line. One with a row whose bytes end before its entries do has none.
// Stays: not by Display, which can't say why an answer has no text.
#[tactic(auto, using(crate::proofs::Shorts::memory_exit), unfolding(crate::specs::Text::answer_text, events::specs::Meaning::answer_of))]
pub fn answer_text(heap: Global, answer: &Answer) -> Result<String, AnswerError>
    ensures { MatchResult result (λ t. string_bytes t ≡ answer_text (answer_of answer.now)) (IfCut (ShortAnswer answer.now)) }
{
    match answer {
        Answer::Refused(number, place) => Ok(format!(in heap; "refused {number} at {place}")?),
        Answer::Done(rows) => told(heap, rows),
    }
}
