// What holds of the bytes of events and answers: each contract is a theorem.
ghost use Rattle.events.specs.Codec.{EventsReadBack, ReadIsReadable, ReadIsWrittenBack, PlaceIsLongestFront, AnswersReadBack};
ghost use Rattle.events.specs.Rows.{EntriesStandAtPlaces};

// An event is read back as it was written.
#[tactic(auto, using(crate::proofs::EventLaws::events_back))]
pub fn events_read_back_holds()
    ensures { EventsReadBack }
{}

// Whatever bytes are read as, bytes can carry.
#[tactic(auto, using(crate::proofs::EventLaws::read_readable))]
pub fn read_is_readable_holds()
    ensures { ReadIsReadable }
{}

// Bytes that are an event are the bytes of just that event.
#[tactic(auto, using(crate::proofs::EventLaws::read_written))]
pub fn read_is_written_back_holds()
    ensures { ReadIsWrittenBack }
{}

// Bytes that are no event cease to be one where the longest of their fronts ends with which an event begins.
pub fn place_is_longest_front_holds()
    ensures { PlaceIsLongestFront }
{}

// An answer is read back as it was written.
#[tactic(auto, using(crate::proofs::AnswerLaws::answers_back))]
pub fn answers_read_back_holds()
    ensures { AnswersReadBack }
{}

// Entries that are read one after the other stand at their places.
#[tactic(auto, using(crate::proofs::RowEntries::entries_stand_at_places))]
pub fn entries_stand_at_places_holds()
    ensures { EntriesStandAtPlaces }
{}
