// What holds of the bytes of numbers, data, duties and shares.
ghost use Rattle.wire.specs.Coding.{NumbersReadBack, DataReadsBack, DutyReadsBack, ShareReadsBack};

// A number that fits into some bytes is read back from them.
#[tactic(auto, using(crate::specs::CodingLemmas::numbers))]
pub fn numbers_read_back_holds()
    ensures { NumbersReadBack }
{}

// Data that an event can carry is read back from its 128 bytes.
#[tactic(auto, using(crate::specs::Laws::data_coding))]
pub fn data_reads_back_holds()
    ensures { DataReadsBack }
{}

// A duty that an event can carry is read back from its 24 bytes.
#[tactic(auto, using(crate::specs::Laws::duty_coding))]
pub fn duty_reads_back_holds()
    ensures { DutyReadsBack }
{}

// A share that an event can carry is read back from its 137 bytes.
#[tactic(auto, using(crate::specs::Laws::share_coding))]
pub fn share_reads_back_holds()
    ensures { ShareReadsBack }
{}
