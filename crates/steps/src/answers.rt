// Answers: a refusal, or what was done, of few entries in each row.
ghost use Rattle.std.specs.Prelude.{◌≡◌, true};
ghost use Rattle.protocol.specs.Client.{refused};
ghost use Rattle.protocol.specs.Meaning.{refusal_of};
ghost use Rattle.protocol.specs.Refusals.{number as number_of};
ghost use Rattle.events.specs.Writing.{all_few};
ghost use Rattle.steps.specs.Served.{Writes, deeds_of};

use events::{Deeds, write_done, write_refused};
use protocol::Refusal;
use wire::Short;

// Writes that an event is turned away.
pub(crate) fn refuse(out: &mut [u8], refusal: Refusal) -> Result<usize, Short>
    ensures { Writes (refused (number_of (refusal_of refusal)) 0) out.old out.new result }
{
    write_refused(out, u8::from(refusal), 0)
}

// Writes what is done.
pub(crate) fn write_deeds(out: &mut [u8], deeds: &Deeds) -> Result<usize, Short>
    requires { all_few deeds.now ≡ true }
    ensures { Writes (deeds_of deeds.now) out.old out.new result }
{
    write_done(out, deeds).map_err(|_| Short)
}
