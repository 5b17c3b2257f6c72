// The last step of a command that writes a held file anew.
ghost use Rattle.std.specs.Prelude.{◌≡◌, ◌∷◌, [], IfSome};
ghost use Rattle.std.specs.Option.{ForSome};
ghost use Rattle.rip_outside.specs.Files.{IsHeld};
ghost use Rattle.rip_outside.specs.Outputs.{part_of};
ghost use Rattle.rip_outside.specs.Causes.{NoneFell};
ghost use Rattle.engine_steps.specs.Steps.{ComesToEnd, EndsWithCause};
ghost use Rattle.engine_steps.specs.Outcome.{Leaves, output, written};
ghost use Rattle.engine_steps.specs.Crashing.{CrashSafe};

use crate::steps::{Answer, Stop, put_stop};
use parity_store::replace;
use rip_outside::{Shelf, Text};
use rip_report::Status;

/// The last step of a command that stores bytes under a name that is held: they stand there in place of what it held, and
/// the text is to be printed.
pub fn replace_out<S: Shelf>(
    shelf: &mut S,
    bytes: &[u8],
    part: &str,
    out: &str,
    text: Text,
) -> Result<Answer, Stop>
    requires part { part.now ≡ part_of out.now }
    requires held { ForSome (S.held shelf.old) (IsHeld out.now) }
    ensures leaves { IfSome (S.held shelf.old) (λ files. Leaves (λ o. o ≡ written text (output out.now bytes.now ∷ [])) files result (S.held shelf.new)) }
    ensures crashes { CrashSafe (λ _ o. o ≡ written text (output out.now bytes.now ∷ [])) (ComesToEnd result) (S.crashes shelf.old) (S.crashes shelf.new) }
    ensures cause { EndsWithCause (S.faults shelf.old) (S.faults shelf.new) result }
    ensures later { NoneFell (S.faults shelf.old) (S.faults shelf.new) }
    ensures taken { S.taken shelf.new ≡ S.taken shelf.old }
{
    match replace(shelf, bytes, part, out) {
        Ok(()) => Ok(Answer {
            status: Status::Done,
            text,
        }),
        Err(fail) => Err(put_stop(fail)),
    }
}
