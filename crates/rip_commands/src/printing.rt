// What was told is printed.
ghost use Rattle.std.specs.Prelude.{◌≤◌};
ghost use Rattle.rip_commands.specs.Printing.{Printed, Reported};

use engine_steps::Answer;
use rip_outside::Sink;
use rip_report::Status;

/// Prints a text in one call, and answers the status; or SinkFault, where the sink fails.
pub fn report<K: Sink>(out: &mut K, text: &[u8], status: Status) -> Status
    ensures printed { Reported status text.now (K.told out.old) (K.told out.new) (K.faults out.old) (K.faults out.new) result }
    ensures later { K.faults out.old ≤ K.faults out.new }
{
    match out.put(text) {
        Ok(()) => status,
        Err(_) => Status::SinkFault,
    }
}

/// Prints what was told, in one call. Want of memory prints nothing.
pub fn print<K: Sink>(out: &mut K, told: Answer) -> Status
    ensures { Printed told (K.told out.old) (K.told out.new) (K.faults out.old) (K.faults out.new) result }
{
    match told.status {
        Status::WantOfMemory => Status::WantOfMemory,
        status => report(out, told.text.as_str().as_bytes(), status),
    }
}
