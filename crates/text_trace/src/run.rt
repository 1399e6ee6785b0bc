ghost use Rattle.std.specs.Prelude.{IfOk, OnErr, OnOk, string_bytes};
ghost use Rattle.arm2_exec.specs.Run.{Runs};
ghost use Rattle.asm_text.specs.Appended.{Appends};
ghost use Rattle.text_trace.specs.TraceText.{RefusedRun, TracesRun};

use crate::shown::ShownLately;
use crate::trace_lines::put_trace;
use arm2_exec::{Input, Kind, Machine, Ran};
use std::alloc::AllocError;

/// Steps a machine, once for each input up to the first step that is stopped, and adds the lines of the steps
/// before it.
///
/// # Errors
///
/// An allocation failed. The machine has then made the steps up to the one whose line was refused, and the
/// text has the lines of the steps before that one.
pub fn write_run(
    out: &mut String,
    machine: &mut Machine,
    inputs: &[Input],
) -> Result<Ran, AllocError>
    ensures runs { IfOk result (λ ran. Runs machine.old inputs.now ran machine.new) }
    ensures text { OnOk result
        (Appends (TracesRun machine.old inputs.now) (string_bytes out.old) (string_bytes out.new)) }
    ensures refused { OnErr result
        (RefusedRun machine.old inputs.now machine.new (string_bytes out.old) (string_bytes out.new)) }
{
    let mut ran = Ran::new();
    let mut lately = ShownLately::new();
    for input in inputs {
        let profile = machine.profile();
        let traced = machine.step_traced(*input);
        if let Kind::Stopped(why) = traced.stepped.kind {
            ran.stopped = Some(why);
            return Ok(ran);
        }
        put_trace(out, &traced, &mut lately)?;
        ran.count(&profile, *input, traced.stepped);
    }
    Ok(ran)
}
