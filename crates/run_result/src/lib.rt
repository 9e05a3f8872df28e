// The public call that copies the colours of a finished run.
#![tactic(auto)]

ghost use Rattle.std.specs.Prelude.{◌≡◌};
ghost use Rattle.answer.specs.Refusals.{refusal_of};
ghost use Rattle.answer.specs.Outcome.{outcome};
ghost use Rattle.quantizer.specs.Course.{course_in};
ghost use Rattle.run_check.specs.Reads.{memory_in};
ghost use Rattle.run_stages.specs.Calls.{result_call};

use answer::Refusal;
use quantizer::Course;
use run_check::Memory;

// Nothing, or the first rule that is broken; then `out` stays as it is.
pub fn result(course: &Course, held: &Memory, out: &mut [f32]) -> Result<(), Refusal>
    ensures { outcome (refusal_of result) out.new
        ≡ result_call (course_in course.now)
        (memory_in held.now) out.old }
{
    run_check::check_result(course, held, out)?;
    run_memory::copy(held.palette, out);
    Ok(())
}
