// The draws of a run that was accepted: each makes all that is then due, and none is made past a stop or past an allotment.
#![tactic(auto)]

ghost use Rattle.std.specs.Prelude.{◌≡◌, length};
ghost use Rattle.answer.specs.Outcome.{outcome};
ghost use Rattle.quantizer.specs.Course.{course_in};
ghost use Rattle.run_stages.specs.State.{state_with};
ghost use Rattle.run_stages.specs.Stages.{step, advance, draws_of};
ghost use Rattle.run_stages.specs.Calls.{record_words, record_of, memory, memory_of};
ghost use Rattle.run_steps.specs.Running.{Running, Ongoing};

use quantizer::Course;
use run_stages::Record;

// One draw, and all that is then due.
fn step(
    course: &Course,
    order: &mut [u32],
    hints: &mut [u32],
    palette: &mut [f32],
    least: &mut [f32],
    r: Record,
) -> Record
    requires { Ongoing (course_in course.now) (state_with order.old hints.old palette.old least.old r) }
    ensures { state_with order.new hints.new palette.new least.new result
        ≡ step (course_in course.now)
        (state_with order.old hints.old palette.old least.old r) }
{
    let drawn = run_draw::draw(course, order, hints, palette, r);
    run_round::settle(course, order, hints, palette, least, drawn)
}

// The draws made, of a run that was accepted. The record is read and written once.
pub fn advance_work(
    course: &Course,
    order: &mut [u32],
    hints: &mut [u32],
    palette: &mut [f32],
    least: &mut [f32],
    words: &mut [u64],
    allotment: u64,
) -> u64
    requires { Running (course_in course.now) (state_with order.old hints.old palette.old least.old (record_of words.old)) × (length words.old ≡ record_words) }
    ensures { outcome result (memory order.new hints.new palette.new least.new words.new)
        ≡ outcome
        (draws_of (course_in course.now) allotment
        (state_with order.old hints.old palette.old least.old (record_of words.old)))
        (memory_of
        (advance (course_in course.now) allotment
        (state_with order.old hints.old palette.old least.old (record_of words.old)))) }
{
    let mut r = run_record::record_of(words);
    // Counted, since the count is the answer, and the record may end the draws before the allotment does.
    let mut drawn = 0u64;
    while run_record::goes_on(drawn, allotment, r.stage) {
        r = step(course, order, hints, palette, least, r);
        drawn += 1;
    }
    run_memory::write_record(words, r);
    drawn
}
