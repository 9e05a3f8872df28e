// What a call of a run is answered: the job's, the record's, the working colours', the order's, the moment's, the reduced colours'.
// Every check takes what a stranger wrote: no sum or product in it can wrap.
#![tactic(auto)]

ghost use Rattle.std.specs.Prelude.{◌≡◌, IfOk, true, ◌&&◌, ◌*◌, eqb, length};
ghost use Rattle.answer.specs.Refusals.{refusal_of};
ghost use Rattle.quantizer.specs.Course.{course_in};
ghost use Rattle.run_stages.specs.Calls.{record_of, record_words, memory_room, colours_room, start_answer, advance_answer, hand_in_answer, result_answer};
ghost use Rattle.run_check.specs.Reads.{memory_in};
ghost use Rattle.run_check.specs.Room.{SameInRange, Lends, run_answer};
ghost use Rattle.run_record.specs.Sized.{plain};

use answer::Refusal;
use job::Sizes;
use quantizer::Course;
use run_stages::Record;

const MOST_SUBPALETTES: usize = 16;

const MOST_COLOURS: usize = 16;

// The memory of a run, as a call reads it: the samples' order, the hints, both palettes, and the record's words.
#[derive(Clone, Copy)]
pub struct Memory<'a> {
    pub order: &'a [u32],
    pub hints: &'a [u32],
    pub palette: &'a [f32],
    pub least: &'a [f32],
    pub words: &'a [u64],
}

// ---- lengths

// Whether `numbers` are three for each of s·c colours, where s and c are in their ranges.
fn colours_room(s: usize, c: usize, numbers: usize) -> bool
    ensures { SameInRange s c result (eqb numbers (3 * (s * c))) }
{
    if s > MOST_SUBPALETTES {
        return false;
    }
    if c > MOST_COLOURS {
        return false;
    }
    numbers == 3 * (s * c)
}

// Whether the memory lent has its lengths.
fn memory_room(z: Sizes, held: &Memory) -> bool
    ensures { Lends z.s z.c result (memory_room (plain z) (memory_in held.now)) held.now.words.now }
{
    if held.order.len() != z.n {
        return false;
    }
    if held.hints.len() != z.t {
        return false;
    }
    if !colours_room(z.s, z.c, held.palette.len()) {
        return false;
    }
    if !colours_room(z.s, z.c, held.least.len()) {
        return false;
    }
    held.words.len() == run_stages::RECORD_WORDS
}

// The same, with one slice of s·c colours more.
fn wider_room(z: Sizes, held: &Memory, more: &[f32]) -> bool
    ensures { Lends z.s z.c result
        (memory_room (plain z) (memory_in held.now)
        && colours_room (plain z) more.now) held.now.words.now }
{
    if !memory_room(z, held) {
        return false;
    }
    colours_room(z.s, z.c, more.len())
}

// The job's numbers, then those of what a run holds, whose record is read. `room` says whether the slices lent have their lengths.
fn check_run(course: &Course, held: &Memory, room: bool) -> Result<Record, Refusal>
    requires { room ≡ true → length held.now.words.now ≡ record_words }
    ensures answered { refusal_of result ≡ run_answer (course_in course.now) (memory_in held.now) room }
    ensures read { IfOk result (λ r. r ≡ record_of held.now.words.now) }
{
    job_check::check_sampled(&course.job, course.samples, room)?;
    let r = run_record::record_of(held.words);
    run_state::check_state(course.job.sizes, held.order, held.palette, held.least, r)?;
    Ok(r)
}

// ---- the calls

pub fn check_start(course: &Course, held: &Memory) -> Result<(), Refusal>
    ensures { refusal_of result ≡ start_answer (course_in course.now)
        (memory_in held.now) }
{
    let room = memory_room(course.job.sizes, held);
    job_check::check_sampled(&course.job, course.samples, room)
}

pub fn check_advance(course: &Course, held: &Memory) -> Result<(), Refusal>
    ensures { refusal_of result ≡ advance_answer (course_in course.now)
        (memory_in held.now) }
{
    let room = memory_room(course.job.sizes, held);
    let r = check_run(course, held, room)?;
    if !run_record::makes_draws(r.stage) {
        return Err(Refusal::Moment);
    }
    Ok(())
}

pub fn check_hand_in(course: &Course, held: &Memory, reduced: &[f32]) -> Result<(), Refusal>
    ensures { refusal_of result ≡ hand_in_answer (course_in course.now)
        (memory_in held.now) reduced.now }
{
    let room = wider_room(course.job.sizes, held, reduced);
    let r = check_run(course, held, room)?;
    if !run_record::is_stop(r.stage) {
        return Err(Refusal::Moment);
    }
    if let Some(i) = job::bad_colour(0, reduced, job::MOST_COMPONENT) {
        return Err(Refusal::ReducedColour(i));
    }
    Ok(())
}

pub fn check_result(course: &Course, held: &Memory, out: &[f32]) -> Result<(), Refusal>
    ensures { refusal_of result ≡ result_answer (course_in course.now)
        (memory_in held.now) out.now }
{
    let room = wider_room(course.job.sizes, held, out);
    let r = check_run(course, held, room)?;
    if !run_cycle::is_finished(r.stage) {
        return Err(Refusal::Moment);
    }
    Ok(())
}
