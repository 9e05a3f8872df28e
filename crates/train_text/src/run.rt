// A whole run in local memory: started from seed 0, advanced to each of its three stops, and there handed its own colours, cut to
// -2..2. Assumes nothing.
ghost use Rattle.std.specs.Prelude.{◌≡◌, ◌≤◌, length};
ghost use Rattle.quantizer.specs.Course.{course_in};
ghost use Rattle.run_stages.specs.Calls.{memory};
ghost use Rattle.train_run.specs.Training.{turn_calls};
ghost use Rattle.train_text.specs.Trained.{trained_palette, Drawable};

use quantizer::Course;

const SEED: u64 = 0;

// More draws than any run makes.
const ALL: u64 = 0xffff_ffff_ffff_ffff;

const STOPS: usize = 3;

// A turn for each stop: all draws up to the stop, then the working colours are cut and handed in. At a stop the advance is refused and
// changes nothing.
fn turns(
    course: &Course,
    order: &mut [u32],
    hints: &mut [u32],
    palette: &mut [f32],
    least: &mut [f32],
    words: &mut [u64],
)
    requires { length palette.old ≤ 768 }
    ensures { memory order.new hints.new palette.new least.new words.new
        ≡ turn_calls (course_in course.now) 3
        (memory order.old hints.old palette.old least.old words.old) }
{
    for _passed in 0..STOPS {
        let _ = run_advance::advance(course, order, hints, palette, least, words, ALL);
        let size = palette.len();
        let reduced = train_parts::cut(palette);
        let _ = run_hand_in::hand_in(
            course,
            order,
            hints,
            palette,
            least,
            words,
            &reduced[..size],
        );
    }
}

// The palette becomes the trained one. The rest of the run's memory is local.
pub fn train_palette(course: &Course, palette: &mut [f32])
    requires { Drawable (course_in course.now) palette.old }
    ensures { palette.new
        ≡ trained_palette (course_in course.now) }
{
    let z = course.job.sizes;
    let size = 3 * (z.s * z.c);
    let mut orders: [u32; 16384] = sheet_parts::room(0);
    let mut firsts: [u32; 1024] = sheet_parts::room(0);
    let mut errors: [f32; 768] = sheet_parts::room(0.0);
    let mut record = [0u64; 7];
    let order = &mut orders[..z.n];
    let hints = &mut firsts[..z.t];
    let least = &mut errors[..size];
    let words = &mut record[..];
    let _ = run_start::start(course, SEED, order, hints, palette, least, words);
    turns(course, order, hints, palette, least, words);
}
