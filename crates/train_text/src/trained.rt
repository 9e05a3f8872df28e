// A job that a sheet holds, trained and written again: its samples, the run, the sheet with the trained palette. Assumes nothing.
ghost use Rattle.std.specs.Prelude.{◌≤◌, length};
ghost use Rattle.job.specs.Job.{job_in};
ghost use Rattle.sheet_parts.specs.Front.{Writable};
ghost use Rattle.fit_lines.specs.Lines.{Stored};
ghost use Rattle.train_text.specs.Trained.{job_text};

use job::{Job, Sizes};
use quantizer::Course;

// What is written for a job: its sheet trained, or a refusal's line. The palette is lent to the run.
pub fn put_trained(job: &Job, palette: &mut [f32], out: &mut [u8]) -> usize
    requires { Writable (job_in job.now) palette.old × (65536 ≤ length out.old) }
    ensures { Stored out.old out.new 0 result
        (job_text (job_in job.now)) × (result ≤ 65536) }
{
    let n = train_samples::count_samples(job);
    if let Err(e) = train_samples::refusal(n) {
        return fit_lines::put_refused(out, 0, e.number());
    }
    let mut samples: [u32; 32768] = sheet_parts::room(0);
    let m = train_samples::put_samples(job, &mut samples);
    let sizes = Sizes { n, ..job.sizes };
    let course = Course {
        job: Job { sizes, ..*job },
        samples: &samples[..m],
    };
    crate::run::train_palette(&course, palette);
    sheet_parts::put_sheet(job, palette, out)
}
