// A whole sheet of a job that passed its checks, part after part, then zero bits to the byte's end, into bytes that have room. Assumes nothing.
#![tactic(auto)]

ghost use Rattle.std.specs.Prelude.{◌≡◌, ◌-◌, ◌*◌, ◌≤◌, false, ◌++◌, length, replicate};
ghost use Rattle.std.proofs.lemmas.List.Edits.{sets};
ghost use Rattle.bits.specs.Bits.{bits};
ghost use Rattle.format.specs.Format.{bytes_for};
ghost use Rattle.job.specs.Job.{job_in};
ghost use Rattle.job.specs.Gives.{Ready, Lent};
ghost use Rattle.sheet_format.specs.Sheet.{size_of};
ghost use Rattle.sheet_format.specs.Proper.{Proper};
ghost use Rattle.sheet_pack.specs.Packed.{sheet_bits, sheet_of};

use job::Job;
use sheet_format::Edition;

// All fields of a sheet of `size` bits, and zero bits to the byte's end.
pub fn pack_sheet(e: Edition, job: &Job, palette: &[f32], dst: &mut [u8], size: usize)
    requires { Proper e × Ready (job_in job.now) × Lent job.now.sizes.s job.now.sizes.c palette.now
        × (size ≡ size_of e job.now.sizes.s job.now.sizes.c job.now.sizes.t (length job.now.counts.now)) × (bytes_for size ≤ length dst.old) × (bytes_for size ≤ 65536) }
    ensures { bits dst.new
        ≡ sets (bits dst.old) 0 (sheet_bits e (sheet_of (job_in job.now) palette.now) ++ replicate (8 * bytes_for size - size) false) }
{
    let p = sheet_format::HEAD_BITS + 32 * palette.len();
    let spare = 8 * format::bytes_for(size) - size;
    sheet_pack::pack_head(
        e,
        dst,
        job.sizes.s,
        job.sizes.c,
        job.sizes.t,
        f32::to_bits(job.sizes.weight),
    );
    sheet_pack::pack_components(dst, sheet_format::HEAD_BITS, palette);
    sheet_pack::pack_tiles(e, dst, p, job);
    bits::put(dst, size, spare, 0);
}
