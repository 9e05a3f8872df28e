// Writing of lent memory as a whole: a palette copied, a palette zeroed, the record's words.
#![tactic(auto)]

ghost use Rattle.std.specs.Prelude.{◌≡◌, length};
ghost use Rattle.quantizer.specs.Sums.{zeros};
ghost use Rattle.run_stages.specs.Calls.{record_words, words_of};

use run_stages::Record;

// Place by place: the slice's own copy would have the library for hosts import memcpy, and it is to ask for memset alone.
pub fn copy(from: &[f32], to: &mut [f32])
    requires { length to.old ≡ length from.now }
    ensures { to.new ≡ from.now }
{
    for i in 0..from.len() {
        to[i] = from[i];
    }
}

pub fn zero(numbers: &mut [f32])
    ensures { numbers.new ≡ zeros (length numbers.old) }
{
    numbers.fill(0.0);
}

// No `From` of std writes into a lent slice, or asks of its length.
pub fn write_record(words: &mut [u64], r: Record)
    requires { length words.old ≡ record_words }
    ensures { words.new ≡ words_of r }
{
    words.copy_from_slice(&[
        r.generator,
        r.stage,
        r.rounds,
        r.left,
        r.made,
        r.error,
        r.sizes,
    ]);
}
