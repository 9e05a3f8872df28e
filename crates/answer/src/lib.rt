// What every call answers: nothing wrong or a refusal, with its number, and the index of the entry at fault; and an answer in one word for
// hosts. Assumes nothing.
#![tactic(auto)]

ghost use Rattle.std.specs.Prelude.{◌≡◌, ◌≤◌};
ghost use Rattle.answer.specs.Refusals.{refusal, number_of, index_of, Few};
ghost use Rattle.answer.specs.Words.{word, word_of};

// Why a call is refused; docs/SCOPE.md's table has the number of each. Where a colour or a pixel is at fault, its index.
#[derive(Clone, Copy, Debug, PartialEq, Eq)]
pub enum Refusal {
    NoSamples,
    Sizes,
    Lengths,
    Weight,
    Tiles,
    Counts,
    Colour(usize),
    Samples,
    Order,
    Record,
    Moment,
    SheetHead,
    SheetBytes,
    SameColour,
    EmptyTile,
    WorkingColour(usize),
    ReducedColour(usize),
    OtherSizes,
}

impl Refusal {
    pub fn number(self) -> u32
        ensures { result ≡ number_of self }
    {
        match self {
            Refusal::NoSamples => 1,
            Refusal::Sizes => 2,
            Refusal::Lengths => 3,
            Refusal::Weight => 4,
            Refusal::Tiles => 5,
            Refusal::Counts => 6,
            Refusal::Colour(_) => 7,
            Refusal::Samples => 8,
            Refusal::Order => 9,
            Refusal::Record => 10,
            Refusal::Moment => 11,
            Refusal::SheetHead => 12,
            Refusal::SheetBytes => 13,
            Refusal::SameColour => 14,
            Refusal::EmptyTile => 15,
            Refusal::WorkingColour(_) => 16,
            Refusal::ReducedColour(_) => 17,
            Refusal::OtherSizes => 20,
        }
    }

    // 0 where the refusal names no entry.
    pub fn index(self) -> usize
        ensures { result ≡ index_of self }
    {
        match self {
            Refusal::Colour(i) | Refusal::WorkingColour(i) | Refusal::ReducedColour(i) => i,
            _ => 0,
        }
    }
}

// An index times 256 and a number, a refusal's or any other; where the number is 0, a value times 256. Both are far smaller than what fits
// here.
pub fn word_of_number(number: u32, index: usize, value: u64) -> u64
    requires { (index ≤ 0xffff_ffff) × (value ≤ 0xffff_ffff) }
    ensures { result ≡ word (refusal number index) value }
{
    if number == 0 {
        return value * 256;
    }
    index as u64 * 256 + number as u64
}

// The word of what a call answers.
pub fn word(answer: Result<u64, Refusal>) -> u64
    requires { Few answer }
    ensures { result ≡ word_of answer }
{
    match answer {
        Ok(value) => word_of_number(0, 0, value),
        Err(e) => word_of_number(e.number(), e.index(), 0),
    }
}
