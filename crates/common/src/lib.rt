// What every room shares: the limits of numbers, bytes and numbers of several bytes, and what a call answers.
#![tactic(auto)]

ghost use Rattle.std.specs.Prelude.{◌≡◌};
ghost use Rattle.common.specs.Answers.{refused, accepted};

pub mod bytes;
pub mod limits;
pub mod refusals;

// What a call answers: a refusal's number and place, with count 0; or 0, 0 and what the call counts.
#[derive(Clone, Copy)]
pub struct Answer {
    pub number: u32,
    pub place: usize,
    pub count: usize,
}

pub fn refuse(number: u32, place: usize) -> Answer
    ensures { result ≡ refused number place }
{
    Answer {
        number: number,
        place: place,
        count: 0,
    }
}

pub fn accept(count: usize) -> Answer
    ensures { result ≡ accepted count }
{
    Answer {
        number: 0,
        place: 0,
        count: count,
    }
}
