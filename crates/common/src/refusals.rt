// Refusals: the rule that refuses, with its number, and the place that it names.
ghost use Rattle.std.specs.Prelude.{◌≡◌};
ghost use Rattle.common.specs.Answers.{number_of, refusal, answered, judged};

use crate::Answer;

// The rules by which a call refuses, each with the number that a caller sees.
#[derive(Clone, Copy, PartialEq, Eq, Debug)]
pub enum Rule {
    // A file that is shorter than its headers.
    ShortFile = 1,
    Tag = 2,
    SongLength = 3,
    TableEntry = 4,
    HeaderVolume = 5,
    SampleLoop = 6,
    // A file that ends before its patterns and samples do.
    ShortSamples = 7,
    CellSample = 8,
    CellPeriod = 9,
    // More ticks than one translation has.
    TickCount = 11,
    // A room that is too short for the stream.
    StreamRoom = 12,
    State = 14,
    // A touch that was made on another page, is too old, or is for a position past the song.
    TouchPage = 16,
    TouchAge = 17,
    TouchPosition = 18,
    StreamLength = 21,
    StreamVersion = 22,
    StreamRecord = 23,
    Sides = 24,
    Channel = 25,
    // A burst of too many touches, with too few answers, or with lists of different lengths.
    BurstLength = 26,
    BurstRoom = 27,
    // A stream for another number of channels.
    StreamChannels = 28,
    BurstLists = 34,
}

// A refusal: its rule and its place.
#[derive(Clone, Copy, PartialEq, Eq, Debug)]
pub struct Refusal {
    pub rule: Rule,
    pub place: usize,
}

impl Rule {
    // The refusal by this rule at a place.
    pub fn at(self, place: usize) -> Refusal
        ensures { result ≡ record { rule = self; place = place } }
    {
        Refusal { rule: self, place }
    }
}

impl From<Rule> for u32 {
    ghost from_gives = { λ rule number. number ≡ number_of rule };

    fn from(rule: Rule) -> u32 {
        rule as u32
    }
}

impl From<Refusal> for Answer {
    ghost from_gives = { λ e answer. answer ≡ refusal e };

    fn from(e: Refusal) -> Answer {
        Answer {
            number: e.rule.into(),
            place: e.place,
            count: 0,
        }
    }
}

// What a call that counts answers.
impl From<Result<usize, Refusal>> for Answer {
    ghost from_gives = { λ counted answer. answer ≡ answered counted };

    fn from(counted: Result<usize, Refusal>) -> Answer {
        match counted {
            Ok(count) => Answer {
                number: 0,
                place: 0,
                count,
            },
            Err(e) => e.into(),
        }
    }
}

// What a call that only judges answers.
impl From<Result<(), Refusal>> for Answer {
    ghost from_gives = { λ verdict answer. answer ≡ judged verdict };

    fn from(verdict: Result<(), Refusal>) -> Answer {
        verdict.map(|()| 0).into()
    }
}
