// Frames as 32-bit floats, for a page of one side or two.
#![tactic(auto)]

ghost use Rattle.std.specs.Prelude.{◌≡◌, ◌+◌, ◌≤◌, ◌+ℤ◌, length};
ghost use Rattle.std.proofs.lemmas.List.Edits.{sets};
ghost use Rattle.std.specs.Float.Ieee.{to_bits};
ghost use Rattle.std.specs.Float.{binary32};
ghost use Rattle.ticks.specs.Play.{over};
ghost use Rattle.floats.specs.Exact.{Exact};
ghost use Rattle.floats.specs.Frames.{side_number, mono_number, delivered, numbers_in, floats_of, pair_of, last_of};
ghost use Rattle.floats.specs.Asked.{count_of, Asked};

use common::refusals::{Refusal, Rule};

// A delivered frame: silence, one mono number, or a left and right number.
#[derive(Clone, Copy)]
pub enum Frame {
    Silence,
    Mono(f32),
    Stereo(f32, f32),
}

// The last left and right, with the number of their tick in the call.
#[derive(Clone, Copy)]
pub struct Pair {
    pub left: f32,
    pub right: f32,
    pub tick: u32,
}

// How many sides a page asks for.
#[derive(Clone, Copy, PartialEq, Eq)]
pub enum Sides {
    One = 1,
    Two = 2,
}

impl Sides {
    // As a number.
    pub fn count(self) -> usize
        ensures { result ≡ count_of self }
    {
        self as usize
    }
}

// Refusal 24 where a page asks for neither one side nor two.
impl TryFrom<u32> for Sides {
    type Error = Refusal;

    ghost try_from_gives = { λ sides asked. Asked sides asked };

    fn try_from(sides: u32) -> Result<Sides, Refusal> {
        match sides {
            1 => Ok(Sides::One),
            2 => Ok(Sides::Two),
            _ => Err(Rule::Sides.at(0)),
        }
    }
}

// x / 2 ^ 15.
fn side_number(x: i16) -> f32
    ensures number { result ≡ side_number x }
    ensures bits { Exact x 15 (to_bits binary32 result) }
{
    x as f32 / 32768.0
}

// (left + right) / 2 ^ 16.
fn mono_number(left: i16, right: i16) -> f32
    ensures number { result ≡ mono_number left right }
    ensures bits { Exact (left +ℤ right) 16 (to_bits binary32 result) }
{
    (left as i32 + right as i32) as f32 / 65536.0
}

// A frame as it is delivered.
pub fn deliver_to(left: i16, right: i16, sides: Sides) -> Frame
    ensures { result ≡ delivered (count_of sides) left right }
{
    if left == 0 && right == 0 {
        return Frame::Silence;
    }
    match sides {
        Sides::One => Frame::Mono(mono_number(left, right)),
        Sides::Two => Frame::Stereo(side_number(left), side_number(right)),
    }
}

// The same by any number of sides: what is not one is two.
pub fn deliver(left: i16, right: i16, sides: u32) -> Frame
    ensures { result ≡ delivered sides left right }
{
    if sides == 1 {
        return deliver_to(left, right, Sides::One);
    }
    deliver_to(left, right, Sides::Two)
}

// A delivered frame's numbers into out from a position on: silence takes as many zeros as the page has sides.
pub fn store(frame: Frame, sides: Sides, out: &mut [f32], at: usize)
    requires { at + length (numbers_in (count_of sides) frame) ≤ length out.old }
    ensures { out.new ≡ sets out.old at (numbers_in (count_of sides) frame) }
{
    match frame {
        Frame::Silence => match sides {
            Sides::One => {
                out[at] = 0.0;
            }
            Sides::Two => {
                out[at] = 0.0;
                out[at + 1] = 0.0;
            }
        },
        Frame::Mono(x) => {
            out[at] = x;
        }
        Frame::Stereo(x, y) => {
            out[at] = x;
            out[at + 1] = y;
        }
    }
}

fn pair_at(left: i16, right: i16, tick: u32) -> Pair
    ensures { result ≡ pair_of tick left right }
{
    Pair {
        left: side_number(left),
        right: side_number(right),
        tick: tick,
    }
}

// A tick's frames, left and right in turn, into the front of out, whose rest stays, and the record after them.
pub fn convert(frames: &[i16], sides: Sides, tick: u32, old: Pair, out: &mut [f32]) -> Pair
    requires { length (floats_of (count_of sides) frames.now) ≤ length out.old }
    ensures last { result ≡ last_of tick old frames.now }
    ensures written { out.new ≡ over (floats_of (count_of sides) frames.now) out.old }
{
    let mut last = old;
    let mut at = 0;
    let (pairs, _) = frames.as_chunks::<2>();
    for pair in pairs {
        let [left, right] = *pair;
        store(deliver_to(left, right, sides), sides, out, at);
        last = pair_at(left, right, tick);
        at += sides.count();
    }
    last
}
