// Waves, of vibrato and tremolo alike. A wave's x and y are the digits of a parameter, its place is 0 to 63, its form 0 to 2.
ghost use Rattle.std.specs.Prelude.{◌≡◌, ◌<◌};
ghost use Rattle.motion.specs.Waves.{half_wave, sine, is_raising, entry_size, offset_size, vibrated, trembled, moved, remembered};

use crate::slides::{louder, lowered, raised, softer};
use crate::{Wave, narrow};

// The largest x and y.
pub const LAST_MEMORY: u8 = 15;

const HALF_WAVE: u8 = 32;

pub const WHOLE_WAVE: u8 = 64;

// The forms.
const SINE: u8 = 0;

const RAMP: u8 = 1;

pub const SQUARE: u8 = 2;

const GREATEST_ENTRY: u8 = 255;

// What the ramp gains a place.
const RAMP_STEP: u8 = 8;

// What an entry times a depth is divided by.
const VIBRATO_DIVISOR: u16 = 128;

const TREMOLO_DIVISOR: u16 = 64;

// The sine's way up; the other numbers of a half wave are these, back down.
static RISING: [u8; 17] = [
    0, 24, 49, 74, 97, 120, 141, 161, 180, 197, 212, 224, 235, 244, 250, 253, 255,
];

#[tactic(auto, unfolding(crate::specs::Waves::sine, crate::specs::Waves::rising))]
fn sine(i: u8) -> u8
    requires { i < half_wave }
    ensures { result ≡ sine i }
{
    RISING[usize::from(i.min(HALF_WAVE - i))]
}

impl Wave {
    #[tactic(auto, unfolding(crate::specs::Waves::is_raising))]
    fn is_raising(self) -> bool
        ensures { result ≡ is_raising self.place }
    {
        self.place < HALF_WAVE
    }

    // The size of the entry at its place.
    #[tactic(auto, using(laws::specs::Tests::tests, laws::specs::Tests::called), unfolding(crate::specs::Waves::entry_size))]
    fn entry_size(self) -> u8
        ensures { result ≡ entry_size self.form self.place }
    {
        let i = self.place % HALF_WAVE;
        match self.form {
            SINE => sine(i),
            RAMP if self.is_raising() => RAMP_STEP * i,
            RAMP => GREATEST_ENTRY - RAMP_STEP * i,
            _ => GREATEST_ENTRY,
        }
    }

    // The size of the offset.
    #[tactic(auto, unfolding(crate::specs::Waves::offset_size))]
    fn offset_size(self, divisor: u16) -> u16
        requires { 0 < divisor }
        ensures { result ≡ offset_size divisor self }
    {
        u16::from(self.entry_size()) * u16::from(self.y) / divisor
    }

    // A period under vibrato. This and the next stay two: one function over closures would ensure what a call of them gives, and no definition.
    #[tactic(auto, using(crate::proofs::Waving::wavered_up, crate::proofs::Waving::wavered_down))]
    pub fn vibrated(self, finetune: u8, period: u16) -> u16
        ensures { result ≡ vibrated finetune self period }
    {
        let by = self.offset_size(VIBRATO_DIVISOR);
        if self.is_raising() {
            narrow::raised(finetune, period, by)
        } else {
            narrow::lowered(finetune, period, by)
        }
    }

    // A volume under tremolo.
    #[tactic(auto, using(crate::proofs::Waving::wavered_up, crate::proofs::Waving::wavered_down))]
    pub fn trembled(self, volume: u8) -> u8
        ensures { result ≡ trembled self volume }
    {
        let by = self.offset_size(TREMOLO_DIVISOR);
        if self.is_raising() {
            narrow::louder(volume, by)
        } else {
            narrow::softer(volume, by)
        }
    }

    // The wave after a tick's sound, if the tick used it.
    #[tactic(auto, using(laws::specs::Tests::tests), unfolding(crate::specs::Waves::moved))]
    pub fn moved(self, used: bool) -> Wave
        ensures { result ≡ moved used self }
    {
        if !used {
            return self;
        }
        let place = (u16::from(self.place) + u16::from(self.x)) % u16::from(WHOLE_WAVE);
        Wave {
            place: place as u8,
            ..self
        }
    }
}

// Any period under vibrato.
#[tactic(auto, using(crate::proofs::Waving::wavered_up, crate::proofs::Waving::wavered_down))]
pub fn vibrated(finetune: u32, wave: Wave, period: u32) -> u32
    ensures { result ≡ vibrated finetune wave period }
{
    let by = u32::from(wave.offset_size(VIBRATO_DIVISOR));
    if wave.is_raising() {
        raised(finetune, period, by)
    } else {
        lowered(finetune, period, by)
    }
}

// Any volume under tremolo.
#[tactic(auto, using(crate::proofs::Waving::wavered_up, crate::proofs::Waving::wavered_down))]
pub fn trembled(wave: Wave, volume: u32) -> u32
    ensures { result ≡ trembled wave volume }
{
    let by = u32::from(wave.offset_size(TREMOLO_DIVISOR));
    if wave.is_raising() {
        louder(volume, by)
    } else {
        softer(volume, by)
    }
}

// What is remembered of a number, where one is given, 0 meaning the old one.
#[tactic(auto, using(laws::specs::Tests::tests), unfolding(crate::specs::Waves::remembered))]
pub fn remembered(given: bool, n: u32, old: u32) -> u32
    ensures { result ≡ remembered given n old }
{
    if given && n != 0 { n } else { old }
}
