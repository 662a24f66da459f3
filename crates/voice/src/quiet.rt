// Why a voice is quiet.
ghost use Rattle.std.specs.Prelude.{◌≡◌};
ghost use Rattle.voice.specs.Quiet.{reads_zero, cause_of, cause_number};

use crate::Voice;

// Why a voice gives 0 in the next frame, the first that holds; or that it sounds.
#[derive(Clone, Copy)]
pub enum Cause {
    NoSample = 1,
    NoPeriod,
    Stopped,
    NoVolume,
    ZeroByte,
    Sounds,
}

// A cause's number.
impl From<Cause> for usize {
    ghost from_gives = { λ cause n. n ≡ cause_number cause };

    fn from(cause: Cause) -> usize {
        cause as usize
    }
}

// Whether the byte at an index reads 0.
#[tactic(auto, unfolding(crate::specs::Quiet::reads_zero))]
fn reads_zero(bytes: &[u8], index: usize) -> bool
    ensures { result ≡ reads_zero bytes.now index }
{
    index < 2 || bytes.get(index).copied().unwrap_or(0) == 0
}

// Why the voice is quiet, of its sample's bytes.
#[tactic(auto, unfolding(crate::specs::Quiet::cause_of))]
pub fn why(voice: Voice, bytes: &[u8]) -> Cause
    ensures { result ≡ cause_of bytes.now voice }
{
    if voice.sample == 0 {
        Cause::NoSample
    } else if voice.period == 0 {
        Cause::NoPeriod
    } else if voice.stopped {
        Cause::Stopped
    } else if voice.volume == 0 {
        Cause::NoVolume
    } else if reads_zero(bytes, voice.index as usize) {
        Cause::ZeroByte
    } else {
        Cause::Sounds
    }
}
