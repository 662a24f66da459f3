// The same on numbers as a channel holds them: a period in two bytes, a volume and a memory in one. No sum here passes 16 bits, whatever the numbers.
ghost use Rattle.std.specs.Prelude.{◌≡◌, true};
ghost use Rattle.motion.specs.Slides.{lowered, raised, towards, louder, softer};
ghost use Rattle.motion.specs.Waves.{remembered};

use crate::slides::LOUDEST;
use tuning::narrow::kept;

#[tactic(auto, using(laws::specs::Tests::tests), unfolding(crate::specs::Slides::lowered))]
pub fn lowered(finetune: u8, period: u16, by: u16) -> u16
    ensures { result ≡ lowered finetune period by }
{
    if period == 0 {
        return 0;
    }
    kept(finetune, period.saturating_sub(by))
}

#[tactic(auto, using(laws::specs::Tests::tests, crate::proofs::Sliding::raised_by), unfolding(crate::specs::Slides::raised))]
pub fn raised(finetune: u8, period: u16, by: u16) -> u16
    ensures { result ≡ raised finetune period by }
{
    if period == 0 {
        return 0;
    }
    kept(finetune, period.saturating_add(by))
}

#[tactic(auto, using(laws::specs::Tests::tests), unfolding(crate::specs::Slides::towards))]
pub fn towards(period: u16, target: u16, by: u16) -> u16
    ensures { result ≡ towards period target by }
{
    if period == 0 {
        return 0;
    }
    if target == 0 {
        return period;
    }
    if period <= target {
        period.saturating_add(by).min(target)
    } else {
        period.saturating_sub(by).max(target)
    }
}

pub fn louder(volume: u8, by: u16) -> u8
    ensures { result ≡ louder volume by }
{
    u16::from(volume).saturating_add(by).min(u16::from(LOUDEST)) as u8
}

pub fn softer(volume: u8, by: u16) -> u8
    ensures { result ≡ softer volume by }
{
    u16::from(volume).saturating_sub(by) as u8
}

// What is remembered of a number that is given, 0 meaning the old one.
#[tactic(auto, using(laws::specs::Tests::tests), unfolding(crate::specs::Waves::remembered))]
pub fn remembered(n: u8, old: u8) -> u8
    ensures { result ≡ remembered true n old }
{
    if n == 0 { old } else { n }
}
