// Whether a wave's numbers are legal.
ghost use Rattle.std.specs.Prelude.{◌≡◌};
ghost use Rattle.motion.specs.Legal.{legal_wave};

use crate::Wave;
use crate::waves::{LAST_MEMORY, SQUARE, WHOLE_WAVE};

impl Wave {
    #[tactic(auto, unfolding(crate::specs::Legal::legal_wave, laws::specs::Ranges::all, laws::specs::Ranges::all_from))]
    pub fn is_legal(self) -> bool
        ensures { result ≡ legal_wave self }
    {
        self.x <= LAST_MEMORY
            && self.y <= LAST_MEMORY
            && self.place < WHOLE_WAVE
            && self.form <= SQUARE
    }
}
