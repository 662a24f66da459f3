// Refusal 14: whether a lent state is legal for a module.
ghost use Rattle.std.specs.Prelude.{◌≡◌, IfOk};
ghost use Rattle.reader.specs.File.{lent, module_of, song_length};
ghost use Rattle.reader.specs.Layouts.{LegalLayout};
ghost use Rattle.reader.specs.Modules.{as_module};
ghost use Rattle.reader.specs.Samples.{extents_of};
ghost use Rattle.player.specs.State.{legal_state};
ghost use Rattle.player.specs.Legal.{Judged, admitted};

use crate::State;
use common::Answer;
use common::limits::SAMPLE_NUMBERS;
use common::refusals::{Refusal, Rule};
use reader::module::Module;
use reader::{Extent, Layout};

// Whether a state is legal for a module.
fn is_legal(m: &Module, state: &State) -> bool
    ensures { result ≡ legal_state (as_module m.now) state.now }
{
    let song = state.song.is_legal(m);
    let voices = voice::legal::legal_for(m, &state.voices);
    let rest = state.remainder < state.song.time.tempo;
    song & voices & rest
}

// 1 to 9, then 14: what every call that is given a state judges first. The module is what such a call goes on with.
pub fn admit<'a>(file: &'a [u8], state: &State) -> Result<Module<'a>, Refusal>
    ensures judged { Judged (module_of file.now) state.now (admitted result) }
    ensures lent { IfOk result (λ m. m.file.now ≡ file.now) }
    ensures own { IfOk result (λ m. as_module m ≡ module_of file.now) }
{
    let module = Module::read(file)?;
    if is_legal(&module, state) {
        return Ok(module);
    }
    Err(Rule::State.at(0))
}

// Whether a state is legal for a file of any legal layout, accepted or not, by its song length and the extents of its samples.
pub fn legal_state(
    layout: Layout,
    file: &[u8],
    positions: u32,
    extents: [Extent; SAMPLE_NUMBERS],
    state: State,
) -> bool
    requires layout { LegalLayout layout }
    requires length { positions ≡ song_length (lent layout file.now) }
    requires table { extents ≡ extents_of (lent layout file.now) }
    ensures { result ≡ legal_state (lent layout file.now) state }
{
    let song = sequencer::legality::legal(positions, layout, state.song);
    let voices = voice::legal::legal_voices(layout, extents, state.voices);
    song & voices & (state.remainder < state.song.time.tempo)
}

// What `admit` judges, of a file of any legal layout.
pub fn judge_state(layout: Layout, file: &[u8], state: State) -> Answer
    requires { LegalLayout layout }
    ensures { Judged (lent layout file.now) state result }
{
    let judged = reader::judge_by(layout, file);
    if judged.number != 0 {
        return judged;
    }
    let positions = reader::song::song_length(layout, file);
    let extents = reader::samples::extents(layout, file);
    if legal_state(layout, file, positions, extents, state) {
        return common::accept(0);
    }
    common::refuse(14, 0)
}
