// Why a voice is quiet, by the bytes of its own sample.
ghost use Rattle.std.specs.Prelude.{◌≡◌, ◌≤◌};
ghost use Rattle.reader.specs.Modules.{as_module};
ghost use Rattle.player.specs.Quiet.{voice_cause};

use reader::module::Module;
use voice::Voice;
use voice::quiet::Cause;

pub fn voice_cause(m: &Module, voice: Voice) -> Cause
    requires known { voice.sample ≤ m.now.layout.samples }
    ensures { result ≡ voice_cause (as_module m.now) voice }
{
    let extent = m.extents[usize::from(voice.sample)];
    voice::quiet::why(voice, &m.file[extent.from..extent.to])
}
