// A module: a file that was judged, beside its layout, its song length and the extents of its samples; and one whose tag names its layout.
ghost use Rattle.std.specs.Prelude.{◌≡◌};
ghost use Rattle.common.specs.ByteLaws.{Bytes};
ghost use Rattle.reader.specs.File.{lent, layout_of, module_of, song_length};
ghost use Rattle.reader.specs.Judge.{verdict};
ghost use Rattle.reader.specs.Layouts.{LegalLayout};
ghost use Rattle.reader.specs.Samples.{extents_of};

use crate::offsets::layout_of;
use crate::samples::extents;
use crate::song::song_length;
use crate::verdict::judge_by;
use crate::{Extent, Layout};
use common::limits::SAMPLE_NUMBERS;
use common::refusals::Refusal;

// A file that was accepted by its layout. `positions` is its song length.
#[derive(Drop)]
pub struct Module<'a> {
    pub file: &'a [u8],
    pub layout: Layout,
    pub positions: u32,
    pub extents: [Extent; SAMPLE_NUMBERS],
    pub ghost legal: { LegalLayout layout },
    pub ghost judged: { (verdict (lent layout file.now)).number ≡ 0 },
    pub ghost bytes: { Bytes file.now },
    pub ghost long: { positions ≡ song_length (lent layout file.now) },
    pub ghost table: { extents ≡ extents_of (lent layout file.now) },
}

impl<'a> Module<'a> {
    ghost use Rattle.std.specs.Prelude.{◌^◌, ◌<◌, IfOk};
    ghost use Rattle.std.specs.Result.{IfErr};
    ghost use Rattle.common.specs.Answers.{refusal};
    ghost use Rattle.reader.specs.Cells.{row_offset};
    ghost use Rattle.reader.specs.Judge.{judge_of};
    ghost use Rattle.reader.specs.Modules.{as_module};

    // The file as a module, by the layout that its tag names, or the first refusal of the table, with its place.
    #[tactic(auto, unfolding(crate::specs::Judge::judge_of), using(crate::proofs::Extents::accepted_long))]
    pub fn read(file: &'a [u8]) -> Result<Module<'a>, Refusal>
        ensures accepted { IfOk result (λ m. m.file.now ≡ file.now) }
        ensures own { IfOk result (λ m. as_module m ≡ module_of file.now) }
        ensures refused { IfErr result (λ e. judge_of file.now ≡ refusal e) }
    {
        let layout = layout_of(file);
        judge_by(layout, file)?;
        Ok(Module {
            file,
            layout,
            positions: song_length(layout, file),
            extents: extents(layout, file),
        })
    }

    // Where the cells of a position's row begin, each from 0.
    pub fn row_at(&self, position: u32, row: u32) -> usize
        ensures place { result ≡ row_offset (as_module self.now) position row }
        ensures low { result < 2 ^ 62 }
    {
        crate::song::row_at(self.layout, self.file, position, row)
    }
}

// A module whose layout is the one that its file's tag names; a `Module` alone may have any legal one.
#[derive(Drop)]
pub struct Tagged<'a> {
    pub module: Module<'a>,
    pub ghost tagged: { module.layout ≡ layout_of module.file.now },
}

impl<'a> Tagged<'a> {
    ghost use Rattle.std.specs.Prelude.{IfOk};
    ghost use Rattle.std.specs.Result.{IfErr};
    ghost use Rattle.common.specs.Answers.{refusal};
    ghost use Rattle.reader.specs.Judge.{judge_of};

    // The file as such a module, or the first refusal of the table, with its place.
    #[tactic(auto, using(crate::specs::Modules::own_layout))]
    pub fn read(file: &'a [u8]) -> Result<Tagged<'a>, Refusal>
        ensures accepted { IfOk result (λ t. t.module.file.now ≡ file.now) }
        ensures refused { IfErr result (λ e. judge_of file.now ≡ refusal e) }
    {
        let module = Module::read(file)?;
        Ok(Tagged { module })
    }
}

#[cfg(test)]
mod tests {
    use super::*;
    use common::refusals::Rule;

    // A song of one position and one pattern of eight channels, with no note and no sample.
    fn still(tag: [u8; 4]) -> [u8; 3132] {
        let mut file = [0; 3132];
        file[950] = 1;
        file[1080] = tag[0];
        file[1081] = tag[1];
        file[1082] = tag[2];
        file[1083] = tag[3];
        file
    }

    #[test]
    fn reads_by_the_tag(rt: HostRuntime) {
        for (tag, channels) in [(*b"M.K.", 4), (*b"4CHN", 4), (*b"6CHN", 6), (*b"8CHN", 8)] {
            let file = still(tag);
            let read = Tagged::read(&file);
            assert!(rt;
                read.is_ok_and(|t| t.module.layout.channels == channels),
                "with {channels} channels"
            );
        }
        let file = still(*b"M.K!");
        let untagged = Tagged::read(&file);
        assert!(rt; untagged.is_err_and(|e| e == Rule::Tag.at(1080)));
        let short = [0; 1083];
        let headless = Tagged::read(&short);
        assert!(rt; headless.is_err_and(|e| e == Rule::ShortFile.at(1083)));
    }
}
