// A file with room for its headers and its table: what the table of refusals goes by after its first line.
ghost use Rattle.std.specs.Prelude.{◌≤◌, length};
ghost use Rattle.common.specs.ByteLaws.{Bytes};
ghost use Rattle.reader.specs.Layouts.{LegalLayout};

use crate::Layout;

// The patterns begin in the file, or at its end.
#[derive(Clone, Copy)]
pub struct Headed<'a> {
    pub layout: Layout,
    pub file: &'a [u8],
    pub ghost legal: { LegalLayout layout },
    pub ghost long: { layout.patterns ≤ length file.now },
    pub ghost bytes: { Bytes file.now },
}
