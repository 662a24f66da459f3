// What the song reads of a sample's header, as numbers of a byte: for sample numbers that a cell has.
ghost use Rattle.std.specs.Prelude.{◌≡◌, ◌-◌, ◌<◌};
ghost use Rattle.reader.specs.File.{header_finetune, header_volume};

use crate::song;

// The volume of the header of sample number k, from 1.
pub fn header_volume(file: &[u8], k: u8) -> u8
    requires { 0 < k }
    ensures { result ≡ header_volume file.now (k - 1) }
{
    song::header_volume(file, u32::from(k)) as u8
}

// The finetune of the header of sample number k, from 1: 0 to 15, 8 to 15 meaning -8 to -1.
pub fn header_finetune(file: &[u8], k: u8) -> u8
    requires { 0 < k }
    ensures { result ≡ header_finetune file.now (k - 1) }
{
    song::header_finetune(file, u32::from(k)) as u8
}
