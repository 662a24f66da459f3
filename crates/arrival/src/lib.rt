// How far a stream has arrived: its header's numbers, the records that are played, and the bytes of the header or record that is open.
// Records are read by the decoder, of the bytes that are in.
#![tactic(auto)]

ghost use Rattle.std.specs.Prelude.{◌≡◌, true, ◌+◌, ◌^◌, ◌≤◌, ◌<◌, take, leb};
ghost use Rattle.arrival.specs.Arrive.{kept_bytes, at_start, total, ended};

use common::bytes::four;
use decoder::stream::Header;
use records::VERSION_PLACE;

mod ahead;
mod faults;
mod header;
mod legality;
mod steps;

pub use faults::is_kept_fault;

// Room for the bytes of the header or of a record.
pub const KEPT_BYTES: usize = 52;

// The bytes that are taken are the place of the open header or record and its kept bytes; while the header is open the place is 0.
// A fault is kept: its number, or 0, and its place. The number is no `Rule`, by the C interface: any numbers may stand in the cells of a board that is lent.
#[derive(Clone, Copy)]
pub struct Arrival {
    pub place: usize,
    pub kept: usize,
    pub bytes: [u8; KEPT_BYTES],
    pub follow: u32,
    pub version: u32,
    pub channels: u32,
    pub count: u32,
    pub records: u32,
    pub number: u32,
    pub fault: usize,
}

impl Arrival {
    // Nothing is taken.
    #[tactic(auto, unfolding(crate::specs::Arrive::at_start))]
    pub fn at_start() -> Arrival
        ensures { result ≡ at_start }
    {
        Arrival {
            place: 0,
            kept: 0,
            bytes: [0; KEPT_BYTES],
            follow: 0,
            version: 0,
            channels: 0,
            count: 0,
            records: 0,
            number: 0,
            fault: 0,
        }
    }

    // The bytes of the open header or record.
    fn open_bytes(&self) -> &[u8]
        requires { self.now.kept ≤ kept_bytes }
        ensures { result.now ≡ take self.now.kept self.now.bytes }
    {
        &self.bytes[..self.kept]
    }

    // The header that the kept bytes begin.
    fn header(&self) -> Header<'_>
        ensures { result.bytes.now ≡ self.now.bytes }
    {
        Header::of(&self.bytes)
    }

    // The declared length.
    #[tactic(auto, unfolding(crate::specs::Arrive::total))]
    fn total(&self) -> usize
        ensures { (result ≡ total self.now) × (result < 2 ^ 40) }
    {
        if self.place == 0 {
            return VERSION_PLACE + four(&self.bytes, 0);
        }
        VERSION_PLACE + self.follow as usize
    }

    // Whether so many bytes of the open header or record lie within the declared length, whatever the numbers are.
    pub fn is_within(&self, kept: usize) -> bool
        ensures { (result ≡ leb (self.now.place + kept) (total self.now)) × (result ≡ true → self.now.place + kept < 2 ^ 40) }
    {
        self.place.saturating_add(kept) <= self.total()
    }

    // Whether all declared bytes are taken.
    #[tactic(auto, unfolding(crate::specs::Arrive::ended))]
    pub fn is_ended(&self) -> bool
        ensures { (result ≡ ended self.now) × (total self.now < 2 ^ 40) }
    {
        self.place.saturating_add(self.kept) == self.total()
    }
}
