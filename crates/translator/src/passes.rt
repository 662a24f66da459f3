// The passes through a module's ticks: how long their records are, and the records written.
ghost use Rattle.std.specs.Prelude.{◌≡◌, ◌≤◌, length};
ghost use Rattle.common.specs.Answers.{accepted, outcome};
ghost use Rattle.common.specs.Limits.{width};
ghost use Rattle.ticks.specs.Play.{over};
ghost use Rattle.reader.specs.Modules.{as_module};
ghost use Rattle.translator.specs.Translate.{stream_of, written};
ghost use Rattle.translator.specs.Passes.{most_bytes, Asked, records_of};

use crate::pass::Pass;
use reader::module::Module;
use records::{BODY_BYTES, HEAD_BYTES, RECORDS_PLACE, Record, VERSION_PLACE};

// How many bytes the stream of so many ticks has.
fn stream_len(m: &Module, ticks: u32) -> usize
    ensures { result ≡ length (stream_of (as_module m.now) ticks) }
{
    let mut pass = Pass::fresh(m);
    let mut len = 0;
    for i in 0..ticks {
        let registers = pass.registers;
        let tick = pass.next_tick();
        let record = Record {
            channels: m.layout.channels,
            registers: &registers,
            tick: &tick,
        };
        len += record.len();
    }
    RECORDS_PLACE + len
}

// The most bytes that a stream of so many ticks can have.
fn most_len(channels: usize, ticks: u32) -> usize
    requires { channels ≤ width }
    ensures { result ≡ most_bytes channels ticks }
{
    RECORDS_PLACE + (HEAD_BYTES + BODY_BYTES * channels) * ticks as usize
}

// The length that a room of so many bytes is held against. No pass is needed where the room has the most that so many ticks can take.
#[tactic(auto, using(crate::proofs::Calls::asked_most, crate::proofs::Calls::asked_stream))]
pub fn asked_len(m: &Module, ticks: u32, room: usize) -> usize
    ensures { Asked (as_module m.now) ticks room result }
{
    let most = most_len(m.layout.channels, ticks);
    if most <= room {
        most
    } else {
        stream_len(m, ticks)
    }
}

// Writes the records of so many ticks at the front of the room, and returns their length.
// The loop is stream_len's with a write in place of a count: a proof would know nothing of a room that a closure writes.
fn write_records(m: &Module, ticks: u32, room: &mut [u8]) -> usize
    requires { length (records_of (as_module m.now) ticks) ≤ length room.old }
    ensures long { result ≡ length (records_of (as_module m.now) ticks) }
    ensures written { room.new ≡ over (records_of (as_module m.now) ticks) room.old }
{
    let mut pass = Pass::fresh(m);
    let mut len = 0;
    for i in 0..ticks {
        let held = pass.registers;
        let told = pass.next_tick();
        let record = Record {
            channels: m.layout.channels,
            registers: &held,
            tick: &told,
        };
        len += record.put(&mut room[len..]);
    }
    len
}

// Writes the stream of so many ticks at the front of the room, and returns its length. The header comes last: it counts what was written.
pub fn write_stream(m: &Module, ticks: u32, room: &mut [u8]) -> usize
    requires { length (stream_of (as_module m.now) ticks) ≤ length room.old }
    ensures { outcome (accepted result) room.new ≡ written (as_module m.now) ticks room.old }
{
    let len = RECORDS_PLACE + write_records(m, ticks, &mut room[RECORDS_PLACE..]);
    records::put_header(m.layout.channels, len - VERSION_PLACE, ticks as usize, room);
    len
}
