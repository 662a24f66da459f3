// A board that takes its stream as it arrives as cells, plain numbers at the C boundary: any numbers become a board, and every board cells.
// What the C calls leave in the cells that they are lent.
#![tactic(auto)]

ghost use Rattle.std.specs.Prelude.{◌≡◌, ◌+◌, ◌≤◌, ◌<◌};
ghost use Rattle.std.proofs.lemmas.List.Edits.{sets};
ghost use Rattle.laws.specs.Ranges.{each};
ghost use Rattle.common.specs.Limits.{width};
ghost use Rattle.cells.specs.Cells.{voice_of};
ghost use Rattle.arrival.specs.Arrive.{kept_bytes};
ghost use Rattle.board_cells.specs.Cells.{word_place, number_place, low_cell, high_cell, kept_cell, word_of, start_cells, word_cells, number_cells, Fronted, board_cells, wide_of, byte_of, byte_in, voice_place, arrival_of, machine_of, board_of, feed_cells, board_after};

use arrival::{Arrival, KEPT_BYTES};
use cells::{VOICE_CELLS, put, put_voice, voice_of};
use common::limits::WIDTH;
use feed::{Board, Reply};
use machine::Machine;
use voice::Voice;

// The cells of the kept bytes, and where they begin; the numbers behind them, and where they begin; where the voices do.
const WORDS: usize = 13;

const WORD_PLACE: usize = 3;

const NUMBERS: usize = 10;

const NUMBER_PLACE: usize = WORD_PLACE + WORDS;

const VOICES_PLACE: usize = NUMBER_PLACE + NUMBERS;

// A board's cells.
pub const BOARD_CELLS: usize = VOICES_PLACE + VOICE_CELLS * WIDTH;

// The cells of the answer of a call that takes bytes.
pub const FEED_CELLS: usize = 4;

const CELL_SIZE: usize = 1 << 32;

// ---- from a board

fn low(n: usize) -> u32
    ensures { result ≡ low_cell n }
{
    (n % CELL_SIZE) as u32
}

fn high(n: usize) -> u32
    ensures { result ≡ high_cell n }
{
    (n / CELL_SIZE) as u32
}

#[tactic(auto, unfolding(crate::specs::Cells::kept_cell))]
fn kept_cell(n: usize) -> u32
    ensures { result ≡ kept_cell n }
{
    u32::try_from(n).unwrap_or(u32::MAX)
}

// Four bytes, the first lowest.
fn word_of(bytes: &[u8; KEPT_BYTES], at: usize) -> u32
    requires { at + 4 ≤ kept_bytes }
    ensures { result ≡ word_of bytes.now at }
{
    u32::from_le_bytes([bytes[at], bytes[at + 1], bytes[at + 2], bytes[at + 3]])
}

// Arrays are filled by loops: `array::from_fn` got no proof that what its closure borrows stays, so `returns` did not close.
fn words_of(bytes: &[u8; KEPT_BYTES]) -> [u32; WORDS]
    ensures { result ≡ word_cells bytes.now }
{
    let mut words = [0; WORDS];
    for i in 0..WORDS {
        words[i] = word_of(bytes, 4 * i);
    }
    words
}

fn put_start(p: &Arrival, cells: &mut [u32; BOARD_CELLS])
    ensures { cells.new ≡ sets cells.old 0 (start_cells p.now) }
{
    let run = [low(p.place), high(p.place), kept_cell(p.kept)];
    put(&run, 0, cells);
}

fn put_words(bytes: &[u8; KEPT_BYTES], cells: &mut [u32; BOARD_CELLS])
    ensures { cells.new ≡ sets cells.old word_place (word_cells bytes.now) }
{
    let run = words_of(bytes);
    put(&run, WORD_PLACE, cells);
}

fn put_numbers(p: &Arrival, machine: &Machine, cells: &mut [u32; BOARD_CELLS])
    ensures { cells.new ≡ sets cells.old number_place (number_cells p.now machine.now) }
{
    let run = [
        p.follow,
        p.version,
        p.channels,
        p.count,
        p.records,
        p.number,
        low(p.fault),
        high(p.fault),
        machine.tempo,
        machine.remainder,
    ];
    put(&run, NUMBER_PLACE, cells);
}

// The cells before the voices'.
fn front_of(board: &Board) -> [u32; BOARD_CELLS]
    ensures { Fronted board.now.arrival board.now.machine result }
{
    let mut cells = [0; BOARD_CELLS];
    put_start(&board.arrival, &mut cells);
    put_words(&board.arrival.bytes, &mut cells);
    put_numbers(&board.arrival, &board.machine, &mut cells);
    cells
}

// The cells of a board.
pub fn cells_of(board: Board) -> [u32; BOARD_CELLS]
    ensures { result ≡ board_cells board }
{
    let mut cells = front_of(&board);
    let voices = board.machine.voices;
    for i in 0..WIDTH {
        put_voice(voices[i], VOICES_PLACE + VOICE_CELLS * i, &mut cells);
    }
    cells
}

// ---- from cells

fn wide_of(low: u32, high: u32) -> usize
    ensures { result ≡ wide_of low high }
{
    low as usize + CELL_SIZE * high as usize
}

// A byte of a cell, the first lowest.
fn byte_of(cell: u32, k: usize) -> u8
    requires { k < 4 }
    ensures { result ≡ byte_of cell k }
{
    cell.to_le_bytes()[k]
}

fn byte_in(cells: &[u32; BOARD_CELLS], i: usize) -> u8
    requires { i < kept_bytes }
    ensures { result ≡ byte_in cells.now i }
{
    byte_of(cells[WORD_PLACE + i / 4], i % 4)
}

fn bytes_of(cells: &[u32; BOARD_CELLS]) -> [u8; KEPT_BYTES]
    ensures { result ≡ each (byte_in cells.now) kept_bytes }
{
    let mut bytes = [0; KEPT_BYTES];
    for i in 0..KEPT_BYTES {
        bytes[i] = byte_in(cells, i);
    }
    bytes
}

fn arrival_of(cells: &[u32; BOARD_CELLS]) -> Arrival
    ensures { result ≡ arrival_of cells.now }
{
    let bytes = bytes_of(cells);
    Arrival {
        place: wide_of(cells[0], cells[1]),
        kept: cells[2] as usize,
        bytes,
        follow: cells[16],
        version: cells[17],
        channels: cells[18],
        count: cells[19],
        records: cells[20],
        number: cells[21],
        fault: wide_of(cells[22], cells[23]),
    }
}

fn voices_of(cells: &[u32; BOARD_CELLS]) -> [Voice; WIDTH]
    ensures { result ≡ each (λ i. voice_of cells.now (voice_place i)) width }
{
    let voice = Voice::fresh();
    let mut voices = [voice; WIDTH];
    for i in 0..WIDTH {
        voices[i] = voice_of(cells, VOICES_PLACE + VOICE_CELLS * i);
    }
    voices
}

fn machine_of(cells: &[u32; BOARD_CELLS]) -> Machine
    ensures { result ≡ machine_of cells.now }
{
    let voices = voices_of(cells);
    Machine {
        voices,
        tempo: cells[24],
        remainder: cells[25],
    }
}

// The board that cells say.
pub fn board_of(cells: &[u32; BOARD_CELLS]) -> Board
    ensures { result ≡ board_of cells.now }
{
    Board {
        arrival: arrival_of(cells),
        machine: machine_of(cells),
    }
}

// ---- what a call leaves

// A refusal, which is no fault that is kept, leaves the board's cells.
pub fn put_board(reply: Reply, cells: &mut [u32; BOARD_CELLS])
    ensures { cells.new ≡ board_after reply cells.old }
{
    if arrival::is_kept_fault(reply.answer.number) {
        *cells = cells_of(reply.board);
    }
}

// The answer of a call that takes bytes.
pub fn put_feed(reply: Reply, answer: &mut [u64; FEED_CELLS])
    ensures { answer.new ≡ feed_cells reply }
{
    *answer = [
        reply.answer.number as u64,
        reply.answer.place as u64,
        reply.answer.count as u64,
        reply.taken as u64,
    ];
}
