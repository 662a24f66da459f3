// The board that takes its stream as it arrives. Module and board are judged before a byte is taken.
#![tactic(auto)]

ghost use Rattle.std.specs.Prelude.{◌≡◌};
ghost use Rattle.common.specs.Answers.{outcome};
ghost use Rattle.feed.specs.Feed.{fresh_board, board_feed_of, board_close_of};
ghost use Rattle.feed.specs.Boards.{replied};

use arrival::Arrival;
use common::Answer;
use common::refusals::Refusal;
use feeding::Feeding;
use machine::Machine;
use reader::module::Module;

mod facts;
mod feeding;
mod playing;

// How far the stream has arrived, and the machine that plays it. Any numbers may stand in it.
#[derive(Clone, Copy)]
pub struct Board {
    pub arrival: Arrival,
    pub machine: Machine,
}

// What a call returns: its answer, how many bytes it took, and the board after it.
#[derive(Clone, Copy)]
pub struct Reply {
    pub answer: Answer,
    pub taken: usize,
    pub board: Board,
}

// The board before its first byte.
#[tactic(auto, unfolding(crate::specs::Feed::fresh_board))]
pub fn board_fresh() -> Board
    ensures { result ≡ fresh_board }
{
    let voices = machine::fresh().voices;
    Board {
        arrival: Arrival::at_start(),
        machine: Machine {
            voices,
            tempo: 0,
            remainder: 0,
        },
    }
}

// Takes bytes where module and board are legal.
fn feed(file: &[u8], board: Board, bytes: &[u8], out: &mut [i16]) -> Result<Reply, Refusal>
    ensures { outcome (replied board result) out.new ≡ board_feed_of file.now board bytes.now out.old }
{
    let module = Module::read(file)?;
    let mut feeding = Feeding::begin(&module, board)?;
    Ok(feeding.feed(bytes, out))
}

// Closes where module and board are legal.
fn close(file: &[u8], board: Board) -> Result<Reply, Refusal>
    ensures { replied board result ≡ board_close_of file.now board }
{
    let module = Module::read(file)?;
    let feeding = Feeding::begin(&module, board)?;
    Ok(feeding.close())
}

// What a call returns where module or board are refused: the board as it was.
fn or_refused(board: Board, made: Result<Reply, Refusal>) -> Reply
    ensures { result ≡ replied board made }
{
    match made {
        Ok(reply) => reply,
        Err(e) => Reply {
            answer: e.into(),
            taken: 0,
            board,
        },
    }
}

// Takes bytes of a stream, and plays each record when its last byte is in: until none is left, one shows a fault, or a tick does not fit into out,
// whose rest stays.
pub fn board_feed(file: &[u8], board: Board, bytes: &[u8], out: &mut [i16]) -> Reply
    ensures { outcome result out.new ≡ board_feed_of file.now board bytes.now out.old }
{
    or_refused(board, feed(file, board, bytes, out))
}

// The stream's end is told: short of the declared end it is a fault, which is kept.
pub fn board_close(file: &[u8], board: Board) -> Reply
    ensures { result ≡ board_close_of file.now board }
{
    or_refused(board, close(file, board))
}
