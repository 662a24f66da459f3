// The table of refusals: whether any bytes are a module, by the first line that is given.
ghost use Rattle.std.specs.Prelude.{◌≡◌, ◌+◌, ◌*◌, ◌≤◌, length};
ghost use Rattle.common.specs.Answers.{refused, accepted, refusing, judged};
ghost use Rattle.reader.specs.File.{lent};
ghost use Rattle.reader.specs.Judge.{cell_lines, rest_lines, verdict, judge_of};
ghost use Rattle.reader.specs.Layouts.{LegalLayout};
ghost use Rattle.reader.specs.Modules.{as_headed};

use crate::Layout;
use crate::headed::Headed;
use crate::offsets::{
    CELL_BYTES, HEADER_BYTES, HEADERS_AT, LOOP_START_AT, VOLUME_AT, cells_in, layout_of,
};
use common::limits::ROWS;
use common::refusals::{Refusal, Rule};

// Refusals 8 and 9: the first bad cell decides.
#[tactic(auto, unfolding(crate::specs::Judge::cell_lines, common::specs::Answers::refusing), using(crate::specs::Search::found_some, crate::specs::Search::found_not))]
fn judge_cells(headed: &Headed, n: usize) -> Result<(), Refusal>
    requires { headed.now.layout.patterns + 4 * n ≤ length headed.now.file.now }
    ensures { judged result ≡ refusing refused (accepted 0) (cell_lines (as_headed headed.now) n) }
{
    if let Some(i) = headed.bad_cell(n) {
        let at = headed.layout.patterns + CELL_BYTES * i;
        if headed.is_bad_number(at) {
            return Err(Rule::CellSample.at(at));
        }
        return Err(Rule::CellPeriod.at(at));
    }
    Ok(())
}

// Refusals 7 to 9. The first bad cell is looked for only if there is one.
#[tactic(auto, unfolding(crate::specs::Judge::rest_lines, crate::specs::Judge::cell_lines, crate::specs::File::sample_place, common::specs::Answers::refusing), using(laws::specs::Tests::tests))]
fn judge_rest(headed: &Headed) -> Result<(), Refusal>
    ensures { judged result ≡ refusing refused (accepted 0) (rest_lines (as_headed headed.now)) }
{
    let n = headed.pattern_count();
    let length = headed.file.len();
    if length < headed.sample_behind(n, headed.layout.samples) {
        return Err(Rule::ShortSamples.at(length));
    }
    let all = cells_in(headed.layout, ROWS * n);
    if headed.some_bad(all) {
        return judge_cells(headed, all);
    }
    Ok(())
}

// Whether the bytes are a module of this layout: the first refusal of the table, with its place.
#[tactic(auto, unfolding(crate::specs::Judge::verdict, common::specs::Answers::refusing), using(crate::specs::Search::found_some, crate::specs::Search::found_not, laws::specs::Tests::tests))]
pub fn judge_by(layout: Layout, file: &[u8]) -> Result<(), Refusal>
    requires { LegalLayout layout }
    ensures { judged result ≡ verdict (lent layout file.now) }
{
    if file.len() < layout.patterns {
        return Err(Rule::ShortFile.at(file.len()));
    }
    let headed = Headed { layout, file };
    if !headed.is_tagged() {
        return Err(Rule::Tag.at(layout.tag));
    }
    if headed.is_bad_length() {
        return Err(Rule::SongLength.at(layout.song));
    }
    if let Some(i) = headed.bad_entry() {
        return Err(Rule::TableEntry.at(layout.table + i));
    }
    if let Some(k) = headed.bad_volume() {
        return Err(Rule::HeaderVolume.at(HEADERS_AT + HEADER_BYTES * k + VOLUME_AT));
    }
    if let Some(k) = headed.bad_loop() {
        return Err(Rule::SampleLoop.at(HEADERS_AT + HEADER_BYTES * k + LOOP_START_AT));
    }
    judge_rest(&headed)
}

// Whether the bytes are a module: the first refusal of the table, with its place.
#[tactic(auto, unfolding(crate::specs::Judge::judge_of))]
pub fn judge(file: &[u8]) -> Result<(), Refusal>
    ensures { judged result ≡ judge_of file.now }
{
    judge_by(layout_of(file), file)
}
