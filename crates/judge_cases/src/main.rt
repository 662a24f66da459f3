// Judges each file that is named as an argument.
#![tactic(auto)]

use std::io;

fn main(rt: HostRuntime) -> io::Result<()> {
    case_files::judge_each(&rt, &rt.stderr())
}
