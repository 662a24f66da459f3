// Plays each file that is named as an argument.
#![tactic(auto)]

use std::io;

fn main(rt: HostRuntime) -> io::Result<()> {
    case_files::play_each(&rt, &rt.stderr())
}
