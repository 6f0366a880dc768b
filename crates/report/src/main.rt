// The report on the files of the folder that the program is run in.
#![tactic(auto)]

use std::io;

fn main(rt: HostRuntime) -> io::Result<()> {
    report_files::report(&rt, b"table.bin", b"rules.bin", b"states.bin")
}
