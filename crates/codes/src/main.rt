// The list of the codes, to standard output.
#![tactic(auto)]

use std::io;

fn main(rt: HostRuntime) -> io::Result<()> {
    let mut text = [0u8; kinds::CODES_ROOM];
    kinds::put_codes(&mut text);
    rt.write_all(&text)
}
