#![tactic(auto)]

// Reports on standard input: five lines of its bytes, or the one line that says it can't be read.
// The lines are crate report_text's; here the input is read to its end, and one write follows.
use report_text::Report;
use std::io;
use std::io::Read;
use std::ops::ControlFlow;

// One read's bytes: a big buffer, as each read is a call of the system.
const PIECE: usize = 65536;

// A proved loop has to end, and nothing says that the input does: no run has so many turns.
// An input that has not ended then is one that can't be read.
fn read_all(input: &mut impl Read, space: &mut [u8]) -> Report {
    let mut report = Report::new();
    for _ in 0..u64::MAX {
        let got = input.read(space);
        match report.read(got, space) {
            ControlFlow::Continue(next) => report = next,
            ControlFlow::Break(last) => return last,
        }
    }
    report.fail()
}

fn main(rt: HostRuntime) -> io::Result<()> {
    let mut space = [0u8; PIECE];
    let report = read_all(&mut rt.stdin(), &mut space);
    let mut text = [0u8; Report::ROOM];
    let n = report.text(&mut text).unwrap_or(0);
    rt.write_all(text.get(..n).unwrap_or(&[]))
}
