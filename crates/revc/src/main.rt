//! A compiler of Revs programs to clean reversible circuits (Amy, Roetteler, Svore: Verified
//! compilation of space-efficient reversible circuits, CAV 2017).
#![tactic(auto)]

use revc_driver::revc;
use revc_io::{StdSink, StdSource};
use std::env;
use std::process::ExitCode;

// Where the system does not hand out the words, the status is 1.
fn main(rt: HostRuntime) -> ExitCode {
    let Some(words) = arguments(&rt) else {
        return ExitCode::FAILURE;
    };
    let mut source = StdSource::new(rt.stdin());
    let mut out = StdSink::new(rt.stdout());
    let mut err = StdSink::new(rt.stderr());
    ExitCode::from(revc(rt.alloc(), &words, &mut source, &mut out, &mut err))
}

fn arguments(rt: &HostRuntime) -> Option<Vec<String>> {
    env::args(rt).ok()?.skip(1).collect(rt.alloc()).ok()
}
