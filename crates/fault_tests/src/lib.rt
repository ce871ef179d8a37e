//! Tests over devices that fail, or have no room: of the top call, whose reads and writes fail in
//! turn, and of what it reads and writes by. All else that a call answers is tested by rows on the
//! built program.
#![tactic(auto)]

#[cfg(test)]
mod calls;
#[cfg(test)]
mod device_tests;
#[cfg(test)]
mod io_tests;
