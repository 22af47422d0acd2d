// The rules of the market: what it holds and reports as plain data, what each message does to it (specs/), and the law that every run of it keeps.
#![tactic(auto)]

mod records;
mod reports;
mod theorems;

pub use records::{Answer, Request, Terms};
pub use reports::{Accepted, KillReason, Report, ReportLine, Status};
pub use theorems::{engines_can_follow, examples_come_out, runs_are_lawful, the_law_bites};
