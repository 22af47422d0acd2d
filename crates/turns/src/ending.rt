// The end of a request: its kill, and the kills of its answers.
ghost use Rattle.std.specs.Prelude.{◌+◌, ◌≤◌, length, filter};
ghost use Rattle.ranked.specs.Writes.{WritesFront};
ghost use Rattle.rules.specs.State.{an_answer};
ghost use Rattle.rules.specs.Reports.{kills};
ghost use Rattle.rules.specs.Calls.{ending};
ghost use Rattle.turns.specs.Tables.{Rising};

use super::tables::Standing;
use super::writing::write_all;
use rules::{Answer, KillReason, Report, Request};
use units::Number;

// Writes a kill for each record of the request, with what is left of it; answers how many.
fn kill_each<T: Standing>(
    table: &[T],
    request: Number,
    reason: KillReason,
    out: &mut [Report],
) -> usize
    requires { length table.now ≤ length out.old }
    ensures written { WritesFront out.old out.new result (kills T.Standing.kind reason (filter (T.Standing.belongs request.0) table.now)) }
    ensures few { result ≤ length table.now }
{
    let kills = table
        .iter()
        .filter(|x| x.belongs_to(request))
        .map(|x| Report::Kill(reason, x.number(), x.left()));
    write_all(kills, out)
}

// Writes the end of the request of that number: its kill, then the kills of its answers, which stand by number; answers how many reports it wrote.
pub fn end_request(
    requests: &[Request],
    answers: &[Answer],
    number: Number,
    reason: KillReason,
    its_answers: KillReason,
    out: &mut [Report],
) -> usize
    requires places { length requests.now + length answers.now ≤ length out.old }
    requires rising { Rising an_answer answers.now }
    ensures written { WritesFront out.old out.new result (ending requests.now answers.now number.0 reason its_answers) }
    ensures few { result ≤ length requests.now + length answers.now }
{
    let n = kill_each(requests, number, reason, out);
    n + kill_each(answers, number, its_answers, &mut out[n..])
}
