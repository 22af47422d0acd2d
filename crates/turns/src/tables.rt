// Tables of requests and answers, and what reports leave of them.
ghost use Rattle.std.specs.Prelude.{◌≡◌, ℕ, ◌+◌, ◌-◌, ◌<◌, ◌≤◌, Bool, length, if◌then◌else◌, nat_eq};
ghost use Rattle.rules.specs.State.{Kept};
ghost use Rattle.rules.specs.Reports.{rest, filled, killed, fills_of, kills_of};
ghost use Rattle.turns.specs.Tables.{Lessens};

use rules::Report;
use units::{Number, Quantity};

// A record that a number names and of which something is left.
pub trait Standing: Copy + Drop {
    ghost kind: { Kept Self };

    // whether it is the request of that number, or an answer to it
    ghost belongs: { ℕ → Self → Bool };

    fn belongs_to(&self, request: Number) -> bool
        ensures { result ≡ belongs request.0 self.now };

    fn number(&self) -> Number
        ensures { result.0 ≡ kind.number self.now };

    fn left(&self) -> Quantity
        ensures { result.0 ≡ kind.left self.now };

    fn with_left(&self, left: Quantity) -> Self
        ensures { result ≡ kind.with_left self.now left.0 };
}

// The quantity, where it is of the number.
fn of_number(quantity: Quantity, whose: Number, number: Number) -> u32
    ensures { result ≡ (if nat_eq whose.0 number.0 then quantity.0 else 0) }
{
    if whose == number { quantity.0 } else { 0 }
}

// What one report leaves of so much of a number, none where it takes more.
fn less(left: u32, report: &Report, number: Number) -> u32
    ensures { result ≡ left - (fills_of number.0 report.now + kills_of number.0 report.now) }
{
    match *report {
        Report::Fill(taker, fill) => {
            // Added before it is subtracted: over many reports each subtraction waits for the one before.
            let both = of_number(fill.quantity, taker, number).saturating_add(of_number(
                fill.quantity,
                fill.maker,
                number,
            ));
            left.saturating_sub(both)
        }
        Report::Kill(_, killed, quantity) => {
            left.saturating_sub(of_number(quantity, killed, number))
        }
    }
}

// What the reports leave of one record.
fn rest_of<T: Standing>(x: &T, reports: &[Report]) -> Quantity
    ensures { result.0 ≡ rest T.Standing.kind reports.now x.now }
{
    let (left, number) = (x.left(), x.number());
    Quantity(
        reports
            .iter()
            .fold(left.0, |left, report| less(left, report, number)),
    )
}

// Keeps at the front of the table what the reports leave of its records, in their order; answers how many are left.
pub fn lessen<T: Standing>(table: &mut [T], reports: &[Report]) -> usize
    ensures { Lessens T.Standing.kind reports.now table.old table.new result }
{
    // By index: a slice has no `retain`, and no iterator reads it while its front is written.
    let mut kept: usize = 0;
    for i in 0..table.len() {
        let x = table[i];
        let rest = rest_of(&x, reports);
        if Quantity(0) < rest {
            table[kept] = x.with_left(rest);
            kept += 1;
        }
    }
    kept
}
