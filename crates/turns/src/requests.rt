// Requests, as records of a table.
ghost use Rattle.std.specs.Prelude.{◌==◌};
ghost use Rattle.rules.specs.State.{a_request};

use super::tables::Standing;
use ranked::Dated;
use rules::Request;
use units::{Number, Quantity};

impl Standing for Request {
    ghost kind = { a_request };

    ghost belongs = { λ n r. r.number.0 == n };

    fn belongs_to(&self, request: Number) -> bool {
        self.name() == request
    }

    fn number(&self) -> Number {
        self.number
    }

    fn left(&self) -> Quantity {
        self.left
    }

    fn with_left(&self, left: Quantity) -> Request {
        Request { left, ..*self }
    }
}
