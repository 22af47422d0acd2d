// Answers, as records of a table.
ghost use Rattle.std.specs.Prelude.{◌==◌};
ghost use Rattle.rules.specs.State.{an_answer};

use super::tables::Standing;
use rules::Answer;
use units::{Number, Quantity};

impl Standing for Answer {
    ghost kind = { an_answer };

    ghost belongs = { λ n a. a.request.0 == n };

    fn belongs_to(&self, request: Number) -> bool {
        self.request == request
    }

    fn number(&self) -> Number {
        self.number
    }

    fn left(&self) -> Quantity {
        self.left
    }

    fn with_left(&self, left: Quantity) -> Answer {
        Answer { left, ..*self }
    }
}
