// How many different firms answers to a request come from.
ghost use Rattle.std.specs.Prelude.{◌≡◌, ℕ, ◌^◌, ◌<◌, not, ◌&&◌, length, ◌==◌};
ghost use Rattle.draw.specs.Firms.{firms_of, among, different, EachOnce};

use units::{Firm, FirmCount, Number};

// An answer to a request, whatever else its record holds.
pub trait Answering {
    ghost of_firm: { Self → ℕ };

    ghost to_request: { Self → ℕ };

    fn firm(&self) -> Firm
        ensures { result.0 ≡ of_firm self.now };

    fn request(&self) -> Number
        ensures { result.0 ≡ to_request self.now };
}

// Whether this is an answer of the firm to the request.
fn is_from<T: Answering>(answer: &T, request: Number, firm: Firm) -> bool
    ensures { result ≡ (T.to_request answer.now == request.0 && T.of_firm answer.now == firm.0) }
{
    answer.request() == request && answer.firm() == firm
}

// Whether the firm is among those that answer the request.
fn has_firm<T: Answering>(answers: &[T], request: Number, firm: Firm) -> bool
    ensures { result ≡ among firm.0 (firms_of T.of_firm T.to_request request.0 answers.now) }
{
    answers.iter().any(|answer| is_from(answer, request, firm))
}

// Whether an answer is the last that its firm gives to the request, so that each firm counts once.
fn is_last<T: Answering>(answer: &T, later: &[T], request: Number) -> bool
    ensures { result ≡ (T.to_request answer.now == request.0 && not (among (T.of_firm answer.now) (firms_of T.of_firm T.to_request request.0 later.now))) }
{
    answer.request() == request && !has_firm(later, request, answer.firm())
}

// How many different firms the answers to a request come from: firms count, and not answers, so only the last answer of each firm does.
pub fn count_firms<T: Answering>(answers: &[T], request: Number) -> FirmCount
    requires { length answers.now < 2 ^ 32 }
    ensures value { result.0 ≡ different (firms_of T.of_firm T.to_request request.0 answers.now) }
    ensures once { EachOnce (firms_of T.of_firm T.to_request request.0 answers.now) }
{
    let last = answers.iter().enumerate().filter(|(i, answer)| {
        let later = &answers[*i + 1..];
        is_last(*answer, later, request)
    });
    FirmCount(last.count() as u32)
}
