// What a request may draw on, in which order, and the draw that trades.
#![tactic(auto)]

mod decisions;
mod examples;
mod fills;
mod firms;
mod offers;
mod priced;
mod prices;
mod rankings;
mod shares;
mod walk;

pub use decisions::{decide, decide_automatic, total_status};
pub use examples::worked_examples;
pub use fills::{Fill, TellsFill, execute, pour};
pub use firms::{Answering, count_firms};
pub use offers::{Eligible, Offered, Taker, admit};
pub use priced::OfferRanking;
pub use prices::shown_price;
pub use rankings::{RequestRanking, TradingRanking};
pub use shares::share;
