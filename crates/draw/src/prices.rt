// The price that a status shows.
ghost use Rattle.std.specs.Prelude.{◌≡◌, ◌+◌, ◌*◌, ◌/◌, ◌<◌, ◌≤◌};
ghost use Rattle.draw.specs.Prices.{shown};

use units::{Money, Price, Quantity};

// Money over size, halves up. Prices in range make an average in range.
fn average(size: Quantity, money: Money) -> Price
    requires some { 0 < size.0 }
    requires bound { money.0 ≤ 1000000000 * size.0 }
    ensures { result.0 ≡ (2 * money.0 + size.0) / (2 * size.0) }
{
    let units = u64::from(size.0);
    Price(((2 * money.0 + units) / (2 * units)) as u32)
}

// The price of a status, absent at size 0. The money comes of prices in range.
pub fn shown_price(size: Quantity, money: Money) -> Option<Price>
    requires { money.0 ≤ 1000000000 * size.0 }
    ensures { result ≡ shown size.0 money.0 }
{
    if size.0 == 0 {
        return None;
    }
    Some(average(size, money))
}
