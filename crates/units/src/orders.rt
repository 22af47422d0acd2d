// Whether a market takes book orders, told by a type: `OpenOrders` over an open book, `NoOrders` over any other.
ghost use Rattle.std.specs.Prelude.{◌≡◌, Bool, true, false, is_some};
ghost use Rattle.std.proofs.Common.{rules};

// A value of such a type is the permission to hold a book order.
pub trait Orders: Sized + Copy {
    // whether there is a permission
    ghost taken: { Bool };

    // The permission, where there is one.
    fn permission() -> Option<Self>
        ensures { is_some result ≡ taken };

    ghost permitted: { (o : Self) → taken ≡ true };
}

// The permission of a market over an open book.
#[derive(Clone, Copy, Debug, PartialEq, Eq)]
pub struct OpenOrders;

impl Orders for OpenOrders {
    ghost taken = { true };

    ghost permitted = { Prim.search rules };

    fn permission() -> Option<OpenOrders> {
        Some(OpenOrders)
    }
}

// There is no permission over a book that takes no orders: this type has no value.
#[derive(Clone, Copy)]
pub enum NoOrders {}

impl Orders for NoOrders {
    ghost taken = { false };

    ghost permitted = { Prim.search rules };

    fn permission() -> Option<NoOrders> {
        None
    }
}
