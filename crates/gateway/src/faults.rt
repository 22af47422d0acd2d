// Why a frame, or a short rest of a file, is refused, and where. Place and byte are 0 where there is none, as the format of answers has it.
ghost use Rattle.std.specs.Prelude.{◌≡◌};
ghost use Rattle.gateway.specs.Faults.{fault};

use units::{Layer, Refusal};

#[derive(Clone, Copy, Debug, PartialEq, Eq)]
pub struct Fault {
    // the part that refuses
    pub layer: Layer,
    pub refusal: Refusal,
    // the place of the frame or short rest in its file, from 0; 0 where there is none
    pub place: usize,
    // the byte of the frame that is at fault; 0 outside the gateway's own checks
    pub byte: usize,
}

impl Fault {
    pub fn new(refusal: Refusal, place: usize, byte: usize) -> Self
        ensures { result ≡ fault refusal place byte }
    {
        Fault {
            layer: refusal.layer(),
            refusal,
            place,
            byte,
        }
    }
}
