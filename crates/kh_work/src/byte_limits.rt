//! How many bytes an order reads.

ghost use Rattle.std.specs.Prelude.{◌≡◌};
ghost use Rattle.kh_work.specs.ByteLimits.{byte_limit};

use crate::order::Order;
use cancel_log::LOG_BYTES;
use kh_types::INPUT_BYTES;

/// The most bytes of what is read; none is for an order that reads nothing.
pub fn byte_limit(order: Order) -> Option<u32>
    ensures { result ≡ byte_limit order }
{
    match order {
        Order::Code(_) | Order::Script(_) | Order::Pair => Some(INPUT_BYTES as u32),
        Order::Log => Some(LOG_BYTES as u32),
        Order::Bench { .. } => None,
    }
}
