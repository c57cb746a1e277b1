ghost use Rattle.std.specs.Prelude.{◌≤◌, length};

use crate::rows::{OrderRow, Trade};

// Records numbered from 1 in the order of entry, in places lent by the host: the first `count` places hold them,
// the places behind keep what the host had there. The count stands beside the places, since the memory is the host's and
// of a fixed size; for the same reason this is not a `Table`, which owns its places.
#[derive(Drop)]
pub struct Register<'a, T> {
    pub(crate) places: &'a mut [T],
    pub(crate) count: usize,
    // there are no more records than places
    ghost fits: { count ≤ length places.now },
}

pub type OrderRegister<'a> = Register<'a, OrderRow>;

pub type TradeRegister<'a> = Register<'a, Trade>;
