// A record of an ephemeral that is stored as places (document 02, wish 1): a place, and the number of the unit that stands there.
// Its definitions say which lists of records are refused, what a list spreads to, and how one is laid out as numbers. It has no function.

#![tactic(auto)]

// C's struct of two unsigned 32-bit numbers.
#[repr(C)]
#[derive(Clone, Copy)]
pub struct PlacedUnit {
    pub place: u32,
    pub unit: u32,
}
