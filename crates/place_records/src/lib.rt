// The two calls on a lent list of places, of `place_sealing` and `place_spreading`, by one name.

#![tactic(auto)]

pub use place_sealing::seal_places;
pub use place_spreading::spread_places;
