//! Tests of maps, of units, and of bytes out: pm_map, pm_units and pm_io.
#![tactic(auto)]

#[cfg(test)]
mod io;
#[cfg(test)]
mod map;
#[cfg(test)]
mod units;
