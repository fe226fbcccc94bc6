//! Whole runs of `rank`, `bases`, `hasse` and `torder` over files and sinks in memory. What a run leaves is compared byte by byte
//! with reports that were worked out from all rankings, and never with what the program wrote before.
#![tactic(auto)]

#[cfg(test)]
mod cases;
#[cfg(test)]
mod given;
#[cfg(test)]
mod listings;
#[cfg(test)]
mod rankings;
