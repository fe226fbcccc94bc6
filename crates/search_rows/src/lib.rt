//! Tests of the search: the machine and its schedules, the search of one worker and that of several in threads, the store of
//! contradictions and the deques of prefixes that threads share, and the implications that are read off what was found. What is
//! expected was worked out by hand, and never what the program gave before.
#![tactic(auto)]

#[cfg(test)]
mod deques;
#[cfg(test)]
mod found_searches;
#[cfg(test)]
mod implied;
#[cfg(test)]
mod machines;
#[cfg(test)]
mod problems;
#[cfg(test)]
mod searches;
#[cfg(test)]
mod shown;
#[cfg(test)]
mod stores;
#[cfg(test)]
mod workers;
