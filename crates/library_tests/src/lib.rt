//! Tests of what the libraries make public and no clause says: the memory that types and values
//! take, measures at the limits, limits, copies, the texts of faults, an explanation, counts by
//! names, checkers that begin again, readers and writers of std's as devices, a trace that is too
//! long, and the allocator that refuses allocations. What texts, bytes and words come to, also with
//! allocations refused, is in the files of `cases/data`.
#![tactic(auto)]

#[cfg(test)]
mod allocator;
#[cfg(test)]
mod checking;
#[cfg(test)]
mod copies;
#[cfg(test)]
mod counting;
#[cfg(test)]
mod explanations;
#[cfg(test)]
mod faults;
#[cfg(test)]
mod limits;
#[cfg(test)]
mod long_trace;
#[cfg(test)]
mod measures;
#[cfg(test)]
mod memory;
#[cfg(test)]
mod sharing;
#[cfg(test)]
mod std_devices;
