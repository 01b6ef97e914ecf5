//! Worked runs over one link, from the words of a command line to its summary, over a disk, mirrors, a clock and a sink in
//! memory. There is nothing else here.
#![tactic(auto)]

#[cfg(test)]
mod case;
#[cfg(test)]
mod faults;
#[cfg(test)]
mod link;
#[cfg(test)]
mod metainfo_files;
#[cfg(test)]
mod mirrors;
#[cfg(test)]
mod mirrors_of;
#[cfg(test)]
mod outcome;
#[cfg(test)]
mod resumes;
#[cfg(test)]
mod rows;
#[cfg(test)]
mod spelling;
