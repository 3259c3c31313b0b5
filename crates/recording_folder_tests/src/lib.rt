//! Tests of `recording_folder`, by what it offers to others. They stand in a crate of their own, so that
//! they are proved without the library being proved a second time.
#![tactic(auto)]

#[cfg(test)]
mod apart;
#[cfg(test)]
mod counted;
#[cfg(test)]
mod folders;
#[cfg(test)]
mod kept_files;
#[cfg(test)]
mod recovering;
#[cfg(test)]
mod refusals;
#[cfg(test)]
mod script_disk;
#[cfg(test)]
mod script_file;
#[cfg(test)]
mod script_tree;
#[cfg(test)]
mod sessions;
#[cfg(test)]
mod standing;
#[cfg(test)]
mod trial;
