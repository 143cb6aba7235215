// Tests of the stores and of the image file.
//
// Job: runs the stores, the writer, the check, the reader and the restore on worked examples. Expected values come
// from docs/FORMAT.md and docs/REFUSALS.md.
// May use: every library of tables, stores and image files.
// Main promise: none beyond the libraries' own; these functions only run them.

#![tactic(auto)]

#[cfg(test)]
mod damaged;
#[cfg(test)]
mod numbers;
#[cfg(test)]
mod stores;
#[cfg(test)]
mod writing;
