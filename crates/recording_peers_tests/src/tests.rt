//! Peers beside one another: what stands in the files of each, in which order, and who goes out.

mod exporter;
mod going;
mod ordering;
mod recording;
mod running;
