//! By what is tried, with the manifests and the plays that they share.
mod bodies;
mod controllers;
mod looks;
mod plays;
mod slots;
mod turns;
