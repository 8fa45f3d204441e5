//! Plain manifests, to try the law that written bytes tell manifests apart.
#![tactic(auto)]

pub mod routes;
#[cfg(test)]
mod tests;
