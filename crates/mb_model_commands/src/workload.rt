//! What the command `generate` makes.

use mb_model::Bytes;

/// A generated workload: the files of `run`.
#[derive(Drop)]
pub struct Workload {
    pub image: Bytes,
    pub script: Bytes,
    pub noise: Bytes,
}
