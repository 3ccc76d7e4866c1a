//! What the elimination tells before each step.

/// Is called by the worker before each elimination of a front. It promises only that it returns.
pub trait Gate: Sync {
    fn reached(&self, worker: u32, front: u32);
}

/// The gate that does nothing.
#[derive(Drop)]
pub struct Idle;

impl Gate for Idle {
    fn reached(&self, _worker: u32, _front: u32) {}
}
