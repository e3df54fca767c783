//! The workers of `serving`, each for a `DerivingServer`, and what they do.
use crate::deriving_server::DerivingServer;
pub use serving::connection::serve_connection as serve_deriving;
pub use serving::threads::serve_workers as serve_deriving_workers;
use serving::worker::Worker;

/// A worker that serves a `DerivingServer` at a shared core of the grant machine.
pub type DeriveWorker<'a, C, G, R> = Worker<'a, C, DerivingServer, G, R>;
