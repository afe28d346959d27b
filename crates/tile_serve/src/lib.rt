//! A server of tiles: replies to lines that ask for tiles of an archive, with tags and bounded caches.
#![tactic(auto)]

mod error;
mod found;
mod kept;
mod limits;
mod outcome;
mod reply;
mod request;
mod server;
mod serving;
mod state;
mod tiles;
mod top_call;

pub use error::ServeError;
pub use limits::ServeLimits;
pub use outcome::{ServeOutcome, serve_status};
pub use server::TileServer;
pub use state::ServerState;
pub use top_call::run_serve;
