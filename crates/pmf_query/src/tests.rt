//! What is told of logs, and where their events stand.

mod explain;
mod locate;
