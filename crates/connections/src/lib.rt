//! Connections: sessions that are one manager's by their type, a desk that opens and closes them, and a pool
//! of them that the threads of a server share, whose connections open and close while others work.
#![tactic(auto)]

mod audits;
mod connection;
mod desk;
mod names;
mod pool;
mod server;
mod waiting;

pub use connection::Connection;
pub use desk::DeskOf;
pub use names::ManagerName;
pub use pool::{Pool, nobody};
pub use server::{Look, Service, cancel, connect, leave, look_at_waits, serve};
pub use waiting::WaitingConnection;
