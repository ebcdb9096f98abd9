//! What listens and accepts: addresses, sockets and streams over TCP and Unix sockets, places for clients,
//! and a stop that threads wait for.
#![tactic(auto)]

mod accept;
mod address;
mod clients;
mod descriptors;
mod fault;
mod listener;
mod lock;
mod stop;
mod stream;

pub use accept::{Accepted, next_client, next_client_making_room, next_stream};
pub use address::Address;
pub use clients::{Client, Clients};
pub use descriptors::max_clients;
pub use fault::ConnectionFault;
pub use listener::{Listener, expect_socket_or_none};
pub use lock::{take_lock, take_lock_there};
pub use stop::Stop;
pub use stream::Stream;
