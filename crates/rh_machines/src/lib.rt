//! The machines of nodes: an event is one call of a core, and a reply is what that answers.
#![tactic(auto)]

pub mod block;
pub mod boxed;
pub mod event;
pub mod node;
pub mod piece;
pub mod roles;

pub use block::{BLOCK_ROOM, Block, BlockRoom, TakeRoom, block_room};
pub use boxed::Boxed;
pub use event::{NodeEvent, NodeReply, Server};
pub use node::{Node, Role};
pub use piece::{DrawRoom, PIECE_ROOM, Piece, PieceRoom, piece_room};
pub use roles::{ClientNode, InProxyNode, OutProxyNode, ServerNode};
