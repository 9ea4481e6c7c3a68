//! Each node has legs of its own kinds, and refuses what comes on those alone on which packets may
//! come. Its functions do nothing: their contracts are the laws.

pub mod nodes;
pub mod worlds;

pub use nodes::{each_node_keeps_its_own_legs, each_node_refuses_on_its_own_legs};
pub use worlds::{
    a_client_refuses_on_out_legs_alone, a_server_refuses_on_its_own_legs_alone,
    an_out_proxy_refuses_on_its_own_legs_alone,
};
