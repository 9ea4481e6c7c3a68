//! The types of the commands that named packets have, by the commands' names.

/// The type of a command of this name.
macro_rules! kind {
    (ReceiveWindowSize) => { kinds::RECEIVE_WINDOW_SIZE };
    (FlowControlAck) => { kinds::FLOW_CONTROL_ACK };
    (ConnectionTimeout) => { kinds::CONNECTION_TIMEOUT };
    (Cookie) => { kinds::COOKIE };
    (ChannelLifetime) => { kinds::CHANNEL_LIFETIME };
    (ClientKeepalive) => { kinds::CLIENT_KEEPALIVE };
    (Version) => { kinds::VERSION };
    (Empty) => { kinds::EMPTY };
    (Ance) => { kinds::ANCE };
    (ClientAddress) => { kinds::CLIENT_ADDRESS };
    (AssociationGroupId) => { kinds::ASSOCIATION_GROUP_ID };
    (Destination) => { kinds::DESTINATION };
    (PingTrafficSentNotify) => { kinds::PING_TRAFFIC_SENT_NOTIFY };
}

pub(crate) use kind;
