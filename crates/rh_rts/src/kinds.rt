//! The types of the commands, as they stand in a packet (MS-RPCH 2.2.3.5).

/// ReceiveWindowSize (MS-RPCH 2.2.3.5.1).
pub const RECEIVE_WINDOW_SIZE: u32 = 0;

/// FlowControlAck (MS-RPCH 2.2.3.5.2).
pub const FLOW_CONTROL_ACK: u32 = 1;

/// ConnectionTimeout (MS-RPCH 2.2.3.5.3).
pub const CONNECTION_TIMEOUT: u32 = 2;

/// Cookie (MS-RPCH 2.2.3.5.4).
pub const COOKIE: u32 = 3;

/// ChannelLifetime (MS-RPCH 2.2.3.5.5).
pub const CHANNEL_LIFETIME: u32 = 4;

/// ClientKeepalive (MS-RPCH 2.2.3.5.6).
pub const CLIENT_KEEPALIVE: u32 = 5;

/// Version (MS-RPCH 2.2.3.5.7).
pub const VERSION: u32 = 6;

/// Empty (MS-RPCH 2.2.3.5.8).
pub const EMPTY: u32 = 7;

/// Padding (MS-RPCH 2.2.3.5.9).
pub const PADDING: u32 = 8;

/// NegativeANCE (MS-RPCH 2.2.3.5.10).
pub const NEGATIVE_ANCE: u32 = 9;

/// ANCE (MS-RPCH 2.2.3.5.11).
pub const ANCE: u32 = 10;

/// ClientAddress (MS-RPCH 2.2.3.5.12).
pub const CLIENT_ADDRESS: u32 = 11;

/// AssociationGroupId (MS-RPCH 2.2.3.5.13).
pub const ASSOCIATION_GROUP_ID: u32 = 12;

/// Destination (MS-RPCH 2.2.3.5.14).
pub const DESTINATION: u32 = 13;

/// PingTrafficSentNotify (MS-RPCH 2.2.3.5.15).
pub const PING_TRAFFIC_SENT_NOTIFY: u32 = 14;
