// The four kinds of message, each with its own fields.
use objects::fields::{CallId, LspId, MessageId, Part, TunnelId};

// What a Notify says of a call. The name, the long Call ID, and the objects that a reply sends back
// stand in the message; `sequence` is its MESSAGE_ID.
#[derive(Clone, Copy)]
pub struct CallRequest {
    pub endpoint: u32,
    pub sender: u32,
    pub call: CallId,
    pub name: Part,
    pub sequence: MessageId,
    pub session: Part,
    pub attribute: Part,
    pub template: Part,
}

// What a connection is known by (01, Every answer): all that a search for it is given. The Call ID is no part of it.
#[derive(Clone, Copy)]
pub struct Lsp {
    pub endpoint: u32,
    pub tunnel: TunnelId,
    pub extended: u32,
    pub sender: u32,
    pub lsp: LspId,
}

// What a Path or a PathTear says of a connection, with the objects that a PathErr sends back.
#[derive(Clone, Copy)]
pub struct Connection {
    pub call: CallId,
    pub lsp: Lsp,
    pub session: Part,
    pub template: Part,
}

#[derive(Clone, Copy)]
pub enum Message {
    Open(CallRequest),
    Close(CallRequest),
    Add(Connection),
    Drop(Connection),
}
