// A call request with the message that it was read from. It has a file of its own: what its ghost fields cite may not
// name it.
ghost use Rattle.std.specs.Prelude.{◌≤◌, length};
ghost use Rattle.messages.specs.Inside.{CallInside};

use messages::message::CallRequest;

// Its parts lie within the message, as its reading promises.
#[derive(Clone, Copy)]
pub struct Request<'a> {
    pub msg: &'a [u8],
    pub q: CallRequest,
    pub ghost inside: { CallInside msg.now q },
}

// The IDs of a call that the node made, for a reply that carries them (02, A6).
#[derive(Clone, Copy)]
pub struct MadeIds<'a> {
    pub call: u16,
    pub name: &'a [u8],
    pub ghost fits: { length name.now ≤ 32 },
}
