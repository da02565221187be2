// What the fields of objects hold, for the layers above.

// Call ID, Tunnel ID and LSP ID are all sixteen bits wide; three types keep them apart.
#[repr(C)]
#[derive(Clone, Copy)]
pub struct CallId(pub u16);

#[repr(C)]
#[derive(Clone, Copy)]
pub struct TunnelId(pub u16);

#[repr(C)]
#[derive(Clone, Copy)]
pub struct LspId(pub u16);

// MESSAGE_ID's epoch, of 24 bits, and identifier.
#[derive(Clone, Copy)]
pub struct MessageId {
    pub epoch: u32,
    pub identifier: u32,
}

// A part of a message: the place of its first byte, and how many bytes it has.
#[derive(Clone, Copy)]
pub struct Part {
    pub at: usize,
    pub size: usize,
}
