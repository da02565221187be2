// The reading of a message: its header, its objects, and which kind of message they make.
ghost use Rattle.std.specs.Prelude.{◌≡◌, true, false, ◌+◌, ◌≤◌, length};
ghost use Rattle.objects.specs.Forms.{name_length};
ghost use Rattle.objects.specs.Placed.{Placed};
ghost use Rattle.messages.specs.declared.read.Refusal.TheVariants.{Misformed};
ghost use Rattle.messages.specs.Fields.{long_size, connection_in, request_at};
ghost use Rattle.messages.specs.Counts.{notify_complete, path_complete};
ghost use Rattle.messages.specs.Read.{is_call_request, bad_identity, notify_of, path_of, objects_read, read_of};

use crate::header::{MessageType, read_header};
use crate::message::{CallRequest, Connection, Lsp, Message};
use crate::status::{C, D, R, bit_set};
use numbers::big_endian::{get16, get24, get32};
use numbers::search::unpadded;
use objects::fault::Fault;
use objects::fields::{CallId, LspId, MessageId, Part, TunnelId};
use objects::walk::{Objects, Stopped, walk};

// A message that is read. `headers` counts the object headers read, here and below.
#[derive(Clone, Copy)]
pub struct Received {
    pub message: Message,
    pub headers: usize,
}

// Why a message of any bytes is none.
#[derive(Clone, Copy)]
pub enum Refusal {
    // By a test from 3 to 10; the faulty object's place, 0 where no one object is at fault.
    // Kept: 0, and no Option, as `RefusedAt` says it of every refusal.
    Misformed {
        fault: Fault,
        offset: usize,
        headers: usize,
    },
    // A Notify that test 12 or 13 refuses. Test 11, on its sender, comes before them and is not made here.
    Unfit {
        fault: Fault,
        sender: u32,
        headers: usize,
    },
}

// A fault of the header: no object is read.
impl From<Fault> for Refusal {
    ghost from_gives = { λ fault r. r ≡ Misformed fault 0 0 };

    fn from(fault: Fault) -> Refusal {
        Refusal::Misformed {
            fault,
            offset: 0,
            headers: 0,
        }
    }
}

impl From<Stopped> for Refusal {
    ghost from_gives = { λ stop r. r ≡ Misformed stop.fault stop.offset stop.headers };

    fn from(stop: Stopped) -> Refusal {
        Refusal::Misformed {
            fault: stop.fault,
            offset: stop.offset,
            headers: stop.headers,
        }
    }
}

// Every object of the table once, but for MESSAGE_ID_ACK, which is only written.
fn notify_complete(v: Objects) -> bool
    ensures { result ≡ notify_complete v }
{
    (v.session.times == 1)
        & (v.template.times == 1)
        & (v.error.times == 1)
        & (v.identifier.times == 1)
        & (v.status.times == 1)
        & (v.attribute.times == 1)
}

// SESSION and SENDER_TEMPLATE once, the others at most once.
fn path_complete(v: Objects) -> bool
    ensures { result ≡ path_complete v }
{
    (v.session.times == 1)
        & (v.template.times == 1)
        & (v.error.times <= 1)
        & (v.identifier.times <= 1)
        & (v.status.times <= 1)
        & (v.attribute.times <= 1)
}

// Here and below, the objects lie within the message: the walk promises that of those it has seen.
fn connection_at(s: &[u8], session: usize, template: usize) -> Connection
    requires { (session + 16 ≤ length s.now) × (template + 12 ≤ length s.now) }
    ensures { result ≡ connection_in s.now session template }
{
    let lsp = Lsp {
        endpoint: get32(s, session + 4),
        tunnel: TunnelId(get16(s, session + 10)),
        extended: get32(s, session + 12),
        sender: get32(s, template + 4),
        lsp: LspId(get16(s, template + 10)),
    };
    Connection {
        call: CallId(get16(s, session + 8)),
        lsp,
        session: Part {
            at: session,
            size: 16,
        },
        template: Part {
            at: template,
            size: 12,
        },
    }
}

fn request_at(
    s: &[u8],
    session: usize,
    template: usize,
    identifier: usize,
    attribute: usize,
) -> CallRequest
    requires { (session + 16 ≤ length s.now) × (template + 12 ≤ length s.now) × (identifier + 12 ≤ length s.now) × (attribute + 8 + name_length s.now attribute ≤ length s.now) }
    ensures { result ≡ request_at s.now session template identifier attribute }
{
    CallRequest {
        endpoint: get32(s, session + 4),
        sender: get32(s, template + 4),
        call: CallId(get16(s, session + 8)),
        name: Part {
            at: attribute + 8,
            size: long_size(s, attribute),
        },
        sequence: MessageId {
            epoch: get24(s, identifier + 5),
            identifier: get32(s, identifier + 8),
        },
        session: Part {
            at: session,
            size: 16,
        },
        attribute: Part {
            at: attribute,
            size: usize::from(get16(s, attribute)),
        },
        template: Part {
            at: template,
            size: 12,
        },
    }
}

// The size of the long Call ID: the session name without the zeros at its end.
fn long_size(s: &[u8], attribute: usize) -> usize
    requires { attribute + 8 + name_length s.now attribute ≤ length s.now }
    ensures { result ≡ long_size s.now attribute }
{
    let name = usize::from(s[attribute + 7]);
    unpadded(s, attribute + 8, name)
}

// Test 12: R and C set, no error.
fn is_call_request(s: &[u8], status: usize, error: usize) -> bool
    requires { (status + 8 ≤ length s.now) × (error + 12 ≤ length s.now) }
    ensures { result ≡ is_call_request s.now status error }
{
    let bits = get32(s, status + 4);
    let code = s[error + 9];
    let value = get16(s, error + 10);
    bit_set(R, bits) & bit_set(C, bits) & (code == 0) & (value == 0)
}

// Test 13: no short Call ID, a name length of more than 32, or a name of no bytes but zeros. A name that is too long is
// not looked through. Only what opens a call may have neither ID.
fn bad_identity(s: &[u8], closes: bool, session: usize, attribute: usize) -> bool
    requires { (session + 16 ≤ length s.now) × (attribute + 8 + name_length s.now attribute ≤ length s.now) }
    ensures { result ≡ bad_identity s.now closes session attribute }
{
    let call = get16(s, session + 8);
    let name = s[attribute + 7];
    let nameless = (name == 0) & (call == 0);
    if !closes & nameless {
        return false;
    }
    if 32 < name {
        return true;
    }
    (call == 0) | (long_size(s, attribute) == 0)
}

fn read_notify(s: &[u8], v: Objects) -> Result<Received, Refusal>
    requires { Placed s.now v }
    ensures { result ≡ notify_of s.now v }
{
    let headers = v.headers;
    if !notify_complete(v) {
        return Err(Refusal::Misformed {
            fault: Fault::ObjectCount,
            offset: 0,
            headers,
        });
    }
    let session = v.session.at;
    let template = v.template.at;
    let status = v.status.at;
    let attribute = v.attribute.at;
    let sender = get32(s, template + 4);
    if !is_call_request(s, status, v.error.at) {
        return Err(Refusal::Unfit {
            fault: Fault::NotCallRequest,
            sender,
            headers,
        });
    }
    let closes = bit_set(D, get32(s, status + 4));
    if bad_identity(s, closes, session, attribute) {
        return Err(Refusal::Unfit {
            fault: Fault::CallIdentity,
            sender,
            headers,
        });
    }
    let request = request_at(s, session, template, v.identifier.at, attribute);
    if closes {
        return Ok(Received {
            message: Message::Close(request),
            headers,
        });
    }
    Ok(Received {
        message: Message::Open(request),
        headers,
    })
}

// A Path adds a connection, and a PathTear drops one.
// Kept: a truth value, as `path_of` has it: one call of this serves both, so that it is inlined.
fn read_path(s: &[u8], v: Objects, adds: bool) -> Result<Received, Refusal>
    requires { Placed s.now v }
    ensures { result ≡ path_of s.now v adds }
{
    let headers = v.headers;
    if !path_complete(v) {
        return Err(Refusal::Misformed {
            fault: Fault::ObjectCount,
            offset: 0,
            headers,
        });
    }
    let connection = connection_at(s, v.session.at, v.template.at);
    if adds {
        return Ok(Received {
            message: Message::Add(connection),
            headers,
        });
    }
    Ok(Received {
        message: Message::Drop(connection),
        headers,
    })
}

// One call of `read_path` for both kinds, so that it is inlined and what the walk has seen stays in registers.
fn read_objects(s: &[u8], mtype: MessageType, v: Objects) -> Result<Received, Refusal>
    requires { Placed s.now v }
    ensures { result ≡ objects_read s.now mtype v }
{
    if let MessageType::Notify = mtype {
        return read_notify(s, v);
    }
    read_path(s, v, matches!(mtype, MessageType::Path))
}

// Reads a message of any bytes: tests 3 to 10, 12 and 13.
pub fn read(s: &[u8]) -> Result<Received, Refusal>
    ensures { result ≡ read_of s.now }
{
    let mtype = read_header(s)?;
    let v = walk(s)?;
    read_objects(s, mtype, v)
}
