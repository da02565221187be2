// One object of a message: its header, whether its class is read, and the table of forms.
ghost use Rattle.std.specs.Prelude.{◌≡◌, ◌+◌, ◌≤◌, ◌<◌, length};
ghost use Rattle.numbers.specs.Search.{is_in};
ghost use Rattle.objects.specs.Classes.{read_classes, passed_over};
ghost use Rattle.objects.specs.Forms.{has_form, attribute_formed, formed};
ghost use Rattle.objects.specs.Item.{object_at, bad_length, item_at};

use crate::fault::Fault;
use numbers::big_endian::get16;
use numbers::search::zeros;

// Kept: a class is its number, and no enum: any of 256 may come, and those passed over are ranges (`passed_over`).
pub const SESSION: u8 = 1;

pub const ERROR_SPEC: u8 = 6;

pub const SENDER_TEMPLATE: u8 = 11;

pub const MESSAGE_ID: u8 = 23;

pub const MESSAGE_ID_ACK: u8 = 24;

pub const ADMIN_STATUS: u8 = 196;

pub const SESSION_ATTRIBUTE: u8 = 207;

// An object's header, with the place of its first byte in the message. `len` counts the header too.
#[derive(Clone, Copy)]
pub struct Object {
    pub class: u8,
    pub ctype: u8,
    pub at: usize,
    pub len: usize,
}

fn is_read(class: u8) -> bool
    ensures { result ≡ is_in class read_classes }
{
    (class == SESSION)
        | (class == ERROR_SPEC)
        | (class == SENDER_TEMPLATE)
        | (class == MESSAGE_ID)
        | (class == ADMIN_STATUS)
        | (class == SESSION_ATTRIBUTE)
}

// Skipped, or ignored. Ranges, and not a search: the compiler makes one branch of this and the table of forms.
pub(crate) fn passed_over(class: u8) -> bool
    ensures { result ≡ passed_over class }
{
    (class == 0)
        | ((3 <= class) & (class <= 5))
        | ((12 <= class) & (class <= 14))
        | ((19 <= class) & (class <= 21))
        | (class == MESSAGE_ID_ACK)
        | ((34 <= class) & (class <= 37))
        | ((128 <= class) & (class != ADMIN_STATUS) & (class != SESSION_ATTRIBUTE))
}

fn has_form(o: Object, ctype: u8, len: usize) -> bool
    ensures { result ≡ has_form o ctype len }
{
    (o.ctype == ctype) & (o.len == len)
}

// C-Type, length and padding of a SESSION_ATTRIBUTE. Here and below, the object lies within the message:
// `bad_length` has been tested.
fn attribute_formed(s: &[u8], o: Object) -> bool
    requires { o.at + o.len ≤ length s.now }
    ensures { result ≡ attribute_formed s.now o }
{
    let at = o.at;
    if o.ctype != 7 {
        return false;
    }
    if o.len < 8 {
        return false;
    }
    let name = usize::from(s[at + 7]);
    if o.len != 8 + (name + 3) / 4 * 4 {
        return false;
    }
    zeros(s, at + 8 + name, o.len - 8 - name)
}

fn is_formed(s: &[u8], o: Object) -> bool
    requires { o.at + o.len ≤ length s.now }
    ensures { result ≡ formed s.now o }
{
    match o.class {
        SESSION => has_form(o, 7, 16),
        ERROR_SPEC => has_form(o, 1, 12),
        SENDER_TEMPLATE => has_form(o, 7, 12),
        MESSAGE_ID => has_form(o, 1, 12),
        ADMIN_STATUS => has_form(o, 1, 8),
        SESSION_ATTRIBUTE => attribute_formed(s, o),
        _ => false,
    }
}

fn bad_length(s: &[u8], at: usize) -> bool
    requires { at < length s.now }
    ensures { result ≡ bad_length s.now at }
{
    let left = s.len() - at;
    if left < 4 {
        return true;
    }
    let len = usize::from(get16(s, at));
    (len < 4) | (len % 4 != 0) | (left < len)
}

fn object_at(s: &[u8], at: usize) -> Object
    requires { at + 4 ≤ length s.now }
    ensures { result ≡ object_at s.now at }
{
    Object {
        class: s[at + 2],
        ctype: s[at + 3],
        at,
        len: usize::from(get16(s, at)),
    }
}

// The object that stands at a place of a message, none at its end: any bytes, any place. A formed object's class is one
// that is read, so 8 is told from 9 only where there is a fault.
pub fn item_at(s: &[u8], at: usize) -> Result<Option<Object>, Fault>
    ensures { result ≡ item_at s.now at }
{
    if s.len() <= at {
        return Ok(None);
    }
    if bad_length(s, at) {
        return Err(Fault::ObjectLength);
    }
    let o = object_at(s, at);
    if passed_over(o.class) {
        return Ok(Some(o));
    }
    if is_formed(s, o) {
        return Ok(Some(o));
    }
    if !is_read(o.class) {
        return Err(Fault::ObjectClass);
    }
    Err(Fault::ObjectForm)
}
