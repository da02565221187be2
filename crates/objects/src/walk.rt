// The walk over a message's objects from place 8, in one pass; the first faulty object ends it.
ghost use Rattle.std.specs.Prelude.{◌≡◌, [], true, ◌+◌, ◌*◌, ◌≤◌, ◌<◌, length};
ghost use Rattle.objects.specs.Run.{is_like, all_like};
ghost use Rattle.objects.specs.Walk.{with_object, objects_of, walk_of};

use crate::fault::Fault;
use crate::object::{
    ADMIN_STATUS, ERROR_SPEC, MESSAGE_ID, Object, SENDER_TEMPLATE, SESSION, SESSION_ATTRIBUTE,
    item_at, passed_over,
};
use numbers::big_endian::get16;

// Where the last object of a class stands, and how often one came. Place 0: none came.
// Kept: two numbers, and no Option: what is asked is how often, and a place only of what came (`seen`).
#[derive(Clone, Copy)]
pub struct Seen {
    pub at: usize,
    pub times: usize,
}

// What the walk has seen of each class that is read, and how many object headers it read.
#[derive(Clone, Copy)]
pub struct Objects {
    pub session: Seen,
    pub error: Seen,
    pub template: Seen,
    pub identifier: Seen,
    pub status: Seen,
    pub attribute: Seen,
    pub headers: usize,
}

// Where a walk stops: the faulty object's place, and the headers read, its own included.
#[derive(Clone, Copy)]
pub struct Stopped {
    pub fault: Fault,
    pub offset: usize,
    pub headers: usize,
}

// What is seen of a class after one more object of it. No count reaches the object's place, so each fits.
fn seen_once_more(before: Seen, at: usize) -> Seen
    requires { before.times < at }
    ensures { result ≡ record { at = at; times = before.times + 1 } }
{
    Seen {
        at,
        times: before.times + 1,
    }
}

fn with_object(mut v: Objects, o: Object) -> Objects
    requires { (v.session.times < o.at) × (v.error.times < o.at) × (v.template.times < o.at) × (v.identifier.times < o.at) × (v.status.times < o.at) × (v.attribute.times < o.at) × (v.headers < o.at) }
    ensures { result ≡ with_object o v }
{
    v.headers += 1;
    match o.class {
        SESSION => v.session = seen_once_more(v.session, o.at),
        ERROR_SPEC => v.error = seen_once_more(v.error, o.at),
        SENDER_TEMPLATE => v.template = seen_once_more(v.template, o.at),
        MESSAGE_ID => v.identifier = seen_once_more(v.identifier, o.at),
        ADMIN_STATUS => v.status = seen_once_more(v.status, o.at),
        SESSION_ATTRIBUTE => v.attribute = seen_once_more(v.attribute, o.at),
        _ => {}
    }
    v
}

fn nothing_seen() -> Objects
    ensures { result ≡ objects_of [] }
{
    let none = Seen { at: 0, times: 0 };
    Objects {
        session: none,
        error: none,
        template: none,
        identifier: none,
        status: none,
        attribute: none,
        headers: 0,
    }
}

// An object at a place is like one that was passed over: of its class, and as long. It lies within the message.
fn is_like(s: &[u8], at: usize, o: Object) -> bool
    requires { (4 ≤ o.len) × (o.len ≤ length s.now) × (at ≤ length s.now) }
    ensures { result ≡ is_like s.now at o }
{
    if s.len() < at + o.len {
        return false;
    }
    (usize::from(get16(s, at)) == o.len) & (s[at + 2] == o.class)
}

// How many objects from a place on are like one that was passed over. Its length is the step, and not what is read:
// then the next place is known before the bytes there are. The walk goes on behind the run, so nothing need be said of
// the object there.
fn run_of(s: &[u8], from: usize, o: Object) -> usize
    requires { (4 ≤ o.len) × (o.len ≤ length s.now) × (from ≤ length s.now) }
    ensures { (all_like s.now from o result ≡ true) × (from + result * o.len ≤ length s.now) }
{
    let len = o.len;
    let mut at = from;
    let mut more = 0;
    while is_like(s, at, o) {
        at += len;
        more += 1;
    }
    more
}

pub fn walk(s: &[u8]) -> Result<Objects, Stopped>
    ensures { result ≡ walk_of s.now }
{
    let mut seen = nothing_seen();
    let mut at = 8;
    loop {
        match item_at(s, at) {
            Ok(None) => return Ok(seen),
            Err(fault) => {
                return Err(Stopped {
                    fault,
                    offset: at,
                    headers: seen.headers + 1,
                });
            }
            Ok(Some(o)) => {
                seen = with_object(seen, o);
                at += o.len;
                if passed_over(o.class) {
                    let more = run_of(s, at, o);
                    seen.headers += more;
                    at += more * o.len;
                }
            }
        }
    }
}
