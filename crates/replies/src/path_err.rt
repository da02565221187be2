// A PathErr, written at the front of the reply buffer.
ghost use Rattle.std.specs.Prelude.{◌≡◌, length};
ghost use Rattle.numbers.specs.Buffer.{at_front};
ghost use Rattle.replies.specs.Messages.{PathErrFits, path_err_before_checksum, path_err_bytes};

use objects::fields::Part;
use reply_objects::writers::{ErrorSpec, fill_checksum, put_error_spec, put_header, put_received};

const PATH_ERR: u8 = 3;

// What a PathErr says. The parts are those of the message that it answers.
#[derive(Clone, Copy)]
pub struct PathErr {
    pub session: Part,
    pub error: ErrorSpec,
    pub template: Part,
}

fn put_path_err_before_checksum(reply: &mut [u8], msg: &[u8], e: PathErr) -> usize
    requires { PathErrFits msg.now e reply.old }
    ensures { (result ≡ 48) × (reply.new ≡ at_front (path_err_before_checksum msg.now e) reply.old) }
{
    let a = put_header(reply, PATH_ERR, 48);
    let b = a + put_received(&mut reply[a..], msg, e.session);
    let c = b + put_error_spec(&mut reply[b..], e.error);
    c + put_received(&mut reply[c..], msg, e.template)
}

// What it asks of the parts, the reading of a message promises; the room is answer 2's.
pub fn put_path_err(reply: &mut [u8], msg: &[u8], e: PathErr) -> usize
    requires { PathErrFits msg.now e reply.old }
    ensures { (result ≡ length (path_err_bytes msg.now e)) × (reply.new ≡ at_front (path_err_bytes msg.now e) reply.old) }
{
    let n = put_path_err_before_checksum(reply, msg, e);
    fill_checksum(reply, n);
    n
}
