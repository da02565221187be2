// A connection's record, read. The caller has tested the checkpoint's size.
ghost use Rattle.std.specs.Prelude.{◌≡◌, ◌+◌, ◌≤◌, length};
ghost use Rattle.spec_calls.specs.PathRules.{held_by};
ghost use Rattle.spec_checkpoint.specs.Layout.{held_at_byte};

use messages::message::{Connection, Lsp};
use numbers::big_endian::{get16, get32};
use objects::fields::{CallId, LspId, Part, TunnelId};

// A connection's record. It has no objects of a message: those parts are empty.
pub fn connection_record(s: &[u8], at: usize) -> Connection
    requires { at + 18 ≤ length s.now }
    ensures { (held_by result ≡ held_at_byte s.now at) × (result.session ≡ record { at = 0; size = 0 }) × (result.template ≡ record { at = 0; size = 0 }) }
{
    let lsp = Lsp {
        endpoint: get32(s, at),
        tunnel: TunnelId(get16(s, at + 6)),
        extended: get32(s, at + 8),
        sender: get32(s, at + 12),
        lsp: LspId(get16(s, at + 16)),
    };
    Connection {
        call: CallId(get16(s, at + 4)),
        lsp,
        session: Part { at: 0, size: 0 },
        template: Part { at: 0, size: 0 },
    }
}
