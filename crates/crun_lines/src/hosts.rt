// The lines of calls of hosts.
ghost use Rattle.std.specs.Prelude.{◌≡◌, ◌++◌, IfOk, OnOk};
ghost use Rattle.c_meaning.specs.Views.{reply_of};
ghost use Rattle.crun_lines.specs.HostLines.{replied_line, reply_text};

use crate::words::{put_name, put_value, put_values};
use c_meaning::HostReply;
use std::alloc::Global;
use w2c_base::{Bytes, Memory, Value};

/// The line of a call of a host's function, by the names of both, with the arguments and the reply.
pub fn host_line(
    alloc: Global,
    host: &[u8],
    function: &[u8],
    args: &[Value],
    reply: HostReply,
) -> Result<Bytes, Memory>
    ensures { IfOk result (λ line. line ≡ replied_line host.now function.now args.now (reply_of reply)) }
{
    let mut line = Bytes::new(alloc);
    line.extend(b"host ")?;
    put_name(alloc, &mut line, host)?;
    line.extend(b" ")?;
    put_name(alloc, &mut line, function)?;
    put_values(&mut line, args)?;
    line.extend(b" = ")?;
    put_reply(&mut line, reply)?;
    line.extend(b"\n")?;
    Ok(line)
}

fn put_reply(line: &mut Bytes, reply: HostReply) -> Result<(), Memory>
    ensures { OnOk result (line.new ≡ line.old ++ reply_text (reply_of reply)) }
{
    match reply {
        HostReply::Value(value) => put_value(line, value),
        HostReply::Trap => line.extend(b"trap"),
    }
}
