// Whole lines of text, put into a buffer that is lent.
ghost use Rattle.std.specs.Prelude.{◌≡◌, ◌+◌, ◌*◌, ◌≤◌, length};
ghost use Rattle.session.specs.Text as lines;

use bench::{Bench, PORT_COUNT, Port};

// No struct over buf and at, here and in run.rt: a call lends the buffer once and answers where its text ends, and the contract (`Written`) speaks of
// one list before and one after.
pub(crate) fn put(buf: &mut [u8], at: usize, text: &[u8]) -> usize
    requires { at + length text.now ≤ length buf.old }
    ensures { lines.Written buf.old at text.now result buf.new }
{
    at + octets::copy(text, &mut buf[at..])
}

fn line_of_port(buf: &mut [u8], at: usize, port: u8, p: Port) -> usize
    requires { at + lines.port_room ≤ length buf.old }
    ensures written { lines.Written buf.old at (lines.line_of_port port p) result buf.new }
    ensures at_most_a_line { result ≤ at + lines.port_room }
{
    if p.setting.running {
        let w = p.setting.params.FSP_WatchdogTime;
        let totals = p.live.totals;
        let line = lines::port_line(port, w, totals.total, totals.lowest, totals.highest);
        put(buf, at, line.as_octets())
    } else {
        at
    }
}

pub(crate) fn port_lines(buf: &mut [u8], at: usize, b: Bench) -> usize
    requires { at + 8 * lines.port_room ≤ length buf.old }
    ensures written { lines.Written buf.old at (lines.port_lines b 8) result buf.new }
    ensures at_most_its_room { result ≤ at + 8 * lines.port_room }
{
    let mut end = at;
    for (i, port) in b.ports.iter().enumerate() {
        end = line_of_port(buf, end, i as u8 + 1, *port);
    }
    end
}
